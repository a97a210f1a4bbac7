//! Lines that are made of texts and numbers.

ghost use Rattle.byte_streams.specs.Writing.{Writes};
ghost use Rattle.text_lines.specs.Lines.{counted, numbered};

use crate::pieces::{Piece, write_pieces};
use byte_streams::{BufferedSink, Sink, WriteFault};

/// Writes a text and a number after it.
pub fn write_counted<W: Sink>(
    out: &mut BufferedSink<'_, W>,
    text: &[u8],
    number: u64,
) -> Result<(), WriteFault>
    ensures { Writes W.held W.tally out.old out.new result (counted text.now number) }
{
    write_pieces(out, &[Piece::Text(text), Piece::Number(number)])
}

/// Writes a text and a number, which ends the line.
pub fn write_numbered<W: Sink>(
    out: &mut BufferedSink<'_, W>,
    text: &[u8],
    number: u64,
) -> Result<(), WriteFault>
    ensures { Writes W.held W.tally out.old out.new result (numbered text.now number) }
{
    write_pieces(
        out,
        &[Piece::Text(text), Piece::Number(number), Piece::Text(b"\n")],
    )
}
