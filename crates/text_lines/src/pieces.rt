//! Lines that are made of texts and numbers.

ghost use Rattle.byte_streams.specs.Writing.{Writes};
ghost use Rattle.text_lines.specs.Pieces.{text_of_piece, text_of_pieces};

use byte_streams::{BufferedSink, Sink, WriteFault};

/// A part of a line: a text, or a number in decimal.
#[derive(Clone, Copy)]
pub enum Piece<'a> {
    Text(&'a [u8]),
    Number(u64),
}

/// Writes the pieces, one after another.
pub fn write_pieces<W: Sink>(
    out: &mut BufferedSink<'_, W>,
    pieces: &[Piece<'_>],
) -> Result<(), WriteFault>
    ensures { Writes W.held W.tally out.old out.new result (text_of_pieces pieces.now) }
{
    for piece in pieces {
        write_piece(out, *piece)?;
    }
    Ok(())
}

fn write_piece<W: Sink>(out: &mut BufferedSink<'_, W>, piece: Piece<'_>) -> Result<(), WriteFault>
    ensures { Writes W.held W.tally out.old out.new result (text_of_piece piece.entry) }
{
    match piece {
        Piece::Text(text) => out.write(text),
        Piece::Number(number) => out.write_number(number),
    }
}
