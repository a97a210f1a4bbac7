//! The line that tells on a terminal how far a search is.

ghost use Rattle.std.specs.Prelude.{◌≡◌};
ghost use Rattle.byte_streams.specs.Writing.{Writes};
ghost use Rattle.board_texts.specs.ProgressText.{clear_line, least_text, left_text, percent, progress_line, steps_text, wrap_off, wrap_on};

use byte_streams::{BufferedSink, Sink, WriteFault};
use text_lines::{Piece, write_counted, write_pieces};

/// How far a search is.
#[derive(Clone, Copy)]
pub struct Advance {
    /// How many steps were taken.
    pub steps: u64,
    /// How many there are in all.
    pub all: u64,
    /// The least total of a feasible schedule.
    pub least: Option<u64>,
    /// How many seconds the other steps may take.
    pub left: Option<u64>,
}

/// Has the terminal cut what is too wide for its line.
const WRAP_OFF: &[u8] = b"\x1b[?7l";

/// Has it go on in the next line again.
const WRAP_ON: &[u8] = b"\x1b[?7h";

/// Takes away what stands on the terminal's line: back to its start, and erase to its end (ECMA-48).
pub fn write_clear<W: Sink>(out: &mut BufferedSink<'_, W>) -> Result<(), WriteFault>
    ensures { Writes W.held W.tally out.old out.new result clear_line }
{
    out.write(b"\r\x1b[K")
}

/// Writes over the terminal's line how far a search is: the share of the steps, how many there were of all, the least total, and the time
/// that is left if it can be told. A terminal cuts it at its width, since it is told to wrap no text meanwhile (DECAWM, a private mode of
/// DEC's VT100 that ECMA-48 leaves to terminals).
pub fn write_progress<W: Sink>(
    out: &mut BufferedSink<'_, W>,
    advance: Advance,
) -> Result<(), WriteFault>
    ensures { Writes W.held W.tally out.old out.new result (progress_line advance) }
{
    write_clear(out)?;
    out.write(WRAP_OFF)?;
    write_steps(out, advance)?;
    write_least(out, advance.least)?;
    write_left(out, advance.left)?;
    out.write(WRAP_ON)
}

fn write_steps<W: Sink>(out: &mut BufferedSink<'_, W>, advance: Advance) -> Result<(), WriteFault>
    ensures { Writes W.held W.tally out.old out.new result (steps_text advance) }
{
    write_pieces(
        out,
        &[
            Piece::Number(percent(advance.steps, advance.all)),
            Piece::Text(b" % steps "),
            Piece::Number(advance.steps),
            Piece::Text(b" of "),
            Piece::Number(advance.all),
        ],
    )
}

/// So many of all, in percent.
fn percent(steps: u64, all: u64) -> u64
    ensures { result ≡ percent steps all }
{
    (u128::from(steps) * 100 / u128::from(all.max(1))).min(100) as u64
}

fn write_least<W: Sink>(out: &mut BufferedSink<'_, W>, least: Option<u64>) -> Result<(), WriteFault>
    ensures { Writes W.held W.tally out.old out.new result (least_text least) }
{
    match least {
        Some(total) => write_counted(out, b" best ", total),
        None => out.write(b" best none"),
    }
}

/// Writes so many seconds as hours, minutes and seconds.
fn write_left<W: Sink>(out: &mut BufferedSink<'_, W>, left: Option<u64>) -> Result<(), WriteFault>
    ensures { Writes W.held W.tally out.old out.new result (left_text left) }
{
    let Some(seconds) = left else {
        return Ok(());
    };
    write_pieces(
        out,
        &[
            Piece::Text(b" left "),
            Piece::Number(seconds / 3600),
            Piece::Text(b":"),
            Piece::Number(seconds / 600 % 6),
            Piece::Number(seconds / 60 % 10),
            Piece::Text(b":"),
            Piece::Number(seconds / 10 % 6),
            Piece::Number(seconds % 10),
        ],
    )
}
