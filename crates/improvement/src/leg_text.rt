//! The block that is written when a leg has ended with a better schedule.

ghost use Rattle.std.specs.Prelude.{◌≡◌, [], OnOk};
ghost use Rattle.byte_streams.specs.Writing.{Writes, waiting_in};
ghost use Rattle.improvement.specs.LegText.{solution_lines};
ghost use Rattle.improvement.specs.within.LegText.{solution_text};
ghost use Rattle.improvement.specs.Solutions.{best_with, is_below};

use board_texts::write_best_sheet;
use byte_streams::{BufferedSink, Sink, WriteFault};
use fixture_board::Board;
use text_lines::{Piece, write_pieces};

/// Writes the sheet of a leg's best schedule and its total, if that is below the least total before. Nothing waits then.
pub(crate) fn write_leg<W: Sink>(
    out: &mut BufferedSink<'_, W>,
    least: Option<u64>,
    board: &Board,
) -> Result<(), WriteFault>
    ensures writes { Writes W.held W.tally out.old out.new result
        (solution_text board.now.league least board.now.history) }
    ensures sent { OnOk result (waiting_in out.new ≡ []) }
{
    write_solution(out, least, board)?;
    out.flush()
}

fn write_solution<W: Sink>(
    out: &mut BufferedSink<'_, W>,
    least: Option<u64>,
    board: &Board,
) -> Result<(), WriteFault>
    ensures { Writes W.held W.tally out.old out.new result
        (solution_text board.now.league least board.now.history) }
{
    match board.best() {
        Some(best) if is_below(best.total, least) => write_best(out, board, best.total),
        _ => Ok(()),
    }
}

/// Writes the sheet of a board's best schedule, and this total.
fn write_best<W: Sink>(
    out: &mut BufferedSink<'_, W>,
    board: &Board,
    total: u64,
) -> Result<(), WriteFault>
    ensures { Writes W.held W.tally out.old out.new result
        (solution_lines board.now.league (best_with board.now.league board.now.history total)) }
{
    write_best_sheet(out, board)?;
    write_pieces(
        out,
        &[
            Piece::Text(b"best "),
            Piece::Number(total),
            Piece::Text(b"\n----------\n"),
        ],
    )
}

/// Whether the total is below the least before, or is the first.
fn is_below(total: u64, least: Option<u64>) -> bool
    ensures { result ≡ is_below total least }
{
    match least {
        None => true,
        Some(least) => total < least,
    }
}
