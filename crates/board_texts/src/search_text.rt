//! The parts of a search text: what was asked for, what became of a worker's proposals, and the board in the end. And what an
//! improvement ends with.

ghost use Rattle.std.specs.Prelude.{◌≡◌, true};
ghost use Rattle.league.specs.League.{teams};
ghost use Rattle.byte_streams.specs.Writing.{Writes};
ghost use Rattle.fixture_board.specs.History.{best_prefix};
ghost use Rattle.board_texts.specs.SearchText.{best_sheet, board_text, found_text, games_at_best, moved_at_best, plan_line};
ghost use Rattle.board_texts.specs.SearchText.{improved_text, least_hard_text, outcome_text, total_line, worker_line};

use crate::history::write_history;
use crate::least_hard::write_least_hard;
use crate::play_text::write_best;
use byte_streams::{BufferedSink, Sink, WriteFault};
use fixture_board::{Best, Board};
use fixtures::Schedule;
use text_lines::{Piece, write_numbered, write_pieces, write_sheet};
use tours::moved_games;

/// Writes what a search was asked for: so many workers, the steps of each, and the seed of their draws.
pub fn write_plan<W: Sink>(
    out: &mut BufferedSink<'_, W>,
    workers: u32,
    steps: u32,
    seed: u64,
) -> Result<(), WriteFault>
    ensures { Writes W.held W.tally out.old out.new result (plan_line workers steps seed) }
{
    write_pieces(
        out,
        &[
            Piece::Text(b"workers "),
            Piece::Number(workers as u64),
            Piece::Text(b" steps "),
            Piece::Number(steps as u64),
            Piece::Text(b" seed "),
            Piece::Number(seed),
            Piece::Text(b"\n"),
        ],
    )
}

/// Writes how many proposals the worker of this number made, and how many of them were accepted and refused.
pub fn write_worker<W: Sink>(
    out: &mut BufferedSink<'_, W>,
    number: u64,
    made: u32,
    accepted: u32,
    refused: u32,
) -> Result<(), WriteFault>
    ensures { Writes W.held W.tally out.old out.new result (worker_line number made accepted refused) }
{
    write_pieces(
        out,
        &[
            Piece::Text(b"worker "),
            Piece::Number(number),
            Piece::Text(b" made "),
            Piece::Number(made as u64),
            Piece::Text(b" accepted "),
            Piece::Number(accepted as u64),
            Piece::Text(b" refused "),
            Piece::Number(refused as u64),
            Piece::Text(b"\n"),
        ],
    )
}

/// Writes the board in the end: its history, the sheet of its best schedule, or of the present one if none was
/// feasible, how many games that sheet moves if the league's start is a schedule of its own, and its best version.
pub fn write_found<W: Sink>(out: &mut BufferedSink<'_, W>, board: &Board) -> Result<(), WriteFault>
    ensures { Writes W.held W.tally out.old out.new result
        (found_text board.now.league board.now.history) }
{
    write_board(out, board)?;
    write_best(out, board)
}

/// Writes the board that an improvement ends with: the sheet of its best schedule, how many games that moves, what is broken in the
/// present schedule if none was feasible, and the best total. With `history` that stands first, and the version behind the total.
pub fn write_improved<W: Sink>(
    out: &mut BufferedSink<'_, W>,
    board: &Board,
    history: bool,
) -> Result<(), WriteFault>
    ensures { Writes W.held W.tally out.old out.new result
        (improved_text history board.now.league board.now.history) }
{
    if history {
        write_with_history(out, board)
    } else {
        write_outcome(out, board)?;
        write_total(out, board.best())
    }
}

fn write_with_history<W: Sink>(
    out: &mut BufferedSink<'_, W>,
    board: &Board,
) -> Result<(), WriteFault>
    ensures { Writes W.held W.tally out.old out.new result
        (improved_text true board.now.league board.now.history) }
{
    write_history(out, board)?;
    write_outcome(out, board)?;
    write_best(out, board)
}

/// Writes the sheet of the board's best schedule, how many games that moves and, if none was feasible, what is broken.
fn write_outcome<W: Sink>(out: &mut BufferedSink<'_, W>, board: &Board) -> Result<(), WriteFault>
    ensures { Writes W.held W.tally out.old out.new result
        (outcome_text board.now.league board.now.history) }
{
    write_best_sheet(out, board)?;
    write_moved(out, board)?;
    write_broken(out, board)
}

fn write_total<W: Sink>(out: &mut BufferedSink<'_, W>, best: Option<Best>) -> Result<(), WriteFault>
    ensures { Writes W.held W.tally out.old out.new result (total_line best) }
{
    match best {
        Some(best) => write_numbered(out, b"best ", best.total),
        None => out.write(b"best none\n"),
    }
}

/// Writes the board's history, the sheet of its best schedule, and how many games that moves.
fn write_board<W: Sink>(out: &mut BufferedSink<'_, W>, board: &Board) -> Result<(), WriteFault>
    ensures { Writes W.held W.tally out.old out.new result (board_text board.now.league board.now.history) }
{
    write_history(out, board)?;
    write_best_sheet(out, board)?;
    write_moved(out, board)
}

/// Writes what is broken in the present schedule, if none was feasible.
#[tactic(auto, unfolding(crate::specs::SearchText::least_hard_text))]
fn write_broken<W: Sink>(out: &mut BufferedSink<'_, W>, board: &Board) -> Result<(), WriteFault>
    ensures { Writes W.held W.tally out.old out.new result
        (least_hard_text board.now.league board.now.history) }
{
    match board.best_schedule() {
        Some(_) => Ok(()),
        None => write_least_hard(out, board.league(), board.schedule()),
    }
}

#[tactic(auto, unfolding(crate::specs::SearchText::moved_at_best))]
fn write_moved<W: Sink>(out: &mut BufferedSink<'_, W>, board: &Board) -> Result<(), WriteFault>
    ensures { Writes W.held W.tally out.old out.new result
        (moved_at_best board.now.league board.now.history) }
{
    let league = board.league();
    if !league.given() {
        return Ok(());
    }
    write_numbered(out, b"moved ", moved_games(best_or_present(board), league))
}

/// Writes the sheet of the board's best schedule, or of the present one if none was feasible.
#[tactic(auto, unfolding(crate::specs::SearchText::best_sheet))]
pub fn write_best_sheet<W: Sink>(
    out: &mut BufferedSink<'_, W>,
    board: &Board,
) -> Result<(), WriteFault>
    ensures { Writes W.held W.tally out.old out.new result
        (best_sheet board.now.league board.now.history) }
{
    write_sheet(out, best_or_present(board), board.league())
}

/// The board's best schedule, or the present one if none was feasible.
fn best_or_present(board: &Board) -> &Schedule
    ensures games { result.now ≡ games_at_best board.now.league board.now.history
        (best_prefix board.now.league board.now.history) }
    ensures size { result.now.teams ≡ teams board.now.league }
{
    match board.best_schedule() {
        Some(schedule) => schedule,
        None => board.schedule(),
    }
}
