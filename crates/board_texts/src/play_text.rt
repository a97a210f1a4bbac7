//! The play text: the start, the answers to a script, and the board after it.

ghost use Rattle.std.specs.Prelude.{◌≡◌, [], OnOk, OnErr};
ghost use Rattle.std.specs.Io.KnownBytes.{Appends};
ghost use Rattle.std.specs.Str.Lines.{lines};
ghost use Rattle.byte_streams.specs.Limits.{write_limit};
ghost use Rattle.byte_streams.specs.Sending.{AppendsPrefix};
ghost use Rattle.byte_streams.specs.Tally.{FailsWriting};
ghost use Rattle.byte_streams.specs.Writing.{Writes};
ghost use Rattle.fixture_board.specs.History.{best_of};
ghost use Rattle.fixture_board.specs.Record.{book};
ghost use Rattle.board_texts.specs.PlayText.{IsPlayedInPart, best_line, closing_text, play_text, played, start_line};

use crate::answers::{write_answers, write_costs};
use crate::history::write_history;
use byte_streams::{BufferedSink, Sink, WriteFault};
use costs::Cost;
use fixture_board::{Best, Board};
use text_lines::{Piece, write_pieces, write_sheet};

/// Plays a script on a new board, and writes the play text. Takes no memory. The board then has the script's history.
/// After a fault a prefix of the text went out, and the board has the history of the first lines of the script.
pub fn play_script<W: Sink>(
    board: &mut Board,
    script: &[u8],
    sink: &mut W,
) -> Result<(), WriteFault>
    requires { board.old.history ≡ [] }
    ensures ok { OnOk result (Appends (W.held sink.old) (W.held sink.new)
        (play_text board.old.league board.old.room (lines script.now))) }
    ensures prefix { OnErr result (AppendsPrefix (W.held sink.old) (W.held sink.new)
        (play_text board.old.league board.old.room (lines script.now))) }
    ensures cause { OnErr result
        (FailsWriting write_limit (W.tally sink.old) (W.tally sink.new)) }
    ensures board { OnOk result (board.new ≡ book board.old.league board.old.room
        (played board.old.league board.old.room (lines script.now))) }
    ensures stopped { OnErr result (IsPlayedInPart board.old.league board.old.room (lines script.now) board.new) }
{
    let mut out = BufferedSink::new(sink);
    write_start(&mut out, board.cost())?;
    write_answers(&mut out, board, script)?;
    write_closing(&mut out, board)?;
    out.flush()
}

fn write_start<W: Sink>(out: &mut BufferedSink<'_, W>, cost: Cost) -> Result<(), WriteFault>
    ensures { Writes W.held W.tally out.old out.new result (start_line cost) }
{
    write_costs(out, b"start", cost)
}

/// Writes the board's history, the sheet of its schedule and its best version.
fn write_closing<W: Sink>(out: &mut BufferedSink<'_, W>, board: &Board) -> Result<(), WriteFault>
    ensures { Writes W.held W.tally out.old out.new result
        (closing_text board.now.league board.now.history) }
{
    write_history(out, board)?;
    write_sheet(out, board.schedule(), board.league())?;
    write_best(out, board)
}

pub(crate) fn write_best<W: Sink>(
    out: &mut BufferedSink<'_, W>,
    board: &Board,
) -> Result<(), WriteFault>
    ensures { Writes W.held W.tally out.old out.new result
        (best_line (best_of board.now.league board.now.history)) }
{
    write_best_line(out, board.best())
}

fn write_best_line<W: Sink>(
    out: &mut BufferedSink<'_, W>,
    best: Option<Best>,
) -> Result<(), WriteFault>
    ensures { Writes W.held W.tally out.old out.new result (best_line best) }
{
    let Some(best) = best else {
        return out.write(b"best none\n");
    };
    write_pieces(
        out,
        &[
            Piece::Text(b"best "),
            Piece::Number(best.total),
            Piece::Text(b" at "),
            Piece::Number(best.at),
            Piece::Text(b"\n"),
        ],
    )
}
