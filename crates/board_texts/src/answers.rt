//! The answers of a board to the lines of a script.

ghost use Rattle.std.specs.Prelude.{◌≡◌, ◌++◌, [], OnErr, OnOk};
ghost use Rattle.std.specs.Str.Lines.{lines};
ghost use Rattle.byte_streams.specs.Writing.{Writes};
ghost use Rattle.fixture_board.specs.Record.{book};
ghost use Rattle.fixture_board.specs.Replies.{ask_of};
ghost use Rattle.board_texts.specs.PlayText.{IsPlayedInPart, answer_to, answers, costs_of, done_line, history_after, no_line};
ghost use Rattle.board_texts.specs.PlayText.{played, reply_line, slack_after, tried_line, why_text, would_line};

use crate::script_line::{ScriptLine, parse_line};
use byte_streams::{BufferedSink, Sink, WriteFault};
use costs::Cost;
use fixture_board::{Ask, Board, Change, Proposal, Reply, Why};
use moves::Move;
use text_lines::{Piece, next_line, write_counted, write_numbered, write_pieces};

/// Plays the lines of a script on a new board, and writes an answer to each that isn't skipped.
pub(crate) fn write_answers<W: Sink>(
    out: &mut BufferedSink<'_, W>,
    board: &mut Board,
    script: &[u8],
) -> Result<(), WriteFault>
    requires { board.old.history ≡ [] }
    ensures writes { Writes W.held W.tally out.old out.new result
        (answers board.old.league board.old.room (lines script.now)) }
    ensures board { OnOk result (board.new ≡ book board.old.league board.old.room
        (played board.old.league board.old.room (lines script.now))) }
    ensures stopped { OnErr result (IsPlayedInPart board.old.league board.old.room (lines script.now) board.new) }
{
    let mut slack = u64::MAX;
    let mut number = 1;
    let mut rest = script;
    while let Some(line) = next_line(&mut rest) {
        write_answer(out, board, &mut slack, number, parse_line(line))?;
        number += 1;
    }
    Ok(())
}

/// Does what the line of this number says, and writes the answer to it.
fn write_answer<W: Sink>(
    out: &mut BufferedSink<'_, W>,
    board: &mut Board,
    slack: &mut u64,
    number: u64,
    line: ScriptLine,
) -> Result<(), WriteFault>
    ensures writes { Writes W.held W.tally out.old out.new result
        (answer_to board.old.league board.old.room board.old.history slack.old number line) }
    ensures board { board.new ≡ book board.old.league board.old.room
        (history_after board.old.league board.old.room board.old.history slack.old line) }
    ensures slack { slack.new ≡ slack_after board.old.league board.old.room slack.old line }
{
    match line {
        ScriptLine::Skip => Ok(()),
        ScriptLine::Slack(given) => {
            *slack = given;
            write_numbered(out, b"slack ", given)
        }
        ScriptLine::Asks(change) => {
            let ask = Ask::of(change, board.version(), *slack);
            write_reply(out, board.answer(0, ask))
        }
        ScriptLine::Tries(mv) => {
            let proposal = unlimited(board.version(), mv);
            write_tried(out, board.would_answer(proposal))
        }
        ScriptLine::Bad => write_numbered(out, b"bad line ", number),
    }
}

fn write_reply<W: Sink>(out: &mut BufferedSink<'_, W>, reply: Reply) -> Result<(), WriteFault>
    ensures { Writes W.held W.tally out.old out.new result (reply_line reply) }
{
    match reply {
        Reply::Done { at, cost } => write_done(out, at, cost),
        Reply::No { at, why } => write_no(out, at, why),
    }
}

/// A move as it is proposed at the version, whatever its score is.
fn unlimited(version: u64, mv: Move) -> Proposal
    ensures { Ask.Shift result ≡ ask_of version (Change.Shift mv) }
{
    Proposal {
        version,
        mv,
        claim: None,
        slack: u64::MAX,
    }
}

fn write_tried<W: Sink>(out: &mut BufferedSink<'_, W>, reply: Reply) -> Result<(), WriteFault>
    ensures { Writes W.held W.tally out.old out.new result (tried_line reply) }
{
    match reply {
        Reply::Done { cost, .. } => write_would(out, cost),
        Reply::No { at, why } => write_no(out, at, why),
    }
}

fn write_would<W: Sink>(out: &mut BufferedSink<'_, W>, cost: Cost) -> Result<(), WriteFault>
    ensures { Writes W.held W.tally out.old out.new result (would_line cost) }
{
    write_costs(out, b"would", cost)
}

fn write_done<W: Sink>(out: &mut BufferedSink<'_, W>, at: u64, cost: Cost) -> Result<(), WriteFault>
    ensures { Writes W.held W.tally out.old out.new result (done_line at cost) }
{
    write_counted(out, b"done ", at)?;
    write_costs(out, b"", cost)
}

/// Writes a word, if it isn't empty, and a cost, which ends the line.
pub(crate) fn write_costs<W: Sink>(
    out: &mut BufferedSink<'_, W>,
    word: &[u8],
    cost: Cost,
) -> Result<(), WriteFault>
    ensures { Writes W.held W.tally out.old out.new result (word.now ++ costs_of cost) }
{
    write_pieces(
        out,
        &[
            Piece::Text(word),
            Piece::Text(b" travel "),
            Piece::Number(cost.travel),
            Piece::Text(b" hard "),
            Piece::Number(cost.hard),
            Piece::Text(b" soft "),
            Piece::Number(cost.soft),
            Piece::Text(b"\n"),
        ],
    )
}

fn write_no<W: Sink>(out: &mut BufferedSink<'_, W>, at: u64, why: Why) -> Result<(), WriteFault>
    ensures { Writes W.held W.tally out.old out.new result (no_line at why) }
{
    write_pieces(
        out,
        &[
            Piece::Text(b"no "),
            Piece::Number(at),
            Piece::Text(b" "),
            Piece::Text(why_text(why)),
            Piece::Text(b"\n"),
        ],
    )
}

fn why_text(why: Why) -> &'static [u8]
    ensures { result.now ≡ why_text why }
{
    match why {
        Why::Ahead => b"ahead",
        Why::Old => b"old",
        Why::Full => b"full",
        Why::BadMove => b"bad move",
        Why::Meet => b"meet",
        Why::Pinned => b"pinned",
        Why::WrongClaim => b"wrong claim",
        Why::Worse => b"worse",
        Why::BadGame => b"bad game",
        Why::NotThere => b"not there",
        Why::AlreadyPinned => b"already pinned",
        Why::NotPinned => b"not pinned",
        Why::NothingToUndo => b"nothing to undo",
    }
}
