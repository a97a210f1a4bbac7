//! The history of a board, as a script that leads to it.

ghost use Rattle.std.specs.Prelude.{◌≡◌, ◌+◌, ◌≤◌, ◌++◌, length};
ghost use Rattle.byte_streams.specs.Writing.{Writes};
ghost use Rattle.board_texts.specs.PlayText.{change_line, change_lines, history_text, move_line, two_places, three_places};
ghost use Rattle.text_lines.specs.Lines.{counted};

use arrayvec::ArrayVec;
use byte_streams::{BufferedSink, Sink, WriteFault};
use fixture_board::{Board, Change};
use moves::Move;
use text_lines::write_numbered;

/// A line has a word of at most 12 bytes, three numbers of at most 5, two blanks and its end.
const MAX_LINE: usize = 32;

/// The line of a change, gathered so that it is written at once.
type ChangeLine = ArrayVec<u8, MAX_LINE>;

/// Writes how long the history is, a script line for each entry, and `end`.
pub(crate) fn write_history<W: Sink>(
    out: &mut BufferedSink<'_, W>,
    board: &Board,
) -> Result<(), WriteFault>
    ensures { Writes W.held W.tally out.old out.new result (history_text board.now.history) }
{
    write_numbered(out, b"history ", board.version())?;
    write_changes(out, board)?;
    out.write(b"end\n")
}

fn write_changes<W: Sink>(out: &mut BufferedSink<'_, W>, board: &Board) -> Result<(), WriteFault>
    ensures { Writes W.held W.tally out.old out.new result (change_lines board.now.history) }
{
    for i in 0..board.version() {
        write_change(out, board.entry(i).change)?;
    }
    Ok(())
}

fn write_change<W: Sink>(out: &mut BufferedSink<'_, W>, change: Change) -> Result<(), WriteFault>
    ensures { Writes W.held W.tally out.old out.new result (change_line change) }
{
    match change {
        Change::Shift(mv) => write_move(out, mv),
        Change::Pin(game) => write_three(out, b"pin ", game.round, game.home, game.away),
        Change::Unpin(game) => write_three(out, b"unpin ", game.round, game.home, game.away),
        Change::Undo => out.write(b"undo\n"),
    }
}

fn write_move<W: Sink>(out: &mut BufferedSink<'_, W>, mv: Move) -> Result<(), WriteFault>
    ensures { Writes W.held W.tally out.old out.new result (move_line mv) }
{
    match mv {
        Move::Homes { i, j } => write_two(out, b"homes ", i, j),
        Move::Rounds { k, l } => write_two(out, b"rounds ", k, l),
        Move::Teams { i, j } => write_two(out, b"teams ", i, j),
        Move::PartRounds { i, k, l } => write_three(out, b"part-rounds ", i, k, l),
        Move::PartTeams { i, j, k } => write_three(out, b"part-teams ", i, j, k),
    }
}

fn write_two<W: Sink>(
    out: &mut BufferedSink<'_, W>,
    word: &[u8],
    first: u8,
    second: u8,
) -> Result<(), WriteFault>
    requires { length word.now ≤ 12 }
    ensures { Writes W.held W.tally out.old out.new result (two_places word.now first second) }
{
    let mut line = ChangeLine::new();
    add_place(&mut line, word, first);
    add_place(&mut line, b" ", second);
    line.push(b'\n');
    out.write(line.as_slice())
}

fn write_three<W: Sink>(
    out: &mut BufferedSink<'_, W>,
    word: &[u8],
    first: u8,
    second: u8,
    third: u8,
) -> Result<(), WriteFault>
    requires { length word.now ≤ 12 }
    ensures { Writes W.held W.tally out.old out.new result (three_places word.now first second third) }
{
    let mut line = ChangeLine::new();
    add_place(&mut line, word, first);
    add_place(&mut line, b" ", second);
    add_place(&mut line, b" ", third);
    line.push(b'\n');
    out.write(line.as_slice())
}

/// Adds a text and a team or a round after it, from 1.
fn add_place(line: &mut ChangeLine, text: &[u8], place: u8)
    requires { length line.old.items + length text.now + 5 ≤ 32 }
    ensures items { line.new.items ≡ line.old.items ++ counted text.now (place + 1) }
    ensures length { length line.new.items ≤ length line.old.items + length text.now + 5 }
{
    let mut digits = itoa::Buffer::new();
    let number = digits.format(u16::from(place) + 1).as_bytes();
    line.try_extend_from_slice(text).unwrap();
    line.try_extend_from_slice(number).unwrap();
}
