//! The lines of a script.

ghost use Rattle.std.specs.Prelude.{◌≡◌, ◌<◌, IfNone, IfSome, Some, length};
ghost use Rattle.fixture_board.specs.declared.change.Change.TheVariants.{Shift};
ghost use Rattle.board_texts.specs.declared.script_line.ScriptLine.TheVariants.{Asks};
ghost use Rattle.board_texts.specs.Command.{command_of, command_of_words, keyword_of, line_of, numbers_of, tried};
ghost use Rattle.text_lines.specs.Number.{numbered_game};
ghost use Rattle.text_lines.specs.Words.{words_of};

use arrayvec::ArrayVec;
use fixture_board::Change;
use fixtures::Game;
use moves::Move;
use text_lines::{index, next_word, number};

/// The most numbers that a command has.
const MAX_NUMBERS: usize = 3;

/// The meaning of a line of a script. Teams and rounds count from 0; one that can't be such a number is 255.
#[derive(Clone, Copy, Debug, PartialEq, Eq)]
pub enum ScriptLine {
    /// Nothing: no words, or a remark.
    Skip,
    /// By how much a proposal may raise the score from here on.
    Slack(u64),
    /// A change is asked for.
    Asks(Change),
    /// It is asked what a move would cost.
    Tries(Move),
    /// No line of a script.
    Bad,
}

/// The first word of a command.
#[derive(Clone, Copy, Debug, PartialEq, Eq)]
pub enum Keyword {
    Homes,
    Rounds,
    Teams,
    PartRounds,
    PartTeams,
    Pin,
    Unpin,
    Undo,
    Slack,
}

impl Keyword {
    /// The keyword that the word is, if it is one.
    pub fn of_word(word: &[u8]) -> Option<Keyword>
        ensures { result ≡ keyword_of word.now }
    {
        if word == b"homes".as_slice() {
            Some(Keyword::Homes)
        } else if word == b"rounds".as_slice() {
            Some(Keyword::Rounds)
        } else if word == b"teams".as_slice() {
            Some(Keyword::Teams)
        } else if word == b"part-rounds".as_slice() {
            Some(Keyword::PartRounds)
        } else if word == b"part-teams".as_slice() {
            Some(Keyword::PartTeams)
        } else if word == b"pin".as_slice() {
            Some(Keyword::Pin)
        } else if word == b"unpin".as_slice() {
            Some(Keyword::Unpin)
        } else if word == b"undo".as_slice() {
            Some(Keyword::Undo)
        } else if word == b"slack".as_slice() {
            Some(Keyword::Slack)
        } else {
            None
        }
    }
}

/// Reads a line without its line end.
pub fn parse_line(line: &[u8]) -> ScriptLine
    ensures { result ≡ line_of line.now }
{
    let mut rest = line;
    let Some(word) = next_word(&mut rest) else {
        return ScriptLine::Skip;
    };
    if word[0] == b'#' {
        return ScriptLine::Skip;
    }
    if word == b"try".as_slice() {
        tried(read_command(rest))
    } else {
        read_command(line)
    }
}

fn tried(command: ScriptLine) -> ScriptLine
    ensures { result ≡ tried command }
{
    match command {
        ScriptLine::Asks(Change::Shift(mv)) => ScriptLine::Tries(mv),
        _ => ScriptLine::Bad,
    }
}

/// Reads a line whose first word is to be a keyword.
fn read_command(line: &[u8]) -> ScriptLine
    ensures { result ≡ command_of_words (words_of line.now) }
{
    let mut rest = line;
    let Some(word) = next_word(&mut rest) else {
        return ScriptLine::Bad;
    };
    let (Some(keyword), Some(numbers)) = (Keyword::of_word(word), numbers(rest)) else {
        return ScriptLine::Bad;
    };
    command(keyword, numbers.as_slice())
}

/// The numbers that the words of a line are, or none if a word is no number or there are more words than a change has.
fn numbers(line: &[u8]) -> Option<ArrayVec<u64, MAX_NUMBERS>>
    ensures some { IfSome result (λ numbers. numbers_of (words_of line.now) ≡ Some numbers.items) }
    ensures none { IfNone result (IfSome (numbers_of (words_of line.now)) (λ numbers. 3 < length numbers)) }
{
    let mut rest = line;
    let mut numbers = ArrayVec::new();
    while let Some(word) = next_word(&mut rest) {
        numbers.try_push(number(word)?).ok()?;
    }
    Some(numbers)
}

fn command(keyword: Keyword, numbers: &[u64]) -> ScriptLine
    ensures { result ≡ command_of keyword numbers.now }
{
    match (keyword, numbers) {
        (Keyword::Homes, &[i, j]) => shift(Move::Homes {
            i: index(i),
            j: index(j),
        }),
        (Keyword::Rounds, &[k, l]) => shift(Move::Rounds {
            k: index(k),
            l: index(l),
        }),
        (Keyword::Teams, &[i, j]) => shift(Move::Teams {
            i: index(i),
            j: index(j),
        }),
        (Keyword::PartRounds, &[i, k, l]) => shift(Move::PartRounds {
            i: index(i),
            k: index(k),
            l: index(l),
        }),
        (Keyword::PartTeams, &[i, j, k]) => shift(Move::PartTeams {
            i: index(i),
            j: index(j),
            k: index(k),
        }),
        (Keyword::Pin, &[round, home, away]) => {
            ScriptLine::Asks(Change::Pin(game(round, home, away)))
        }
        (Keyword::Unpin, &[round, home, away]) => {
            ScriptLine::Asks(Change::Unpin(game(round, home, away)))
        }
        (Keyword::Undo, []) => ScriptLine::Asks(Change::Undo),
        (Keyword::Slack, &[slack]) => ScriptLine::Slack(slack),
        _ => ScriptLine::Bad,
    }
}

fn shift(mv: Move) -> ScriptLine
    ensures { result ≡ Asks (Shift mv) }
{
    ScriptLine::Asks(Change::Shift(mv))
}

fn game(round: u64, home: u64, away: u64) -> Game
    ensures { result ≡ numbered_game round home away }
{
    Game {
        round: index(round),
        home: index(home),
        away: index(away),
    }
}
