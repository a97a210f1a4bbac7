//! The causes why a line is bad, and what is said of them.

ghost use Rattle.std.specs.Prelude.{◌≡◌, Some};
ghost use Rattle.script_hints.specs.Cause.{arguments_words, cause_words, quote_of_bytes};
ghost use Rattle.script_hints.specs.within.Cause.{line_words};
ghost use Rattle.script_hints.specs.Hints.{hint_at};

use board_texts::Keyword;
use league_forms::Quote;
use std::{fmt, str};

/// The cause why a line is bad.
#[derive(Clone, Copy)]
pub enum Cause {
    /// This word begins no line of a script.
    NoLine(Quote),
    /// No move stands behind `try`.
    NoMove,
    /// This word is no number.
    NoNumber(Quote),
    /// There aren't as many numbers as are wanted behind this word.
    Arguments(Keyword),
    /// Nothing stands behind `round`.
    NoRound,
    /// This word stands behind `round`, and doesn't end with a colon.
    NoColon(Quote),
    /// This word is no game.
    NoGame(Quote),
}

/// The first bad line of a text, and what is wrong with it.
#[derive(Clone, Copy)]
pub struct LineHint {
    /// Its number, from 1.
    pub number: u64,
    pub line: Quote,
    pub cause: Cause,
}

impl LineHint {
    /// The hint on the line of this number, if something is wrong with it.
    pub(crate) fn at(number: u64, line: &[u8], cause: Option<Cause>) -> Option<LineHint>
        ensures { result ≡ hint_at number line.now cause }
    {
        let cause = cause?;
        Some(LineHint {
            number,
            line: quote(line),
            cause,
        })
    }
}

/// The beginning of the bytes, or a question mark if they are no UTF-8.
pub(crate) fn quote(bytes: &[u8]) -> Quote
    ensures { result ≡ quote_of_bytes bytes.now }
{
    match str::from_utf8(bytes) {
        Ok(text) => Quote::of(text),
        Err(_) => Quote::of("?"),
    }
}

/// Writes a line without its end, as `see line 2: "homes 1": two teams are wanted`.
impl fmt::Display for LineHint {
    ghost output = { λ hint. Some (line_words hint) };

    fn fmt<W: fmt::Write>(&self, f: &mut fmt::Formatter<W>) -> fmt::Result {
        let LineHint {
            number,
            line,
            cause,
        } = *self;
        write!(f, "see line {number}: {line}: {cause}")
    }
}

/// Writes it as `two teams are wanted`.
impl fmt::Display for Cause {
    ghost output = { λ cause. Some (cause_words cause) };

    fn fmt<W: fmt::Write>(&self, f: &mut fmt::Formatter<W>) -> fmt::Result {
        match *self {
            Cause::NoLine(word) => write!(
                f,
                "{word} is none of homes, rounds, teams, part-rounds, part-teams, pin, unpin, undo, slack and try"
            ),
            Cause::NoMove => f.write_str("a move is wanted behind try"),
            Cause::NoNumber(word) => write!(f, "{word} is no whole number of 64 bits"),
            Cause::Arguments(keyword) => write!(f, "{} wanted", arguments(keyword)),
            Cause::NoRound => f.write_str("a number and a colon are wanted behind round"),
            Cause::NoColon(word) => write!(f, "{word} has no colon behind it"),
            Cause::NoGame(word) => write!(f, "{word} is no game H-A"),
        }
    }
}

/// The words that are wanted behind the keyword, as `two teams are`.
fn arguments(keyword: Keyword) -> &'static str
    ensures { result.now ≡ arguments_words keyword }
{
    match keyword {
        Keyword::Homes | Keyword::Teams => "two teams are",
        Keyword::Rounds => "two rounds are",
        Keyword::PartRounds => "a team and two rounds are",
        Keyword::PartTeams => "two teams and a round are",
        Keyword::Pin | Keyword::Unpin => "a round and two teams are",
        Keyword::Undo => "nothing more is",
        Keyword::Slack => "one number is",
    }
}
