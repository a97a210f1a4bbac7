//! The first bad line of a script.

ghost use Rattle.std.specs.Prelude.{◌≡◌, ◌==◌, is_some, length, option_map};
ghost use Rattle.std.specs.Str.Lines.{lines};
ghost use Rattle.text_lines.specs.Words.{words_of};
ghost use Rattle.script_hints.specs.Hints.{first_hint, has_bad_line};
ghost use Rattle.script_hints.specs.Script.{argument_count, arguments_cause, begins_move, command_cause, first_no_number, is_move};
ghost use Rattle.script_hints.specs.Script.{script_cause, try_cause};

use crate::cause::{Cause, LineHint, quote};
use board_texts::Keyword;
use text_lines::{next_line, next_word, number};

/// The first bad line of a script, and what is wrong with it. A script without a bad line has no hint. Takes no memory.
pub fn script_hint(script: &[u8]) -> Option<LineHint>
    ensures hint { result ≡ first_hint script_cause 1 (lines script.now) }
    ensures exactly { is_some result ≡ has_bad_line (lines script.now) }
{
    first_hint(script)
}

fn first_hint(script: &[u8]) -> Option<LineHint>
    ensures { result ≡ first_hint script_cause 1 (lines script.now) }
{
    let mut rest = script;
    let mut number = 0;
    while let Some(line) = next_line(&mut rest) {
        number += 1;
        if let Some(hint) = LineHint::at(number, line, script_cause(line)) {
            return Some(hint);
        }
    }
    None
}

fn script_cause(line: &[u8]) -> Option<Cause>
    ensures { result ≡ script_cause line.now }
{
    let mut rest = line;
    let word = next_word(&mut rest)?;
    if word[0] == b'#' {
        return None;
    }
    if word == b"try".as_slice() {
        try_cause(rest)
    } else {
        command_cause(line)
    }
}

/// The cause why the words behind `try` are bad.
fn try_cause(words: &[u8]) -> Option<Cause>
    ensures { result ≡ try_cause (words_of words.now) }
{
    match command_cause(words) {
        Some(cause) => Some(cause),
        None => (!is_move(words)).then_some(Cause::NoMove),
    }
}

fn is_move(words: &[u8]) -> bool
    ensures { result ≡ is_move (words_of words.now) }
{
    let mut rest = words;
    match next_word(&mut rest).and_then(Keyword::of_word) {
        Some(keyword) => begins_move(keyword),
        None => false,
    }
}

fn command_cause(words: &[u8]) -> Option<Cause>
    ensures { result ≡ command_cause (words_of words.now) }
{
    let mut rest = words;
    let Some(word) = next_word(&mut rest) else {
        return Some(Cause::NoMove);
    };
    match Keyword::of_word(word) {
        Some(keyword) => arguments_cause(keyword, rest),
        None => Some(Cause::NoLine(quote(word))),
    }
}

fn arguments_cause(keyword: Keyword, words: &[u8]) -> Option<Cause>
    ensures { result ≡ arguments_cause keyword (words_of words.now) }
{
    match first_no_number(words) {
        Some(word) => Some(Cause::NoNumber(quote(word))),
        None => {
            let fits = are_words(words, argument_count(keyword));
            (!fits).then_some(Cause::Arguments(keyword))
        }
    }
}

/// The first of the words that is no number.
fn first_no_number(words: &[u8]) -> Option<&[u8]>
    ensures { option_map (λ word. word.now) result ≡ first_no_number (words_of words.now) }
{
    let mut rest = words;
    while let Some(word) = next_word(&mut rest) {
        if number(word).is_none() {
            return Some(word);
        }
    }
    None
}

/// Whether there are so many words.
fn are_words(words: &[u8], count: u8) -> bool
    ensures { result ≡ (length (words_of words.now) == count) }
{
    let mut rest = words;
    let mut left = count;
    while let Some(_word) = next_word(&mut rest) {
        if left == 0 {
            return false;
        }
        left -= 1;
    }
    left == 0
}

/// How many numbers stand behind the keyword.
fn argument_count(keyword: Keyword) -> u8
    ensures { result ≡ argument_count keyword }
{
    match keyword {
        Keyword::Undo => 0,
        Keyword::Slack => 1,
        Keyword::Homes | Keyword::Rounds | Keyword::Teams => 2,
        Keyword::PartRounds | Keyword::PartTeams | Keyword::Pin | Keyword::Unpin => 3,
    }
}

/// Whether the keyword begins a move.
fn begins_move(keyword: Keyword) -> bool
    ensures { result ≡ begins_move keyword }
{
    match keyword {
        Keyword::Pin | Keyword::Unpin | Keyword::Undo | Keyword::Slack => false,
        _ => true,
    }
}
