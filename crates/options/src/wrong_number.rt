//! A word that stands where an option wants a number, and that clap doesn't take for it. clap's own text doesn't say what is wanted, and
//! takes `-1` for an option that there isn't.

ghost use Rattle.std.specs.Prelude.{◌≡◌, None, Some, map, option_map, string_bytes};
ghost use Rattle.clap.specs.Lexer.{long_of, name_and_value, strip_byte};
ghost use Rattle.options.specs.within.WrongNumbers.{cause_of, is_cause, is_negative, option_at, value_at, waits, wanting_of};
ghost use Rattle.options.specs.within.WrongNumbers.{wrong_from, wrong_if_any, wrong_of, wrong_words};

use crate::number_options::{NumberOption, number_named};
use clap::error::ErrorKind;
use std::fmt;

/// A word that is no number that the option takes.
#[derive(Clone, Copy)]
pub(crate) struct WrongNumber<'a> {
    pub(crate) option: NumberOption,
    pub(crate) word: &'a str,
}

/// Writes it as `invalid value 'many' for '--steps <T>': a whole number from 0 to 1000000 is wanted`.
impl fmt::Display for WrongNumber<'_> {
    ghost output = { λ wrong. Some (wrong_words wrong) };

    fn fmt<W: fmt::Write>(&self, f: &mut fmt::Formatter<W>) -> fmt::Result {
        let WrongNumber { option, word } = *self;
        let name = option.name();
        let value_name = option.value_name();
        write!(
            f,
            "invalid value '{word}' for '--{name} <{value_name}>': {option} is wanted"
        )
    }
}

/// The number for which clap refuses the words of a command with an error of this kind, if it is for one.
pub(crate) fn cause_of<'a>(
    kind: ErrorKind,
    command: &str,
    words: &'a [String],
) -> Option<WrongNumber<'a>>
    ensures { option_map wrong_of result ≡ cause_of kind command.now (map string_bytes words.now) }
{
    match first_wrong(command, words) {
        Some(wrong) if is_cause(kind, wrong.word) => Some(wrong),
        _ => None,
    }
}

fn is_cause(kind: ErrorKind, word: &str) -> bool
    ensures { result ≡ is_cause kind word.now }
{
    match kind {
        ErrorKind::ValueValidation => true,
        ErrorKind::UnknownArgument => is_negative(word),
        _ => false,
    }
}

/// Whether the word is a number below 0, which clap takes for options.
fn is_negative(word: &str) -> bool
    ensures { result ≡ is_negative word.now }
{
    let bytes = word.as_bytes();
    bytes.len() >= 2 && bytes[0] == b'-' && b'0' <= bytes[1] && bytes[1] <= b'9'
}

/// The first number up to a word `--` that its option doesn't take.
fn first_wrong<'a>(command: &str, words: &'a [String]) -> Option<WrongNumber<'a>>
    ensures { option_map wrong_of result ≡ wrong_from command.now None (map string_bytes words.now) }
{
    let mut waiting = None;
    for word in words {
        let word = word.as_str();
        if word == "--" {
            return None;
        }
        let option = option_at(command, waiting, word);
        let value = value_at(waiting, word);
        if let Some(wrong) = wrong_if_any(option, value) {
            return Some(wrong);
        }
        waiting = waits(option, value);
    }
    None
}

/// The value, if the option doesn't take it.
fn wrong_if_any<'a>(option: Option<NumberOption>, value: Option<&'a str>) -> Option<WrongNumber<'a>>
    ensures { option_map wrong_of result ≡ wrong_if_any (option_map wanting_of option) (option_map (λ s. s.now) value.entry) }
{
    match (option, value) {
        (Some(option), Some(word)) if !option.takes(word) => Some(WrongNumber { option, word }),
        _ => None,
    }
}

/// The option that a word is about.
fn option_at(command: &str, waiting: Option<NumberOption>, word: &str) -> Option<NumberOption>
    ensures { option_map wanting_of result ≡ option_at command.now (option_map wanting_of waiting) word.now }
{
    if waiting.is_some() {
        return waiting;
    }
    match to_long(word) {
        Some((name, _)) => number_named(command, name),
        None => None,
    }
}

/// The value that a word has of the option that it is about.
fn value_at<'a>(waiting: Option<NumberOption>, word: &'a str) -> Option<&'a str>
    ensures { option_map (λ s. s.now) result ≡ value_at (option_map wanting_of waiting) word.entry.now }
{
    if waiting.is_some() {
        return Some(word);
    }
    match to_long(word) {
        Some((_, value)) => value,
        None => None,
    }
}

/// The option that waits for its value.
fn waits(option: Option<NumberOption>, value: Option<&str>) -> Option<NumberOption>
    ensures { option_map wanting_of result ≡ waits (option_map wanting_of option) (option_map (λ s. s.now) value.entry) }
{
    match value {
        Some(_) => None,
        None => option,
    }
}

/// `--name` or `--name=value`, as the name and the value.
fn to_long(word: &str) -> Option<(&str, Option<&str>)>
    ensures { option_map (λ p. (p.0.now, option_map (λ s. s.now) p.1)) result ≡ long_of word.now }
{
    let rest = strip_dash(strip_dash(word)?)?;
    if rest.is_empty() {
        return None;
    }
    Some(split_value(rest))
}

/// The text after a first hyphen.
fn strip_dash(word: &str) -> Option<&str>
    ensures { option_map (λ s. s.now) result ≡ strip_byte 45 word.now }
{
    word.strip_prefix('-')
}

/// The text before the first `=`, and the text after it if there is one.
fn split_value(text: &str) -> (&str, Option<&str>)
    ensures { (result.0.now, option_map (λ s. s.now) result.1) ≡ name_and_value text.now }
{
    match text.split_once('=') {
        Some((name, value)) => (name, Some(value)),
        None => (text, None),
    }
}
