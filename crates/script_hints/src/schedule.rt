//! The first bad line of a schedule.

ghost use Rattle.std.specs.Prelude.{◌≡◌, is_some, option_map};
ghost use Rattle.std.specs.Str.Lines.{lines};
ghost use Rattle.text_lines.specs.Words.{words_of};
ghost use Rattle.schedule_texts.specs.LastSheet.{begins_sheet, last_sheet};
ghost use Rattle.schedule_texts.specs.ScheduleText.{game_of_word, has_bad_line};
ghost use Rattle.script_hints.specs.Hints.{first_hint};
ghost use Rattle.script_hints.specs.within.Hints.{hint_so_far};
ghost use Rattle.script_hints.specs.Schedule.{first_no_game, games_cause, numbered_cause, round_cause, schedule_cause};

use crate::cause::{Cause, LineHint, quote};
use text_lines::{next_line, next_word, number, numbers_at_dash};

/// The first bad line of a schedule's text, of the last sheet in it, and what is wrong with it. A schedule without a bad line has no
/// hint. Takes no memory.
pub fn schedule_hint(text: &[u8]) -> Option<LineHint>
    ensures hint { result ≡ first_hint schedule_cause 1 (last_sheet (lines text.now)) }
    ensures exactly { is_some result ≡ has_bad_line (last_sheet (lines text.now)) }
{
    first_hint(text)
}

fn first_hint(text: &[u8]) -> Option<LineHint>
    ensures { result ≡ first_hint schedule_cause 1 (last_sheet (lines text.now)) }
{
    let mut hint = None;
    let mut rest = text;
    let mut number = 0;
    while let Some(line) = next_line(&mut rest) {
        number += 1;
        hint = hint_so_far(hint, number, line);
    }
    hint
}

/// The first hint of the last sheet so far, after a line of this number.
fn hint_so_far(hint: Option<LineHint>, number: u64, line: &[u8]) -> Option<LineHint>
    ensures { result ≡ hint_so_far hint number line.now }
{
    if begins_sheet(line) {
        return None;
    }
    match hint {
        Some(hint) => Some(hint),
        None => LineHint::at(number, line, schedule_cause(line)),
    }
}

/// Whether the line's first word is `league`.
fn begins_sheet(line: &[u8]) -> bool
    ensures { result ≡ begins_sheet (words_of line.now) }
{
    let mut rest = line;
    match next_word(&mut rest) {
        Some(word) => word == b"league".as_slice(),
        None => false,
    }
}

fn schedule_cause(line: &[u8]) -> Option<Cause>
    ensures { result ≡ schedule_cause line.now }
{
    let mut rest = line;
    if next_word(&mut rest)? == b"round".as_slice() {
        round_cause(rest)
    } else {
        None
    }
}

fn round_cause(words: &[u8]) -> Option<Cause>
    ensures { result ≡ round_cause (words_of words.now) }
{
    let mut rest = words;
    match next_word(&mut rest) {
        Some(word) => numbered_cause(word, rest),
        None => Some(Cause::NoRound),
    }
}

fn numbered_cause(word: &[u8], words: &[u8]) -> Option<Cause>
    ensures { result ≡ numbered_cause word.now (words_of words.now) }
{
    match word {
        [digits @ .., b':'] => match number(digits) {
            Some(_) => games_cause(words),
            None => Some(Cause::NoNumber(quote(digits))),
        },
        _ => Some(Cause::NoColon(quote(word))),
    }
}

fn games_cause(words: &[u8]) -> Option<Cause>
    ensures { result ≡ games_cause (words_of words.now) }
{
    let word = first_no_game(words)?;
    Some(Cause::NoGame(quote(word)))
}

/// The first of the words that is no game `H-A`.
fn first_no_game(words: &[u8]) -> Option<&[u8]>
    ensures { option_map (λ word. word.now) result ≡ first_no_game (words_of words.now) }
{
    let mut rest = words;
    while let Some(word) = next_word(&mut rest) {
        if !is_game(word) {
            return Some(word);
        }
    }
    None
}

/// Whether the word is two numbers with a dash between them.
fn is_game(word: &[u8]) -> bool
    ensures { result ≡ is_some (game_of_word 0 word.now) }
{
    match numbers_at_dash(word) {
        (Some(_), Some(_)) => true,
        _ => false,
    }
}
