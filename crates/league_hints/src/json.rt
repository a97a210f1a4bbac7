//! The JSON value of a league's text, or where it stops being JSON.

ghost use Rattle.std.specs.Prelude.{◌≡◌, ◌≤◌, ◌==◌, IfOk, MatchResult, Some, count_by, length, not};
ghost use Rattle.std.specs.Str.{is_utf8};
ghost use Rattle.serde_json.specs.View.{view};
ghost use Rattle.league_json.specs.Json.{json_of, only_if};
ghost use Rattle.league_hints.specs.Hints.{is_blank, line_past_utf8, place, IsNoJson};

use crate::hint::Hint;
use serde_json::{Category, Value};
use std::alloc::{AllocError, Global};
use std::str;

/// The value of a text, or where it stops being JSON.
pub(crate) fn json_of(alloc: Global, text: &[u8]) -> Result<Result<Value, Hint>, AllocError>
    ensures { IfOk result (λ reading. MatchResult reading (λ value. json_of text.now ≡ Some (view value)) (IsNoJson text.now)) }
{
    match Value::from_slice(alloc, text) {
        Ok(value) => Ok(Ok(value)),
        Err(error) => match error.classify() {
            Category::Memory => Err(AllocError),
            _ => Ok(Err(place(text, error.line(), error.column()))),
        },
    }
}

fn place(text: &[u8], line: usize, column: usize) -> Hint
    ensures { result ≡ place text.now line column }
{
    if is_blank(text) {
        return Hint::Blank;
    }
    if let Some(line) = line_past_utf8(text) {
        return Hint::NotUtf8(line);
    }
    if text.starts_with(&[0xEF, 0xBB, 0xBF]) {
        Hint::ByteOrderMark
    } else {
        Hint::Text { line, column }
    }
}

/// Whether the text has nothing but spaces and line ends.
fn is_blank(text: &[u8]) -> bool
    ensures { result ≡ is_blank text.now }
{
    text.iter().all(|b| *b == b' ' || *b == b'\t' || *b == b'\n' || *b == b'\r')
}

/// The line of the first byte that isn't UTF-8, if there is one.
fn line_past_utf8(text: &[u8]) -> Option<usize>
    ensures { result ≡ only_if (not (is_utf8 text.now)) (line_past_utf8 text.now) }
{
    match str::from_utf8(text) {
        Ok(_) => None,
        Err(error) => {
            let (valid, _) = text.split_at(error.valid_up_to());
            Some(1 + line_ends(valid))
        }
    }
}

fn line_ends(text: &[u8]) -> usize
    ensures count { result ≡ count_by (λ b. b == 10) text.now }
    ensures most { result ≤ length text.now }
{
    text.iter().filter(|b| **b == b'\n').count()
}
