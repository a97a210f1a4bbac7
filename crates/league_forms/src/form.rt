//! The forms of JSON values, and how they are shown.

ghost use Rattle.std.specs.Prelude.{◌≡◌, [], Some};
ghost use Rattle.std.specs.Fmt.{DisplaysOnOk, WritesOnOk};
ghost use Rattle.std.specs.List.{flat_map};
ghost use Rattle.serde_json.specs.View.{view, items_view};
ghost use Rattle.league_forms.specs.Forms.{array_form, character_text, float_of, form_of, form_words, number_form, other_form, pair_form, quote_of};
ghost use Rattle.league_forms.specs.Forms.{quote_words};
ghost use Rattle.league_forms.specs.Numerals.{stated, WritesWithNumeral};

use crate::shown::shown_character;
use ryu::Buffer;
use serde_json::Value;
use std::fmt;

/// The most characters of a text that are shown.
const MOST_SHOWN: usize = 40;

/// The beginning of a text, with a question mark for each control byte.
#[derive(Clone, Copy, Drop)]
pub struct Quote {
    /// Its characters, and zeros behind them.
    characters: [char; 40],
    /// Whether the text goes on.
    is_cut: bool,
}

/// The form of a JSON value.
#[derive(Clone, Copy, Drop)]
pub enum Form {
    Null,
    Boolean(bool),
    /// A whole number of 64 bits.
    Whole(u64),
    /// A whole number below 0.
    Negative(i64),
    /// Another number, or the nearest one that there is.
    Float(f64),
    Text(Quote),
    /// An array of two whole numbers.
    Pair(u64, u64),
    /// Another array, of so many items.
    Array(usize),
    Object,
}

impl Quote {
    /// The beginning of this text.
    pub fn of(text: &str) -> Quote
        ensures { result ≡ quote_of text.now }
    {
        let mut characters = ['\0'; 40];
        let mut count = 0;
        for c in text.chars() {
            if count == MOST_SHOWN {
                return Quote {
                    characters,
                    is_cut: true,
                };
            }
            characters[count] = shown_character(c);
            count += 1;
        }
        Quote {
            characters,
            is_cut: false,
        }
    }
}

impl Form {
    /// The form of this value.
    pub fn of(value: &Value) -> Form
        ensures { result ≡ form_of (view value.now) }
    {
        match number_form(value) {
            Some(form) => form,
            None => other_form(value),
        }
    }
}

fn number_form(value: &Value) -> Option<Form>
    ensures { result ≡ number_form (view value.now) }
{
    if let Some(number) = value.as_u64() {
        return Some(Form::Whole(number));
    }
    if let Some(number) = value.as_i64() {
        return Some(Form::Negative(number));
    }
    value.as_f64().map(Form::Float)
}

/// The form of a value that is no number.
fn other_form(value: &Value) -> Form
    ensures { result ≡ other_form (view value.now) }
{
    if let Some(text) = value.as_str() {
        return Form::Text(Quote::of(text));
    }
    if let Some(items) = value.as_array() {
        return array_form(items);
    }
    if let Some(is_true) = value.as_bool() {
        return Form::Boolean(is_true);
    }
    if value.is_object() {
        Form::Object
    } else {
        Form::Null
    }
}

#[tactic(auto, using(league_json::proofs::Items::items_len_same))]
fn array_form(items: &[Value]) -> Form
    ensures { result ≡ array_form (items_view items.now) }
{
    match pair_form(items) {
        Some(pair) => pair,
        None => Form::Array(items.len()),
    }
}

#[tactic(auto, using(crate::proofs::Quotes::pair_form_none))]
fn pair_form(items: &[Value]) -> Option<Form>
    ensures { result ≡ pair_form (items_view items.now) }
{
    let [first, second] = items else {
        return None;
    };
    Some(Form::Pair(first.as_u64()?, second.as_u64()?))
}

/// Writes it as JSON has it, but for what is long: another number with the fewest digits that read back as it.
impl fmt::Display for Form {
    ghost output = { λ form. stated (float_of form) (form_words [] form) };

    fn fmt<W: fmt::Write>(&self, f: &mut fmt::Formatter<W>) -> fmt::Result
        ensures writes { DisplaysOnOk W.write_str_gives f.old result (stated (float_of self.now) (form_words [] self.now)) f.new }
        ensures numeral { WritesWithNumeral W.write_str_gives f.old result (float_of self.now) (λ numeral. form_words numeral self.now) f.new }
    {
        match *self {
            Form::Null => f.write_str("null"),
            Form::Boolean(true) => f.write_str("true"),
            Form::Boolean(false) => f.write_str("false"),
            Form::Whole(number) => write!(f, "{number}"),
            Form::Negative(number) => write!(f, "{number}"),
            Form::Float(number) => write_float(f, number),
            Form::Text(quote) => write!(f, "{quote}"),
            Form::Pair(first, second) => write!(f, "[{first}, {second}]"),
            Form::Array(length) => write!(f, "an array of length {length}"),
            Form::Object => f.write_str("an object"),
        }
    }
}

fn write_float<W: fmt::Write>(f: &mut fmt::Formatter<W>, number: f64) -> fmt::Result
    ensures { WritesWithNumeral W.write_str_gives f.old result (Some number) (λ numeral. numeral) f.new }
{
    f.write_str(Buffer::new().format(number))
}

/// Writes it between quotation marks.
impl fmt::Display for Quote {
    ghost output = { λ quote. Some (quote_words quote) };

    fn fmt<W: fmt::Write>(&self, f: &mut fmt::Formatter<W>) -> fmt::Result {
        let characters = Characters(&self.characters);
        let dots = if self.is_cut { ".." } else { "" };
        write!(f, "\"{characters}{dots}\"")
    }
}

/// Characters that are written, but for zeros.
#[derive(Clone, Copy)]
struct Characters<'a>(&'a [char]);

impl fmt::Display for Characters<'_> {
    ghost output = { λ characters. Some (flat_map character_text characters.0.now) };

    fn fmt<W: fmt::Write>(&self, f: &mut fmt::Formatter<W>) -> fmt::Result {
        for c in self.0 {
            write_character(f, *c)?;
        }
        Ok(())
    }
}

/// Writes a character, unless it is a zero.
fn write_character<W: fmt::Write>(f: &mut fmt::Formatter<W>, c: char) -> fmt::Result
    ensures { WritesOnOk W.write_str_gives f.old result (character_text c) f.new }
{
    if c == '\0' { Ok(()) } else { f.write_char(c) }
}
