//! Where the first fault of a league's text lies, what is seen there, and what is wanted.

ghost use Rattle.std.specs.Prelude.{◌≡◌, ◌++◌, []};
ghost use Rattle.std.specs.Fmt.{DisplaysOnOk, WritesOnOk};
ghost use Rattle.league_forms.specs.Forms.{float_of, form_words};
ghost use Rattle.league_forms.specs.Numerals.{stated, WritesWithNumeral};
ghost use Rattle.league_hints.specs.Lines.{bearer_words, float_seen, hint_float, hint_line, seen_words, value_line};
ghost use Rattle.league_hints.specs.Lines.{count_line, distances_line, fault_line, name_line};

use crate::place::{Place, RuleMember};
use crate::wanted::Wanted;
use league_forms::{Form, Quote};
use std::fmt;
use std::fmt::Display;

/// Where the first fault of a league's text lies. All is numbered from 1.
#[derive(Clone, Copy, Drop)]
pub enum Hint {
    /// The text stops being JSON at this line and column.
    Text {
        line: usize,
        column: usize,
    },
    /// The text has nothing but spaces and line ends.
    Blank,
    /// The text isn't UTF-8, from a byte on this line on.
    NotUtf8(usize),
    /// The text isn't JSON, and begins with a byte order mark.
    ByteOrderMark,
    /// This line ends with `script`, which has to stand on a line of its own.
    ScriptBehind(usize),
    /// The line of `sheet`.
    SheetBehind(usize),
    /// There are so many teams, and no league has as many.
    TeamCount(usize),
    /// The distances have another number of rows than there are teams.
    Rows {
        rows: usize,
        teams: usize,
    },
    /// The distance from one team to another isn't the one back.
    TwoDistances {
        from: usize,
        to: usize,
        there: u64,
        back: u64,
    },
    /// There are so many rules, and no league has as many.
    RuleCount(usize),
    /// This rule has the class that only the second format knows.
    SecondFormat(u16),
    /// This member of this rule lists a team by this name, and no team has it, or more than one.
    Name {
        rule: u16,
        member: RuleMember,
        name: Quote,
        is_shared: bool,
    },
    /// The form that is seen at this place isn't the one that is wanted there.
    Value(Place, Seen, Wanted),
}

/// The form that is seen at a place, and isn't wanted there.
#[derive(Clone, Copy, Drop)]
pub enum Seen {
    /// Nothing.
    Absent,
    /// This.
    Value(Form),
    /// An array with this.
    Item(Form),
    /// An array of so many items.
    Length(usize),
    /// This text, of so many bytes.
    Bytes(Quote, usize),
    /// This text, which has a control byte.
    ControlByte(Quote),
}

/// Writes the line, as `Display` has it.
impl fmt::Debug for Hint {
    fn fmt<W: fmt::Write>(&self, f: &mut fmt::Formatter<W>) -> fmt::Result {
        Display::fmt(self, f)
    }
}

/// Writes a line without its end, as `see distances: row 3, column 3 is 5, 0 is wanted`.
impl fmt::Display for Hint {
    ghost output = { λ hint. stated (hint_float hint) (hint_line [] hint) };

    fn fmt<W: fmt::Write>(&self, f: &mut fmt::Formatter<W>) -> fmt::Result
        ensures writes { DisplaysOnOk W.write_str_gives f.old result (stated (hint_float self.now) (hint_line [] self.now)) f.new }
        ensures numeral { WritesWithNumeral W.write_str_gives f.old result (hint_float self.now) (λ numeral. hint_line numeral self.now) f.new }
    {
        write_hint(f, *self)
    }
}

fn write_hint<W: fmt::Write>(f: &mut fmt::Formatter<W>, hint: Hint) -> fmt::Result
    ensures { WritesWithNumeral W.write_str_gives f.old result (hint_float hint) (λ numeral. hint_line numeral hint) f.new }
{
    match hint {
        Hint::Text { line, column } => write!(f, "see line {line}, column {column}"),
        Hint::Blank => f.write_str("see the text: it is empty"),
        Hint::NotUtf8(line) => write_fault(f, line, "it is no UTF-8"),
        Hint::ByteOrderMark => f.write_str("see line 1: it begins with a byte order mark"),
        Hint::ScriptBehind(line) => write_fault(
            f,
            line,
            "\"script\" has to stand on a line of its own",
        ),
        Hint::SheetBehind(line) => {
            write_fault(f, line, "\"sheet\" has to stand on a line of its own")
        }
        Hint::TeamCount(teams) => {
            write_count(f, "teams", teams, "an even number from 4 to 40 is")
        }
        Hint::Rows { rows, teams } => write!(f, "see distances: {rows} rows for {teams} teams"),
        Hint::TwoDistances {
            from,
            to,
            there,
            back,
        } => write_distances(f, from, to, there, back),
        Hint::RuleCount(rules) => write_count(f, "rules", rules, "at most 256 are"),
        Hint::SecondFormat(rule) => write!(f, "see rule {rule}: class FA2 needs \"format\": 2"),
        Hint::Name {
            rule,
            member,
            name,
            is_shared,
        } => write_name(f, Place::Member(rule, member), name, is_shared),
        Hint::Value(place, seen, wanted) => write_value(f, place, seen, wanted),
    }
}

/// Writes what is wrong with a line.
fn write_fault<W: fmt::Write>(f: &mut fmt::Formatter<W>, line: usize, fault: &str) -> fmt::Result
    ensures { WritesOnOk W.write_str_gives f.old result (fault_line line fault.now) f.new }
{
    write!(f, "see line {line}: {fault}")
}

/// Writes that there are so many of them, where others are wanted.
fn write_count<W: fmt::Write>(
    f: &mut fmt::Formatter<W>,
    counted: &str,
    count: usize,
    wanted: &str,
) -> fmt::Result
    ensures { WritesOnOk W.write_str_gives f.old result (count_line counted.now count wanted.now) f.new }
{
    write!(f, "see {counted}: {count} of them, {wanted} wanted")
}

fn write_distances<W: fmt::Write>(
    f: &mut fmt::Formatter<W>,
    from: usize,
    to: usize,
    there: u64,
    back: u64,
) -> fmt::Result
    ensures { WritesOnOk W.write_str_gives f.old result (distances_line from to there back) f.new }
{
    write!(
        f,
        "see distances: {from} to {to} is {there}, {to} to {from} is {back}"
    )
}

/// Writes the name that is listed at a place, and how many teams have it.
fn write_name<W: fmt::Write>(
    f: &mut fmt::Formatter<W>,
    place: Place,
    name: Quote,
    is_shared: bool,
) -> fmt::Result
    ensures { WritesOnOk W.write_str_gives f.old result (name_line place name is_shared) f.new }
{
    let bearers = bearer_words(is_shared);
    write!(f, "see {place} names {name}{bearers}")
}

fn bearer_words(is_shared: bool) -> &'static str
    ensures { result.now ≡ bearer_words is_shared }
{
    if is_shared {
        ", several teams are called so"
    } else {
        ", no team is called so"
    }
}

/// Writes what is seen at a place, and what is wanted there.
fn write_value<W: fmt::Write>(
    f: &mut fmt::Formatter<W>,
    place: Place,
    seen: Seen,
    wanted: Wanted,
) -> fmt::Result
    ensures { WritesWithNumeral W.write_str_gives f.old result (float_seen seen) (λ numeral. value_line numeral place seen wanted) f.new }
{
    write!(f, "see {place} ")?;
    write_seen(f, seen)?;
    write!(f, ", {wanted} is wanted")
}

/// Writes what the line has for it, as `is absent`.
fn write_seen<W: fmt::Write>(f: &mut fmt::Formatter<W>, seen: Seen) -> fmt::Result
    ensures { WritesWithNumeral W.write_str_gives f.old result (float_seen seen) (λ numeral. seen_words numeral seen) f.new }
{
    match seen {
        Seen::Absent => f.write_str("is absent"),
        Seen::Value(form) => write_form(f, "is ", form),
        Seen::Item(form) => write_form(f, "has ", form),
        Seen::Length(length) => write!(f, "has length {length}"),
        Seen::Bytes(quote, bytes) => write!(f, "{quote} has {bytes} bytes"),
        Seen::ControlByte(quote) => write!(f, "{quote} has a control byte"),
    }
}

/// Writes a form behind a word.
fn write_form<W: fmt::Write>(f: &mut fmt::Formatter<W>, word: &str, form: Form) -> fmt::Result
    ensures { WritesWithNumeral W.write_str_gives f.old result (float_of form) (λ numeral. word.now ++ form_words numeral form) f.new }
{
    f.write_str(word)?;
    form.fmt(f)
}
