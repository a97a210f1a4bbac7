//! Texts that are cut, spoilt or nested too deep, and numbers past those that a word holds. The expected answers are
//! those of `serde_json` 1 for a `Value`, and of docs/league-format.md.

use crate::tests::league_texts::{FOUR_TEAMS, check_bytes, check_fault};
use league::Field;
use league::LeagueFault::{self, DistanceRange, MissingField, NotJson, RuleValue, WrongKind};
use std::alloc::{AllocError, Global};
use std::process::Abort;
use std::test::Fail;

#[test]
fn no_prefix_of_a_league_is_json(rt: HostRuntime) {
    let text = FOUR_TEAMS.as_bytes();
    for length in 0..text.len() {
        let prefix = &text[..length];
        check_bytes(&rt, rt.alloc(), prefix, Some(NotJson));
    }
}

/// The league of four teams with a byte 255 at an index.
fn spoilt(alloc: Global, index: usize) -> Result<Vec<u8>, Fail> {
    let mut text = Vec::from_slice(alloc, FOUR_TEAMS.as_bytes())?;
    *text.get_mut(index).ok_or("a byte")? = 255;
    Ok(text)
}

#[test]
fn a_byte_255_at_any_index_is_no_json(rt: HostRuntime) -> Result<(), Fail> {
    for index in 0..FOUR_TEAMS.len() {
        let text = spoilt(rt.alloc(), index)?;
        check_bytes(&rt, rt.alloc(), &text, Some(NotJson));
    }
    Ok(())
}

/// A league's first member, and another one with so many brackets one within the other.
fn nested(alloc: Global, brackets: usize, close: bool) -> Result<String, AllocError> {
    let opening = "[".repeat(alloc, brackets)?;
    let closing = "]".repeat(alloc, if close { brackets } else { 0 })?;
    format!(in alloc; "{{\"format\":1,\"x\":{opening}{closing}}}")
}

/// How many brackets, whether they are closed, and the fault. The object itself is a level too.
const NESTED: &[(usize, bool, LeagueFault)] = &[
    (126, true, MissingField(Field::Teams)),
    (127, true, NotJson),
    (200, true, NotJson),
    (200, false, NotJson),
    (100_000, false, NotJson),
];

#[test]
fn a_text_is_nested_at_most_127_levels_deep(rt: HostRuntime) -> Result<(), Fail> {
    for &(brackets, close, fault) in NESTED {
        let text = nested(rt.alloc(), brackets, close)?;
        check_fault(&rt, rt.alloc(), text.as_str(), Some(fault));
    }
    Ok(())
}

/// A text that is a league with the right number for `#`, numbers that are no such, and what each is answered.
type Case = (&'static str, &'static [&'static str], Option<LeagueFault>);

const FORMAT: &str =
    r##"{"format":#,"teams":["T1","T2","T3","T4"],"distances":[[0,1,2,1],[1,0,1,2],[2,1,0,1],[1,2,1,0]]}"##;

const DISTANCE: &str =
    r##"{"format":1,"teams":["T1","T2","T3","T4"],"distances":[[0,#,2,1],[1,0,1,2],[2,1,0,1],[1,2,1,0]]}"##;

/// Four teams on a circle with members more.
const MORE: &str =
    r#"{"format":1,"teams":["T1","T2","T3","T4"],"distances":[[0,1,2,1],[1,0,1,2],[2,1,0,1],[1,2,1,0]],"#;

const WRONG_VALUE: Option<LeagueFault> = Some(RuleValue(0));

/// Numbers that are 1 in 8, 32 or 64 bits, and the greatest of 64 bits.
const ONES: &[&str] = &[
    "257",
    "4294967297",
    "18446744073709551615",
    "18446744073709551617",
];

const THREES: &[&str] = &[
    "259",
    "4294967299",
    "18446744073709551615",
    "18446744073709551619",
];

/// The numbers past 32 bits, of these.
const FAR_THREES: &[&str] = &["4294967299", "18446744073709551615", "18446744073709551619"];

/// Numbers that are the right one in 8, 32 or 64 bits, and the greatest of 64 bits.
const CUT_NUMBERS: &[Case] = &[
    (FORMAT, ONES, Some(WrongKind(Field::Format))),
    (
        DISTANCE,
        &["4294967297", "18446744073709551615"],
        Some(DistanceRange),
    ),
    (
        DISTANCE,
        &["18446744073709551617"],
        Some(WrongKind(Field::Distances)),
    ),
    (r#""at_most":#}"#, THREES, Some(WrongKind(Field::AtMost))),
    (
        r#""hard_weight":#}"#,
        FAR_THREES,
        Some(WrongKind(Field::HardWeight)),
    ),
    (
        r#""rules":[{"class":"SE1","kind":"soft","weight":#,"teams":[1],"min":3}]}"#,
        FAR_THREES,
        WRONG_VALUE,
    ),
    (
        r#""rules":[{"class":"SE1","kind":"hard","teams":[#],"min":3}]}"#,
        ONES,
        WRONG_VALUE,
    ),
    (
        r#""rules":[{"class":"SE1","kind":"hard","teams":[1],"min":#}]}"#,
        FAR_THREES,
        WRONG_VALUE,
    ),
];

const WIDE: &[&str] = &[
    "18446744073709551616",
    "-1",
    "-9223372036854775809",
    "3.0",
    "3e0",
    "1e308",
];

const FAR: &[&str] = &["1e400", "-1e400"];

/// Numbers that are no whole ones of 64 bits, where such a one is wanted and where any is.
const OTHER_NUMBERS: &[Case] = &[
    (r#""at_most":#}"#, WIDE, Some(WrongKind(Field::AtMost))),
    (r#""note":#}"#, WIDE, None),
    (r#""at_most":#}"#, FAR, Some(NotJson)),
    (r#""note":#}"#, FAR, Some(NotJson)),
];

// the text with a number for its sign #
fn check_number(
    rt: &impl Abort,
    alloc: Global,
    text: &str,
    number: &str,
    fault: Option<LeagueFault>,
) -> Result<(), Fail> {
    let (before, after) = text.split_once('#').ok_or("a number sign")?;
    let start = if before.starts_with('{') { "" } else { MORE };
    let text = format!(in alloc; "{start}{before}{number}{after}")?;
    check_fault(rt, alloc, text.as_str(), fault);
    Ok(())
}

fn check_numbers(rt: &impl Abort, alloc: Global, cases: &[Case]) -> Result<(), Fail> {
    for &(text, numbers, fault) in cases {
        for &number in numbers {
            check_number(rt, alloc, text, number, fault)?;
        }
    }
    Ok(())
}

#[test]
fn numbers_past_their_bits_are_not_cut(rt: HostRuntime) -> Result<(), Fail> {
    check_numbers(&rt, rt.alloc(), CUT_NUMBERS)
}

#[test]
fn numbers_that_are_no_whole_ones_of_64_bits(rt: HostRuntime) -> Result<(), Fail> {
    check_numbers(&rt, rt.alloc(), OTHER_NUMBERS)
}
