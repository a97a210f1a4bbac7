//! The line that tells where a number of a league is wrong shows that number: with the fewest digits that read as it, those of Python's
//! `repr` but for the plus of an exponent, if it is no whole number of 64 bits.

use super::hints::{CIRCLE, TEAMS, check_hint};
use std::alloc::Global;
use std::process::Abort;
use std::test::Fail;

/// A number as it stands in a text, and as it is shown.
const NUMBERS: &[(&str, &str)] = &[
    ("3.5", "3.5"),
    ("2.50", "2.5"),
    ("0.1", "0.1"),
    ("3.0", "3.0"),
    ("1e3", "1000.0"),
    ("1.5E-1", "0.15"),
    ("-1", "-1"),
    ("-0.25", "-0.25"),
    ("-9223372036854775808", "-9223372036854775808"),
    ("99999999999999999999", "1e20"),
    ("18446744073709551616", "1.8446744073709552e19"),
    ("-99999999999999999999", "-1e20"),
    ("0.30000000000000004", "0.30000000000000004"),
    ("5e-324", "5e-324"),
    ("1.7976931348623157e308", "1.7976931348623157e308"),
];

/// The texts before a number and behind it, and those in the line.
type Case = ((&'static str, &'static str), (&'static str, &'static str));

const DISTANCES: &[Case] = &[
    (
        ("[[0,1,2,1],[1,0,1,2],[2,", ",0,1],[1,2,1,0]]"),
        (
            "see distances: row 3, column 2 is ",
            ", a whole number from 0 to 1000000 is wanted",
        ),
    ),
    (
        ("[[0,1,2,1],", ",[2,1,0,1],[1,2,1,0]]"),
        (
            "see distances: row 2 is ",
            ", an array of numbers is wanted",
        ),
    ),
];

const MEMBERS: &[Case] = &[
    (
        ("\"at_most\":", ""),
        (
            "see the league: member \"at_most\" is ",
            ", a whole number from 1 to 78 is wanted",
        ),
    ),
    (
        ("\"hard_weight\":", ""),
        (
            "see the league: member \"hard_weight\" is ",
            ", a whole number from 1 to 1000000 is wanted",
        ),
    ),
    (
        ("\"rules\":[", "]"),
        ("see rule 1: it is ", ", an object is wanted"),
    ),
    (
        (
            "\"rules\":[{\"class\":\"SE1\",\"kind\":\"soft\",\"teams\":[1],\"min\":1,\"weight\":",
            "}]",
        ),
        (
            "see rule 1: member \"weight\" is ",
            ", a whole number from 1 to 1000000 is wanted",
        ),
    ),
    (
        (
            "\"rules\":[{\"class\":\"SE1\",\"kind\":\"hard\",\"min\":1,\"teams\":[1,",
            "]}]",
        ),
        (
            "see rule 1: member \"teams\" has ",
            ", an array of team numbers from 1 to 4 is wanted",
        ),
    ),
    (
        (
            "\"rules\":[{\"class\":\"CA1\",\"kind\":\"hard\",\"teams\":[1],\"mode\":\"H\",\"max\":1,\"slots\":[",
            ",1]}]",
        ),
        (
            "see rule 1: member \"slots\" has ",
            ", an array of round numbers from 1 to 6 is wanted",
        ),
    ),
    (
        (
            "\"rules\":[{\"class\":\"CA1\",\"kind\":\"hard\",\"teams\":[1],\"mode\":\"H\",\"max\":",
            "}]",
        ),
        (
            "see rule 1: member \"max\" is ",
            ", a whole number from 0 to 10000 is wanted",
        ),
    ),
];

const NAMES: &[Case] = &[
    (
        ("[\"A\",", ",\"C\",\"D\"]"),
        (
            "see teams: number 2 is ",
            ", a string of 1 to 40 bytes without control bytes is wanted",
        ),
    ),
    (
        ("", ""),
        (
            "see the league: member \"teams\" is ",
            ", an array of strings is wanted",
        ),
    ),
];

/// Checks each number at the places. A text has the first before what stands at one, and the second behind it.
fn check_numbers(
    rt: &impl Abort,
    alloc: Global,
    text: (&str, &str),
    cases: &[Case],
) -> Result<(), Fail> {
    let (begin, end) = text;
    for &((before, behind), (words, wanted)) in cases {
        for &(number, shown) in NUMBERS {
            let text = format!(in alloc; "{begin}{before}{number}{behind}{end}")?;
            let line = format!(in alloc; "{words}{shown}{wanted}")?;
            check_hint(rt, alloc, text.as_str(), line.as_str())?;
        }
    }
    Ok(())
}

#[test]
fn wrong_distance_is_shown(rt: HostRuntime) -> Result<(), Fail> {
    check_numbers(&rt, rt.alloc(), (TEAMS, "}"), DISTANCES)
}

#[test]
fn wrong_number_of_a_member_is_shown(rt: HostRuntime) -> Result<(), Fail> {
    let begin = format!(in rt.alloc(); "{TEAMS}{CIRCLE},")?;
    check_numbers(&rt, rt.alloc(), (begin.as_str(), "}"), MEMBERS)
}

#[test]
fn number_in_place_of_names_is_shown(rt: HostRuntime) -> Result<(), Fail> {
    let text = ("{\"format\":1,\"teams\":", ",\"distances\":[]}");
    check_numbers(&rt, rt.alloc(), text, NAMES)
}
