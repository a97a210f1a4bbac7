//! Mistakes in a word that stands where an option wants a number.

use crate::tests::arguments::told;
use crate::tests::checks::check_same_of;
use crate::tests::told::missing;
use std::alloc::Global;
use std::process::Abort;
use std::test::Fail;

/// A command, its option, how help calls the option's number, and the range of it.
type Numbered<'a> = (&'a str, &'a str, &'a str, &'a str);

const ROOM: Numbered<'_> = ("play", "--room", "<N>", "0 to 1048576");

const WORKERS: Numbered<'_> = ("improve", "--workers", "<W>", "1 to 16");

const EFFORT: Numbered<'_> = ("improve", "--effort", "<E>", "0.001 to 1000000");

const SECONDS: Numbered<'_> = ("improve", "--seconds", "<S>", "1 to 1000000");

const STEPS: Numbered<'_> = ("search", "--steps", "<T>", "0 to 1000000");

const NEAR: Numbered<'_> = ("search", "--near", "<W>", "0 to 1000000");

const AT_MOST: Numbered<'_> = ("league", "--at-most", "<N>", "1 to 78");

const HARD_WEIGHT: Numbered<'_> = ("league", "--hard-weight", "<N>", "1 to 1000000");

/// Each option that wants a number.
const NUMBERED: &[Numbered<'_>] = &[
    ROOM,
    ("play", "--near", "<W>", "0 to 1000000"),
    WORKERS,
    ("improve", "--seed", "<S>", "0 to 18446744073709551615"),
    EFFORT,
    SECONDS,
    ("improve", "--near", "<W>", "0 to 1000000"),
    ("search", "--room", "<N>", "0 to 1048576"),
    ("search", "--workers", "<W>", "1 to 16"),
    ("search", "--seed", "<S>", "0 to 18446744073709551615"),
    STEPS,
    ("search", "--slack", "<X>", "0 to 18446744073709551615"),
    NEAR,
    ("report", "--near", "<W>", "0 to 1000000"),
    AT_MOST,
    HARD_WEIGHT,
];

/// Words that no option takes for a number.
const NO_NUMBERS: &[&str] = &["many", "-1", "-0", "1.5.5", "1e3", "99999999999999999999"];

/// Which numbers the option wants, before and behind their range.
fn wanted(option: &str) -> (&'static str, &'static str) {
    if option == "--effort" {
        ("a number from", "with at most three decimals is wanted")
    } else {
        ("a whole number from", "is wanted")
    }
}

/// The words that stand behind a command in its usage.
fn places(command: &str) -> &'static str {
    match command {
        "play" => "[LEAGUE] [SCRIPT]",
        "report" => "[LEAGUE] [SCHEDULE]",
        "league" => "[DISTANCES]",
        _ => "[LEAGUE]",
    }
}

fn check_told(rt: &impl Abort, alloc: Global, given: &[&str], wanted: &str) -> Result<(), Fail> {
    let text = told(alloc, given)?;
    check_same_of(rt, &given, &text.as_str(), &wanted);
    Ok(())
}

/// An option of each range, and numbers right below and above it, or between two that it takes.
const BEYOND: &[(Numbered<'_>, &str)] = &[
    (ROOM, "1048577"),
    (ROOM, "1.5"),
    (WORKERS, "0"),
    (WORKERS, "17"),
    (WORKERS, "1.0"),
    (EFFORT, "0"),
    (EFFORT, "0.000"),
    (EFFORT, "0.0010"),
    (EFFORT, "0.0005"),
    (EFFORT, "1.2345"),
    (EFFORT, "1000000.001"),
    (EFFORT, "1000001"),
    (SECONDS, "0"),
    (SECONDS, "1000001"),
    (SECONDS, "0.5"),
    (STEPS, "1000001"),
    (NEAR, "1000001"),
    (NEAR, "1.5"),
    (AT_MOST, "0"),
    (AT_MOST, "79"),
    (HARD_WEIGHT, "0"),
    (HARD_WEIGHT, "1.5"),
];

/// Words, and the part of their text that says what is wrong.
const PARTS: &[(&[&str], &str)] = &[
    // the first number that is wrong
    (
        &["ttp", "search", "--seed", "7", "--steps", "x", "--room=y"],
        "invalid value 'x' for '--steps <T>'",
    ),
    (
        &["ttp", "search", "--seed=7", "--steps", "3", "--room=-1"],
        "invalid value '-1' for '--room <N>'",
    ),
    // what is no number of the command is left to clap
    (
        &["ttp", "play", "--steps", "-1"],
        "unexpected argument '--steps' found",
    ),
    (&["ttp", "start", "-1"], "unexpected argument '-1' found"),
    (
        &["ttp", "search", "--from", "-1"],
        "unexpected argument '-1' found",
    ),
    (
        &["ttp", "search", "--", "--steps", "-1"],
        "unexpected argument '-1' found",
    ),
    (
        &["ttp", "search", "--steps", "3", "-1"],
        "unexpected argument '-1' found",
    ),
    (
        &["ttp", "search", "--steps", "many", "-1"],
        "unexpected argument '-1' found",
    ),
    (
        &["ttp", "search", "--steps"],
        "a value is required for '--steps <T>' but none was supplied",
    ),
    (
        &["ttp", "search", "--steps", "--slack", "3"],
        "a value is required for '--steps <T>' but none was supplied",
    ),
    // clap knows what is nearly right
    (
        &["ttp", "search", "--step", "3"],
        "tip: a similar argument exists: '--steps'",
    ),
    (
        &["ttp", "search", "--steps", "--worker", "3"],
        "tip: a similar argument exists: '--workers'",
    ),
    (
        &["ttp", "improv"],
        "tip: a similar subcommand exists: 'improve'",
    ),
];

#[test]
fn other_mistakes_have_claps_texts(rt: HostRuntime) -> Result<(), Fail> {
    for (given, part) in PARTS {
        let text = told(rt.alloc(), given)?;
        check_same_of(&rt, &text, &missing(text.as_str(), &[*part]), &None);
    }
    Ok(())
}
