//! The line that tells which is the first bad line of a script or a schedule, and what is wrong with it.

use script_hints::{schedule_hint, script_hint};
use std::alloc::Global;
use std::process::Abort;
use std::test::Fail;

/// A text, and the line; none if no line of the text is bad.
type Case = (&'static str, &'static str);

const NO_WORD: &str =
    "none of homes, rounds, teams, part-rounds, part-teams, pin, unpin, undo, slack and try";

const SCRIPTS: &[Case] = &[
    ("", ""),
    (
        "# homes\n\n homes\t1 2\nrounds 1 2\nteams 1 2\npart-rounds 1 2 3\npart-teams 1 2 3\npin 1 2 3\nunpin 1 2 3\nundo\nslack 7\r\n",
        "",
    ),
    ("try homes 1 0\ntry part-teams 1 2 300", ""),
    ("homes 1", "see line 1: \"homes 1\": two teams are wanted"),
    (
        "undo\n\nhomes 1\nhomes",
        "see line 3: \"homes 1\": two teams are wanted",
    ),
    ("rounds", "see line 1: \"rounds\": two rounds are wanted"),
    (
        "teams 1 2 3",
        "see line 1: \"teams 1 2 3\": two teams are wanted",
    ),
    (
        "part-rounds 1 2",
        "see line 1: \"part-rounds 1 2\": a team and two rounds are wanted",
    ),
    (
        "part-teams 1 2 3 4",
        "see line 1: \"part-teams 1 2 3 4\": two teams and a round are wanted",
    ),
    (
        "pin 1 2",
        "see line 1: \"pin 1 2\": a round and two teams are wanted",
    ),
    (
        "unpin",
        "see line 1: \"unpin\": a round and two teams are wanted",
    ),
    ("undo 1", "see line 1: \"undo 1\": nothing more is wanted"),
    ("slack", "see line 1: \"slack\": one number is wanted"),
    (
        "homes 1 b 3",
        "see line 1: \"homes 1 b 3\": \"b\" is no whole number of 64 bits",
    ),
    (
        "slack 18446744073709551616",
        "see line 1: \"slack 18446744073709551616\": \"18446744073709551616\" is no whole number of 64 bits",
    ),
    ("slack 18446744073709551615", ""),
    (
        "slack -1",
        "see line 1: \"slack -1\": \"-1\" is no whole number of 64 bits",
    ),
    ("try", "see line 1: \"try\": a move is wanted behind try"),
    (
        "try undo",
        "see line 1: \"try undo\": a move is wanted behind try",
    ),
    (
        "try homes 1",
        "see line 1: \"try homes 1\": two teams are wanted",
    ),
    ("undo\r", "see line 1: \"undo?\": \"undo?\" is @"),
    ("hommes 1 2", "see line 1: \"hommes 1 2\": \"hommes\" is @"),
    (
        "try Homes 1 2",
        "see line 1: \"try Homes 1 2\": \"Homes\" is @",
    ),
];

const SCHEDULES: &[Case] = &[
    ("", ""),
    (
        "league 4 teams 6 rounds\nteam 1 HHAAHA T1\nround 1: 1-4 2-3\nround 2:\nrounds 1\nbest 30 at 0\n",
        "",
    ),
    (
        "round 1 1-4 2-3",
        "see line 1: \"round 1 1-4 2-3\": \"1\" has no colon behind it",
    ),
    (
        "\nround",
        "see line 2: \"round\": a number and a colon are wanted behind round",
    ),
    (
        "round x: 1-4",
        "see line 1: \"round x: 1-4\": \"x\" is no whole number of 64 bits",
    ),
    (
        "round : 1-4",
        "see line 1: \"round : 1-4\": \"\" is no whole number of 64 bits",
    ),
    (
        "round 1: 1-4 2:3",
        "see line 1: \"round 1: 1-4 2:3\": \"2:3\" is no game H-A",
    ),
    (
        "round 1: 1-4 2-",
        "see line 1: \"round 1: 1-4 2-\": \"2-\" is no game H-A",
    ),
    (
        "round 1: 1 - 4",
        "see line 1: \"round 1: 1 - 4\": \"1\" is no game H-A",
    ),
    (
        "round 1: 1-4 2-3-1",
        "see line 1: \"round 1: 1-4 2-3-1\": \"2-3-1\" is no game H-A",
    ),
    // what stands before a later sheet doesn't count
    ("round 1\nleague 4 teams\nround 1: 1-4\n", ""),
    (
        "round 1\nleague 4 teams\nround 2\nround 3\n",
        "see line 3: \"round 2\": \"2\" has no colon behind it",
    ),
];

fn check_line(
    rt: &impl Abort,
    alloc: Global,
    found: Option<script_hints::LineHint>,
    line: &str,
) -> Result<(), Fail> {
    let found = match found {
        Some(hint) => format!(in alloc; "{hint}")?,
        None => String::new(alloc),
    };
    // an at sign stands for what is said of a word that begins no line
    let wanted = match line.strip_suffix("@") {
        Some(front) => format!(in alloc; "{front}{NO_WORD}")?,
        None => format!(in alloc; "{line}")?,
    };
    assert_eq!(rt; found.as_str(), wanted.as_str());
    Ok(())
}

#[test]
fn bad_line_of_a_script_is_explained(rt: HostRuntime) -> Result<(), Fail> {
    for &(script, line) in SCRIPTS {
        check_line(&rt, rt.alloc(), script_hint(script.as_bytes()), line)?;
    }
    Ok(())
}

#[test]
fn bad_line_of_a_schedule_is_explained(rt: HostRuntime) -> Result<(), Fail> {
    for &(schedule, line) in SCHEDULES {
        check_line(&rt, rt.alloc(), schedule_hint(schedule.as_bytes()), line)?;
    }
    Ok(())
}

#[test]
fn line_that_is_no_utf8_is_a_question_mark(rt: HostRuntime) -> Result<(), Fail> {
    let hint = script_hint(b"undo\nhomes \xff 2\n");
    let line = "see line 2: \"?\": \"?\" is no whole number of 64 bits";
    check_line(&rt, rt.alloc(), hint, line)
}
