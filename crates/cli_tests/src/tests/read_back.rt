//! Reports as JSON, read back by a reader of JSON: parts of known schedules, worked by hand from the games and the lines of text.

use crate::tests::checks::check_holds;
use crate::tests::circle::{CIRCLE, FIRST, FOUR, SHEET, THIRD};
use crate::tests::formatted_reports::MARKED;
use crate::tests::judged_schedules::{FREE, HALVED, PHASED, REPEATING, RULES};
use crate::tests::labelled_reports::LABELLED;
use crate::tests::samples::JUDGED;
use crate::tests::told::{Command, tell};
use commands::Format;
use serde_json::Value;
use std::alloc::Global;
use std::process::Abort;
use std::str;
use std::test::Fail;

/// The parts of an input, and where the report on it has which value.
type Case<'a> = (&'a [&'a str], &'a [(&'a str, &'a str)]);

const READ_BACK: &[Case<'_>] = &[
    (
        &[MARKED, JUDGED, SHEET],
        &[
            (
                "/league",
                r#"{"at_most": 3, "free_repeats": false, "name": null, "phased": false, "round_texts": [], "short": [],
                "teams": ["a, b", "say \"c\"", "<script>d</script>", "\"' onload='&lt;"]}"#,
            ),
            (
                "/rounds/0",
                r#"[{"home": 1, "home_name": "a, b", "away": 4, "away_name": "\"' onload='&lt;", "start": 1},
                {"home": 2, "home_name": "say \"c\"", "away": 3, "away_name": "<script>d</script>", "start": 1}]"#,
            ),
            ("/runs", "[]"),
            ("/repeats", "[]"),
            ("/halves", "[]"),
            ("/rules", "[]"),
        ],
    ),
    (
        &[LABELLED, JUDGED, SHEET],
        &[(
            "/league",
            r#"{"at_most": 3, "free_repeats": true, "name": "Cup & <Plate>", "phased": false,
                "round_texts": ["7 March", "=8", "a, b", "<4>", "\"5\"", "6; 7"], "short": ["ONE", "TWO", "<3>", "4&"],
                "teams": ["T1", "T2", "T3", "T4"]}"#,
        )],
    ),
    (
        &[FIRST, FOUR, RULES, JUDGED, SHEET],
        &[
            (
                "/cost",
                r#"{"travel": 30, "hard": 2, "soft": 10, "near": 0, "moved": 0, "total": null, "feasible": false}"#,
            ),
            (
                "/rules/0",
                r#"{"rule": 1, "class": "CA3", "kind": "soft", "weight": 10, "deviation": 1, "breaches": [
                {"side": "over", "by": 1, "place": {"team": 3, "rounds": [3, 5]}, "games": [
                {"round": 3, "home": 3, "away": 1}, {"round": 4, "home": 3, "away": 2}, {"round": 5, "home": 3, "away": 4}]}]}"#,
            ),
            (
                "/rules/1",
                r#"{"rule": 2, "class": "BR1", "kind": "hard", "weight": null, "deviation": 2, "breaches": [
                {"side": "over", "by": 2, "place": {"team": 1}, "games": [
                {"round": 4, "home": 4, "away": 1}, {"round": 5, "home": 2, "away": 1}]}]}"#,
            ),
        ],
    ),
    (
        &[CIRCLE, JUDGED, REPEATING],
        &[
            (
                "/cost",
                r#"{"travel": 28, "hard": 2, "soft": 0, "near": 0, "moved": 6, "total": null, "feasible": false}"#,
            ),
            (
                "/repeats",
                r#"[{"teams": [2, 3], "rounds": [3, 4]}, {"teams": [1, 4], "rounds": [3, 4]}]"#,
            ),
            (
                "/tours/0",
                r#"{"team": 1, "travel": 6, "places": [3, 2, 1, 4, 1, 1]}"#,
            ),
            (
                "/rounds/0/1",
                r#"{"home": 3, "home_name": "T3", "away": 1, "away_name": "T1", "start": 3}"#,
            ),
        ],
    ),
    (
        &[THIRD, FOUR, FREE, JUDGED, REPEATING],
        &[
            (
                "/cost",
                r#"{"travel": 28, "hard": 0, "soft": 0, "near": 0, "moved": 6, "total": 28, "feasible": true}"#,
            ),
            ("/repeats", "[]"),
        ],
    ),
    (
        &[PHASED, JUDGED, HALVED],
        &[
            (
                "/league",
                r#"{"at_most": 1, "free_repeats": false, "name": null, "phased": true, "round_texts": [], "short": [],
                "teams": ["T1", "T2", "T3", "T4"]}"#,
            ),
            (
                "/runs/1",
                r#"{"team": 1, "side": "away", "first": 3, "last": 5, "windows": 2}"#,
            ),
            ("/runs/7/first", "4"),
            (
                "/halves",
                r#"[{"teams": [1, 3], "rounds": [6, 4]}, {"teams": [2, 3], "rounds": [1, 3]},
                {"teams": [1, 4], "rounds": [1, 3]}, {"teams": [2, 4], "rounds": [4, 6]}]"#,
            ),
        ],
    ),
];

/// At the path stands this value.
fn check_value(
    rt: &impl Abort,
    alloc: Global,
    report: &Value,
    (path, value): (&str, &str),
) -> Result<(), Fail> {
    let wanted = Value::from_str(alloc, value)?;
    let is_there = match report.pointer(path) {
        Some(found) => *found == wanted,
        None => false,
    };
    check_holds(rt, &path, is_there);
    Ok(())
}

/// The report has these values.
fn check_values(
    rt: &impl Abort,
    alloc: Global,
    report: &Value,
    values: &[(&str, &str)],
) -> Result<(), Fail> {
    for value in values {
        check_value(rt, alloc, report, *value)?;
    }
    Ok(())
}

/// The report is a line of JSON.
fn report_on(rt: &impl Abort, alloc: Global, parts: &[&str]) -> Result<Value, Fail> {
    let input = parts.concat(alloc)?;
    let told = tell(alloc, Command::Report(Format::Json), input.as_bytes())?;
    check_holds(rt, &"a line end", told.text.ends_with(b"}\n"));
    Ok(Value::from_str(alloc, str::from_utf8(&told.text)?)?)
}

#[test]
fn json_is_read_back(rt: HostRuntime) -> Result<(), Fail> {
    for (parts, values) in READ_BACK {
        let report = report_on(&rt, rt.alloc(), parts)?;
        check_values(&rt, rt.alloc(), &report, values)?;
    }
    Ok(())
}
