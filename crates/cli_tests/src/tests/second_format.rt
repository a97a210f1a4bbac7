//! Leagues of format 2. Schedules and costs were worked by hand from the Berger table of four teams.

use crate::tests::circle::{FIRST, FOUR, SECOND, SHEET};
use crate::tests::samples::SCRIPT;
use crate::tests::told::Text::{Excerpt, Whole};
use crate::tests::told::{Case, Command, NOTHING, PLAY_OF_1024, WRITTEN, check_case, check_cases};
use commands::ProgramFault::League;
use league::Field;
use league::LeagueFault::{RuleClass, WrongKind};
use std::alloc::Global;
use std::process::Abort;
use std::test::Fail;

/// The beginning of a league in a format that there isn't.
const FOURTH: &str = r#"{"format":4,"#;

const END: &str = "}";

const FIDE: &str = r#","start":"fide""#;

const FIDE_TWO_IN_A_ROW: &str = r#","start":"fide","at_most":2"#;

const FIDE_AND_PHASED: &str = r#","start":"fide","phased":true"#;

const PHASED: &str = r#","phased":true"#;

const IN_STEP: &str =
    r#","rules":[{"class":"FA2","kind":"soft","weight":10,"teams":[1,2,3,4],"intp":1}]"#;

const FIDE_IN_STEP: &str =
    r#","start":"fide","rules":[{"class":"FA2","kind":"hard","teams":[1,2,3,4],"intp":1}]"#;

const FIDE_SHEET: &str = "league 4 teams 6 rounds\n\
    team 1 HAHAAH T1\nteam 2 HHAAHA T2\nteam 3 AHAHHA T3\nteam 4 AAHHAH T4\n\
    round 1: 1-4 2-3\nround 2: 2-4 3-1\nround 3: 1-2 4-3\n\
    round 4: 3-2 4-1\nround 5: 2-1 3-4\nround 6: 1-3 4-2\n";

const STARTS: &[Case<'_>] = &[
    (
        Command::Start,
        &[FIRST, FOUR, END],
        WRITTEN,
        Whole(&[SHEET]),
    ),
    (
        Command::Start,
        &[FIRST, FOUR, FIDE, END],
        WRITTEN,
        Whole(&[SHEET]),
    ),
    (
        Command::Start,
        &[SECOND, FOUR, END],
        WRITTEN,
        Whole(&[SHEET]),
    ),
    (
        Command::Start,
        &[SECOND, FOUR, r#","start":"plain""#, END],
        WRITTEN,
        Whole(&[SHEET]),
    ),
    (
        Command::Start,
        &[SECOND, FOUR, FIDE, END],
        WRITTEN,
        Whole(&[FIDE_SHEET]),
    ),
    (
        Command::Start,
        &[SECOND, FOUR, FIDE_AND_PHASED, END],
        WRITTEN,
        Whole(&[FIDE_SHEET]),
    ),
];

#[test]
fn starts_stand_in_the_order_asked_for(rt: HostRuntime) -> Result<(), Fail> {
    check_cases(&rt, rt.alloc(), STARTS)
}

const REFUSED: &[Case<'_>] = &[
    (
        Command::Start,
        &[SECOND, FOUR, r#","start":"FIDE""#, END],
        Err(League(WrongKind(Field::Start))),
        NOTHING,
    ),
    (
        Command::Start,
        &[SECOND, FOUR, r#","phased":1"#, END],
        Err(League(WrongKind(Field::Phased))),
        NOTHING,
    ),
    (
        Command::Start,
        &[FOURTH, FOUR, END],
        Err(League(WrongKind(Field::Format))),
        NOTHING,
    ),
    (
        Command::Start,
        &[FIRST, FOUR, IN_STEP, END],
        Err(League(RuleClass(0))),
        NOTHING,
    ),
];

#[test]
fn leagues_are_refused_with_their_faults(rt: HostRuntime) -> Result<(), Fail> {
    check_cases(&rt, rt.alloc(), REFUSED)
}

/// A league of format 2 or 1 and a script, how the answer begins, and how it ends.
type Play<'a> = (&'a [&'a str], &'a str, &'a str);

/// Plays with the lines before the history and the last line.
const PLAYS: &[Play<'_>] = &[
    // the order of the start
    (
        &[SECOND, FOUR, FIDE, END, SCRIPT],
        "start travel 30 hard 0 soft 0\nhistory ",
        "best 30 at 0\n",
    ),
    (
        &[SECOND, FOUR, FIDE_TWO_IN_A_ROW, END, SCRIPT],
        "start travel 30 hard 0 soft 0\nhistory ",
        "best 30 at 0\n",
    ),
    (
        &[SECOND, FOUR, r#","at_most":2"#, END, SCRIPT],
        "start travel 30 hard 2 soft 0\nhistory ",
        "best none\n",
    ),
    (
        &[SECOND, FOUR, FIDE, END, SCRIPT, "rounds 2 3"],
        "start travel 30 hard 0 soft 0\ndone 1 travel 30 hard 0 soft 0\nhistory ",
        "best 30 at 0\n",
    ),
    // how far home games may be apart
    (
        &[SECOND, FOUR, IN_STEP, END, SCRIPT, "homes 1 2"],
        "start travel 30 hard 0 soft 10\ndone 1 travel 26 hard 0 soft 30\nhistory ",
        "best 40 at 0\n",
    ),
    (
        &[SECOND, FOUR, FIDE_IN_STEP, END, SCRIPT],
        "start travel 30 hard 1 soft 0\nhistory ",
        "best none\n",
    ),
    // phases
    (
        &[SECOND, FOUR, END, SCRIPT, "rounds 3 4"],
        "start travel 30 hard 0 soft 0\ndone 1 travel 26 hard 0 soft 0\nhistory ",
        "best 26 at 1\n",
    ),
    (
        &[SECOND, FOUR, PHASED, END, SCRIPT, "rounds 3 4\nundo"],
        "start travel 30 hard 0 soft 0\ndone 1 travel 26 hard 4 soft 0\ndone 2 travel 30 hard 0 soft 0\nhistory ",
        "best 30 at 0\n",
    ),
    (
        &[SECOND, FOUR, PHASED, END, SCRIPT, "slack 0\nrounds 3 4"],
        "start travel 30 hard 0 soft 0\nslack 0\nno 0 worse\nhistory ",
        "best 30 at 0\n",
    ),
    (
        &[SECOND, FOUR, PHASED, END, SCRIPT, "rounds 1 2"],
        "start travel 30 hard 0 soft 0\ndone 1 travel 28 hard 0 soft 0\nhistory ",
        "best 28 at 1\n",
    ),
    (
        &[SECOND, FOUR, FIDE_AND_PHASED, END, SCRIPT],
        "start travel 30 hard 0 soft 0\nhistory ",
        "best 30 at 0\n",
    ),
    // the first format ignores both members
    (
        &[FIRST, FOUR, PHASED, END, SCRIPT, "rounds 3 4"],
        "",
        "best 26 at 1\n",
    ),
];

fn check_play(rt: &impl Abort, alloc: Global, (input, first, last): Play<'_>) -> Result<(), Fail> {
    let text = Excerpt(first, &[], last);
    check_case(rt, alloc, &(PLAY_OF_1024, input, WRITTEN, text))
}

#[test]
fn scripts_have_known_answers(rt: HostRuntime) -> Result<(), Fail> {
    for &play in PLAYS {
        check_play(&rt, rt.alloc(), play)?;
    }
    Ok(())
}

/// Plays with a sheet that is the plain start's.
const SHEETS: &[Case<'_>] = &[
    // FIDE's order with its rounds 2 and 3 exchanged is the plain start
    (
        PLAY_OF_1024,
        &[SECOND, FOUR, FIDE, END, SCRIPT, "rounds 2 3"],
        WRITTEN,
        Excerpt("", &[SHEET], ""),
    ),
    // the first format ignores both members
    (
        PLAY_OF_1024,
        &[FIRST, FOUR, FIDE_AND_PHASED, END, SCRIPT],
        WRITTEN,
        Excerpt("", &[SHEET], ""),
    ),
];

#[test]
fn scripts_lead_to_the_plain_start(rt: HostRuntime) -> Result<(), Fail> {
    check_cases(&rt, rt.alloc(), SHEETS)
}
