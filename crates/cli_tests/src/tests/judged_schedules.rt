//! Reports: what known schedules cost, a line for each kind of fault, and inputs that have no report. The expected lines are those of
//! scripts/parts/reports.py, which shares no code with the crates.

use crate::tests::circle::{CIRCLE, FIRST, FOUR, SHEET, THIRD};
use crate::tests::samples::{COST, JUDGED, REPORT};
use crate::tests::told::Text::Whole;
use crate::tests::told::{Case, Command, NOTHING, TEXT_REPORT, Text, check_case, check_cases};
use commands::ProgramFault::{League, NoSheet};
use commands::{Format, Verdict};
use league::LeagueFault::NotJson;
use std::test::Fail;

/// The lines of the start in another order, with other blanks and line ends.
const REORDERED: &str =
    "round 6: 4-2\r\nround\t6:  1-3 \r\nrounds 1 2\nround 5: 2-1 3-4\nround 4: 3-2 4-1\n\
    round 3: 2-4 3-1\nround 2: 1-2 4-3\nround 1:\nround 01: 1-4 2-3";

/// Homes of teams 1 and 2 exchanged, and then rounds 1 and 3.
pub(crate) const REPEATING: &str = "league 4 teams 6 rounds\n\
    team 1 AAHAHH T1\nteam 2 HHHAAA T2\nteam 3 HAAHHA T3\nteam 4 AHAHAH T4\n\
    round 1: 2-4 3-1\nround 2: 2-1 4-3\nround 3: 1-4 2-3\n\
    round 4: 3-2 4-1\nround 5: 1-2 3-4\nround 6: 1-3 4-2\n";

/// The cost of that, but for its first and last line.
pub(crate) const PARTS_OF_REPEATING: &str = "tour 1 travel 6\n\
    tour 2 travel 6\n\
    tour 3 travel 8\n\
    tour 4 travel 8\n\
    repeat 2-3 rounds 3 4\n\
    repeat 1-4 rounds 3 4\n";

/// Of these, what is told if repeats are free.
const TOURS_OF_REPEATING: &str = "tour 1 travel 6\n\
    tour 2 travel 6\n\
    tour 3 travel 8\n\
    tour 4 travel 8\n";

/// Repeats are free, and the end of the league.
pub(crate) const FREE: &str = r#","repeats":"free"}"#;

/// A phased league with one round in a row.
pub(crate) const PHASED: &str =
    r#"{"format":2,"teams":["T1","T2","T3","T4"],"phased":true,"at_most":1,
    "distances":[[0,1,2,1],[1,0,1,2],[2,1,0,1],[1,2,1,0]]}"#;

/// Rounds 3 and 4 of the start exchanged.
pub(crate) const HALVED: &str = "league 4 teams 6 rounds\n\
    team 1 HHAAAH T1\nteam 2 HAAHHA T2\nteam 3 AAHHHA T3\nteam 4 AHHAAH T4\n\
    round 1: 1-4 2-3\nround 2: 1-2 4-3\nround 3: 3-2 4-1\n\
    round 4: 2-4 3-1\nround 5: 2-1 3-4\nround 6: 1-3 4-2\n";

const COST_OF_HALVED: &str = "travel 26 hard 14 soft 0\n\
    tour 1 travel 4\n\
    tour 2 travel 8\n\
    tour 3 travel 8\n\
    tour 4 travel 6\n\
    run 1 home rounds 1-2 windows 1\n\
    run 1 away rounds 3-5 windows 2\n\
    run 2 away rounds 2-3 windows 1\n\
    run 2 home rounds 4-5 windows 1\n\
    run 3 away rounds 1-2 windows 1\n\
    run 3 home rounds 3-5 windows 2\n\
    run 4 home rounds 2-3 windows 1\n\
    run 4 away rounds 4-5 windows 1\n\
    half 1-3 rounds 6 4\n\
    half 2-3 rounds 1 3\n\
    half 1-4 rounds 1 3\n\
    half 2-4 rounds 4 6\n\
    infeasible\n";

/// A rule of each kind of weight, and the end of the league.
pub(crate) const RULES: &str = r#","rules":[
    {"class":"CA3","kind":"soft","weight":10,"teams1":[3],"mode":"H","intp":3,"max":2},
    {"class":"BR1","kind":"hard","teams":[1],"mode":"A","intp":0}]}"#;

const COST_UNDER_RULES: &str = "travel 30 hard 2 soft 10\n\
    tour 1 travel 6\n\
    tour 2 travel 8\n\
    tour 3 travel 8\n\
    tour 4 travel 8\n\
    rule 1 CA3 soft 10 deviation 1\n\
    over rule 1 team 3 rounds 3-5 by 1: 3-1 @ 3 3-2 @ 4 3-4 @ 5\n\
    rule 2 BR1 hard deviation 2\n\
    over rule 2 team 1 by 2: rounds 4 5\n\
    infeasible\n";

/// The start with a bad line, three games that are none, and a game that stands in another's place.
pub(crate) const DAMAGED: &str = "round 1: 1-4 2-3 3-3\n\
    round 2: 1-2 4-3\n\
    round 3: 2-4 3-1\n\
    round x: 1-2\n\
    round 4: 3-2 4-1\n\
    round 5: 2-1 3-4\n\
    round 6: 1-3 1-2\n\
    round 18446744073709551615: 5-1\n\
    round 0: 1-2\n";

pub(crate) const FAULTS: &str = "bad line 4\n\
    game 3-3 of round 1 is none\n\
    game 5-1 of round 18446744073709551615 is none\n\
    game 1-2 of round 0 is none\n\
    team 1 has 2 games in round 6\n\
    team 4 has no game in round 6\n\
    game 1-2 stands 2 times\n\
    game 4-2 is missing\n\
    no double round robin\n";

/// A schedule with faults, which are text whatever the format.
pub(crate) const DAMAGE: &[&str] = &[CIRCLE, JUDGED, DAMAGED];

pub(crate) const FAULTS_ALONE: Text<'_> = Whole(&[FAULTS]);

pub(crate) const FAULTY: Case<'_> = (
    TEXT_REPORT,
    DAMAGE,
    Ok(Some(Verdict::Infeasible)),
    FAULTS_ALONE,
);

/// A bad line behind the lines of the start, and what it is told.
const AFTER_A_BAD_LINE: Case<'_> = (
    TEXT_REPORT,
    &[CIRCLE, JUDGED, SHEET, "round 18446744073709551616: 1-2\n"],
    Ok(Some(Verdict::Infeasible)),
    Whole(&["bad line 12\n", "no double round robin\n"]),
);

/// The texts of an improvement: two sheets, each behind lines of its own, of which the first is damaged.
const AFTER_OTHER_SHEETS: Case<'_> = (
    TEXT_REPORT,
    &[
        CIRCLE,
        JUDGED,
        HALVED,
        DAMAGED,
        "history 0\nend\n",
        SHEET,
        "best 30 at 0\n",
    ],
    Ok(Some(Verdict::Feasible)),
    Whole(&[SHEET, COST]),
);

/// A bad line of the last sheet has its number in the whole text, in which HALVED has 11 lines.
const BAD_AFTER_ANOTHER_SHEET: Case<'_> = (
    TEXT_REPORT,
    &[CIRCLE, JUDGED, HALVED, SHEET, "# a note\nround x: 1-2\n"],
    Ok(Some(Verdict::Infeasible)),
    Whole(&["bad line 24\n", "no double round robin\n"]),
);

const CASES: &[Case<'_>] = &[
    (
        TEXT_REPORT,
        &[CIRCLE, JUDGED, REORDERED],
        Ok(Some(Verdict::Feasible)),
        Whole(&[SHEET, COST]),
    ),
    (
        TEXT_REPORT,
        &[CIRCLE, JUDGED, REPEATING],
        Ok(Some(Verdict::Infeasible)),
        Whole(&[
            REPEATING,
            "travel 28 hard 2 soft 0\n",
            PARTS_OF_REPEATING,
            "infeasible\n",
        ]),
    ),
    (
        TEXT_REPORT,
        &[THIRD, FOUR, FREE, JUDGED, REPEATING],
        Ok(Some(Verdict::Feasible)),
        Whole(&[
            REPEATING,
            "travel 28 hard 0 soft 0\n",
            TOURS_OF_REPEATING,
            "total 28\n",
        ]),
    ),
    (
        TEXT_REPORT,
        &[PHASED, JUDGED, HALVED],
        Ok(Some(Verdict::Infeasible)),
        Whole(&[HALVED, COST_OF_HALVED]),
    ),
    (
        TEXT_REPORT,
        &[FIRST, FOUR, RULES, JUDGED, SHEET],
        Ok(Some(Verdict::Infeasible)),
        Whole(&[SHEET, COST_UNDER_RULES]),
    ),
    FAULTY,
    AFTER_A_BAD_LINE,
    AFTER_OTHER_SHEETS,
    BAD_AFTER_ANOTHER_SHEET,
    (
        Command::Report(Format::Text),
        &[CIRCLE],
        Err(NoSheet),
        NOTHING,
    ),
    (
        Command::Report(Format::Text),
        &["sheet\n"],
        Err(League(NotJson)),
        NOTHING,
    ),
];

#[test]
fn report_of_a_start_is_its_sheet_and_cost(rt: HostRuntime) -> Result<(), Fail> {
    check_case(&rt, rt.alloc(), &REPORT)
}

#[test]
fn reports_name_what_costs_and_what_is_wrong(rt: HostRuntime) -> Result<(), Fail> {
    check_cases(&rt, rt.alloc(), CASES)
}
