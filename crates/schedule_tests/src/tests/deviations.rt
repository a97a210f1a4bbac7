//! Deviations from rules. The expected ones were counted by hand, and by `deviation` of `scripts/parts/model.py`, which shares no
//! code with the crates.

use crate::tests::checks::check_same;
use crate::tests::rule_leagues::{Expected, check_deviations};
use crate::tests::small_leagues::{self, Plan};
use fixtures::berger;
use league::{Side, SlotSet};
use rules::breaks;
use std::alloc::Global;
use std::process::Abort;
use std::test::Fail;

/// The Berger start of four teams is 1-4 2-3, 1-2 4-3, 2-4 3-1, 4-1 3-2, 2-1 3-4, 4-2 1-3.
const START: Expected = &[
    (
        r#""class":"CA1","teams":[4],"mode":"A","slots":[1,3,5],"max":1"#,
        2,
    ),
    (
        r#""class":"CA4","teams1":[1,2],"mode":"H","teams2":[3,4],"slots":[1,6],"mode2":"GLOBAL","max":1"#,
        2,
    ),
    (
        r#""class":"CA4","teams1":[1,2],"mode":"H","teams2":[3,4],"slots":[1,6],"mode2":"EVERY","max":1"#,
        1,
    ),
    (r#""class":"BR1","teams":[1],"mode":"H","intp":0"#, 1),
    (r#""class":"BR1","teams":[1],"mode":"A","intp":0"#, 2),
    (
        r#""class":"BR1","teams":[1],"mode":"HA","slots":[2,3],"intp":0"#,
        1,
    ),
    (r#""class":"BR2","teams":[1,2,3,4],"intp":4"#, 2),
    (
        r#""class":"CA3","teams1":[3],"mode":"H","intp":3,"max":2"#,
        1,
    ),
    (r#""class":"SE1","teams":[1,4],"min":3"#, 1),
    (r#""class":"SE1","teams":[1,4],"min":2"#, 0),
    (
        r#""class":"CA2","teams1":[1],"mode":"A","teams2":[3,4],"slots":[3,4],"max":0"#,
        2,
    ),
    (
        r#""class":"GA1","games":[[1,2]],"slots":[2],"min":1,"max":1"#,
        0,
    ),
];

/// On the start with the homes of teams 1 and 2 exchanged.
const HOMES_EXCHANGED: Expected = &[
    (r#""class":"BR2","teams":[1,2,3,4],"intp":4"#, 6),
    (
        r#""class":"CA3","teams1":[3],"mode":"H","intp":3,"max":2"#,
        1,
    ),
    (r#""class":"SE1","teams":[1,4],"min":3"#, 1),
    (
        r#""class":"CA2","teams1":[1],"mode":"A","teams2":[3,4],"slots":[3,4],"max":0"#,
        2,
    ),
    (
        r#""class":"GA1","games":[[1,2]],"slots":[2],"min":1,"max":1"#,
        1,
    ),
];

/// On the start of four teams:
///
/// - CA4: in rounds 2 and 5 teams 1 and 2 meet, and each has the other as an opponent: 4 of at most 1 in all, and 2 of
///   at most 1 in each.
/// - CA2: team 1 meets 2 in round 2 and 3 in round 3: 2 of at most 1.
/// - CA3: team 1 meets 2 in rounds 2 and 5, so two of the windows of four rounds from 1, 2 and 3 have one such game and
///   the second has two: 1 over.
/// - GA1: the three games are in rounds 2, 5 and 1: 3 of at most 1.
const BOTH_SIDES: Expected = &[
    (
        r#""class":"CA4","teams1":[1,2],"mode":"HA","teams2":[1,2],"slots":[2,5],"mode2":"GLOBAL","max":1"#,
        3,
    ),
    (
        r#""class":"CA4","teams1":[1,2],"mode":"HA","teams2":[1,2],"slots":[2,5],"mode2":"EVERY","max":1"#,
        2,
    ),
    (
        r#""class":"CA2","teams1":[1],"mode":"HA","teams2":[2,3],"slots":[2,3,4],"max":1"#,
        1,
    ),
    (
        r#""class":"CA3","teams1":[1],"mode":"HA","teams2":[2],"intp":4,"max":1"#,
        1,
    ),
    (
        r#""class":"GA1","games":[[1,2],[2,1],[1,4]],"slots":[1,2,5],"min":0,"max":1"#,
        2,
    ),
];

/// At least one round between the two games, on the start with rounds 2 and 4 exchanged: four pairs, of which teams 1
/// and 4 are one, play them in a row.
const IN_A_ROW: Expected = &[
    (r#""class":"SE1","teams":[1,2,3,4],"min":1"#, 4),
    (r#""class":"SE1","teams":[1,4],"min":1"#, 1),
];

/// The start of six teams is 1-6 2-5 3-4, 6-4 5-3 1-2, 2-6 3-1 4-5, 6-5 1-4 2-3, 3-6 4-2 5-1, and the same with homes
/// exchanged. Team 6 is away in rounds 1, 3 and 5; team 1 is H H A H A A A H A H, with breaks in rounds 2, 6 and 7;
/// teams 1 and 6 meet in rounds 1 and 6.
const SIX_TEAMS: Expected = &[
    (
        r#""class":"CA1","teams":[6],"mode":"A","slots":[1,3,5],"max":1"#,
        2,
    ),
    (r#""class":"BR1","teams":[1],"mode":"HA","intp":1"#, 2),
    (r#""class":"BR1","teams":[1],"mode":"H","intp":0"#, 1),
    (
        r#""class":"CA3","teams1":[1],"mode":"A","intp":3,"max":2"#,
        1,
    ),
    (r#""class":"SE1","teams":[1,6],"min":5"#, 1),
];

/// Round 1 of the start of ten teams is 1-10 2-9 3-8 4-7 5-6, and round 4 is 10-7 1-4 2-3 9-5 8-6.
const TEN_TEAMS: Expected = &[
    (
        r#""class":"GA1","games":[[1,10],[10,7],[9,5]],"slots":[1,4],"min":0,"max":1"#,
        2,
    ),
    (
        r#""class":"CA4","teams1":[1,2,3],"mode":"H","teams2":[8,9,10],"slots":[1],"mode2":"EVERY","max":1"#,
        2,
    ),
    (
        r#""class":"CA4","teams1":[1,2,3,4],"mode":"HA","teams2":[3,4,5,6],"slots":[2,6,11],"mode2":"EVERY","max":2"#,
        2,
    ),
    (
        r#""class":"CA2","teams1":[10],"mode":"HA","teams2":[1,7],"slots":[1,4],"max":0"#,
        2,
    ),
    (
        r#""class":"CA3","teams1":[1,2,3,4,5,6,7,8,9,10],"mode":"HA","teams2":[1,2,3],"intp":5,"max":1"#,
        101,
    ),
    (
        r#""class":"CA3","teams1":[4],"mode":"A","intp":3,"max":1"#,
        9,
    ),
    (r#""class":"BR1","teams":[2,9,10],"mode":"A","intp":1"#, 1),
    (
        r#""class":"BR2","teams":[1,2,3,4,5,6,7,8,9,10],"slots":[2,3,4,5,6,7,8,9,10],"intp":3"#,
        13,
    ),
    (r#""class":"SE1","teams":[1,5,10],"min":9"#, 3),
];

/// On the start of ten teams too: no opponents and all others, windows as long as the season, and the last round.
const EDGES: Expected = &[
    (
        r#""class":"CA2","teams1":[3],"mode":"HA","teams2":[],"max":0"#,
        0,
    ),
    (
        r#""class":"CA2","teams1":[3],"mode":"H","teams2":[1,2,4,5,6,7,8,9,10],"max":4"#,
        5,
    ),
    (
        r#""class":"CA2","teams1":[3],"mode":"A","teams2":[3,5,10],"slots":[18,17,16,15,14,13,12,11],"max":0"#,
        1,
    ),
    (
        r#""class":"CA3","teams1":[1,2,3],"mode":"H","intp":18,"max":4"#,
        15,
    ),
    (
        r#""class":"CA3","teams1":[1,2,3],"mode":"A","teams2":[1,4,9],"intp":1,"max":0"#,
        8,
    ),
    (
        r#""class":"CA3","teams1":[10],"mode":"H","intp":17,"max":7"#,
        3,
    ),
    (
        r#""class":"CA1","teams":[1,2,3],"mode":"A","slots":[18],"max":0"#,
        0,
    ),
];

/// The longest season there is.
const FORTY_TEAMS: Expected = &[
    (r#""class":"CA1","teams":[1,2,40],"mode":"H","max":38"#, 3),
    (
        r#""class":"CA2","teams1":[40],"mode":"HA","teams2":[1,2,39],"max":4"#,
        2,
    ),
    (
        r#""class":"CA3","teams1":[40],"mode":"HA","intp":78,"max":70"#,
        8,
    ),
    (
        r#""class":"CA3","teams1":[1,40],"mode":"H","intp":2,"max":1"#,
        1,
    ),
    (
        r#""class":"CA3","teams1":[20],"mode":"HA","teams2":[40],"intp":40,"max":1"#,
        1,
    ),
    (r#""class":"SE1","teams":[1,40],"min":39"#, 1),
    (
        r#""class":"GA1","games":[[1,40],[40,21],[2,39],[40,1]],"slots":[1,2,40],"min":0,"max":0"#,
        4,
    ),
];

/// In all rounds of the longest season: all teams, of which 20 are at home in each round, half of them, and some against some.
const IN_MANY_SLOTS: Expected = &[
    (
        r#""class":"CA4","teams1":[1,2,3,4,5,6,7,8,9,10,11,12,13,14,15,16,17,18,19,20,
        21,22,23,24,25,26,27,28,29,30,31,32,33,34,35,36,37,38,39,40],"mode":"HA","mode2":"EVERY","max":0"#,
        3120,
    ),
    (
        r#""class":"CA4","teams1":[1,2,3,4,5,6,7,8,9,10,11,12,13,14,15,16,17,18,19,20,
        21,22,23,24,25,26,27,28,29,30,31,32,33,34,35,36,37,38,39,40],"mode":"HA","mode2":"EVERY","max":40"#,
        0,
    ),
    (
        r#""class":"CA4","teams1":[1,2,3,4,5,6,7,8,9,10,11,12,13,14,15,16,17,18,19,20,
        21,22,23,24,25,26,27,28,29,30,31,32,33,34,35,36,37,38,39,40],"mode":"H","mode2":"EVERY","max":19"#,
        78,
    ),
    (
        r#""class":"CA4","teams1":[1,2,3,4,5,6,7,8,9,10,11,12,13,14,15,16,17,18,19,20],"mode":"H","mode2":"EVERY","max":9"#,
        231,
    ),
    (
        r#""class":"CA4","teams1":[1,2,3,4,5,6,7,8,9,10,11,12,13,14,15,16,17,18,19,20],"mode":"A","mode2":"EVERY","max":10"#,
        190,
    ),
    (
        r#""class":"CA4","teams1":[1,4,7,10,13,16,19,22,25,28,31,34,37,40],"mode":"A","teams2":[1,2,3,5,7,9],"mode2":"EVERY","max":1"#,
        32,
    ),
];

type Cases = &'static [(Plan, Expected)];

const OF_THE_START: Cases = &[(Plan::Berger(4), START), (Plan::Berger(4), BOTH_SIDES)];

#[test]
fn deviations_of_the_start(rt: HostRuntime) -> Result<(), Fail> {
    check_deviations(&rt, rt.alloc(), OF_THE_START)
}

const AFTER_HOMES: Cases = &[(small_leagues::HOMES_EXCHANGED, HOMES_EXCHANGED)];

#[test]
fn deviations_after_an_exchange_of_homes(rt: HostRuntime) -> Result<(), Fail> {
    check_deviations(&rt, rt.alloc(), AFTER_HOMES)
}

const AFTER_ROUNDS: Cases = &[(Plan::Rounds(1, 3), IN_A_ROW)];

#[test]
fn deviations_of_games_in_a_row(rt: HostRuntime) -> Result<(), Fail> {
    check_deviations(&rt, rt.alloc(), AFTER_ROUNDS)
}

const MORE_TEAMS: Cases = &[
    (Plan::Berger(6), SIX_TEAMS),
    (Plan::Berger(10), TEN_TEAMS),
    (Plan::Berger(10), EDGES),
    (Plan::Berger(40), FORTY_TEAMS),
    (Plan::Berger(40), IN_MANY_SLOTS),
];

#[test]
fn deviations_of_more_teams(rt: HostRuntime) -> Result<(), Fail> {
    check_deviations(&rt, rt.alloc(), MORE_TEAMS)
}

/// A side, and the breaks of team 1 on it.
type Breaks = (Side, u32);

/// In all rounds of the start of four teams.
const BREAKS: &[Breaks] = &[(Side::Home, 1), (Side::Away, 2), (Side::Any, 3)];

const IN_FIRST_ROUND: &[Breaks] = &[(Side::Any, 0)];

fn check_breaks(
    rt: &impl Abort,
    alloc: Global,
    slots: SlotSet,
    cases: &[Breaks],
) -> Result<(), Fail> {
    let start = berger(alloc, 4)?;
    for &(side, count) in cases {
        check_same(rt, &(side, breaks(&start, 0, slots, side)), &(side, count));
    }
    Ok(())
}

#[test]
fn breaks_of_the_start(rt: HostRuntime) -> Result<(), Fail> {
    check_breaks(&rt, rt.alloc(), SlotSet::below(6), BREAKS)
}

#[test]
fn no_break_in_the_first_round(rt: HostRuntime) -> Result<(), Fail> {
    check_breaks(&rt, rt.alloc(), SlotSet::below(1), IN_FIRST_ROUND)
}
