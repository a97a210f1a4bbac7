//! The parts of deviations that a move can alter.

use crate::tests::checks::check_same;
use crate::tests::rule_leagues::{check_deviation, league_with};
use fixtures::{Schedule, Touched, berger};
use league::{League, SlotSet, TeamSet};
use rules::{HomeCounts, deviation, deviation_part};
use std::alloc::Global;
use std::process::Abort;
use std::test::Fail;

/// On the start of six teams 1 and 2 meet in rounds 2 and 7. Of the first rule of each line an exchange of their homes
/// can alter what the second says, whose deviation is the number, as `deviation` of `scripts/parts/model.py` counts it.
const OF_HOMES: &[(&str, &str, u64)] = &[
    (
        r#""class":"CA1","teams":[1,2,3,4,5,6],"mode":"H","slots":[1,2,3],"max":0"#,
        r#""class":"CA1","teams":[1,2],"mode":"H","slots":[1,2,3],"max":0"#,
        4,
    ),
    (
        r#""class":"CA2","teams1":[1,2,3,4,5,6],"mode":"A","teams2":[1,2,5],"slots":[1,2,3,4,5,6],"max":0"#,
        r#""class":"CA2","teams1":[1,2],"mode":"A","teams2":[1,2,5],"slots":[1,2,3,4,5,6],"max":0"#,
        3,
    ),
    (
        r#""class":"CA2","teams1":[1,2,3,4,5,6],"mode":"A","teams2":[1,5],"slots":[2,3,4,5,6,10],"max":0"#,
        r#""class":"CA2","teams1":[1,2],"mode":"A","teams2":[1,5],"slots":[2,3,4,5,6,10],"max":0"#,
        3,
    ),
    (
        r#""class":"CA2","teams1":[1,2,3,4,5,6],"mode":"A","teams2":[1,5],"max":0"#,
        r#""class":"CA2","teams1":[],"mode":"A","teams2":[1,5],"max":0"#,
        0,
    ),
    (
        r#""class":"CA3","teams1":[1,2,3],"mode":"HA","intp":10,"max":4"#,
        r#""class":"CA3","teams1":[1,2],"mode":"HA","intp":10,"max":4"#,
        12,
    ),
    (
        r#""class":"CA4","teams1":[3,4],"mode":"H","mode2":"EVERY","max":0"#,
        r#""class":"CA4","teams1":[],"mode":"H","mode2":"EVERY","max":0"#,
        0,
    ),
    (
        r#""class":"CA4","teams1":[1,4],"mode":"HA","teams2":[2,6],"mode2":"GLOBAL","slots":[2,4,8,9],"max":0"#,
        r#""class":"CA4","teams1":[1,4],"mode":"HA","teams2":[2,6],"mode2":"GLOBAL","slots":[2,4,8,9],"max":0"#,
        2,
    ),
    (
        r#""class":"CA4","teams1":[1,4],"mode":"HA","teams2":[2,6],"mode2":"GLOBAL","slots":[2,4,7,9],"max":0"#,
        r#""class":"CA4","teams1":[],"mode":"HA","teams2":[2,6],"mode2":"GLOBAL","slots":[2,4,7,9],"max":0"#,
        0,
    ),
    (
        r#""class":"GA1","games":[[1,2],[3,1],[5,6]],"slots":[1,2,9,10],"min":0,"max":0"#,
        r#""class":"GA1","games":[[1,2],[3,1],[5,6]],"slots":[1,2,9,10],"min":0,"max":0"#,
        2,
    ),
    (
        r#""class":"GA1","games":[[1,2],[3,1],[5,6]],"slots":[1,2,7],"min":2,"max":2"#,
        r#""class":"GA1","games":[[1,2]],"slots":[1,2,7],"min":1,"max":1"#,
        0,
    ),
    (
        r#""class":"BR1","teams":[1,2,3,4],"mode":"HA","intp":0"#,
        r#""class":"BR1","teams":[1,2],"mode":"HA","intp":0"#,
        6,
    ),
    (
        r#""class":"BR2","teams":[1,2,3,4],"slots":[2,3,6,7],"intp":0"#,
        r#""class":"BR2","teams":[1,2,3,4],"slots":[2,3,6,7],"intp":0"#,
        7,
    ),
    (
        r#""class":"BR2","teams":[1,2,3,4],"slots":[2,3,6,7],"intp":2"#,
        r#""class":"BR2","teams":[1,2,3,4],"slots":[2,3,6,7],"intp":2"#,
        5,
    ),
    (
        r#""class":"BR2","teams":[1,2,3,4],"slots":[3,5,6,7],"intp":2"#,
        r#""class":"BR2","teams":[1,2,3,4],"slots":[3,5,6,7],"intp":2"#,
        3,
    ),
    (
        r#""class":"BR2","teams":[1,2,5,6],"slots":[3,5,6,7],"intp":2"#,
        r#""class":"BR2","teams":[1,2,5,6],"slots":[3,5,6,7],"intp":2"#,
        2,
    ),
    (
        r#""class":"SE1","teams":[1,2,3,4,5,6],"min":10"#,
        r#""class":"SE1","teams":[1,2],"min":10"#,
        6,
    ),
    (
        r#""class":"SE1","teams":[2,3,4],"min":10"#,
        r#""class":"SE1","teams":[],"min":10"#,
        0,
    ),
];

/// Of the pairs of the first rule such an exchange can alter those with team 1 or 2, whose worst gaps are the first number, and not those of the
/// second rule, whose are the second number.
const OF_PAIRS: &[(&str, &str, u64, u64)] = &[
    (
        r#""class":"FA2","teams":[1,2,3,4,5,6],"intp":0"#,
        r#""class":"FA2","teams":[3,4,5,6],"intp":0"#,
        13,
        6,
    ),
    (
        r#""class":"FA2","teams":[1,2,3,4,5,6],"intp":1"#,
        r#""class":"FA2","teams":[3,4,5,6],"intp":1"#,
        4,
        0,
    ),
    (
        r#""class":"FA2","teams":[1,3,4,6],"slots":[2,3,7],"intp":0"#,
        r#""class":"FA2","teams":[3,4,6],"slots":[2,3,7],"intp":0"#,
        4,
        3,
    ),
    (
        r#""class":"FA2","teams":[2,4,5,6],"slots":[2,3,7],"intp":0"#,
        r#""class":"FA2","teams":[4,5,6],"slots":[2,3,7],"intp":0"#,
        3,
        2,
    ),
];

/// Of these an exchange of teams 1 and 2 in all rounds but 2 and 7 can alter what the second says.
const OF_TEAMS: &[(&str, &str, u64)] = &[
    (
        r#""class":"CA1","teams":[1,2],"mode":"H","slots":[1,2,3,4],"max":1"#,
        r#""class":"CA1","teams":[1,2],"mode":"H","slots":[1,2,3,4],"max":1"#,
        4,
    ),
    (
        r#""class":"CA2","teams1":[1,2,3,4,5,6],"mode":"H","teams2":[1,3],"slots":[1,2,3,4,5],"max":0"#,
        r#""class":"CA2","teams1":[1,2,3,4,5,6],"mode":"H","teams2":[1,3],"slots":[1,2,3,4,5],"max":0"#,
        4,
    ),
    (
        r#""class":"CA2","teams1":[1,2,3,4,5,6],"mode":"H","teams2":[1,2],"slots":[1,2,3,4,5],"max":0"#,
        r#""class":"CA2","teams1":[1,2],"mode":"H","teams2":[1,2],"slots":[1,2,3,4,5],"max":0"#,
        1,
    ),
    (
        r#""class":"CA3","teams1":[1,2,3,4,5,6],"mode":"HA","teams2":[1,3],"intp":3,"max":1"#,
        r#""class":"CA3","teams1":[1,2,3,4,5,6],"mode":"HA","teams2":[1,3],"intp":3,"max":1"#,
        6,
    ),
    (
        r#""class":"CA3","teams1":[1,2,3,4,5,6],"mode":"HA","teams2":[1,2],"intp":3,"max":0"#,
        r#""class":"CA3","teams1":[1,2],"mode":"HA","teams2":[1,2],"intp":3,"max":0"#,
        10,
    ),
    (
        r#""class":"CA3","teams1":[3,4],"mode":"HA","teams2":[2,3,5],"intp":4,"max":1"#,
        r#""class":"CA3","teams1":[3,4],"mode":"HA","teams2":[2,3,5],"intp":4,"max":1"#,
        14,
    ),
    (
        r#""class":"CA4","teams1":[3,4],"mode":"HA","teams2":[1,5],"mode2":"GLOBAL","slots":[1,2,3,4],"max":1"#,
        r#""class":"CA4","teams1":[3,4],"mode":"HA","teams2":[1,5],"mode2":"GLOBAL","slots":[1,2,3,4],"max":1"#,
        3,
    ),
    (
        r#""class":"BR1","teams":[1,2],"mode":"HA","intp":0"#,
        r#""class":"BR1","teams":[1,2],"mode":"HA","intp":0"#,
        6,
    ),
];

/// The part of the deviation from a league's only rule that a change of these cells can alter, if these teams may change sides: counted, and
/// where the deviation is known.
fn part(
    schedule: &Schedule,
    league: &League,
    main: Touched,
    sides: TeamSet,
    counts: &mut HomeCounts,
) -> Option<(u64, u64)> {
    if league.teams() != schedule.teams() || league.rule_count() != 1 {
        return None;
    }
    let rule = league.rule(0);
    let known = Some(deviation(schedule, rule));
    let counted = deviation_part(schedule, rule, main, sides, None, counts);
    let told = deviation_part(schedule, rule, main, sides, known, counts);
    Some((counted, told))
}

/// The games of teams 1 and 2 with each other.
fn their_games() -> Touched {
    Touched {
        teams: TeamSet::below(2),
        rounds: SlotSet::empty().with(1).with(6),
    }
}

/// All other games of these two.
fn their_other_games() -> Touched {
    Touched {
        teams: TeamSet::below(2),
        rounds: SlotSet::below(10).difference(their_games().rounds),
    }
}

/// The part that a change of these games of teams 1 and 2 can alter.
fn check_part(
    rt: &impl Abort,
    alloc: Global,
    start: &Schedule,
    main: Touched,
    (rule, count): (&str, u64),
) -> Result<(), Fail> {
    let league = league_with(alloc, 6, rule)?;
    let found = part(start, &league, main, main.teams, &mut HomeCounts::new());
    check_same(rt, &(rule, found), &(rule, Some((count, count))));
    Ok(())
}

fn check_parts(
    rt: &impl Abort,
    alloc: Global,
    main: Touched,
    cases: &[(&str, &str, u64)],
) -> Result<(), Fail> {
    let start = berger(alloc, 6)?;
    for &(rule, altered, count) in cases {
        check_part(rt, alloc, &start, main, (rule, count))?;
        check_deviation(rt, alloc, &start, (altered, count))?;
    }
    Ok(())
}

#[test]
fn parts_of_an_exchange_of_homes(rt: HostRuntime) -> Result<(), Fail> {
    check_parts(&rt, rt.alloc(), their_games(), OF_HOMES)
}

#[test]
fn parts_of_pairs(rt: HostRuntime) -> Result<(), Fail> {
    let start = berger(rt.alloc(), 6)?;
    for &(rule, others, altered, kept) in OF_PAIRS {
        check_part(&rt, rt.alloc(), &start, their_games(), (rule, altered))?;
        check_deviation(&rt, rt.alloc(), &start, (others, kept))?;
        check_deviation(&rt, rt.alloc(), &start, (rule, altered + kept))?;
    }
    Ok(())
}

#[test]
fn parts_of_an_exchange_of_teams(rt: HostRuntime) -> Result<(), Fail> {
    check_parts(&rt, rt.alloc(), their_other_games(), OF_TEAMS)
}

#[test]
fn part_against_all_teams_is_of_sides(rt: HostRuntime) -> Result<(), Fail> {
    let rule = r#""class":"CA2","teams1":[1,2,3,4,5,6],"mode":"H","slots":[1,2,3],"max":0"#;
    let league = league_with(rt.alloc(), 6, rule)?;
    let start = berger(rt.alloc(), 6)?;
    let main = their_games();
    let sides = TeamSet::empty().with(0);
    let found = part(&start, &league, main, sides, &mut HomeCounts::new());
    check_same(&rt, &(rule, found), &(rule, Some((2, 2))));
    Ok(())
}
