//! Leagues with one rule, and the deviations that are expected of schedules.

use crate::tests::checks::check_same;
use crate::tests::small_leagues::{Plan, schedule};
use fixtures::Schedule;
use league::League;
use league_json::read_league;
use rules::deviation;
use std::alloc::Global;
use std::process::Abort;
use std::test::Fail;

/// Rules, each with the deviation that is expected of a schedule. In a rule teams and rounds count from 1.
pub(crate) type Expected = &'static [(&'static str, u64)];

/// The JSON array of so many copies of an item.
fn array_of(alloc: Global, count: u8, item: &str) -> Result<String, Fail> {
    let mut text = format!(in alloc; "[{item}")?;
    for _ in 1..count {
        text.push_str(",")?;
        text.push_str(item)?;
    }
    text.push_str("]")?;
    Ok(text)
}

/// The distances of so many teams, all at one place.
fn distances(alloc: Global, teams: u8) -> Result<String, Fail> {
    let row = array_of(alloc, teams, "0")?;
    array_of(alloc, teams, &row)
}

/// The text of a league of so many teams, all at one place, with this rule alone.
fn text_with(alloc: Global, teams: u8, rule: &str) -> Result<String, Fail> {
    let names = array_of(alloc, teams, "\"T\"")?;
    let distances = distances(alloc, teams)?;
    Ok(format!(in alloc;
        "{{\"format\":2,\"teams\":{names},\"distances\":{distances},\"rules\":[{{\"kind\":\"hard\",{rule}}}]}}"
    )?)
}

pub(crate) fn league_with(alloc: Global, teams: u8, rule: &str) -> Result<League, Fail> {
    let text = text_with(alloc, teams, rule)?;
    Ok(read_league(alloc, text.as_bytes())?)
}

/// The deviation of the schedule from a league's only rule, if it has one rule and as many teams.
pub(crate) fn only_deviation(schedule: &Schedule, league: &League) -> Option<u64> {
    if league.teams() != schedule.teams() || league.rule_count() != 1 {
        return None;
    }
    Some(deviation(schedule, league.rule(0)))
}

/// Of one rule.
pub(crate) fn check_deviation(
    rt: &impl Abort,
    alloc: Global,
    schedule: &Schedule,
    (rule, count): (&str, u64),
) -> Result<(), Fail> {
    let league = league_with(alloc, schedule.teams(), rule)?;
    let found = only_deviation(schedule, &league);
    check_same(rt, &(rule, found), &(rule, Some(count)));
    Ok(())
}

/// Of each rule.
fn check_rules(
    rt: &impl Abort,
    alloc: Global,
    schedule: &Schedule,
    expected: Expected,
) -> Result<(), Fail> {
    for &case in expected {
        check_deviation(rt, alloc, schedule, case)?;
    }
    Ok(())
}

/// Of each schedule.
pub(crate) fn check_deviations(
    rt: &impl Abort,
    alloc: Global,
    cases: &[(Plan, Expected)],
) -> Result<(), Fail> {
    for &(plan, expected) in cases {
        check_rules(rt, alloc, &schedule(alloc, plan)?, expected)?;
    }
    Ok(())
}
