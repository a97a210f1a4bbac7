//! Rules that a change of some cells can reach, and rules that look past teams.

use crate::tests::checks::check_same;
use crate::tests::rule_leagues::league_with;
use fixtures::Touched;
use league::{Rule, SlotSet, TeamSet};
use rules::{looks_past, touches};
use std::alloc::Global;
use std::process::Abort;
use std::test::Fail;

#[derive(Clone, Copy)]
enum Question {
    /// Whether the rule is touched by team 1 in round 2.
    IsTouched,
    /// Whether the rule looks past teams 1 and 2.
    LooksPast,
}

/// With team 1 touched in round 2 alone, the first rule of each pair is touched, and the second isn't.
const TOUCHED: &[(&str, &str)] = &[
    (
        r#""class":"BR1","teams":[1],"mode":"H","slots":[3],"intp":0"#,
        r#""class":"CA1","teams":[1],"mode":"H","slots":[1],"max":1"#,
    ),
    (
        r#""class":"CA2","teams1":[1],"mode":"H","teams2":[3],"slots":[2],"max":1"#,
        r#""class":"CA2","teams1":[2],"mode":"H","teams2":[1],"slots":[2],"max":1"#,
    ),
    (
        r#""class":"CA3","teams1":[1],"mode":"H","intp":2,"max":1"#,
        r#""class":"CA3","teams1":[2],"mode":"H","intp":2,"max":1"#,
    ),
    (
        r#""class":"CA4","teams1":[1,2],"mode":"H","slots":[1,2],"mode2":"EVERY","max":1"#,
        r#""class":"CA4","teams1":[1,2],"mode":"H","slots":[3],"mode2":"EVERY","max":1"#,
    ),
    (
        r#""class":"GA1","games":[[2,3],[1,2]],"slots":[2],"min":0,"max":1"#,
        r#""class":"GA1","games":[[2,3],[2,1]],"slots":[2],"min":0,"max":1"#,
    ),
    (
        r#""class":"BR2","teams":[1],"slots":[2],"intp":0"#,
        r#""class":"BR2","teams":[1],"slots":[1],"intp":0"#,
    ),
    (
        r#""class":"SE1","teams":[1,2],"min":1"#,
        r#""class":"SE1","teams":[2,3],"min":1"#,
    ),
    (
        r#""class":"FA2","teams":[1,3],"slots":[3],"intp":0"#,
        r#""class":"FA2","teams":[1,3],"slots":[1],"intp":0"#,
    ),
    (
        r#""class":"FA2","teams":[1,3],"slots":[1,2],"intp":0"#,
        r#""class":"FA2","teams":[2,3],"slots":[1,2],"intp":0"#,
    ),
];

/// The first rule of each pair looks past teams 1 and 2, and the second doesn't.
const PASSED: &[(&str, &str)] = &[
    (
        r#""class":"CA1","teams":[3],"mode":"H","max":1"#,
        r#""class":"CA1","teams":[2,3],"mode":"H","max":1"#,
    ),
    (
        r#""class":"CA2","teams1":[3],"mode":"H","max":1"#,
        r#""class":"CA2","teams1":[3],"mode":"H","teams2":[1,4],"max":1"#,
    ),
    (
        r#""class":"CA3","teams1":[3],"mode":"H","teams2":[4],"intp":2,"max":1"#,
        r#""class":"CA3","teams1":[3],"mode":"H","teams2":[2],"intp":2,"max":1"#,
    ),
    (
        r#""class":"CA4","teams1":[3,4],"mode":"H","teams2":[1,2],"mode2":"EVERY","max":1"#,
        r#""class":"CA4","teams1":[1],"mode":"H","teams2":[1,2],"mode2":"EVERY","max":1"#,
    ),
    (
        r#""class":"GA1","games":[[3,4]],"min":0,"max":1"#,
        r#""class":"GA1","games":[[3,4],[3,1]],"min":0,"max":1"#,
    ),
    (
        r#""class":"BR1","teams":[4],"mode":"HA","intp":0"#,
        r#""class":"BR1","teams":[1],"mode":"HA","intp":0"#,
    ),
    (
        r#""class":"BR2","teams":[3,4],"intp":0"#,
        r#""class":"BR2","teams":[2,3],"intp":0"#,
    ),
    (
        r#""class":"SE1","teams":[3,4],"min":1"#,
        r#""class":"SE1","teams":[1,3],"min":1"#,
    ),
    (
        r#""class":"FA2","teams":[3,4],"intp":1"#,
        r#""class":"FA2","teams":[1,3],"intp":1"#,
    ),
];

fn answer(question: Question, rule: &Rule) -> bool {
    let touched = Touched {
        teams: TeamSet::below(1),
        rounds: SlotSet::empty().with(1),
    };
    match question {
        Question::IsTouched => touches(rule, touched),
        Question::LooksPast => looks_past(rule, TeamSet::below(2)),
    }
}

/// Of the rule, where a league of four teams has it.
fn answered(alloc: Global, question: Question, rule: &str) -> Result<Option<bool>, Fail> {
    let league = league_with(alloc, 4, rule)?;
    if league.rule_count() != 1 {
        return Ok(None);
    }
    Ok(Some(answer(question, league.rule(0))))
}

/// It is so with the first rule of each pair, and isn't with the second.
fn check_pairs(
    rt: &impl Abort,
    alloc: Global,
    question: Question,
    pairs: &[(&str, &str)],
) -> Result<(), Fail> {
    for &(rule, other) in pairs {
        let found = (
            answered(alloc, question, rule)?,
            answered(alloc, question, other)?,
        );
        check_same(rt, &(rule, found), &(rule, (Some(true), Some(false))));
    }
    Ok(())
}

#[test]
fn touched_rules(rt: HostRuntime) -> Result<(), Fail> {
    check_pairs(&rt, rt.alloc(), Question::IsTouched, TOUCHED)
}

#[test]
fn rules_that_look_past_two_teams(rt: HostRuntime) -> Result<(), Fail> {
    check_pairs(&rt, rt.alloc(), Question::LooksPast, PASSED)
}
