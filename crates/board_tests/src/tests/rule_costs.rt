//! Costs of a league's limits and rules.

use crate::tests::answers::Answer::{self, Done};
use crate::tests::steps::Act::{Homes, Rounds, Undo};
use crate::tests::steps::Sight::{Best, Cost, NoBest, NoBestSchedule};
use crate::tests::steps::Step::{self, Do, See};
use crate::tests::steps::{LeagueCase, check_league_cases};

const SOFT_RULES: &str = r#""rules":[
    {"class":"BR2","kind":"soft","weight":10,"teams":[1,2,3,4],"intp":4},
    {"class":"CA3","kind":"soft","weight":10,"teams1":[3],"mode":"H","intp":3,"max":2},
    {"class":"SE1","kind":"soft","weight":10,"teams":[1,4],"min":3},
    {"class":"CA2","kind":"soft","weight":10,"teams1":[1],"mode":"A","teams2":[3,4],"slots":[3,4],"max":0},
    {"class":"GA1","kind":"soft","weight":10,"games":[[1,2]],"slots":[2],"min":1,"max":1}]"#;

/// Streaks make the start no best.
const STREAKS: &[Step] = &[
    See(Cost(30, 2, 0)),
    See(NoBest),
    See(NoBestSchedule),
    Do(Rounds(5, 6, Done(1, 28, 0))),
    Do(Undo(Done(2, 30, 2))),
    See(Best(1, 28)),
];

const WORSE: costs::Cost = costs::Cost {
    travel: 26,
    hard: 0,
    of_rules: 0,
    soft: 110,
};

/// Soft rules count in the total.
const SOFT: &[Step] = &[
    See(Cost(30, 0, 60)),
    Do(Homes(1, 2, Answer::Cost(1, WORSE))),
    See(Best(0, 90)),
];

const CASES: &[LeagueCase] = &[(1, "\"at_most\":2", STREAKS), (1, SOFT_RULES, SOFT)];

#[test]
fn limits_and_rules_cost(rt: HostRuntime) {
    check_league_cases(&rt, rt.alloc(), CASES);
}
