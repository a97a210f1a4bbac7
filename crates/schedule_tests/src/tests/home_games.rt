//! Home games in step. The expected deviations were counted by hand or, of 10 and 40 teams, by `deviation` of
//! `scripts/parts/model.py`.

use crate::tests::rule_leagues::{Expected, check_deviations};
use crate::tests::small_leagues::{self, Plan};
use std::test::Fail;

/// On the start of four teams: after round 2 team 1 has had two home games and team 3 none, and no others are ever
/// further apart than 1. All six pairs are apart by 1 at some time. After the last round each has had three.
const FOUR_TEAMS: Expected = &[
    (r#""class":"FA2","teams":[1,2,3,4],"intp":1"#, 1),
    (r#""class":"FA2","teams":[1,2,3,4],"intp":0"#, 7),
    (r#""class":"FA2","teams":[1,2,3,4],"intp":2"#, 0),
    (r#""class":"FA2","teams":[1,3],"slots":[2,6],"intp":1"#, 1),
    (r#""class":"FA2","teams":[1,2,3,4],"slots":[6],"intp":0"#, 0),
    (r#""class":"FA2","teams":[1,2,3,4],"slots":[],"intp":0"#, 0),
];

/// In FIDE's order: the pair is of teams 2 and 4.
const FIDE_ORDER: Expected = &[
    (r#""class":"FA2","teams":[1,2,3,4],"intp":1"#, 1),
    (r#""class":"FA2","teams":[2,4],"slots":[2],"intp":1"#, 1),
    (r#""class":"FA2","teams":[1,2,3],"intp":1"#, 0),
];

/// On the start with the homes of teams 1 and 2 exchanged team 2 is at home in rounds 1 to 3, and apart by 2 from each
/// other team.
const HOMES_EXCHANGED: Expected = &[
    (r#""class":"FA2","teams":[1,2,3,4],"intp":1"#, 3),
    (r#""class":"FA2","teams":[1,3,4],"intp":1"#, 0),
];

/// On the start of six teams the home games after each round are, of team 1, 1 2 2 3 3 3 3 4 4 5, of team 2
/// 1 1 2 3 3 3 4 4 4 5, of 3 1 1 2 2 3 3 4 4 5 5, of 4 0 0 1 1 2 3 4 4 5 5, of 5 0 1 1 1 2 3 3 4 5 5, and of 6
/// 0 1 1 2 2 3 3 4 4 5. So 1-4, 1-5, 2-4 and 2-5 are apart by 2 and the other eleven pairs by 1, but after round 1 only
/// the nine of one of 1 to 3 and one of 4 to 6.
const SIX_TEAMS: Expected = &[
    (r#""class":"FA2","teams":[1,2,3,4,5,6],"intp":1"#, 4),
    (r#""class":"FA2","teams":[1,2,3,4,5,6],"intp":0"#, 19),
    (
        r#""class":"FA2","teams":[1,2,3,4,5,6],"slots":[1],"intp":0"#,
        9,
    ),
    (r#""class":"FA2","teams":[1,4],"slots":[2,10],"intp":0"#, 2),
    (r#""class":"FA2","teams":[1,4],"slots":[3,10],"intp":0"#, 1),
    (r#""class":"FA2","teams":[1,2,5],"slots":[3,4],"intp":1"#, 2),
];

const TEN_TEAMS: Expected = &[
    (
        r#""class":"FA2","teams":[1,2,3,4,5,6,7,8,9,10],"intp":1"#,
        16,
    ),
    (
        r#""class":"FA2","teams":[1,5,10],"slots":[4,9,12],"intp":0"#,
        3,
    ),
    (
        r#""class":"FA2","teams":[1,2,3,4,5,6,7,8,9,10],"slots":[3,9,10,15],"intp":0"#,
        37,
    ),
    (
        r#""class":"FA2","teams":[1,2,3,4,5,6,7,8,9,10],"slots":[1],"intp":0"#,
        25,
    ),
    (
        r#""class":"FA2","teams":[1,2,3,4,5,6,7,8,9,10],"slots":[18],"intp":0"#,
        0,
    ),
    (r#""class":"FA2","teams":[],"intp":0"#, 0),
];

const FORTY_TEAMS: Expected = &[
    (r#""class":"FA2","teams":[1,20,21,40],"intp":0"#, 7),
    (
        r#""class":"FA2","teams":[1,20,21,40],"slots":[77,78],"intp":0"#,
        4,
    ),
];

const FOURS: &[(Plan, Expected)] = &[(Plan::Fide(4), FIDE_ORDER), (Plan::Berger(4), FOUR_TEAMS)];

#[test]
fn home_games_of_four(rt: HostRuntime) -> Result<(), Fail> {
    check_deviations(&rt, rt.alloc(), FOURS)
}

const MORE_TEAMS: &[(Plan, Expected)] = &[
    (Plan::Berger(6), SIX_TEAMS),
    (Plan::Berger(10), TEN_TEAMS),
    (Plan::Berger(40), FORTY_TEAMS),
];

#[test]
fn home_games_of_more_teams(rt: HostRuntime) -> Result<(), Fail> {
    check_deviations(&rt, rt.alloc(), MORE_TEAMS)
}

const AFTER_AN_EXCHANGE: &[(Plan, Expected)] = &[(small_leagues::HOMES_EXCHANGED, HOMES_EXCHANGED)];

#[test]
fn home_games_after_an_exchange(rt: HostRuntime) -> Result<(), Fail> {
    check_deviations(&rt, rt.alloc(), AFTER_AN_EXCHANGE)
}
