//! Travel, streaks and repeats of whole schedules. The expected numbers were worked by hand from the Berger table of four
//! teams, and by `scripts/parts/model.py`.

use crate::tests::checks::check_same;
use crate::tests::small_leagues::{HOMES_EXCHANGED, Plan, league_of, schedule};
use fixtures::{Schedule, berger};
use league::{League, constant};
use league_json::read_league;
use moves::Move;
use std::alloc::Global;
use std::process::Abort;
use std::test::Fail;
use tours::{repeats, runs_over, travel, travel_of};

/// The travel of each of four teams.
type Tours = [u64; 4];

/// Travel, streaks and repeats.
type Costs = (u64, u64, u64);

fn tours_of(schedule: &Schedule, league: &League) -> Option<Tours> {
    if schedule.teams() != 4 || league.teams() != 4 {
        return None;
    }
    Some([
        travel_of(schedule, league, 0),
        travel_of(schedule, league, 1),
        travel_of(schedule, league, 2),
        travel_of(schedule, league, 3),
    ])
}

/// The costs, where the league has as many teams as the schedule.
fn costs_of(schedule: &Schedule, league: &League) -> Option<Costs> {
    if schedule.teams() != league.teams() {
        return None;
    }
    Some((
        travel(schedule, league),
        runs_over(schedule, league),
        repeats(schedule),
    ))
}

fn check_tours(rt: &impl Abort, alloc: Global, plan: Plan, tours: Tours) -> Result<(), Fail> {
    let schedule = schedule(alloc, plan)?;
    let found = tours_of(&schedule, &league_of(alloc, 3)?);
    check_same(rt, &(tours, found), &(tours, Some(tours)));
    Ok(())
}

/// Four teams in a circle that allows so many rounds in a row.
fn check_costs(
    rt: &impl Abort,
    alloc: Global,
    (plan, at_most): (Plan, u8),
    costs: Costs,
) -> Result<(), Fail> {
    let schedule = schedule(alloc, plan)?;
    let found = costs_of(&schedule, &league_of(alloc, at_most)?);
    check_same(rt, &(costs, found), &(costs, Some(costs)));
    Ok(())
}

const TEAMS_EXCHANGED: Plan = Plan::Moved(&[Move::Teams { i: 0, j: 1 }]);

const HOMES_AND_TEAMS_EXCHANGED: Plan = Plan::Moved(&[
    Move::Homes { i: 0, j: 1 },
    Move::Teams { i: 0, j: 1 },
]);

const TOURS: &[(Plan, Tours)] = &[
    (Plan::Berger(4), [6, 8, 8, 8]),
    (Plan::Fide(4), [8, 8, 8, 6]),
    (HOMES_EXCHANGED, [4, 6, 8, 8]),
    (TEAMS_EXCHANGED, [6, 6, 6, 8]),
    (HOMES_AND_TEAMS_EXCHANGED, [8, 4, 6, 8]),
    (Plan::Rounds(4, 5), [6, 6, 8, 8]),
];

#[test]
fn tours_of_each_of_four_teams(rt: HostRuntime) -> Result<(), Fail> {
    for &(plan, tours) in TOURS {
        check_tours(&rt, rt.alloc(), plan, tours)?;
    }
    Ok(())
}

/// How many rounds in a row are allowed, and the costs.
const COSTS: &[(Plan, u8, Costs)] = &[
    (Plan::Berger(4), 3, (30, 0, 0)),
    (Plan::Fide(4), 3, (30, 0, 0)),
    (HOMES_EXCHANGED, 3, (26, 0, 0)),
    (TEAMS_EXCHANGED, 3, (26, 0, 0)),
    (Plan::Rounds(4, 5), 3, (28, 0, 0)),
    (Plan::Rounds(1, 3), 3, (30, 0, 4)),
    (Plan::Rounds(0, 2), 3, (32, 0, 2)),
    (Plan::Berger(4), 1, (30, 6, 0)),
    (Plan::Berger(4), 2, (30, 2, 0)),
    (Plan::Berger(4), 5, (30, 0, 0)),
    (Plan::Berger(4), 6, (30, 0, 0)),
    (Plan::Berger(4), 78, (30, 0, 0)),
    (Plan::Fide(4), 2, (30, 0, 0)),
];

#[test]
fn costs_of_four_teams(rt: HostRuntime) -> Result<(), Fail> {
    for &(plan, at_most, costs) in COSTS {
        check_costs(&rt, rt.alloc(), (plan, at_most), costs)?;
    }
    Ok(())
}

fn check_start(rt: &impl Abort, alloc: Global, league: &League, costs: Costs) -> Result<(), Fail> {
    check_same(rt, &costs_of(&berger(alloc, 4)?, league), &Some(costs));
    Ok(())
}

#[test]
fn travel_at_one_distance(rt: HostRuntime) -> Result<(), Fail> {
    check_start(&rt, rt.alloc(), &constant(rt.alloc(), 4)?, (21, 0, 0))
}

/// A league of four teams, each as far from each other as a league allows.
const FAR: &str = r#"{"format":1,"teams":["T1","T2","T3","T4"],
        "distances":[[0,1000000,1000000,1000000],[1000000,0,1000000,1000000],[1000000,1000000,0,1000000],[1000000,1000000,1000000,0]]}"#;

#[test]
fn travel_at_the_largest_distance(rt: HostRuntime) -> Result<(), Fail> {
    let far = read_league(rt.alloc(), FAR.as_bytes())?;
    check_start(&rt, rt.alloc(), &far, (21_000_000, 0, 0))
}
