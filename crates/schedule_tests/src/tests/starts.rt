//! The starts of leagues, against the Berger tables of FIDE.

use crate::tests::checks::{check_holds, check_same};
use crate::tests::number_sets::rounds_of;
use crate::tests::sheets::{FOUR, SIX, check_sheet};
use crate::tests::small_leagues::{Plan, circle_of_four, schedule};
use fixtures::{Schedule, berger};
use league::{League, circular};
use std::alloc::Global;
use std::process::Abort;
use std::test::Fail;

/// Four teams in the order of FIDE.
const FOUR_OF_FIDE: &str = "1: 1-4 2-3  2: 2-4 3-1  3: 1-2 4-3  4: 3-2 4-1  5: 2-1 3-4  6: 1-3 4-2";

/// Rounds 3 to 6 and 9 to 10 of six teams in the order of FIDE.
const SIX_OF_FIDE: &str = "3: 2-6 3-1 4-5  4: 3-6 4-2 5-1  5: 6-5 1-4 2-3  6: 6-1 5-2 4-3
    9: 5-6 4-1 3-2  10: 6-3 2-4 1-5";

/// Rounds 1 and 4 of the Berger table of ten teams.
const TEN: &str = "1: 1-10 2-9 3-8 4-7 5-6  4: 10-7 1-4 2-3 9-5 8-6";

/// How many teams and rounds the schedule has, and games of it.
fn check_start(
    rt: &impl Abort,
    alloc: Global,
    plan: Plan,
    size: (u8, u8),
    sheet: &str,
) -> Result<(), Fail> {
    let schedule = schedule(alloc, plan)?;
    check_same(rt, &(schedule.teams(), schedule.rounds()), &size);
    check_sheet(rt, alloc, &schedule, sheet)
}

#[test]
fn berger_start_of_four(rt: HostRuntime) -> Result<(), Fail> {
    check_start(&rt, rt.alloc(), Plan::Berger(4), (4, 6), FOUR)
}

#[test]
fn home_rounds_of_four(rt: HostRuntime) -> Result<(), Fail> {
    let rounds = berger(rt.alloc(), 4)?.home_rounds(0);
    check_same(&rt, &rounds, &rounds_of(&[0, 1, 5]));
    Ok(())
}

/// Whether these are the stops of the team.
fn has_stops(schedule: &Schedule, team: u8, stops: &[u8]) -> bool {
    if team >= schedule.teams() {
        return false;
    }
    for index in 0..schedule.rounds() + 2 {
        if stops.get(usize::from(index)).copied() != Some(schedule.stop(team, index)) {
            return false;
        }
    }
    stops.len() == usize::from(schedule.rounds()) + 2
}

/// The stops of the first and of the last of four teams, and those of the first with rounds 2 and 5 exchanged.
const STOPS_OF_FIRST: &[u8] = &[0, 0, 0, 2, 3, 1, 0, 0];

const STOPS_OF_LAST: &[u8] = &[3, 0, 3, 1, 3, 2, 3, 3];

const STOPS_EXCHANGED: &[u8] = &[0, 0, 1, 2, 3, 0, 0, 0];

fn check_stops(
    rt: &impl Abort,
    alloc: Global,
    plan: Plan,
    team: u8,
    stops: &[u8],
) -> Result<(), Fail> {
    let schedule = schedule(alloc, plan)?;
    check_holds(rt, &stops, has_stops(&schedule, team, stops));
    Ok(())
}

#[test]
fn stops_of_four(rt: HostRuntime) -> Result<(), Fail> {
    check_stops(&rt, rt.alloc(), Plan::Berger(4), 0, STOPS_OF_FIRST)?;
    check_stops(&rt, rt.alloc(), Plan::Berger(4), 3, STOPS_OF_LAST)?;
    check_stops(&rt, rt.alloc(), Plan::Rounds(1, 4), 0, STOPS_EXCHANGED)
}

/// The start of a league of so many teams.
fn check_start_of(
    rt: &impl Abort,
    alloc: Global,
    league: &League,
    teams: u8,
    sheet: &str,
) -> Result<(), Fail> {
    let start = league.start(alloc)?;
    check_same(rt, &start.teams(), &teams);
    check_sheet(rt, alloc, &start, sheet)
}

#[test]
fn start_of_a_league(rt: HostRuntime) -> Result<(), Fail> {
    let league = circular(rt.alloc(), 6)?;
    check_start_of(&rt, rt.alloc(), &league, 6, SIX)
}

#[test]
fn start_of_a_league_in_the_order_of_fide(rt: HostRuntime) -> Result<(), Fail> {
    let league = circle_of_four(rt.alloc(), 2, ",\"start\":\"fide\"")?;
    check_start_of(&rt, rt.alloc(), &league, 4, FOUR_OF_FIDE)
}

/// The second cycle of the Berger table of six teams.
const SECOND_OF_SIX: &str =
    "6: 6-1 5-2 4-3  7: 4-6 3-5 2-1  8: 6-2 1-3 5-4  9: 5-6 4-1 3-2  10: 6-3 2-4 1-5";

#[test]
fn berger_table_of_six(rt: HostRuntime) -> Result<(), Fail> {
    check_start(&rt, rt.alloc(), Plan::Berger(6), (6, 10), SIX)?;
    check_start(&rt, rt.alloc(), Plan::Berger(6), (6, 10), SECOND_OF_SIX)
}

#[test]
fn berger_table_of_ten(rt: HostRuntime) -> Result<(), Fail> {
    check_start(&rt, rt.alloc(), Plan::Berger(10), (10, 18), TEN)
}

#[test]
fn berger_table_in_the_order_of_fide(rt: HostRuntime) -> Result<(), Fail> {
    check_start(&rt, rt.alloc(), Plan::Fide(4), (4, 6), FOUR_OF_FIDE)?;
    check_start(&rt, rt.alloc(), Plan::Fide(6), (6, 10), SIX_OF_FIDE)
}

/// Some games of forty teams.
const FORTY: &str = "1: 1-40 20-21  2: 1-2  40: 40-1";

#[test]
fn berger_of_forty(rt: HostRuntime) -> Result<(), Fail> {
    check_start(&rt, rt.alloc(), Plan::Berger(40), (40, 78), FORTY)
}
