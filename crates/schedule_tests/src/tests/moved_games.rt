//! Games that have another round than at the start.

use crate::tests::checks::check_same;
use crate::tests::small_leagues::{Plan, circle_of_four, schedule};
use league::{League, circular};
use moves::Move;
use std::alloc::Global;
use std::process::Abort;
use std::test::Fail;
use tours::moved_games;

/// Plans of schedules of four teams, and how many of the games have another round than in the Berger table.
const FROM_BERGER: &[(Plan, u64)] = &[
    (Plan::Berger(4), 0),
    (Plan::Fide(4), 4),
    (Plan::Rounds(4, 5), 4),
    (Plan::Rounds(0, 2), 4),
    (Plan::Moved(&[Move::Homes { i: 0, j: 1 }]), 2),
    (
        Plan::Moved(&[Move::Homes { i: 0, j: 1 }, Move::Homes { i: 0, j: 1 }]),
        0,
    ),
    (
        Plan::Moved(&[Move::Rounds { k: 0, l: 1 }, Move::Rounds { k: 2, l: 3 }]),
        8,
    ),
];

/// In the schedule of the plan so many games are moved.
fn check_moved(
    rt: &impl Abort,
    alloc: Global,
    league: &League,
    (plan, wanted): (Plan, u64),
) -> Result<(), Fail> {
    let schedule = schedule(alloc, plan)?;
    assert!(rt; league.teams() == schedule.teams());
    check_same(rt, &moved_games(&schedule, league), &wanted);
    Ok(())
}

/// In the order of FIDE, the Berger table has other rounds 2 and 3.
#[test]
fn moved_games_from_the_order_of_fide(rt: HostRuntime) -> Result<(), Fail> {
    let league = circle_of_four(rt.alloc(), 2, ",\"start\":\"fide\"")?;
    check_moved(&rt, rt.alloc(), &league, (Plan::Berger(4), 4))?;
    check_moved(&rt, rt.alloc(), &league, (Plan::Fide(4), 0))
}

#[test]
fn moved_games_of_four(rt: HostRuntime) -> Result<(), Fail> {
    let league = circular(rt.alloc(), 4)?;
    for &case in FROM_BERGER {
        check_moved(&rt, rt.alloc(), &league, case)?;
    }
    Ok(())
}
