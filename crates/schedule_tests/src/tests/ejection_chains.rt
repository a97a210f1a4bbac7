//! The teams and the rounds that partial moves take along.

use crate::tests::checks::{check_holds, check_same};
use crate::tests::number_sets::{rounds_of, teams_of};
use crate::tests::small_leagues::{Plan, schedule};
use fixtures::{Schedule, berger};
use league::TeamSet;
use moves::{Move, check, moved_rounds, moved_teams};
use std::alloc::Global;
use std::process::Abort;
use std::test::Fail;

/// Whether just these teams exchange rounds `k` and `l` with `i`.
fn move_along(schedule: &Schedule, (i, k, l): (u8, u8, u8), teams: &[u8]) -> bool {
    let rounds = schedule.rounds();
    i < schedule.teams()
        && k < rounds
        && l < rounds
        && moved_teams(schedule, i, k, l) == teams_of(teams)
}

/// Whether `i` and `j` are exchanged in just these rounds with `k`.
fn are_exchanged_in(schedule: &Schedule, (i, j, k): (u8, u8, u8), rounds: &[u8]) -> bool {
    match check(schedule, Move::PartTeams { i, j, k }) {
        Ok(()) => moved_rounds(schedule, i, j, k) == rounds_of(rounds),
        Err(_) => false,
    }
}

/// Three numbers of a partial move, and the teams or rounds that it takes along.
type Case = ((u8, u8, u8), &'static [u8]);

/// On the start of so many teams.
fn check_sets(
    rt: &impl Abort,
    alloc: Global,
    size: u8,
    teams: &[Case],
    rounds: &[Case],
) -> Result<(), Fail> {
    let schedule = schedule(alloc, Plan::Berger(size))?;
    for &(numbers, teams) in teams {
        check_holds(rt, &numbers, move_along(&schedule, numbers, teams));
    }
    for &(numbers, rounds) in rounds {
        check_holds(rt, &numbers, are_exchanged_in(&schedule, numbers, rounds));
    }
    Ok(())
}

/// The last is of a round with itself.
const TEAMS_OF_FOUR: &[Case] = &[
    ((0, 0, 1), &[0, 1, 2, 3]),
    ((0, 0, 3), &[0, 3]),
    ((1, 5, 5), &[1, 3]),
];

const ROUNDS_OF_FOUR: &[Case] = &[((0, 1, 0), &[0, 2, 3, 5]), ((0, 2, 0), &[0, 4])];

#[test]
fn least_sets_of_four(rt: HostRuntime) -> Result<(), Fail> {
    check_sets(&rt, rt.alloc(), 4, TEAMS_OF_FOUR, ROUNDS_OF_FOUR)
}

const TEAMS_OF_TEN: &[Case] = &[((0, 0, 3), &[0, 3, 6, 9]), ((4, 0, 3), &[1, 2, 4, 5, 7, 8])];

const ROUNDS_OF_TEN: &[Case] = &[((0, 3, 4), &[1, 4, 16])];

const ROUNDS_OF_SIX: &[Case] = &[((0, 3, 0), &[0, 2, 6, 9])];

#[test]
fn least_sets_of_ten_and_six(rt: HostRuntime) -> Result<(), Fail> {
    check_sets(&rt, rt.alloc(), 10, TEAMS_OF_TEN, ROUNDS_OF_TEN)?;
    check_sets(&rt, rt.alloc(), 6, &[], ROUNDS_OF_SIX)
}

// Two rounds d apart of the first 39 fall into as many ejection chains as 39 and d have for their greatest common divisor. The
// rounds of teams 0 and 39 are those of `closed` in `scripts/parts/model.py`.

const TEAMS_OF_FORTY: &[Case] = &[
    (
        (0, 0, 3),
        &[0, 3, 6, 9, 12, 15, 18, 21, 24, 27, 30, 33, 36, 39],
    ),
    ((0, 26, 0), &[0, 13, 26, 39]),
    ((39, 0, 39), &[0, 39]),
];

const ROUNDS_OF_FORTY: &[Case] = &[
    ((0, 13, 0), &[0, 26, 39, 65]),
    ((0, 39, 1), &[1, 5, 11, 25, 41, 43, 47, 49, 55, 59, 61, 71]),
];

/// Rounds 0 and 1 are exchanged for all teams.
fn check_all_of_forty(rt: &impl Abort, alloc: Global) -> Result<(), Fail> {
    let teams = moved_teams(&berger(alloc, 40)?, 0, 0, 1);
    check_same(rt, &teams, &TeamSet::below(40));
    Ok(())
}

#[test]
fn least_sets_of_forty(rt: HostRuntime) -> Result<(), Fail> {
    check_all_of_forty(&rt, rt.alloc())?;
    check_sets(&rt, rt.alloc(), 40, TEAMS_OF_FORTY, ROUNDS_OF_FORTY)
}
