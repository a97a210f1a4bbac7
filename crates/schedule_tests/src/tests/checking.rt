//! Moves that can be made, and moves that are refused.

use crate::tests::checks::check_same;
use fixtures::berger;
use moves::{Move, MoveFault, check};
use std::alloc::Global;
use std::process::Abort;
use std::test::Fail;

const GOOD_MOVES: &[Move] = &[
    Move::Homes { i: 0, j: 1 },
    Move::Rounds { k: 0, l: 5 },
    Move::Teams { i: 3, j: 0 },
    Move::PartRounds { i: 3, k: 5, l: 0 },
    Move::PartTeams { i: 0, j: 1, k: 0 },
    Move::PartTeams { i: 0, j: 1, k: 5 },
];

const BAD_MOVES: &[Move] = &[
    // of one team or round with itself
    Move::Homes { i: 0, j: 0 },
    Move::Rounds { k: 2, l: 2 },
    Move::PartRounds { i: 0, k: 2, l: 2 },
    Move::PartTeams { i: 0, j: 0, k: 1 },
    Move::Teams { i: 255, j: 255 },
    // of a team or a round that there isn't
    Move::Homes { i: 4, j: 0 },
    Move::Rounds { k: 0, l: 6 },
    Move::Teams { i: 0, j: 4 },
    Move::PartRounds { i: 4, k: 0, l: 1 },
    Move::PartTeams { i: 0, j: 1, k: 6 },
];

/// Exchanges of teams in a round in which they meet.
const MEETINGS: &[Move] = &[
    Move::PartTeams { i: 0, j: 1, k: 1 },
    Move::PartTeams { i: 0, j: 1, k: 4 },
    Move::PartTeams { i: 0, j: 2, k: 2 },
];

/// The answer to each of these moves on the start of four teams.
fn check_answers(
    rt: &impl Abort,
    alloc: Global,
    moves: &[Move],
    answer: Result<(), MoveFault>,
) -> Result<(), Fail> {
    let four = berger(alloc, 4)?;
    for &mv in moves {
        check_same(rt, &(mv, check(&four, mv)), &(mv, answer));
    }
    Ok(())
}

#[test]
fn moves_of_four_that_can_be_made(rt: HostRuntime) -> Result<(), Fail> {
    check_answers(&rt, rt.alloc(), GOOD_MOVES, Ok(()))
}

#[test]
fn bad_moves_of_four(rt: HostRuntime) -> Result<(), Fail> {
    check_answers(&rt, rt.alloc(), BAD_MOVES, Err(MoveFault::BadMove))
}

#[test]
fn teams_of_four_that_meet(rt: HostRuntime) -> Result<(), Fail> {
    check_answers(&rt, rt.alloc(), MEETINGS, Err(MoveFault::Meet))
}
