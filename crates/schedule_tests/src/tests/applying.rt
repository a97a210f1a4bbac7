//! The schedules that moves make.

use crate::tests::checks::check_same;
use crate::tests::number_sets::teams_of;
use crate::tests::sheets::{games, games_in, games_of};
use crate::tests::small_leagues::{Plan, schedule};
use fixtures::{Game, Schedule, berger};
use league::SlotSet;
use moves::{Move, apply, check, exchange, touched};
use std::alloc::Global;
use std::process::Abort;
use std::test::Fail;

/// A move, its main teams, those that may change sides and the touched ones, and the games of its rounds after it.
type Effect = (Move, [&'static [u8]; 3], &'static str);

/// The teams, and the rounds, which are those of the touched cells.
fn check_said(rt: &impl Abort, start: &Schedule, (mv, teams, _): Effect) -> Result<(), Fail> {
    check(start, mv)?;
    let exchange = exchange(start, mv);
    let (main, touched) = (exchange.main(), touched(start, mv));
    check_same(rt, &(mv, main.rounds), &(mv, touched.rounds));
    let said = (main.teams, exchange.flipping(start), touched.teams);
    let [main, sides, touched] = teams;
    let wanted = (teams_of(main), teams_of(sides), teams_of(touched));
    check_same(rt, &(mv, said), &(mv, wanted));
    Ok(())
}

/// Just these games are those of the rounds.
fn check_rounds(
    rt: &impl Abort,
    alloc: Global,
    schedule: &Schedule,
    rounds: SlotSet,
    sheet: &str,
) -> Result<(), Fail> {
    let found = games_in(alloc, schedule, rounds)?;
    check_same(rt, &(sheet, found), &(sheet, games(alloc, sheet)?));
    Ok(())
}

/// Checks the schedule that the move makes, and that it tells the touched cells.
fn check_made(
    rt: &impl Abort,
    alloc: Global,
    mut schedule: Schedule,
    (mv, _, after): Effect,
) -> Result<(), Fail> {
    check(&schedule, mv)?;
    let touched = touched(&schedule, mv);
    check_same(rt, &(mv, apply(&mut schedule, mv)), &(mv, touched));
    check_rounds(rt, alloc, &schedule, touched.rounds, after)
}

fn check_effect(
    rt: &impl Abort,
    alloc: Global,
    start: &Schedule,
    effect: Effect,
) -> Result<(), Fail> {
    check_said(rt, start, effect)?;
    check_made(rt, alloc, start.duplicate(alloc)?, effect)
}

/// On the start of so many teams.
fn check_effects(
    rt: &impl Abort,
    alloc: Global,
    teams: u8,
    effects: &[Effect],
) -> Result<(), Fail> {
    let start = schedule(alloc, Plan::Berger(teams))?;
    for &effect in effects {
        check_effect(rt, alloc, &start, effect)?;
    }
    Ok(())
}

const OF_FOUR: &[Effect] = &[
    (
        Move::Homes { i: 0, j: 1 },
        [&[0, 1], &[0, 1], &[0, 1]],
        "2: 2-1 4-3  5: 1-2 3-4",
    ),
    (
        Move::Rounds { k: 4, l: 5 },
        [&[0, 1, 2, 3], &[0, 1, 2, 3], &[0, 1, 2, 3]],
        "5: 1-3 4-2  6: 2-1 3-4",
    ),
    (
        Move::Teams { i: 0, j: 1 },
        [&[0, 1], &[0, 1], &[0, 1, 2, 3]],
        "1: 1-3 2-4  3: 1-4 3-2  4: 3-1 4-2  6: 2-3 4-1",
    ),
];

#[test]
fn whole_moves_of_four(rt: HostRuntime) -> Result<(), Fail> {
    check_effects(&rt, rt.alloc(), 4, OF_FOUR)
}

const OF_TEN: &[Effect] = &[
    (
        Move::PartRounds { i: 0, k: 0, l: 3 },
        [&[0, 3, 6, 9], &[3, 9], &[0, 3, 6, 9]],
        "1: 1-4 2-9 3-8 5-6 10-7  4: 1-10 2-3 4-7 8-6 9-5",
    ),
    (
        Move::PartTeams { i: 0, j: 3, k: 4 },
        [&[0, 3], &[0, 3], &[0, 1, 3, 4, 7]],
        "2: 4-2 7-5 8-1 9-3 10-6  5: 1-2 3-10 5-4 6-9 7-8  17: 5-1 6-3 7-2 8-4 9-10",
    ),
];

/// All teams are touched.
const OF_SIX: &[Effect] = &[(
    Move::PartTeams { i: 0, j: 3, k: 0 },
    [&[0, 3], &[0, 3], &[0, 1, 2, 3, 4, 5]],
    "1: 2-5 3-1 4-6  3: 1-5 2-6 3-4  7: 1-6 2-4 3-5  10: 2-1 4-5 6-3",
)];

#[test]
fn partial_moves_of_ten_and_six(rt: HostRuntime) -> Result<(), Fail> {
    check_effects(&rt, rt.alloc(), 10, OF_TEN)?;
    check_effects(&rt, rt.alloc(), 6, OF_SIX)
}

/// The games of the start of four teams after the move.
fn games_after(alloc: Global, mv: Move) -> Result<Vec<Game>, Fail> {
    let mut schedule = berger(alloc, 4)?;
    check(&schedule, mv)?;
    apply(&mut schedule, mv);
    Ok(games_of(alloc, &schedule)?)
}

/// Partial moves of four teams: of all teams, in all rounds, of two teams that meet, in two rounds with the same opponents.
/// Beside each is the whole move that makes the same.
const WHOLE: &[(Move, Move)] = &[
    (
        Move::PartRounds { i: 0, k: 0, l: 1 },
        Move::Rounds { k: 0, l: 1 },
    ),
    (
        Move::PartTeams { i: 0, j: 1, k: 0 },
        Move::Teams { i: 0, j: 1 },
    ),
    (
        Move::PartRounds { i: 0, k: 0, l: 3 },
        Move::Homes { i: 0, j: 3 },
    ),
    (
        Move::PartTeams { i: 0, j: 2, k: 0 },
        Move::Rounds { k: 0, l: 4 },
    ),
];

fn check_whole(rt: &impl Abort, alloc: Global, moves: (Move, Move)) -> Result<(), Fail> {
    let (part, whole) = moves;
    let after_whole = games_after(alloc, whole)?;
    check_same(
        rt,
        &(moves, games_after(alloc, part)?),
        &(moves, after_whole),
    );
    Ok(())
}

#[test]
fn partial_moves_of_four_that_are_whole(rt: HostRuntime) -> Result<(), Fail> {
    for &moves in WHOLE {
        check_whole(&rt, rt.alloc(), moves)?;
    }
    Ok(())
}
