//! Schedules read from lists of games, and copied.

use crate::tests::checks::{check_holds, check_same};
use crate::tests::sheets::{FOUR, SIX, check_sheet, games, games_of, has_games};
use crate::tests::small_leagues::{Plan, schedule};
use fixtures::{FixtureFault, Game, Schedule, berger, from_games};
use league::limits::{MAX_TEAMS, MIN_TEAMS};
use std::alloc::Global;
use std::process::Abort;
use std::test::Fail;

/// The schedule has so many teams and these games.
fn check_schedule(rt: &impl Abort, schedule: &Schedule, teams: u8, games: &[Game]) {
    let found = (schedule.teams(), u32::from(schedule.rounds()) + 2);
    check_same(rt, &found, &(teams, 2 * u32::from(teams)));
    check_holds(rt, &teams, has_games(schedule, games));
}

fn read(alloc: Global, teams: u8, games: &[Game]) -> Result<Schedule, Fail> {
    if teams < MIN_TEAMS || teams > MAX_TEAMS || teams % 2 != 0 {
        return Err("a number of teams".into());
    }
    Ok(from_games(alloc, teams, games)?)
}

/// The games of so many teams are read as a schedule with these games.
fn check_read(rt: &impl Abort, alloc: Global, teams: u8, games: &[Game]) -> Result<(), Fail> {
    let schedule = read(alloc, teams, games)?;
    check_schedule(rt, &schedule, teams, games);
    Ok(())
}

#[test]
fn games_in_reverse_order(rt: HostRuntime) -> Result<(), Fail> {
    let mut games = games(rt.alloc(), FOUR)?;
    games.reverse();
    check_read(&rt, rt.alloc(), 4, &games)
}

/// The games of each sheet, of which there are so many, are refused as no double round robin of four teams.
fn check_refused(
    rt: &impl Abort,
    alloc: Global,
    count: usize,
    sheets: &[&str],
) -> Result<(), Fail> {
    for sheet in sheets {
        let games = games(alloc, sheet)?;
        let fault = from_games(alloc, 4, &games).err();
        let wanted = (count, Some(FixtureFault::NotRoundRobin));
        check_same(rt, &(sheet, (games.len(), fault)), &(sheet, wanted));
    }
    Ok(())
}

const A_GAME_LEFT_OUT: &[&str] = &[
    "1: 1-4 2-3  2: 1-2 4-3  3: 2-4 3-1  4: 3-2 4-1  5: 2-1 3-4  6: 1-3",
];

#[test]
fn lists_of_too_few_games(rt: HostRuntime) -> Result<(), Fail> {
    check_refused(&rt, rt.alloc(), 0, &[""])?;
    check_refused(&rt, rt.alloc(), 11, A_GAME_LEFT_OUT)
}

const A_GAME_TWICE: &[&str] = &[
    "1: 1-4 2-3  2: 1-2 4-3  3: 2-4 3-1  4: 3-2 4-1  5: 2-1 3-4  6: 1-3 4-2  1: 1-4",
];

#[test]
fn list_with_a_game_twice(rt: HostRuntime) -> Result<(), Fail> {
    check_refused(&rt, rt.alloc(), 13, A_GAME_TWICE)
}

/// In each one game is replaced.
const WRONG_GAMES: &[&str] = &[
    "2: 1-4  1: 2-3  2: 1-2 4-3  3: 2-4 3-1  4: 3-2 4-1  5: 2-1 3-4  6: 1-3 4-2",
    "1: 1-4 2-3  2: 1-2 4-3  3: 2-4 3-1  4: 3-2 4-1  5: 2-1 3-4  6: 1-3  7: 4-2",
    "1: 1-4 2-3  2: 1-2 4-3  3: 2-4 3-1  4: 3-2 4-1  5: 2-1 3-4  6: 1-3  none: 4-2",
    "1: 1-4 2-3  2: 1-2 4-4  3: 2-4 3-1  4: 3-2 4-1  5: 2-1 3-4  6: 1-3 4-2",
    "1: 1-4 2-3  2: 1-2 5-3  3: 2-4 3-1  4: 3-2 4-1  5: 2-1 3-4  6: 1-3 4-2",
    "1: 1-4 2-3  2: 1-2 4-5  3: 2-4 3-1  4: 3-2 4-1  5: 2-1 3-4  6: 1-3 4-2",
    "1: 1-4 2-3  2: 1-2 4-3  3: 2-4 3-1  4: 3-2 4-1  5: 2-1 3-4  6: 1-3 2-4",
];

#[test]
fn lists_of_no_double_round_robin(rt: HostRuntime) -> Result<(), Fail> {
    check_refused(&rt, rt.alloc(), 12, WRONG_GAMES)
}

/// The games of the start of so many teams are read.
fn check_start(rt: &impl Abort, alloc: Global, teams: u8) -> Result<(), Fail> {
    let start = schedule(alloc, Plan::Berger(teams))?;
    check_same(rt, &start.teams(), &teams);
    let games = games_of(alloc, &start)?;
    check_read(rt, alloc, teams, &games)
}

#[test]
fn each_number_of_teams(rt: HostRuntime) -> Result<(), Fail> {
    for half in 2..=20 {
        check_start(&rt, rt.alloc(), 2 * half)?;
    }
    Ok(())
}

#[test]
fn each_number_of_teams_in_the_order_of_fide(rt: HostRuntime) -> Result<(), Fail> {
    for half in 2..=20 {
        let teams = schedule(rt.alloc(), Plan::Fide(2 * half))?.teams();
        check_same(&rt, &teams, &(2 * half));
    }
    Ok(())
}

/// Teams of a Berger start that is copied, its rounds, and games of it.
type Copied = (u8, u8, &'static str);

const COPIES: &[Copied] = &[(4, 6, FOUR), (6, 10, SIX), (4, 6, FOUR)];

fn check_copied(
    rt: &impl Abort,
    alloc: Global,
    copy: &mut Schedule,
    (teams, rounds, sheet): Copied,
) -> Result<(), Fail> {
    copy.copy_from(&schedule(alloc, Plan::Berger(teams))?);
    check_same(rt, &copy.rounds(), &rounds);
    check_sheet(rt, alloc, copy, sheet)
}

#[test]
fn copies_between_sizes(rt: HostRuntime) -> Result<(), Fail> {
    let mut copy = berger(rt.alloc(), 10)?;
    for &copied in COPIES {
        check_copied(&rt, rt.alloc(), &mut copy, copied)?;
    }
    Ok(())
}
