//! Homes, rounds and teams exchanged in Berger starts.
//!
//! An exchange for some teams or in some rounds is called with a set from which no game leads out. The contracts of
//! `moved_teams` and `moved_rounds` say so of theirs, which is therefore compared with the set that is meant, and passed.

use crate::tests::checks::check_same;
use crate::tests::number_sets::{rounds_of, teams_of};
use crate::tests::sheets::{FOUR, check_sheet};
use crate::tests::small_leagues::{Plan, schedule};
use fixtures::{Schedule, berger};
use league::{SlotSet, TeamSet};
use moves::{Move, check, moved_rounds, moved_teams};
use std::alloc::Global;
use std::process::Abort;
use std::test::Fail;

/// Four teams, the two games between teams 1 and 2 exchanged.
const HOMES_OF_FOUR: &str =
    "1: 1-4 2-3  2: 2-1 4-3  3: 2-4 3-1  4: 3-2 4-1  5: 1-2 3-4  6: 1-3 4-2";

/// Four teams, rounds 1 and 2 exchanged.
const ROUNDS_OF_FOUR: &str =
    "1: 1-2 4-3  2: 1-4 2-3  3: 2-4 3-1  4: 3-2 4-1  5: 2-1 3-4  6: 1-3 4-2";

/// Rounds 1 and 4 of ten teams, exchanged for teams 1, 4, 7 and 10.
const ROUNDS_OF_TEN: &str = "1: 1-4 2-9 3-8 5-6 10-7  4: 1-10 2-3 4-7 8-6 9-5";

/// Rounds 1 to 5, 7 and 10 of six teams, teams 1 and 4 exchanged in rounds 1, 3, 7 and 10.
const TEAMS_OF_SIX: &str =
    "1: 2-5 3-1 4-6  2: 6-4 5-3 1-2  3: 1-5 2-6 3-4  4: 6-5 1-4 2-3  5: 3-6 4-2 5-1
    7: 1-6 2-4 3-5  10: 2-1 4-5 6-3";

/// Four teams, teams 1 and 2 exchanged in all games but their own.
const TEAMS_OF_FOUR: &str =
    "1: 1-3 2-4  2: 1-2 4-3  3: 1-4 3-2  4: 3-1 4-2  5: 2-1 3-4  6: 2-3 4-1";

#[test]
fn homes_exchanged_and_back(rt: HostRuntime) -> Result<(), Fail> {
    let mut four = berger(rt.alloc(), 4)?;
    four.exchange_homes(0, 1);
    check_sheet(&rt, rt.alloc(), &four, HOMES_OF_FOUR)?;
    four.exchange_homes(1, 0);
    check_sheet(&rt, rt.alloc(), &four, FOUR)
}

#[test]
fn rounds_exchanged_for_all_teams(rt: HostRuntime) -> Result<(), Fail> {
    let mut four = berger(rt.alloc(), 4)?;
    four.exchange_rounds(0, 1, TeamSet::below(4));
    check_sheet(&rt, rt.alloc(), &four, ROUNDS_OF_FOUR)
}

#[test]
fn rounds_exchanged_for_four_of_ten_teams(rt: HostRuntime) -> Result<(), Fail> {
    let mut ten = berger(rt.alloc(), 10)?;
    let among = moved_teams(&ten, 0, 0, 3);
    check_same(&rt, &among, &teams_of(&[0, 3, 6, 9]));
    ten.exchange_rounds(0, 3, among);
    check_sheet(&rt, rt.alloc(), &ten, ROUNDS_OF_TEN)
}

/// Exchanges teams `i` and `j` in the rounds that go along with `k`, where the two don't meet in these, and returns them.
fn exchange_teams(schedule: &mut Schedule, (i, j, k): (u8, u8, u8)) -> Option<SlotSet> {
    let teams = schedule.teams();
    let checked = check(schedule, Move::PartTeams { i, j, k });
    if i >= teams || j >= teams || i == j || checked.is_err() {
        return None;
    }
    let among = moved_rounds(schedule, i, j, k);
    if among.has(schedule.round_of(i, j)) || among.has(schedule.round_of(j, i)) {
        return None;
    }
    schedule.exchange_teams(i, j, among);
    Some(among)
}

/// Teams `i` and `j`, a round `k`, the rounds in which they are exchanged along with it, and the sheet after that.
type Exchanged<'a> = ((u8, u8, u8), &'a [u8], &'a str);

/// Two teams of the start of so many teams are exchanged in these rounds, and leave the sheet.
fn check_teams(
    rt: &impl Abort,
    alloc: Global,
    teams: u8,
    (numbers, rounds, sheet): Exchanged<'_>,
) -> Result<(), Fail> {
    let mut schedule = schedule(alloc, Plan::Berger(teams))?;
    let among = exchange_teams(&mut schedule, numbers);
    check_same(rt, &among, &Some(rounds_of(rounds)));
    check_sheet(rt, alloc, &schedule, sheet)
}

#[test]
fn teams_exchanged_in_four_rounds_of_six(rt: HostRuntime) -> Result<(), Fail> {
    let exchanged: Exchanged<'_> = ((0, 3, 0), &[0, 2, 6, 9], TEAMS_OF_SIX);
    check_teams(&rt, rt.alloc(), 6, exchanged)
}

#[test]
fn teams_exchanged_in_all_games_of_four_but_their_own(rt: HostRuntime) -> Result<(), Fail> {
    let exchanged: Exchanged<'_> = ((0, 1, 0), &[0, 2, 3, 5], TEAMS_OF_FOUR);
    check_teams(&rt, rt.alloc(), 4, exchanged)
}

#[test]
fn teams_exchanged_in_no_round(rt: HostRuntime) -> Result<(), Fail> {
    let mut four = berger(rt.alloc(), 4)?;
    four.exchange_teams(0, 1, SlotSet::empty());
    check_sheet(&rt, rt.alloc(), &four, FOUR)
}
