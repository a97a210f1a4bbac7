//! Where the boards of leagues begin: the schedule, the games of it that are kept, and what leaving it costs.

use crate::tests::checks::check_same;
use crate::tests::league_texts::circle_with;
use fixtures::{Schedule, berger, berger_fide};
use league::{League, TeamSet, circular, constant};
use std::alloc::Global;
use std::process::Abort;
use std::test::Fail;

/// The Berger table of six teams with two of its rounds exchanged.
fn exchanged(alloc: Global, k: u8, l: u8) -> Result<Schedule, Fail> {
    let mut schedule = berger(alloc, 6)?;
    if k < 10 && l < 10 && k != l {
        schedule.exchange_rounds(k, l, TeamSet::below(6));
    }
    Ok(schedule)
}

/// Has the league begin at a schedule for as many teams.
fn begin_at(rt: &impl Abort, league: &mut League, start: Schedule) {
    assert!(rt; start.teams() == league.teams());
    league.begin_at(start);
}

/// Keeps a game of two teams of the league.
fn keep(rt: &impl Abort, league: &mut League, home: u8, away: u8) {
    let teams = league.teams();
    assert!(rt; home < teams && away < teams && home != away);
    league.keep(home, away);
}

/// Sets what leaving the start costs.
fn price(rt: &impl Abort, league: &mut League, weight: u32) {
    assert!(rt; weight <= 1_000_000);
    league.set_near(weight);
}

/// Whether the game is kept, as the league says and as the set of its kept games.
fn is_kept(rt: &impl Abort, league: &League, home: u8, away: u8) -> (bool, bool) {
    let teams = league.teams();
    assert!(rt; home < teams && away < teams && home != away);
    (league.keeps(home, away), league.kept().has(home, away))
}

/// Six teams in a circle, which begin with two rounds of the Berger table exchanged.
fn given(rt: &impl Abort, alloc: Global, k: u8, l: u8) -> Result<League, Fail> {
    let mut league = circular(alloc, 6)?;
    begin_at(rt, &mut league, exchanged(alloc, k, l)?);
    Ok(league)
}

/// Whether the team receives each other one at the start in its round of the schedule.
fn has_rounds_of(league: &League, schedule: &Schedule, home: u8) -> bool {
    let teams = league.teams();
    if home >= teams || schedule.teams() != teams {
        return false;
    }
    for away in 0..teams {
        if away != home && league.start_round(home, away) != schedule.round_of(home, away) {
            return false;
        }
    }
    true
}

/// The league begins at the schedule.
fn check_start(
    rt: &impl Abort,
    alloc: Global,
    league: &League,
    schedule: &Schedule,
) -> Result<(), Fail> {
    check_same(rt, &league.start(alloc)?.is_same(schedule), &true);
    for home in 0..league.teams() {
        check_same(
            rt,
            &(home, has_rounds_of(league, schedule, home)),
            &(home, true),
        );
    }
    Ok(())
}

/// The league begins at the Berger table of six teams.
fn check_berger(rt: &impl Abort, alloc: Global, league: &League) -> Result<(), Fail> {
    check_same(rt, &league.fide(), &false);
    check_start(rt, alloc, league, &berger(alloc, 6)?)
}

#[test]
fn leagues_begin_at_the_berger_table(rt: HostRuntime) -> Result<(), Fail> {
    check_berger(&rt, rt.alloc(), &circular(rt.alloc(), 6)?)?;
    check_berger(&rt, rt.alloc(), &constant(rt.alloc(), 6)?)
}

/// The league begins in the order of FIDE, with four teams.
fn check_fide(rt: &impl Abort, alloc: Global, league: &League) -> Result<(), Fail> {
    check_same(rt, &league.fide(), &true);
    check_start(rt, alloc, league, &berger_fide(alloc, 4)?)
}

#[test]
fn a_league_begins_in_the_order_of_fide(rt: HostRuntime) -> Result<(), Fail> {
    let league = circle_with(rt.alloc(), 2, ",\"start\":\"fide\"")?;
    check_fide(&rt, rt.alloc(), &league)
}

/// The league begins with two rounds of the Berger table exchanged.
fn check_given(
    rt: &impl Abort,
    alloc: Global,
    league: &League,
    (k, l): (u8, u8),
) -> Result<(), Fail> {
    check_same(rt, &league.fide(), &false);
    check_start(rt, alloc, league, &exchanged(alloc, k, l)?)
}

#[test]
fn a_league_begins_at_a_given_schedule(rt: HostRuntime) -> Result<(), Fail> {
    let league = given(&rt, rt.alloc(), 1, 7)?;
    check_given(&rt, rt.alloc(), &league, (1, 7))
}

/// How many games at home of the team are kept.
fn kept_at_home(league: &League, home: u8) -> u32 {
    let teams = league.teams();
    let mut count: u32 = 0;
    for away in 0..teams {
        if home < teams && away != home && league.keeps(home, away) {
            count = count.saturating_add(1);
        }
    }
    count
}

/// So many games are kept.
fn check_kept(rt: &impl Abort, league: &League, wanted: u32) {
    let mut count: u32 = 0;
    for home in 0..league.teams() {
        count = count.saturating_add(kept_at_home(league, home));
    }
    check_same(
        rt,
        &(count, league.kept().is_empty()),
        &(wanted, wanted == 0),
    );
}

#[test]
fn a_game_that_is_kept_twice_is_kept_once(rt: HostRuntime) -> Result<(), Fail> {
    let mut league = given(&rt, rt.alloc(), 1, 7)?;
    check_kept(&rt, &league, 0);
    keep(&rt, &mut league, 5, 0);
    keep(&rt, &mut league, 5, 0);
    check_kept(&rt, &league, 1);
    check_same(&rt, &is_kept(&rt, &league, 5, 0), &(true, true));
    check_same(&rt, &is_kept(&rt, &league, 0, 5), &(false, false));
    Ok(())
}

/// Games of home teams and guests, in the second round of the given start, which is the eighth of the Berger table.
const SECOND_ROUND: &[(u8, u8)] = &[(5, 1), (0, 2), (4, 3)];

/// Six teams at the given start, with its second round kept, and a price.
fn kept_at_a_price(rt: &impl Abort, alloc: Global) -> Result<League, Fail> {
    let mut league = given(rt, alloc, 1, 7)?;
    league.keep_round(1);
    league.set_near(9);
    Ok(league)
}

#[test]
fn a_round_is_kept_by_its_games(rt: HostRuntime) -> Result<(), Fail> {
    let league = kept_at_a_price(&rt, rt.alloc())?;
    for &(home, away) in SECOND_ROUND {
        let found = is_kept(&rt, &league, home, away);
        check_same(&rt, &(home, away, found), &(home, away, (true, true)));
    }
    check_kept(&rt, &league, 3);
    Ok(())
}

#[test]
fn a_league_that_begins_elsewhere_keeps_nothing(rt: HostRuntime) -> Result<(), Fail> {
    let mut league = kept_at_a_price(&rt, rt.alloc())?;
    begin_at(&rt, &mut league, exchanged(rt.alloc(), 0, 3)?);
    check_kept(&rt, &league, 0);
    check_same(&rt, &league.near(), &9);
    check_given(&rt, rt.alloc(), &league, (0, 3))
}

const WEIGHTS: &[u32] = &[0, 1, 999_999, 1_000_000];

#[test]
fn each_price_can_be_set(rt: HostRuntime) -> Result<(), Fail> {
    let mut league = circular(rt.alloc(), 6)?;
    for &weight in WEIGHTS {
        price(&rt, &mut league, weight);
        check_same(&rt, &league.near(), &weight);
    }
    Ok(())
}
