//! Leagues of four teams, and schedules, which several tests take.

use fixtures::{Schedule, berger, berger_fide};
use league::limits::{MAX_TEAMS, MIN_TEAMS};
use league::{League, TeamSet};
use league_json::read_league;
use moves::{Move, apply, check};
use std::alloc::Global;
use std::test::Fail;

/// The league of four teams in a circle, in this format of leagues and with these members after its distances.
pub(crate) fn circle_of_four(alloc: Global, format: u8, members: &str) -> Result<League, Fail> {
    let text = format!(in alloc;
        "{{\"format\":{format},\"teams\":[\"T1\",\"T2\",\"T3\",\"T4\"],\"distances\":[[0,1,2,1],[1,0,1,2],[2,1,0,1],[1,2,1,0]]{members}}}"
    )?;
    Ok(read_league(alloc, text.as_bytes())?)
}

/// The league of four teams in a circle that allows so many rounds in a row.
pub(crate) fn league_of(alloc: Global, at_most: u8) -> Result<League, Fail> {
    let members = format!(in alloc; ",\"at_most\":{at_most}")?;
    circle_of_four(alloc, 1, &members)
}

/// How a schedule is made.
#[derive(Clone, Copy)]
pub(crate) enum Plan {
    /// The Berger start of so many teams.
    Berger(u8),
    /// The start of so many teams in the order of FIDE.
    Fide(u8),
    /// The Berger start of four teams with two rounds exchanged.
    Rounds(u8, u8),
    /// The Berger start of four teams after moves.
    Moved(&'static [Move]),
}

/// The start of four teams with the homes of teams 0 and 1 exchanged.
pub(crate) const HOMES_EXCHANGED: Plan = Plan::Moved(&[Move::Homes { i: 0, j: 1 }]);

/// The start of so many teams, by Berger or in the order of FIDE.
fn start_of(alloc: Global, teams: u8, fide: bool) -> Result<Schedule, Fail> {
    if teams < MIN_TEAMS || teams > MAX_TEAMS || teams % 2 != 0 {
        return Err("a number of teams".into());
    }
    if fide {
        Ok(berger_fide(alloc, teams)?)
    } else {
        Ok(berger(alloc, teams)?)
    }
}

/// The start of four teams with two rounds exchanged.
pub(crate) fn rounds_exchanged(alloc: Global, k: u8, l: u8) -> Result<Schedule, Fail> {
    let mut schedule = berger(alloc, 4)?;
    if k < 6 && l < 6 && k != l {
        schedule.exchange_rounds(k, l, TeamSet::below(4));
    }
    Ok(schedule)
}

fn moved(alloc: Global, moves: &[Move]) -> Result<Schedule, Fail> {
    let mut schedule = berger(alloc, 4)?;
    for &mv in moves {
        check(&schedule, mv)?;
        apply(&mut schedule, mv);
    }
    Ok(schedule)
}

pub(crate) fn schedule(alloc: Global, plan: Plan) -> Result<Schedule, Fail> {
    match plan {
        Plan::Berger(teams) => start_of(alloc, teams, false),
        Plan::Fide(teams) => start_of(alloc, teams, true),
        Plan::Rounds(k, l) => rounds_exchanged(alloc, k, l),
        Plan::Moved(moves) => moved(alloc, moves),
    }
}
