//! The parts of travel, of streaks and of repeats that a change can alter. The expected numbers were worked by hand from the
//! Berger table of four teams.

use crate::tests::checks::check_same;
use crate::tests::number_sets::{rounds_of, teams_of};
use crate::tests::small_leagues::{HOMES_EXCHANGED, Plan, league_of, schedule};
use fixtures::{Schedule, Touched};
use league::League;
use std::process::Abort;
use std::test::Fail;
use tours::{repeats_part, runs_part, travel_part};

/// The legs and the streaks of touched teams that touch touched rounds, and the repeats that touch these.
type Parts = (u64, u64, u64);

/// A plan, how many rounds in a row are allowed, touched teams and rounds, and their parts.
type Case = (Plan, u8, &'static [u8], &'static [u8], Parts);

/// Where rounds 2 and 4 are exchanged, both pairs of round 1 meet again in round 2; where rounds 1 and 3 are, the repeats are in the
/// middle of the season.
const CASES: &[Case] = &[
    (Plan::Berger(4), 2, &[0, 1, 2, 3], &[4, 5], (14, 2, 0)),
    (Plan::Rounds(4, 5), 2, &[0, 1, 2, 3], &[4, 5], (12, 0, 0)),
    (Plan::Berger(4), 3, &[0, 1], &[1, 4], (10, 0, 0)),
    (HOMES_EXCHANGED, 3, &[0, 1], &[1, 4], (6, 0, 0)),
    (Plan::Berger(4), 3, &[0, 1], &[0], (1, 0, 0)),
    (Plan::Rounds(1, 3), 3, &[], &[1], (0, 0, 2)),
    (Plan::Rounds(0, 2), 3, &[], &[2], (0, 0, 2)),
];

fn check_parts(
    rt: &impl Abort,
    schedule: &Schedule,
    league: &League,
    touched: Touched,
    wanted: Parts,
) {
    assert!(rt; schedule.teams() == league.teams());
    let found = (
        travel_part(schedule, league, touched),
        runs_part(schedule, league, touched),
        repeats_part(schedule, touched),
    );
    check_same(rt, &(touched, found), &(touched, wanted));
}

#[test]
fn parts_of_four_teams(rt: HostRuntime) -> Result<(), Fail> {
    for &(plan, at_most, teams, rounds, wanted) in CASES {
        let touched = Touched {
            teams: teams_of(teams),
            rounds: rounds_of(rounds),
        };
        let league = league_of(rt.alloc(), at_most)?;
        check_parts(&rt, &schedule(rt.alloc(), plan)?, &league, touched, wanted);
    }
    Ok(())
}
