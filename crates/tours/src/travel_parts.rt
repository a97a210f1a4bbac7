//! The legs that a change can alter.

ghost use Rattle.std.specs.Prelude.{◌≡◌, ◌+◌, ◌*◌, ◌-◌, ◌≤◌, if◌then◌else◌};
ghost use Rattle.league.specs.League.{teams};
ghost use Rattle.league.specs.Limits.{max_teams, max_rounds, max_distance};
ghost use Rattle.league.specs.Sets.{has, IsBelow};
ghost use Rattle.league.specs.Sums.{sum_where};
ghost use Rattle.fixtures.specs.Games.{round_count, IsDoubleRoundRobin};
ghost use Rattle.tours.specs.Tours.{leg};
ghost use Rattle.tours.specs.Parts.{travel_part};

use crate::clip::teams_in;
use crate::whole_travel::leg;
use fixtures::{Schedule, Touched};
use league::{League, SlotSet, TeamSet};

/// The legs of touched teams that touch a touched round, in the unit of the league's distances: those to the place of
/// such a round or of the next, and the way home if the last is touched.
pub fn travel_part(schedule: &Schedule, league: &League, touched: Touched) -> u64
    requires same { teams league.now ≡ schedule.now.teams }
    ensures value { result ≡ travel_part league.now schedule.now (has touched.teams) (has touched.rounds) }
    ensures limit { result ≤ max_teams * ((max_rounds + 1) * max_distance) }
{
    prove_eq!(league.teams(), schedule.teams());
    let among = teams_in(schedule, touched.teams);
    let indices = touched.rounds.with_next_below(schedule.rounds());
    legs_with(schedule, league, among, indices) + home_legs(schedule, league, among, touched.rounds)
}

/// The legs of the teams of the set with these indices.
fn legs_with(schedule: &Schedule, league: &League, among: TeamSet, indices: SlotSet) -> u64
    requires same { teams league.now ≡ schedule.now.teams }
    requires round_robin { IsDoubleRoundRobin schedule.now }
    requires among { IsBelow schedule.now.teams among }
    requires below { IsBelow (round_count schedule.now.teams) indices }
    ensures value { result ≡ sum_where (round_count schedule.now.teams) (has indices) (λ r.
        sum_where schedule.now.teams (has among) (λ t. leg league.now schedule.now t r)) }
    ensures limit { result ≤ max_teams * max_distance * round_count schedule.now.teams }
{
    let mut total = 0;
    for index in indices {
        total += legs_of(schedule, league, among, index);
    }
    total
}

/// The legs home of the teams of the set, if the last round is one of these.
fn home_legs(schedule: &Schedule, league: &League, among: TeamSet, rounds: SlotSet) -> u64
    requires same { teams league.now ≡ schedule.now.teams }
    requires round_robin { IsDoubleRoundRobin schedule.now }
    requires below { IsBelow schedule.now.teams among }
    ensures value { result ≡ (if has rounds (round_count schedule.now.teams - 1)
        then sum_where schedule.now.teams (has among) (λ t.
        leg league.now schedule.now t (round_count schedule.now.teams)) else 0) }
    ensures limit { result ≤ max_teams * max_distance }
{
    if rounds.has(schedule.rounds() - 1) {
        legs_of(schedule, league, among, schedule.rounds())
    } else {
        0
    }
}

/// The legs of the teams of the set with this index.
fn legs_of(schedule: &Schedule, league: &League, among: TeamSet, index: u8) -> u64
    requires same { teams league.now ≡ schedule.now.teams }
    requires index { index ≤ round_count schedule.now.teams }
    requires round_robin { IsDoubleRoundRobin schedule.now }
    requires below { IsBelow schedule.now.teams among }
    ensures value { result ≡ sum_where schedule.now.teams (has among) (λ t. leg league.now schedule.now t index) }
    ensures limit { result ≤ max_distance * schedule.now.teams }
{
    let mut total = 0;
    for team in among {
        total += leg(schedule, league, team, index);
    }
    total
}
