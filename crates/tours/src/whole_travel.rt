//! How far the teams travel.

ghost use Rattle.std.specs.Prelude.{◌≡◌, ◌+◌, ◌*◌, ◌<◌, ◌≤◌, slice_index};
ghost use Rattle.league.specs.League.{teams, distance};
ghost use Rattle.league.specs.Limits.{max_teams, max_rounds, max_distance};
ghost use Rattle.fixtures.specs.Games.{round_count};
ghost use Rattle.tours.specs.Tours.{tour, leg, travel_of, travel};

use fixtures::Schedule;
use league::League;

/// The sum of what all teams travel, in the unit of the league's distances.
#[tactic(auto, using(league::proofs::ForCallers::sums), unfolding(crate::specs::Tours::travel))]
pub fn travel(schedule: &Schedule, league: &League) -> u64
    requires same { teams league.now ≡ schedule.now.teams }
    ensures value { result ≡ travel league.now schedule.now }
    ensures limit { result ≤ max_teams * ((max_rounds + 1) * max_distance) }
{
    let mut total = 0;
    for team in 0..schedule.teams() {
        total += travel_of(schedule, league, team);
    }
    total
}

/// How far a team travels from its home through the places of its games, in the order of the rounds, and home
/// again, in the unit of the league's distances.
#[tactic(auto, using(league::proofs::ForCallers::sums), unfolding(crate::specs::Tours::travel_of))]
pub fn travel_of(schedule: &Schedule, league: &League, team: u8) -> u64
    requires same { teams league.now ≡ schedule.now.teams }
    requires team { team < schedule.now.teams }
    ensures value { result ≡ travel_of league.now schedule.now team }
    ensures limit { result ≤ (max_rounds + 1) * max_distance }
{
    let mut total = 0;
    for index in 0..schedule.rounds() + 1 {
        total += leg(schedule, league, team, index);
    }
    total
}

/// The way of a team to its place in the round with this index or, from its last place, home.
#[tactic(auto, unfolding(crate::specs::Tours::leg))]
pub(crate) fn leg(schedule: &Schedule, league: &League, team: u8, index: u8) -> u64
    requires same { teams league.now ≡ schedule.now.teams }
    requires team { team < schedule.now.teams }
    requires index { index ≤ round_count schedule.now.teams }
    ensures value { result ≡ leg league.now schedule.now team index }
    ensures limit { result ≤ max_distance }
{
    let from = stop(schedule, team, index);
    let to = stop(schedule, team, index + 1);
    distance(league, from, to)
}

/// The way from the home of a team to that of another, as long as the way back.
pub(crate) fn distance(league: &League, from: u8, to: u8) -> u64
    requires from { from < teams league.now }
    requires to { to < teams league.now }
    ensures value { result ≡ distance league.now from to }
    ensures back { result ≡ distance league.now to from }
    ensures limit { result ≤ max_distance }
{
    prove!(from < league.teams());
    u64::from(league.distance(from, to))
}

/// The place with this index in the tour of a team.
#[tactic(auto, using(crate::proofs::stops::Stops::tour_stop))]
pub(crate) fn stop(schedule: &Schedule, team: u8, index: u8) -> u8
    requires team { team < schedule.now.teams }
    requires index { index ≤ round_count schedule.now.teams + 1 }
    ensures value { result ≡ slice_index (tour schedule.now team) index }
    ensures in_range { result < schedule.now.teams }
    ensures season { round_count schedule.now.teams ≤ max_rounds }
{
    schedule.stop(team, index)
}
