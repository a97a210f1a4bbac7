//! The change of the travel by an exchange of two rounds, predicted on the schedule before it.

ghost use Rattle.std.specs.Prelude.{◌≡◌, ◌≢◌, ◌+◌, ◌*◌, ◌<◌, ◌≤◌};
ghost use Rattle.league.specs.League.{teams};
ghost use Rattle.league.specs.Limits.{max_teams, max_distance};
ghost use Rattle.league.specs.Sets.{has, IsBelow};
ghost use Rattle.fixtures.specs.Games.{round_count, IsDoubleRoundRobin};
ghost use Rattle.fixtures.specs.Edits.{rounds_exchanged};
ghost use Rattle.fixtures.specs.Closed.{IsClosed, plays_in};
ghost use Rattle.tours.specs.Tours.{leg, travel};
ghost use Rattle.tours.specs.within.Walked.{leg_exchanged};
ghost use Rattle.tours.specs.within.Delta.{AreSums, legs_around, legs_changed};

use crate::clip::teams_in;
use crate::delta::TravelDelta;
use crate::whole_travel::{distance, stop};
use fixtures::Schedule;
use league::{League, TeamSet};

/// The legs that change if rounds `k` and `l` are exchanged for the teams of the set, which has the opponents of its
/// teams in the two rounds.
pub(crate) fn legs_of_rounds(
    schedule: &Schedule,
    league: &League,
    k: u8,
    l: u8,
    among: TeamSet,
) -> TravelDelta
    requires same { teams league.now ≡ schedule.now.teams }
    requires k { k < round_count schedule.now.teams }
    requires l { l < round_count schedule.now.teams }
    requires distinct { k ≢ l }
    requires closed { IsClosed (plays_in schedule.now k l) (has among) }
    ensures balance { travel league.now (rounds_exchanged schedule.now k l (has among)) + result.before ≡
        travel league.now schedule.now + result.after }
    ensures before_limit { result.before ≤ max_teams * (4 * max_distance) }
    ensures after_limit { result.after ≤ max_teams * (4 * max_distance) }
{
    let teams = teams_in(schedule, among);
    if k < l {
        legs_of_ordered(schedule, league, k, l, teams)
    } else {
        legs_of_ordered(schedule, league, l, k, teams)
    }
}

/// Counts these legs team by team; `k` is the first of the two rounds.
fn legs_of_ordered(
    schedule: &Schedule,
    league: &League,
    k: u8,
    l: u8,
    among: TeamSet,
) -> TravelDelta
    requires same { teams league.now ≡ schedule.now.teams }
    requires round_robin { IsDoubleRoundRobin schedule.now }
    requires below { IsBelow schedule.now.teams among }
    requires ordered { k < l }
    requires l { l < round_count schedule.now.teams }
    ensures { AreSums schedule.now.teams among (4 * max_distance) result.before result.after
        (legs_changed schedule.now (leg league.now schedule.now) k l)
        (legs_changed schedule.now (leg_exchanged league.now schedule.now k l) k l) }
{
    let mut before = 0;
    let mut after = 0;
    for team in among {
        let legs = changed_legs(schedule, league, k, l, team);
        before += legs.before;
        after += legs.after;
    }
    TravelDelta { before, after }
}

/// The legs of a team that change. If it is at one place in both rounds, at home, none does.
fn changed_legs(schedule: &Schedule, league: &League, k: u8, l: u8, team: u8) -> TravelDelta
    requires same { teams league.now ≡ schedule.now.teams }
    requires team { team < schedule.now.teams }
    requires ordered { k < l }
    requires l { l < round_count schedule.now.teams }
    ensures before { result.before ≡ legs_changed schedule.now (leg league.now schedule.now) k l team }
    ensures after { result.after ≡ legs_changed schedule.now (leg_exchanged league.now schedule.now k l) k l team }
    ensures before_limit { result.before ≤ 4 * max_distance }
    ensures after_limit { result.after ≤ 4 * max_distance }
{
    if stop(schedule, team, k + 1) == stop(schedule, team, l + 1) {
        return TravelDelta {
            before: 0,
            after: 0,
        };
    }
    legs_of_team(schedule, league, k, l, team)
}

/// The legs of a team around two rounds, of which `k` is the first, as they are and with the two exchanged.
fn legs_of_team(schedule: &Schedule, league: &League, k: u8, l: u8, team: u8) -> TravelDelta
    requires same { teams league.now ≡ schedule.now.teams }
    requires team { team < schedule.now.teams }
    requires ordered { k < l }
    requires l { l < round_count schedule.now.teams }
    ensures before { result.before ≡ legs_around (leg league.now schedule.now team) k l }
    ensures after { result.after ≡ legs_around (leg_exchanged league.now schedule.now k l team) k l }
    ensures before_limit { result.before ≤ 4 * max_distance }
    ensures after_limit { result.after ≤ 4 * max_distance }
{
    if l == k + 1 {
        legs_of_neighbours(schedule, league, k, l, team)
    } else {
        legs_of_two(schedule, league, k, l, team)
    }
}

/// These legs if `l` is the round after `k`.
fn legs_of_neighbours(schedule: &Schedule, league: &League, k: u8, l: u8, team: u8) -> TravelDelta
    requires same { teams league.now ≡ schedule.now.teams }
    requires team { team < schedule.now.teams }
    requires next { l ≡ k + 1 }
    requires l { l < round_count schedule.now.teams }
    ensures before { result.before ≡
        leg league.now schedule.now team k + leg league.now schedule.now team (k + 1) +
        leg league.now schedule.now team (l + 1) }
    ensures after { result.after ≡
        leg_exchanged league.now schedule.now k l team k + leg_exchanged league.now schedule.now k l team (k + 1) +
        leg_exchanged league.now schedule.now k l team (l + 1) }
    ensures before_limit { result.before ≤ 3 * max_distance }
    ensures after_limit { result.after ≤ 3 * max_distance }
{
    let from = stop(schedule, team, k);
    let first = stop(schedule, team, k + 1);
    let second = stop(schedule, team, l + 1);
    let to = stop(schedule, team, l + 2);
    TravelDelta {
        before: distance(league, first, from)
            + distance(league, first, second)
            + distance(league, second, to),
        after: distance(league, second, from)
            + distance(league, first, second)
            + distance(league, first, to),
    }
}

/// These legs if there are rounds between the two.
fn legs_of_two(schedule: &Schedule, league: &League, k: u8, l: u8, team: u8) -> TravelDelta
    requires same { teams league.now ≡ schedule.now.teams }
    requires team { team < schedule.now.teams }
    requires apart { k + 1 < l }
    requires l { l < round_count schedule.now.teams }
    ensures before { result.before ≡
        leg league.now schedule.now team k + leg league.now schedule.now team (k + 1) +
        (leg league.now schedule.now team l + leg league.now schedule.now team (l + 1)) }
    ensures after { result.after ≡
        leg_exchanged league.now schedule.now k l team k + leg_exchanged league.now schedule.now k l team (k + 1) +
        (leg_exchanged league.now schedule.now k l team l + leg_exchanged league.now schedule.now k l team (l + 1)) }
    ensures before_limit { result.before ≤ 4 * max_distance }
    ensures after_limit { result.after ≤ 4 * max_distance }
{
    let before_k = stop(schedule, team, k);
    let at_k = stop(schedule, team, k + 1);
    let after_k = stop(schedule, team, k + 2);
    let before_l = stop(schedule, team, l);
    let at_l = stop(schedule, team, l + 1);
    let after_l = stop(schedule, team, l + 2);
    // from two places alone, so that two rows of the distances are read
    TravelDelta {
        before: distance(league, at_k, before_k)
            + distance(league, at_k, after_k)
            + (distance(league, at_l, before_l) + distance(league, at_l, after_l)),
        after: distance(league, at_l, before_k)
            + distance(league, at_l, after_k)
            + (distance(league, at_k, before_l) + distance(league, at_k, after_l)),
    }
}
