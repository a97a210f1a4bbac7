//! How many games count.

ghost use Rattle.std.specs.Prelude.{◌≡◌, ◌+◌, ◌<◌, ◌≤◌};
ghost use Rattle.std.specs.List.{AllByRecursion};
ghost use Rattle.league.specs.Games.{IsGameFor};
ghost use Rattle.league.specs.Limits.{max_games, max_teams};
ghost use Rattle.league.specs.RuleLimits.{IsBodyFor};
ghost use Rattle.league.specs.Sets.{has};
ghost use Rattle.league.specs.Sums.{sum_below};
ghost use Rattle.fixtures.specs.Games.{round_count};
ghost use Rattle.rules.specs.Deviations.{over, listed_games_in};
ghost use Rattle.report_breaches.specs.within.Terms.{named_at, named_in_round, named_of_team, IsPlaceFor};

use crate::breach::Place;
use crate::cells::names_cell;
use fixtures::Schedule;
use league::{GameList, RuleBody, SlotSet};

/// By how much a count is over the most.
pub(crate) fn over(count: u32, most: u32) -> u32
    ensures { result ≡ over count most }
{
    count.saturating_sub(most)
}

/// How many games of teams the place names.
pub(crate) fn count_at(schedule: &Schedule, body: &RuleBody, place: Place) -> u32
    requires body { IsBodyFor schedule.now.teams body.now }
    requires place { IsPlaceFor schedule.now.teams place }
    ensures { result ≡ named_at schedule.now body.now place }
{
    let rounds = schedule.rounds();
    match place {
        Place::GamesOf { team } => count_of_team(schedule, body, place, team, (0, rounds)),
        Place::Window { team, first, last } => {
            count_of_team(schedule, body, place, team, (first, last + 1))
        }
        Place::Round { round } => count_in_round(schedule, body, place, round),
        _ => count_together(schedule, body, place),
    }
}

/// In how many rounds, from the first on and before one that is past, the place names the team's game.
fn count_of_team(
    schedule: &Schedule,
    body: &RuleBody,
    place: Place,
    team: u8,
    span: (u8, u8),
) -> u32
    requires body { IsBodyFor schedule.now.teams body.now }
    requires team { team < schedule.now.teams }
    requires first { span.0 ≤ span.1 }
    requires past { span.1 ≤ round_count schedule.now.teams }
    ensures { result ≡ named_of_team schedule.now body.now place team span.0 span.1 }
{
    let (first, past) = span;
    let mut count = 0;
    for round in first..past {
        if names_cell(schedule, body, place, team, round) {
            count += 1;
        }
    }
    count
}

#[tactic(auto, using(league::proofs::ForCallers::sums))]
/// For how many teams the place names the game in the round.
fn count_in_round(schedule: &Schedule, body: &RuleBody, place: Place, round: u8) -> u32
    requires body { IsBodyFor schedule.now.teams body.now }
    requires round { round < round_count schedule.now.teams }
    ensures value { result ≡ named_in_round schedule.now body.now place round }
    ensures most { result ≤ max_teams }
{
    let mut count = 0;
    for team in 0..schedule.teams() {
        if names_cell(schedule, body, place, team, round) {
            count += 1;
        }
    }
    count
}

#[tactic(auto, using(league::proofs::ForCallers::sums))]
/// How many games of all teams the place names.
fn count_together(schedule: &Schedule, body: &RuleBody, place: Place) -> u32
    requires { IsBodyFor schedule.now.teams body.now }
    ensures { result ≡
        sum_below (round_count schedule.now.teams) (named_in_round schedule.now body.now place) }
{
    let mut count = 0;
    for round in 0..schedule.rounds() {
        count += count_in_round(schedule, body, place, round);
    }
    count
}

/// How many games of the list are in the slots.
#[tactic(auto, using(rules::proofs::ForCallers::IsPair_game), unfolding(rules::specs::Deviations::listed_games_in))]
pub(crate) fn count_listed(schedule: &Schedule, games: &GameList, slots: SlotSet) -> u32
    requires { AllByRecursion (IsGameFor schedule.now.teams) games.now }
    ensures value { result ≡ listed_games_in schedule.now (has slots) games.now }
    ensures most { result ≤ max_games }
{
    let mut count = 0;
    for i in 0..games.len() {
        let game = games.at(i);
        if slots.has(schedule.round_of(game.home, game.away)) {
            count += 1;
        }
    }
    count
}
