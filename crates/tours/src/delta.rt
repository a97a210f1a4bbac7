//! The changes by an exchange, predicted on the schedule before it: rounds or teams are exchanged, and each kind is predicted by itself.

ghost use Rattle.std.specs.Prelude.{◌≡◌, ◌+◌, ◌*◌, ◌≤◌};
ghost use Rattle.league.specs.League.{teams};
ghost use Rattle.league.specs.Limits.{max_distance, max_rounds, max_teams};
ghost use Rattle.fixtures.specs.Exchanges.{exchanged_by, IsExchange};
ghost use Rattle.tours.specs.Moved.{moved_games};
ghost use Rattle.tours.specs.Repeats.{repeats};
ghost use Rattle.tours.specs.Streaks.{runs_over};
ghost use Rattle.tours.specs.Tours.{travel};

use crate::moved_delta::{moved_of_rounds, moved_of_teams};
use crate::repeats_delta::{repeats_of_rounds, repeats_of_teams};
use crate::rounds_delta::legs_of_rounds;
use crate::streaks_delta::{streaks_of_rounds, streaks_of_teams};
use crate::teams_delta::legs_of_teams;
use fixtures::{Exchange, Schedule};
use league::League;

/// The legs that an exchange of rounds or of teams alters, before it and after it, in the unit of the league's
/// distances. Legs that stay as long as they are may be in both or in neither.
#[derive(Clone, Copy, Debug, Drop, PartialEq, Eq)]
pub struct TravelDelta {
    pub before: u64,
    pub after: u64,
}

/// How often hard limits are broken in what an exchange alters, before it and after it.
#[derive(Clone, Copy, Debug, Drop, PartialEq, Eq)]
pub struct CountDelta {
    pub before: u64,
    pub after: u64,
}

/// How many of the games that change their rounds in an exchange have another than at the start of the league, before it
/// and after it.
#[derive(Clone, Copy, Debug, Drop, PartialEq, Eq)]
pub struct MovedDelta {
    pub before: u64,
    pub after: u64,
}

/// The legs that an exchange alters, before it and after it.
pub fn legs_of(schedule: &Schedule, league: &League, exchange: &Exchange) -> TravelDelta
    requires same_size { teams league.now ≡ schedule.now.teams }
    requires can_be_made { IsExchange schedule.now exchange.now }
    ensures balance { travel league.now (exchanged_by schedule.now exchange.now) + result.before ≡
        travel league.now schedule.now + result.after }
    ensures after_limit { result.after ≤ (8 * max_rounds + 2) * max_distance }
{
    match *exchange {
        Exchange::Rounds { k, l, among } => legs_of_rounds(schedule, league, k, l, among),
        Exchange::Teams { i, j, among } => legs_of_teams(schedule, league, i, j, among),
    }
}

/// The streaks that an exchange alters.
pub fn streaks_of(schedule: &Schedule, league: &League, exchange: &Exchange) -> CountDelta
    requires same_size { teams league.now ≡ schedule.now.teams }
    requires can_be_made { IsExchange schedule.now exchange.now }
    ensures balance { runs_over (exchanged_by schedule.now exchange.now) league.now.at_most + result.before ≡
        runs_over schedule.now league.now.at_most + result.after }
    ensures within { result.before ≤ runs_over schedule.now league.now.at_most }
    ensures after_limit { result.after ≤ max_teams * max_rounds }
{
    match *exchange {
        Exchange::Rounds { k, l, among } => streaks_of_rounds(schedule, league, k, l, among),
        Exchange::Teams { i, j, among } => streaks_of_teams(schedule, league, i, j, among),
    }
}

/// The repeats that an exchange alters.
pub fn repeats_of(schedule: &Schedule, exchange: &Exchange) -> CountDelta
    requires { IsExchange schedule.now exchange.now }
    ensures balance { repeats (exchanged_by schedule.now exchange.now) + result.before ≡
        repeats schedule.now + result.after }
    ensures after_limit { result.after ≤ 4 * max_teams }
{
    match *exchange {
        Exchange::Rounds { k, l, among } => repeats_of_rounds(schedule, k, l, among),
        Exchange::Teams { i, j, among } => repeats_of_teams(schedule, i, j, among),
    }
}

/// The games that an exchange alters and that have another round than at the start.
pub fn moved_of(schedule: &Schedule, league: &League, exchange: &Exchange) -> MovedDelta
    requires same_size { teams league.now ≡ schedule.now.teams }
    requires can_be_made { IsExchange schedule.now exchange.now }
    ensures balance { moved_games league.now (exchanged_by schedule.now exchange.now) + result.before ≡
        moved_games league.now schedule.now + result.after }
    ensures before_limit { result.before ≤ 2 * max_rounds }
    ensures after_limit { result.after ≤ 2 * max_rounds }
{
    match *exchange {
        Exchange::Rounds { k, l, among } => moved_of_rounds(schedule, league, k, l, among),
        Exchange::Teams { i, j, among } => moved_of_teams(schedule, league, i, j, among),
    }
}
