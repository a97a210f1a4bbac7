//! The change of a cost by an exchange, predicted on the schedule before it.

ghost use Rattle.std.specs.Prelude.{◌≡◌, ◌+◌, ◌*◌, ◌<◌, ◌≤◌, MatchOption};
ghost use Rattle.league.specs.League.{teams};
ghost use Rattle.league.specs.Limits.{max_rounds, max_teams, max_weight};
ghost use Rattle.tours.specs.Repeats.{repeats};
ghost use Rattle.tours.specs.Tours.{travel};
ghost use Rattle.fixtures.specs.Exchanges.{exchanged_by, IsExchange};
ghost use Rattle.costs.specs.Costs.{cost_of, near_cost, score_by, unless_free, AreWeights};
ghost use Rattle.costs.specs.within.CostParts.{IsPredicted};

use crate::attempt::Attempt;
use crate::cost::Cost;
use fixtures::{Exchange, Schedule};
use league::League;
use tours::{CountDelta, legs_of, moved_of, repeats_of, streaks_of};

/// The cost with the travel, the streaks, the repeats and what leaving the start costs after an exchange, and all else as before it. None if
/// the travel alone, or with some of the streaks, scores over its limit: then the whole cost after it does so too.
#[inline]
pub(crate) fn predicted_within(
    schedule: &Schedule,
    league: &League,
    attempt: &Attempt<'_>,
) -> Option<Cost>
    requires same_size { teams league.now ≡ schedule.now.teams }
    requires can_be_made { IsExchange schedule.now attempt.now.exchange.now }
    requires known { attempt.now.known ≡ cost_of league.now schedule.now }
    requires weights { AreWeights attempt.now.weights }
    ensures { MatchOption result
        (attempt.now.limit < score_by attempt.now.weights (cost_of league.now (exchanged_by schedule.now attempt.now.exchange.now)))
        (λ predicted. IsPredicted league.now schedule.now attempt.now.exchange.now predicted) }
{
    prove_eq!(league.teams(), schedule.teams());
    let exchange = attempt.exchange;
    let (known, limit) = (attempt.known, attempt.limit);
    let travel = travel_after(schedule, league, exchange, known.travel);
    if travel > limit {
        return None;
    }
    let streaks = streaks_of(schedule, league, exchange);
    let least = Cost {
        travel,
        hard: streaks.after,
        of_rules: 0,
        soft: 0,
    };
    if least.score_by(attempt.weights) > limit {
        return None;
    }
    let repeats = repeats_delta(schedule, league, exchange);
    let leaving = leaving_of(schedule, league, exchange);
    Some(Cost {
        travel,
        hard: known.hard + streaks.after + repeats.after - streaks.before - repeats.before,
        of_rules: known.of_rules,
        soft: known.soft + leaving.after - leaving.before,
    })
}

/// The repeats that an exchange alters, before it and after it. None is counted if they are free.
fn repeats_delta(schedule: &Schedule, league: &League, exchange: &Exchange) -> CountDelta
    requires { IsExchange schedule.now exchange.now }
    ensures balance { unless_free league.now (repeats (exchanged_by schedule.now exchange.now)) + result.before ≡
        unless_free league.now (repeats schedule.now) + result.after }
    ensures after_limit { result.after ≤ 4 * max_teams }
{
    if league.free_repeats() {
        return CountDelta {
            before: 0,
            after: 0,
        };
    }
    repeats_of(schedule, exchange)
}

/// The price of the games that an exchange alters for another round than at the start, before it and after it.
#[derive(Clone, Copy)]
struct LeavingDelta {
    before: u64,
    after: u64,
}

/// Counts that price, and nothing if there is none.
fn leaving_of(schedule: &Schedule, league: &League, exchange: &Exchange) -> LeavingDelta
    requires same_size { teams league.now ≡ schedule.now.teams }
    requires can_be_made { IsExchange schedule.now exchange.now }
    ensures balance { near_cost league.now (exchanged_by schedule.now exchange.now) + result.before ≡
        near_cost league.now schedule.now + result.after }
    ensures after_limit { result.after ≤ max_weight * (2 * max_rounds) }
{
    let near = u64::from(league.near());
    if near == 0 {
        return LeavingDelta {
            before: 0,
            after: 0,
        };
    }
    let moved = moved_of(schedule, league, exchange);
    LeavingDelta {
        before: near * moved.before,
        after: near * moved.after,
    }
}

/// The travel after an exchange.
fn travel_after(schedule: &Schedule, league: &League, exchange: &Exchange, known: u64) -> u64
    requires same_size { teams league.now ≡ schedule.now.teams }
    requires can_be_made { IsExchange schedule.now exchange.now }
    requires known { known ≡ travel league.now schedule.now }
    ensures { result ≡ travel league.now (exchanged_by schedule.now exchange.now) }
{
    prove_eq!(league.teams(), schedule.teams());
    let legs = legs_of(schedule, league, exchange);
    known + legs.after - legs.before
}
