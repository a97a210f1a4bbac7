//! An exchange that is made on a schedule of known cost: always, or if the score after is within a limit.

ghost use Rattle.std.specs.Prelude.{◌≡◌, ◌<◌, ◌≤◌, IfSome, MatchOption};
ghost use Rattle.league.specs.League.{teams};
ghost use Rattle.fixtures.specs.Exchanges.{exchanged_by, IsExchange};
ghost use Rattle.costs.specs.Costs.{cost_of, score_of, score_limit, AreWeights, IsCostWithin};
ghost use Rattle.costs.specs.Evaluators.{IsEvaluatorAt};

use crate::attempt::Attempt;
use crate::cost::Cost;
use crate::cost_delta::predicted_within;
use crate::counted::{rest_within, whole_within};
use crate::evaluator::Evaluator;
use crate::scope::Scope;
use crate::weights::Weights;
use fixtures::{Exchange, Schedule};
use league::League;

/// Makes an exchange on a schedule of known cost, and gives the cost after. Made once more, it gives the schedule back.
/// What is counted is kept in the evaluator. Takes no memory.
pub fn make_at_cost(
    schedule: &mut Schedule,
    league: &League,
    evaluator: &mut Evaluator,
    exchange: &Exchange,
    known: Cost,
) -> Cost
    requires same_size { teams league.now ≡ schedule.old.teams }
    requires evaluator { IsEvaluatorAt league.now schedule.old evaluator.old }
    requires can_be_made { IsExchange schedule.old exchange.now }
    requires known { known ≡ cost_of league.now schedule.old }
    ensures made { schedule.new ≡ exchanged_by schedule.old exchange.now }
    ensures again { IsExchange schedule.new exchange.now }
    ensures back { exchanged_by schedule.new exchange.now ≡ schedule.old }
    ensures value { result ≡ cost_of league.now schedule.new }
    ensures small { score_of league.now result < score_limit }
    ensures evaluator { IsEvaluatorAt league.now schedule.new evaluator.new }
{
    prove_eq!(league.teams(), schedule.teams());
    let attempt = Attempt {
        exchange,
        known,
        weights: Weights::alike(1),
        limit: u64::MAX,
    };
    make_within(schedule, league, evaluator, &attempt).unwrap()
}

/// Makes the exchange of an attempt as `make_at_cost` does if the score after by the attempt's weights is at most the greatest allowed, and
/// gives the cost after. Otherwise the schedule is left as it was, and what costs little to count is counted first: travel, streaks and repeats,
/// for which nothing is made, then the rules, the hard ones first and last those that take longest. What is counted is kept in the evaluator. Takes no memory.
pub fn make_within(
    schedule: &mut Schedule,
    league: &League,
    evaluator: &mut Evaluator,
    attempt: &Attempt<'_>,
) -> Option<Cost>
    requires same_size { teams league.now ≡ schedule.old.teams }
    requires evaluator { IsEvaluatorAt league.now schedule.old evaluator.old }
    requires can_be_made { IsExchange schedule.old attempt.now.exchange.now }
    requires known { attempt.now.known ≡ cost_of league.now schedule.old }
    requires weights { AreWeights attempt.now.weights }
    ensures value { IsCostWithin league.now attempt.now.weights attempt.now.limit (exchanged_by schedule.old attempt.now.exchange.now) result }
    ensures schedule { MatchOption result (schedule.new ≡ schedule.old)
        (λ cost. schedule.new ≡ exchanged_by schedule.old attempt.now.exchange.now) }
    ensures again { IsExchange schedule.new attempt.now.exchange.now }
    ensures back { IfSome result (λ cost. exchanged_by schedule.new attempt.now.exchange.now ≡ schedule.old) }
    ensures small { IfSome result (λ cost. score_of league.now cost < score_limit) }
    ensures evaluator { IsEvaluatorAt league.now schedule.new evaluator.new }
{
    prove_eq!(league.teams(), schedule.teams());
    let predicted = predicted_within(schedule, league, attempt)?;
    let exchange = attempt.exchange;
    if league.rule_count() == 0 && !league.phased() {
        if predicted.score_by(attempt.weights) > attempt.limit {
            return None;
        }
        exchange.make(schedule);
        return Some(predicted);
    }
    let scope = Scope::of(attempt, schedule, evaluator);
    let deviations = &mut evaluator.deviations;
    deviations.learn(schedule, league);
    let rest = rest_within(schedule, league, deviations, &scope, predicted)?;
    exchange.make(schedule);
    let cost = whole_within(schedule, league, deviations, &scope, rest);
    if cost.is_none() {
        exchange.make(schedule);
    } else {
        deviations.keep(scope.rules, league.rule_count());
    }
    cost
}
