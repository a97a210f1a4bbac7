//! The part of a cost that has to be counted for an exchange, since the exchange can change it.

ghost use Rattle.std.specs.Prelude.{◌≡◌};
ghost use Rattle.league.specs.League.{LeagueData};
ghost use Rattle.fixtures.specs.Exchanges.{IsExchange};
ghost use Rattle.costs.specs.within.CostParts.{IsScope, KnowsRules};
ghost use Rattle.costs.specs.Evaluators.{IsEvaluatorOf};

use crate::attempt::Attempt;
use crate::evaluator::Evaluator;
use fixtures::{Schedule, Touched};
use league::{RuleSet, TeamSet};

/// An attempt and what its exchange can change of such a cost, predicted once on the schedule before it.
#[derive(Clone, Copy)]
pub(crate) struct Scope<'a> {
    pub(crate) attempt: Attempt<'a>,
    /// The main teams of the exchange, and the rounds in which they get other games.
    pub(crate) main: Touched,
    /// The teams whose sides change.
    pub(crate) flipping: TeamSet,
    /// The rules whose deviation can change.
    pub(crate) rules: RuleSet,
    /// Those of them that are counted first, next and last.
    pub(crate) first: RuleSet,
    pub(crate) next: RuleSet,
    pub(crate) last: RuleSet,
}

impl<'a> Scope<'a> {
    /// The scope of an attempt whose exchange can be made on the schedule.
    pub(crate) fn of(attempt: &Attempt<'a>, schedule: &Schedule, evaluator: &Evaluator) -> Self
        requires { IsExchange schedule.now attempt.now.exchange.now }
        ensures attempt { result.attempt ≡ attempt.now }
        ensures scope { IsScope schedule.now result }
        ensures rules { (l : LeagueData) → IsEvaluatorOf l.rules evaluator.now → KnowsRules l result }
    {
        let main = attempt.exchange.main();
        let rules = evaluator.index.alterable(main);
        Scope {
            attempt: *attempt,
            main,
            flipping: attempt.exchange.flipping(schedule),
            rules,
            first: rules.intersection(evaluator.order.first),
            next: rules.intersection(evaluator.order.next),
            last: rules.intersection(evaluator.order.last),
        }
    }
}
