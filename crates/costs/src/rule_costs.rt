//! The penalties of a league's rules in a schedule's cost.

ghost use Rattle.std.specs.Prelude.{◌≡◌, ℕ, ◌*◌, ◌<◌, ◌≤◌, true, length, IfSome, MatchOption};
ghost use Rattle.league.specs.League.{teams};
ghost use Rattle.league.specs.Limits.{deviation_limit, max_rules, max_weight};
ghost use Rattle.league.specs.Sets.{has, IsBelow};
ghost use Rattle.costs.specs.Costs.{cost_of, hard_penalty, score_by, soft_penalty, sum_over_rules, AreWeights};
ghost use Rattle.costs.specs.within.CostParts.{alterable_penalties, parts_of, rules_part, with_penalties, IsWithin, KnowsRules};
ghost use Rattle.costs.specs.within.KeptDeviations.{AreKeptDeviations, AreMadeWhole, AreRests, IsKeptOf};

use crate::cost::Cost;
use crate::kept_deviations::KeptDeviations;
use crate::penalties::Penalties;
use crate::scope::Scope;
use fixtures::Schedule;
use league::{League, RuleSet};
use rules::{HomeCounts, deviation, deviation_part};

/// Adds up the penalties of the rules in a schedule.
#[tactic(auto, using(league::proofs::ForCallers::sums), unfolding(crate::specs::Costs::sum_over_rules))]
pub(crate) fn costs_of_rules(schedule: &Schedule, league: &League) -> Penalties
    requires { teams league.now ≡ schedule.now.teams }
    ensures hard { result.hard ≡ sum_over_rules hard_penalty league.now.rules schedule.now }
    ensures soft { result.soft ≡ sum_over_rules soft_penalty league.now.rules schedule.now }
    ensures hard_most { result.hard ≤ max_rules * deviation_limit }
    ensures soft_most { result.soft ≤ max_rules * (max_weight * deviation_limit) }
{
    let mut costs = Penalties { hard: 0, soft: 0 };
    for i in 0..league.rule_count() {
        let rule = league.rule(i);
        let added = Penalties::of_rule(rule.weight, deviation(schedule, rule));
        costs.hard += added.hard;
        costs.soft += added.soft;
    }
    costs
}

/// All that the rules which the exchange of the scope can alter add to a cost before it, as their deviations are known.
pub(crate) fn known_penalties(
    schedule: &Schedule,
    league: &League,
    deviations: &KeptDeviations,
    scope: &Scope<'_>,
) -> Penalties
    requires same_size { teams league.now ≡ schedule.now.teams }
    requires rules { KnowsRules league.now scope.now }
    requires deviations { AreKeptDeviations league.now.rules schedule.now deviations.now }
    requires known { deviations.now.is_known ≡ true }
    ensures { result ≡ alterable_penalties league.now scope.now schedule.now }
{
    prove_eq!(league.teams(), schedule.teams());
    let mut costs = Penalties { hard: 0, soft: 0 };
    for i in scope.rules.intersection(deviations.broken) {
        let rule = league.rule(i);
        let added = Penalties::of_rule(rule.weight, u64::from(deviations.kept[i]));
        costs.hard += added.hard;
        costs.soft += added.soft;
    }
    costs
}

/// The part of these that the exchange of the scope can alter, of rules whose deviations aren't known.
pub(crate) fn parts_of_rules(
    schedule: &Schedule,
    league: &League,
    counts: &mut HomeCounts,
    scope: &Scope<'_>,
) -> Penalties
    requires same_size { teams league.now ≡ schedule.now.teams }
    requires rules { KnowsRules league.now scope.now }
    ensures hard { result.hard ≡ rules_part hard_penalty league.now.rules scope.now.main scope.now.flipping schedule.now }
    ensures soft { result.soft ≡ rules_part soft_penalty league.now.rules scope.now.main scope.now.flipping schedule.now }
    ensures hard_most { result.hard ≤ max_rules * deviation_limit }
    ensures soft_most { result.soft ≤ max_rules * (max_weight * deviation_limit) }
{
    prove_eq!(league.teams(), schedule.teams());
    let mut costs = Penalties { hard: 0, soft: 0 };
    for i in scope.rules {
        let rule = league.rule(i);
        let part = deviation_part(schedule, rule, scope.main, scope.flipping, None, counts);
        let added = Penalties::of_rule(rule.weight, part);
        costs.hard += added.hard;
        costs.soft += added.soft;
    }
    costs
}

/// The cost before with what the exchange of the scope can alter of some rules, which are counted one after another, until the score is above the
/// greatest that the attempt allows. The deviations from these rules, of which the rest is known, are made whole.
pub(crate) fn with_rules(
    schedule: &Schedule,
    league: &League,
    deviations: &mut KeptDeviations,
    scope: &Scope<'_>,
    rules: RuleSet,
    before: Cost,
) -> Option<Cost>
    requires same_size { teams league.now ≡ schedule.now.teams }
    requires weights { AreWeights scope.now.attempt.weights }
    requires below { IsBelow (length league.now.rules) rules }
    requires alterable { (i : ℕ) → has rules i ≡ true → has scope.now.rules i ≡ true }
    requires before { IsWithin league.now scope.now rules schedule.now before }
    requires kept_length { length deviations.old.kept ≡ max_rules }
    requires next_length { length deviations.old.next ≡ max_rules }
    ensures cost { MatchOption result (scope.now.attempt.limit < score_by scope.now.attempt.weights (cost_of league.now schedule.now))
        (λ counted. counted ≡ with_penalties before (parts_of league.now scope.now rules schedule.now)) }
    ensures same { IsKeptOf deviations.new deviations.old }
    ensures next_length { length deviations.new.next ≡ max_rules }
    ensures whole { IfSome result (λ _. AreMadeWhole league.now.rules scope.now rules schedule.now deviations.old deviations.new) }
{
    prove_eq!(league.teams(), schedule.teams());
    let (weights, limit) = (scope.attempt.weights, scope.attempt.limit);
    let mut cost = before;
    for i in rules {
        if cost.score_by(weights) > limit {
            return None;
        }
        let rule = league.rule(i);
        let counts = &mut deviations.counts;
        let part = deviation_part(schedule, rule, scope.main, scope.flipping, None, counts);
        deviations.next[i] = deviations.rest(i).saturating_add(part as u32);
        let added = Penalties::of_rule(rule.weight, part);
        cost.hard += added.hard;
        cost.of_rules += added.hard;
        cost.soft += added.soft;
    }
    Some(cost)
}
