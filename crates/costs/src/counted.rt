//! The part of a cost that has to be counted before an exchange and after it: of the rules, and in a phased league of
//! the pairs with both games in one half.

ghost use Rattle.std.specs.Prelude.{◌≡◌, ◌+◌, ◌*◌, ◌<◌, ◌≤◌, true, false, length, IfSome, MatchOption};
ghost use Rattle.league.specs.League.{teams};
ghost use Rattle.league.specs.Limits.{max_rules, max_teams};
ghost use Rattle.league.specs.Sets.{has};
ghost use Rattle.tours.specs.Phased.{unphased_part};
ghost use Rattle.fixtures.specs.Exchanges.{exchanged_by};
ghost use Rattle.costs.specs.Costs.{cost_of, score_by, where_phased, AreWeights, IsCostWithin};
ghost use Rattle.costs.specs.within.CostParts.{halves_part, with_halves, with_penalties, IsPredicted, IsRest, IsScope, KnowsRules};
ghost use Rattle.costs.specs.within.KeptDeviations.{AreKeptDeviations, AreRests, IsKeptOf};

use crate::cost::Cost;
use crate::kept_deviations::KeptDeviations;
use crate::penalties::Penalties;
use crate::rule_costs::{known_penalties, parts_of_rules, with_rules};
use crate::scope::Scope;
use fixtures::{Schedule, Touched};
use league::League;
use rules::deviation_part;
use tours::unphased_part;

/// A predicted cost without so many pairs in one half, and without these penalties of rules.
fn without(predicted: Cost, halves: u64, rules: Penalties) -> Cost
    requires hard { halves + rules.hard ≤ predicted.hard }
    requires of_rules { rules.hard ≤ predicted.of_rules }
    requires soft { rules.soft ≤ predicted.soft }
    ensures { with_penalties (with_halves result halves) rules ≡ predicted }
{
    Cost {
        travel: predicted.travel,
        hard: predicted.hard - halves - rules.hard,
        of_rules: predicted.of_rules - rules.hard,
        soft: predicted.soft - rules.soft,
    }
}

/// Gives a predicted cost without the penalties that the exchange can change, unless it takes the score after the exchange over the greatest
/// that the attempt allows. For that nothing is made, and nothing is counted if the score is over it though no such rule were broken.
pub(crate) fn rest_within(
    schedule: &Schedule,
    league: &League,
    deviations: &mut KeptDeviations,
    scope: &Scope<'_>,
    predicted: Cost,
) -> Option<Cost>
    requires same_size { teams league.now ≡ schedule.now.teams }
    requires scope { IsScope schedule.now scope.now }
    requires weights { AreWeights scope.now.attempt.weights }
    requires rules { KnowsRules league.now scope.now }
    requires deviations { AreKeptDeviations league.now.rules schedule.now deviations.old }
    requires predicted { IsPredicted league.now schedule.now scope.now.attempt.exchange.now predicted }
    ensures rest { MatchOption result
        (scope.now.attempt.limit < score_by scope.now.attempt.weights (cost_of league.now (exchanged_by schedule.now scope.now.attempt.exchange.now)))
        (λ rest. IsRest league.now scope.now (exchanged_by schedule.now scope.now.attempt.exchange.now) rest) }
    ensures deviations { AreKeptDeviations league.now.rules schedule.now deviations.new }
    ensures same { IsKeptOf deviations.new deviations.old }
    ensures rests { IfSome result (λ _. deviations.new.is_known ≡ true →
        AreRests league.now.rules scope.now (has scope.now.rules) schedule.now deviations.new.kept deviations.new.next) }
{
    prove_eq!(league.teams(), schedule.teams());
    let (weights, limit) = (scope.attempt.weights, scope.attempt.limit);
    let halves = phases_part(schedule, league, scope.main);
    if deviations.is_known {
        return rest_of_known(schedule, league, deviations, scope, predicted, halves);
    }
    let parts = parts_of_rules(schedule, league, &mut deviations.counts, scope);
    let rest = without(predicted, halves, parts);
    if rest.score_by(weights) > limit {
        return None;
    }
    Some(rest)
}

/// That cost where the deviations are known: with no rule broken that the exchange can alter, and then with what of one deviation after another
/// it can't alter, until the score is above the greatest that the attempt allows.
fn rest_of_known(
    schedule: &Schedule,
    league: &League,
    deviations: &mut KeptDeviations,
    scope: &Scope<'_>,
    predicted: Cost,
    halves: u64,
) -> Option<Cost>
    requires same_size { teams league.now ≡ schedule.now.teams }
    requires scope { IsScope schedule.now scope.now }
    requires weights { AreWeights scope.now.attempt.weights }
    requires rules { KnowsRules league.now scope.now }
    requires deviations { AreKeptDeviations league.now.rules schedule.now deviations.old }
    requires known { deviations.old.is_known ≡ true }
    requires predicted { IsPredicted league.now schedule.now scope.now.attempt.exchange.now predicted }
    requires halves { halves ≡ halves_part league.now scope.now schedule.now }
    ensures rest { MatchOption result
        (scope.now.attempt.limit < score_by scope.now.attempt.weights (cost_of league.now (exchanged_by schedule.now scope.now.attempt.exchange.now)))
        (λ rest. IsRest league.now scope.now (exchanged_by schedule.now scope.now.attempt.exchange.now) rest) }
    ensures deviations { AreKeptDeviations league.now.rules schedule.now deviations.new }
    ensures same { IsKeptOf deviations.new deviations.old }
    ensures rests { IfSome result (λ _. deviations.new.is_known ≡ true →
        AreRests league.now.rules scope.now (has scope.now.rules) schedule.now deviations.new.kept deviations.new.next) }
{
    prove_eq!(league.teams(), schedule.teams());
    let (weights, limit) = (scope.attempt.weights, scope.attempt.limit);
    let penalties = known_penalties(schedule, league, deviations, scope);
    let mut rest = without(predicted, halves, penalties);
    let broken = scope.rules.intersection(deviations.broken);
    for i in broken {
        if rest.score_by(weights) > limit {
            return None;
        }
        let rule = league.rule(i);
        let kept = deviations.kept[i];
        let counts = &mut deviations.counts;
        let known = Some(u64::from(kept));
        let part = deviation_part(schedule, rule, scope.main, scope.flipping, known, counts);
        let stays = kept.saturating_sub(part as u32);
        deviations.next[i] = stays;
        let added = Penalties::of_rule(rule.weight, u64::from(stays));
        rest.hard += added.hard;
        rest.of_rules += added.hard;
        rest.soft += added.soft;
    }
    if rest.score_by(weights) > limit {
        return None;
    }
    Some(rest)
}

/// The cost after an exchange, of which the rest is known, if its score is at most the greatest that the attempt allows. The rules
/// that the exchange can alter are counted one after another, until the score is above that.
pub(crate) fn whole_within(
    schedule: &Schedule,
    league: &League,
    deviations: &mut KeptDeviations,
    scope: &Scope<'_>,
    rest: Cost,
) -> Option<Cost>
    requires same_size { teams league.now ≡ schedule.now.teams }
    requires rules { KnowsRules league.now scope.now }
    requires weights { AreWeights scope.now.attempt.weights }
    requires rest { IsRest league.now scope.now schedule.now rest }
    requires kept_length { length deviations.old.kept ≡ max_rules }
    requires next_length { length deviations.old.next ≡ max_rules }
    requires rests { deviations.old.is_known ≡ true →
        AreRests league.now.rules scope.now (has scope.now.rules) schedule.now deviations.old.kept deviations.old.next }
    ensures cost { IsCostWithin league.now scope.now.attempt.weights scope.now.attempt.limit schedule.now result }
    ensures same { IsKeptOf deviations.new deviations.old }
    ensures next_length { length deviations.new.next ≡ max_rules }
    ensures all { IfSome result (λ _. deviations.new.is_known ≡ true →
        AreRests league.now.rules scope.now (λ _. false) schedule.now deviations.new.kept deviations.new.next) }
{
    prove_eq!(league.teams(), schedule.teams());
    let begun = Cost {
        hard: rest.hard + phases_part(schedule, league, scope.main),
        ..rest
    };
    let first = with_rules(schedule, league, deviations, scope, scope.first, begun)?;
    let next = with_rules(schedule, league, deviations, scope, scope.next, first)?;
    let cost = with_rules(schedule, league, deviations, scope, scope.last, next)?;
    if cost.score_by(scope.attempt.weights) > scope.attempt.limit {
        return None;
    }
    Some(cost)
}

/// The breaches of the pairs that the exchange can change, if the league is phased.
fn phases_part(schedule: &Schedule, league: &League, main: Touched) -> u64
    ensures value { result ≡ where_phased league.now (unphased_part schedule.now (has main.teams)) }
    ensures limit { result ≤ max_teams * max_teams }
{
    if league.phased() {
        unphased_part(schedule, main)
    } else {
        0
    }
}
