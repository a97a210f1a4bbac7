//! The order in which a league's rules are counted.

ghost use Rattle.std.specs.Prelude.{◌≡◌};
ghost use Rattle.costs.specs.Evaluators.{is_hard, is_slow, IsOrderOf};

use league::{League, Rule, RuleBody, RuleSet, Weight};

/// A league's rules by the order in which they are counted, so that a move that is refused is refused soon: first the hard ones, of which a
/// breach weighs most, then the soft ones, and last those of both kinds that take long.
#[derive(Clone, Copy, Drop)]
pub(crate) struct CountingOrder {
    pub(crate) first: RuleSet,
    pub(crate) next: RuleSet,
    pub(crate) last: RuleSet,
}

impl CountingOrder {
    /// The order of a league's rules.
    pub(crate) fn new(league: &League) -> Self
        ensures { IsOrderOf league.now.rules result.first result.next result.last }
    {
        let mut first = RuleSet::empty();
        let mut next = RuleSet::empty();
        let mut last = RuleSet::empty();
        for i in 0..league.rule_count() {
            let rule = league.rule(i);
            if is_slow(rule) {
                last = last.with(i);
            } else if is_hard(rule) {
                first = first.with(i);
            } else {
                next = next.with(i);
            }
        }
        CountingOrder { first, next, last }
    }
}

/// Whether the rule takes long to count: it counts all its teams together, or compares each two of them.
#[tactic(auto, unfolding(crate::specs::Evaluators::is_slow))]
fn is_slow(rule: &Rule) -> bool
    ensures { result ≡ is_slow rule.now.body }
{
    matches!(
        &rule.body,
        RuleBody::Br2 { .. } | RuleBody::Se1 { .. } | RuleBody::Fa2 { .. }
    )
}

/// Whether the rule's limit is a hard one.
#[tactic(auto, unfolding(crate::specs::Evaluators::is_hard))]
fn is_hard(rule: &Rule) -> bool
    ensures { result ≡ is_hard rule.now.weight }
{
    matches!(&rule.weight, Weight::Hard)
}
