//! The law of breaches. The function does nothing: what is known is in its contract.

ghost use Rattle.league.specs.declared.rule.RuleBody.{RuleBody};
ghost use Rattle.fixtures.specs.Games.{Games};
ghost use Rattle.report_breaches.specs.Breaches.{AddsUp};

/// The amounts of a rule's breaches add up to its deviation.
#[tactic(auto, using(crate::proofs::AddingUp::adds_up))]
pub fn breaches_add_up()
    ensures { (g : Games) (body : RuleBody) → AddsUp g body }
{}
