//! Improvements that follow each other.

ghost use Rattle.std.specs.Prelude.{◌≡◌, ◌+◌, ◌-◌, ◌*◌, ◌%◌, ◌^◌, ◌≤◌, min, max, IfNone, IfSome};
ghost use Rattle.policy.specs.Limits.{max_effort};

use crate::plan::ImprovePlan;
use policy::{Facts, Policy, Wave};

/// An improvement, and those that are to follow: each has the next seed, and twice the steps of the one before or what is left.
#[derive(Drop)]
pub(crate) struct Series {
    /// The policy of the present one.
    pub(crate) policy: Policy,
    /// The facts that the policy goes by.
    facts: Facts,
    /// The seed of its draws.
    pub(crate) seed: u64,
    /// How many of its legs got in line. Each draws from a stream of its own.
    pub(crate) lined: u64,
    /// The steps of those that are to follow.
    later: u64,
    ghost teams: { 4 ≤ facts.teams },
    ghost most: { later ≤ max_effort },
}

impl Series {
    /// The series of a plan, on as many teams and with the aim of these facts.
    pub(crate) fn new(facts: Facts, plan: ImprovePlan) -> Self
        requires teams { 4 ≤ facts.teams }
        requires effort { plan.effort ≤ max_effort }
        ensures left { result.policy.left + result.later ≡ plan.effort }
        ensures seed { result.seed ≡ plan.seed }
        ensures lined { result.lined ≡ 0 }
        ensures teams { result.facts.teams ≡ facts.teams }
        ensures aim { result.facts.aim ≡ facts.aim }
        ensures rules { result.facts.breaks_rules ≡ facts.breaks_rules }
    {
        let effort = plan.first.unwrap_or(plan.effort).min(plan.effort);
        let facts = Facts { effort, ..facts };
        Series {
            policy: Policy::new(facts),
            facts,
            seed: plan.seed,
            lined: 0,
            later: plan.effort - effort,
        }
    }

    /// The next wave: of the present improvement or, if that has taken all its steps, the first one of the next.
    pub(crate) fn wave(&mut self) -> Option<Wave>
        ensures left { self.new.policy.left + self.new.later ≡ self.old.policy.left + self.old.later }
        ensures some { IfSome result (λ wave. 1 ≤ self.new.policy.left) }
        ensures bouts { IfSome result (λ wave. 1 ≤ wave.bouts) }
        ensures none { IfNone result (self.old.policy.left + self.old.later ≡ 0) }
    {
        let wave = self.policy.wave();
        if wave.is_some() {
            return wave;
        }
        self.begin_next();
        self.policy.wave()
    }

    /// Goes on to the next improvement, which has no step if none is left.
    fn begin_next(&mut self)
        requires { self.old.policy.left ≡ 0 }
        ensures left { self.new.policy.left + self.new.later ≡ self.old.policy.left + self.old.later }
        ensures some { 1 ≤ self.old.later → 1 ≤ self.new.policy.left }
        ensures effort { self.new.facts.effort ≡ min (max (min (2 * self.old.facts.effort) (2 ^ 64 - 1)) 1) self.old.later }
        ensures seed { self.new.seed ≡ (self.old.seed + 1) % 2 ^ 64 }
        ensures lined { self.new.lined ≡ 0 }
        ensures teams { self.new.facts.teams ≡ self.old.facts.teams }
        ensures aim { self.new.facts.aim ≡ self.old.facts.aim }
        ensures rules { self.new.facts.breaks_rules ≡ self.old.facts.breaks_rules }
    {
        let effort = self.facts.effort.saturating_mul(2).max(1).min(self.later);
        self.facts = Facts {
            effort,
            ..self.facts
        };
        self.later -= effort;
        self.policy = Policy::new(self.facts);
        self.seed = self.seed.wrapping_add(1);
        self.lined = 0;
    }
}
