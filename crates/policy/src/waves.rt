//! The policy: which wave comes next, and which legs its bouts have.

use crate::legs::{Leg, LegEnd, WeightCourse};
use crate::plan::Plan;
use std::marker::Model;

/// The most steps that a search may take in all.
pub const MAX_EFFORT: u64 = 1_000_000_000_000;

/// The facts that the policy goes by.
#[derive(Clone, Copy, Debug, PartialEq, Eq)]
pub struct Facts {
    pub teams: u8,
    /// The steps of all legs together.
    pub effort: u64,
    pub aim: Aim,
    /// Whether the start breaks hard rules.
    pub breaks_rules: bool,
}

/// The aim: what is to become of the start.
#[derive(Clone, Copy, Debug, PartialEq, Eq)]
pub enum Aim {
    /// All chains of the first half melt it.
    Anew,
    /// The first chain goes on from it below the melting point, and the others melt it.
    GoOn,
    /// It is repaired, since games of it are kept, or leaving it has a price.
    Repair,
}

/// Where the chains of a wave begin.
#[derive(Clone, Copy, Debug, PartialEq, Eq)]
pub enum LegSource {
    /// At the league's start.
    Start,
    /// Each bout goes on with the field's chain of its place, from the chain's best version.
    Own,
    /// Each bout goes on with a copy of the field's first chain, from the chain's best version.
    Copies,
}

/// Bouts that don't depend on each other. A bout is what one chain does: up to two legs in a row.
#[derive(Clone, Copy, Debug, PartialEq, Eq)]
pub struct Wave {
    pub source: LegSource,
    pub bouts: u32,
    /// How many of its chains go on, the best ones. They are the field, the best one first.
    pub keep: u32,
}

/// The policy, which chooses the next legs by what those before came to. Contracts see the steps that are left, how many chains are in the
/// field, and the plan.
#[derive(Drop)]
pub struct Policy {
    left: u64,
    field: u32,
    plan: Plan,
}

impl Model for Policy {
    ghost use Rattle.policy.specs.Policy.{PolicyData, policy_data};
    ghost use Rattle.policy.specs.within.Policy.{IsPolicy};

    ghost Value = { PolicyData };

    ghost view = { λ p. policy_data p.left p.field p.plan };

    ghost invariant = { λ p. IsPolicy (policy_data p.left p.field p.plan) };
}

impl Policy {
    ghost use Rattle.std.specs.Prelude.{ℕ, ◌≡◌, ◌≢◌, ◌≤◌, ◌+◌, ◌-◌, ◌↔◌, IsSome, IsNone, IfSome, IfNone};
    ghost use Rattle.policy.specs.Limits.{max_effort};
    ghost use Rattle.policy.specs.Plan.{IsLegIn, bout_of, leg_after, plan_after, weights_of};
    ghost use Rattle.policy.specs.Policy.{as_far_as, field_after, IsNewPlan, IsNextWave};
    ghost use Rattle.policy.specs.Waves.{IsNextPlan};
    ghost use Rattle.policy.specs.Legs.{DoesCool, IsCourse, IsLeg, IsWeightCourse, steps_of};

    /// A policy of which no wave was asked for.
    pub fn new(facts: Facts) -> Self
        requires teams { 4 ≤ facts.teams }
        requires effort { facts.effort ≤ max_effort }
        ensures left { result.left ≡ facts.effort }
        ensures field { result.field ≡ 0 }
        ensures plan { IsNewPlan facts result.plan }
    {
        Policy {
            left: facts.effort,
            field: 0,
            plan: Plan::new(facts),
        }
    }

    /// The next wave, once all legs of the wave before were observed. There is none exactly if no steps are left.
    pub fn wave(&mut self) -> Option<Wave>
        ensures none { IsNone result ↔ (self.old.left ≡ 0) }
        ensures wave { IfSome result (IsNextWave self.old.field) }
        ensures plan { IfSome result (IsNextPlan self.old.field self.old.plan self.new.plan) }
        ensures left { self.new.left ≡ self.old.left }
        ensures field { self.new.field ≡ field_after self.old.field result }
        ensures over { IfNone result (self.new ≡ self.old) }
    {
        if self.left == 0 {
            return None;
        }
        let wave = self.plan.wave(self.field, self.left);
        self.field = wave.keep;
        Some(wave)
    }

    /// The first leg of a bout of the present wave: none if there are no steps for it.
    pub fn first_leg(&mut self, bout: u32) -> Option<Leg>
        ensures value { result ≡ as_far_as self.old.left (bout_of self.old.plan bout).first }
        ensures new { self.new ≡ record self.old { left = self.old.left - steps_of result } }
        ensures leg { IfSome result IsLeg }
        // so each wave takes steps
        ensures first { bout ≡ 0 → 1 ≤ self.old.left → IsSome result }
        ensures left { self.new.left + steps_of result ≡ self.old.left }
        ensures most { self.old.left ≤ max_effort }
        ensures field { self.new.field ≡ self.old.field }
    {
        let leg = self.plan.bout(bout).first;
        self.take(leg)
    }

    /// The bout's leg after one that ended, if there is another. Steps that the ended one left over come back.
    pub fn next_leg(&mut self, bout: u32, leg: Leg, ended: LegEnd) -> Option<Leg>
        requires ended { ended.steps ≤ leg.steps }
        requires out { self.old.left + leg.steps ≤ max_effort }
        ensures follows { leg ≡ (bout_of self.old.plan bout).first →
            result ≡ as_far_as (self.old.left + (leg.steps - ended.steps)) (leg_after self.old.plan (bout_of self.old.plan bout) ended) }
        ensures ends { leg ≢ (bout_of self.old.plan bout).first → result ≡ None }
        ensures plan { self.new.plan ≡ plan_after self.old.plan leg ended }
        ensures cools { IfSome result (λ next. DoesCool next.course) }
        // so what a bout does is the same whether or not legs of the wave's other bouts were observed
        ensures stays { IsLegIn self.old.plan bout leg → (other : ℕ) → bout_of self.new.plan other ≡ bout_of self.old.plan other }
        ensures leg { IfSome result IsLeg }
        ensures left { self.new.left + steps_of result + ended.steps ≡ self.old.left + leg.steps }
        ensures field { self.new.field ≡ self.old.field }
    {
        self.left += leg.steps - ended.steps;
        match self.plan.next_leg(bout, leg, ended) {
            Some(next) => self.take(next),
            None => None,
        }
    }

    /// The weight of a hard breach of a chain at the start, and its limits in the present wave.
    pub fn weights(&self) -> WeightCourse
        ensures value { result ≡ weights_of self.now.plan }
        ensures range { IsWeightCourse result }
    {
        self.plan.weights()
    }

    /// A leg, as far as there are steps left for it.
    fn take(&mut self, leg: Leg) -> Option<Leg>
        requires { IsCourse leg.course }
        ensures value { result ≡ as_far_as self.old.left leg }
        ensures new { self.new ≡ record self.old { left = self.old.left - steps_of result } }
        ensures leg { IfSome result IsLeg }
        ensures some { 1 ≤ leg.steps → 1 ≤ self.old.left → IsSome result }
        ensures left { self.new.left + steps_of result ≡ self.old.left }
        ensures field { self.new.field ≡ self.old.field }
    {
        let steps = leg.steps.min(self.left);
        if steps == 0 {
            return None;
        }
        self.left -= steps;
        Some(Leg { steps, ..leg })
    }
}
