//! Chains, and what a leg goes by.

use crate::unit::Unit;
use costs::Weights;
use fixture_board::Board;
use policy::{Leg, LegEnd, WeightCourse};

/// One trajectory of schedules, on a board of its own.
#[derive(Drop)]
pub struct Chain {
    pub board: Board,
    /// The weight of a breach of a hard limit, in millionths of the unit.
    pub weight: u64,
}

/// The conditions of a wave's legs.
#[derive(Clone, Copy)]
pub struct Conditions<'a> {
    /// The unit of temperatures and weights.
    pub unit: Unit,
    /// The rounds that a move may name.
    pub rounds: &'a [u8],
    /// The limits of the weight.
    pub weights: WeightCourse,
}

impl Conditions<'_> {
    ghost use Rattle.std.specs.Prelude.{◌≡◌};
    ghost use Rattle.annealing.specs.within.Units.{weights_in};
    ghost use Rattle.costs.specs.Costs.{AreWeights};

    /// The weights of breaches of hard limits in the score where the chain has this weight.
    pub(crate) fn weights_at(&self, weight: u64) -> Weights
        ensures value { result ≡ weights_in self.now.unit weight self.now.weights.rule }
        ensures are { AreWeights result }
    {
        let breach = self.unit.weight(weight);
        let rule = match self.weights.rule {
            Some(rule) => self.unit.weight(rule).saturating_sub(breach),
            None => 0,
        };
        Weights { breach, rule }
    }
}

/// A leg, and the words that it draws with.
#[derive(Clone, Copy, Debug, PartialEq, Eq)]
pub struct LegPlan {
    pub leg: Leg,
    /// The generator's first state.
    pub seed: u64,
    /// Its stream.
    pub stream: u64,
}

/// The chain after a leg, and what the leg came to.
#[derive(Drop)]
pub struct Annealed {
    pub chain: Chain,
    pub end: LegEnd,
}
