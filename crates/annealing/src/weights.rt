//! How the weight of a hard breach goes on.

ghost use Rattle.std.specs.Prelude.{◌≡◌, ◌≤◌};
ghost use Rattle.policy.specs.Legs.{IsWeightCourse};
ghost use Rattle.annealing.specs.within.Weights.{weight_after};

use crate::blocks::StepTally;
use policy::WeightCourse;

/// The weight after a block. It grows by a fiftieth of it if the schedule was feasible at no step, falls by as much if it was so at each,
/// and goes on between these with their share. It stays within its limits.
pub(crate) fn weight_after(weights: WeightCourse, weight: u64, tally: StepTally) -> u64
    requires weights { IsWeightCourse weights }
    requires some { 1 ≤ tally.steps }
    requires share { tally.feasible ≤ tally.steps }
    ensures value { result ≡ weight_after weights weight tally }
    ensures least { weights.least ≤ result }
    ensures most { result ≤ weights.most }
{
    let weight = u128::from(weight);
    let falls = weight * u128::from(tally.feasible) / (25 * u128::from(tally.steps));
    let next = weight + weight / 50 - falls;
    next.clamp(u128::from(weights.least), u128::from(weights.most)) as u64
}
