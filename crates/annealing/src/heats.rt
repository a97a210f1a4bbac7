//! The temperature of each block of a leg.

ghost use Rattle.std.specs.Prelude.{◌≡◌, ◌^◌, ◌<◌, ◌≤◌};
ghost use Rattle.policy.specs.Legs.{IsLeg};
ghost use Rattle.annealing.specs.Heats.{rising, hottest_of};
ghost use Rattle.annealing.specs.within.Heats.{block_count, heat_at};

use crate::blocks::BLOCK;
use policy::{Course, Leg};

/// How many blocks the leg has. The last one may be shorter.
pub(crate) fn block_count(leg: Leg) -> u64
    ensures { result ≡ block_count leg }
{
    leg.steps.div_ceil(BLOCK)
}

/// The temperature of a block, from 0, in millionths of the unit.
pub(crate) fn heat_at(leg: Leg, block: u64) -> u64
    requires leg { IsLeg leg }
    requires block { block < block_count leg }
    ensures value { result ≡ heat_at leg block }
    ensures most { result < 2 ^ 54 }
{
    match leg.course {
        Course::Cools { from, to } => {
            let all = 1000 * u128::from(from - to);
            let fallen = all * u128::from(block) / u128::from(block_count(leg));
            1000 * u64::from(from) - fallen as u64
        }
        Course::Heats { from, to } => 1000 * u64::from(rising(leg.steps, from, to, block)),
    }
}

/// The highest temperature of the blocks up to one, in thousandths of the unit.
pub(crate) fn hottest_of(leg: Leg, block: u64) -> u32
    requires leg { IsLeg leg }
    requires block { block < block_count leg }
    ensures { result ≡ hottest_of leg block }
{
    match leg.course {
        Course::Cools { from, .. } => from,
        Course::Heats { from, to } => rising(leg.steps, from, to, block),
    }
}

/// The temperature of a block of a leg that heats, in thousandths of the unit.
fn rising(steps: u64, from: u32, to: u32, block: u64) -> u32
    requires order { from ≤ to }
    requires some { 1 ≤ steps }
    ensures value { result ≡ rising steps from to block }
    ensures most { result ≤ to }
{
    let all = u128::from(to - from);
    let risen = all * 2 * u128::from(BLOCK) * u128::from(block) / u128::from(steps);
    from + risen.min(all) as u32
}
