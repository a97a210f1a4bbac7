//! A leg that has ended, and its temperatures.

ghost use Rattle.std.specs.Prelude.{◌≡◌};
ghost use Rattle.improvement.specs.Watched.{first_heat, in_thousandths, last_heat};

use annealing::Unit;
use policy::{Course, Leg, LegEnd};

/// A leg that has ended.
#[derive(Clone, Copy)]
pub(crate) struct ReportedLeg {
    /// Its own number, from 1.
    pub(crate) number: u64,
    pub(crate) chain: u64,
    pub(crate) leg: Leg,
    pub(crate) end: LegEnd,
}

pub(crate) fn first_heat(course: Course) -> u32
    ensures { result ≡ first_heat course }
{
    match course {
        Course::Cools { from, .. } | Course::Heats { from, .. } => from,
    }
}

/// The last temperature or, of a leg that heats, the highest one that it had.
pub(crate) fn last_heat(course: Course, end: LegEnd) -> u32
    ensures { result ≡ last_heat course end }
{
    match course {
        Course::Cools { to, .. } => to,
        Course::Heats { .. } => end.hottest,
    }
}

/// A temperature in thousandths of a distance.
pub(crate) fn in_thousandths(unit: Unit, heat: u32) -> u64
    ensures { result ≡ in_thousandths unit heat }
{
    let parts = u128::from(heat) * u128::from(unit.numerator);
    (parts / u128::from(unit.denominator)).min(u128::from(u64::MAX)) as u64
}
