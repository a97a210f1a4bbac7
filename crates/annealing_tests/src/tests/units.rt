//! Units of leagues.

use crate::tests::checks::check_same;
use crate::tests::leagues::{Sample, league_of};
use annealing::{Unit, measure};
use std::alloc::Global;
use std::process::Abort;

/// The unit is this many distances, whatever leaving the start costs.
fn check_unit(rt: &impl Abort, alloc: Global, sample: Sample, near: u32, wanted: (u64, u64)) {
    let mut league = league_of(alloc, sample).expect(rt, "a league");
    league.set_near(near.min(1_000_000));
    let Unit {
        numerator,
        denominator,
    } = measure(alloc, &league).expect(rt, "a unit");
    check_same(rt, &(numerator, denominator), &wanted);
}

/// Units of distances are their mean, those of wishes a sixth of the middle one, and those of nothing 1. The price of leaving the start is
/// not measured.
const UNITS: [(Sample, u32, (u64, u64)); 5] = [
    // the sum is 8 (1 + 2 + 3 + 4 + 3 + 2 + 1)
    (Sample::Circle, 0, (128, 56)),
    (Sample::Circle, 1_000_000, (128, 56)),
    (Sample::Constant, 0, (30, 30)),
    // each change is by one wish
    (Sample::Wish, 0, (60, 6)),
    (Sample::OnePlace, 0, (1, 1)),
];

#[test]
fn units_of_leagues(rt: HostRuntime) {
    for (sample, near, unit) in UNITS {
        check_unit(&rt, rt.alloc(), sample, near, unit);
    }
}
