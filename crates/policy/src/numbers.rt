//! The numbers of the policy. Contracts speak of them by name alone, so they can be changed without a proof.
//!
//! Lengths of chains are in spans: a span is a thousand times the square of the number of teams, in steps.

use crate::legs::{Course, WeightCourse};

/// A rigid chain of the first half: hot, and then with rounds too, for so many tenths of its steps.
pub(crate) const HOT: Course = Course::Cools {
    from: 2000,
    to: 500,
};
/// The same where rules' breaches weigh apart.
pub(crate) const HOTTER: Course = Course::Cools {
    from: 3000,
    to: 500,
};

pub(crate) const MILD: Course = Course::Cools { from: 600, to: 300 };

pub(crate) const MILD_TENTHS: u64 = 3;
/// A loose chain.
pub(crate) const WARM: Course = Course::Cools {
    from: 1500,
    to: 300,
};
/// A chain of all moves, where few teams play.
pub(crate) const COOL: Course = Course::Cools { from: 600, to: 150 };
/// A chain that goes on from a given start: no hotter than the second half's first cycle.
pub(crate) const TEPID: Course = Course::Cools { from: 300, to: 150 };

/// The first chain has at most such a part of the effort, so that there is something good early.
pub(crate) const EARLY_PART: u64 = 16;
/// The length of a rigid chain, and the most steps that it has.
pub(crate) const RIGID_SPANS: u64 = 8;

pub(crate) const RIGID_LIMIT: u64 = 3_000_000;
/// The length of a loose chain, and the most steps that it has.
pub(crate) const LOOSE_SPANS: u64 = 16;

pub(crate) const LOOSE_LIMIT: u64 = 6_000_000;
/// How copies of a chain heat that seek a feasible schedule.
pub(crate) const SEEKING: Course = Course::Heats {
    from: 300,
    to: 2000,
};
/// Up to so many teams are few.
pub(crate) const FEW_TEAMS: u8 = 12;
/// Loose chains that would be shorter are left out: where few teams play, and elsewhere.
pub(crate) const FEW_LOOSE_LEAST: u64 = 2;

pub(crate) const LOOSE_LEAST: u64 = 5;
/// Where more teams play there are so many groups, if their loose chains are long enough: workers share these better.
pub(crate) const LEAST_GROUPS: u32 = 2;

/// The most chains that go on to the second half, and how long each is to have there.
pub(crate) const FIELD_LIMIT: u64 = 4;

pub(crate) const FIELD_SPANS: u64 = 5;

/// A try to become feasible has so many steps, but there are four at least.
pub(crate) const TRY_STEPS: u64 = 1_250_000;

pub(crate) const LEAST_TRIES: u64 = 4;

/// The cycles of chains that go on: each cools from a peak.
#[derive(Clone, Copy)]
pub(crate) struct Cycles {
    /// How many there are once one chain is left.
    pub(crate) count: u32,
    /// In thousandths of the hottest, and in turn.
    pub(crate) peaks: [u32; 4],
    /// The temperature at the end of each.
    pub(crate) cold: u32,
}

/// Of the second half: where few teams play or rules' breaches weigh apart, and elsewhere. The hottest is the unit.
pub(crate) const HOT_SECOND_HALF: Cycles = Cycles {
    count: 16,
    peaks: [500, 400, 600, 300],
    cold: 150,
};

pub(crate) const SECOND_HALF: Cycles = Cycles {
    count: 16,
    peaks: [300, 250, 400, 200],
    cold: 150,
};
/// After the least number of tries, and after more. The hottest is what a try needed to become feasible.
pub(crate) const AFTER_FEW: Cycles = Cycles {
    count: 16,
    peaks: [500, 750, 250, 1000],
    cold: 100,
};

pub(crate) const AFTER_MORE: Cycles = Cycles {
    count: 8,
    peaks: [1000, 850, 1000, 850],
    cold: 100,
};
/// The unit of temperatures, which are its thousandths.
pub(crate) const UNIT: u32 = 1000;
/// How many copies of the last chain have the same cycle.
pub(crate) const COPIES: u32 = 4;

/// How tries heat, and what a breach weighs in them.
#[derive(Clone, Copy)]
pub(crate) struct Heating {
    pub(crate) from: u32,
    pub(crate) to: u32,
    pub(crate) weights: WeightCourse,
}

/// Of the first tries of a search. A breach weighs as where nothing heats.
pub(crate) const LOW: Heating = Heating {
    from: 300,
    to: 800,
    weights: WeightCourse {
        first: 2_000_000,
        least: 300_000,
        most: 100_000_000,
        rule: None,
    },
};
/// Of the first tries of a repair.
pub(crate) const NEAR: Heating = Heating {
    from: 1000,
    to: 5000,
    weights: WeightCourse {
        first: 10_000_000,
        least: 300_000,
        most: 25_000_000,
        rule: None,
    },
};
/// Of the last tries.
pub(crate) const WIDE: Heating = Heating {
    from: 1000,
    to: 20_000,
    weights: WeightCourse {
        first: 10_000_000,
        least: 300_000,
        most: 100_000_000,
        rule: None,
    },
};

/// Where rules' breaches weigh apart: in the first half, and after it.
pub(crate) const RULED_FIRST: WeightCourse = WeightCourse {
    first: 2_000_000,
    least: 300_000,
    most: 10_000_000,
    rule: Some(8_000_000),
};

pub(crate) const RULED: WeightCourse = WeightCourse {
    first: 2_000_000,
    least: 300_000,
    most: 10_000_000,
    rule: Some(20_000_000),
};
/// There the first half has so many groups, each of a rigid chain, or fewer if one gets less than so many spans.
pub(crate) const RULED_GROUPS: u64 = 4;

pub(crate) const RULED_LEAST: u64 = 2;
