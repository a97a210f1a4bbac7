//! How prices follow from what the least tours of the last rounds were like. No contract speaks of them: these numbers saturate.

ghost use Rattle.std.specs.Prelude.{◌≡◌, length};

use crate::tour_legs::TourLeg;
use sets::TeamSet;

/// Averages are in so many parts of an entry.
const PARTS: u64 = 1 << 10;
/// So many rounds count in an average.
const MEMORY: u64 = 16;
/// No price is above this: two of the longest distances, and a little more.
const MOST_PRICE: u64 = 1 << 37;

/// As if the least tours so far had led into each set as often as is wanted.
pub(crate) fn first_average(entries: u8) -> u64 {
    u64::from(entries) * PARTS
}

/// Takes a tour into the averages, and moves the prices of sets that tours lead into too seldom up, and of others down.
pub(crate) fn adjust(
    sets: &[TeamSet],
    entries: &[u8],
    legs: &[TourLeg],
    step: u64,
    averages: &mut [u64],
    prices: &mut [u64],
)
    requires entries { length entries.now ≡ length sets.now }
    requires averages { length averages.old ≡ length sets.now }
    requires prices { length prices.old ≡ length sets.now }
{
    for (k, &set) in sets.iter().enumerate() {
        let average = mixed(averages[k], entries_by(set, legs));
        averages[k] = average;
        prices[k] = moved(prices[k], step, first_average(entries[k]), average);
    }
}

/// How often a tour of these legs leads into the set from outside.
fn entries_by(set: TeamSet, legs: &[TourLeg]) -> u64 {
    let mut entries = 0_u64;
    for leg in legs {
        if set.has(leg.to) && !set.has(leg.from) {
            entries = entries.saturating_add(u64::from(leg.times));
        }
    }
    entries
}

fn mixed(average: u64, entries: u64) -> u64 {
    let before = average.saturating_mul(MEMORY - 1);
    before.saturating_add(entries.saturating_mul(PARTS)) / MEMORY
}

fn moved(price: u64, step: u64, wanted: u64, average: u64) -> u64 {
    let by = step.saturating_mul(wanted.abs_diff(average)) / PARTS;
    if wanted >= average {
        price.saturating_add(by).min(MOST_PRICE)
    } else {
        price.saturating_sub(by)
    }
}
