//! How many trips sets of opponents need.

ghost use Rattle.std.specs.Prelude.{◌≡◌, ◌<◌, ℕ, length, slice_index, IfOk};
ghost use Rattle.bounds.specs.within.Prices.{trips_of};

use crate::travellers::Traveller;
use sets::TeamSet;
use std::alloc::{AllocError, Global};

/// How many trips each set needs.
pub(crate) fn trips_of_sets(
    alloc: Global,
    traveller: Traveller,
    sets: &[TeamSet],
) -> Result<Vec<u8>, AllocError>
    ensures count { IfOk result (λ trips. length trips.items ≡ length sets.now) }
    ensures value { IfOk result (λ trips. (k : ℕ) → k < length sets.now →
        slice_index trips.items k ≡ trips_of traveller.most (slice_index sets.now k)) }
{
    let mut trips = Vec::with_capacity(alloc, sets.len())?;
    for &set in sets {
        trips.push(trips_of(traveller, set))?;
    }
    Ok(trips)
}

fn trips_of(traveller: Traveller, set: TeamSet) -> u8
    ensures { result ≡ trips_of traveller.most set }
{
    let most = u32::from(traveller.most);
    ((set.len() + most - 1) / most) as u8
}
