//! Legs are shortened by the prices of the sets that they lead into.

ghost use Rattle.std.specs.Prelude.{◌≡◌, ◌≢◌, ℕ, ◌<◌, ◌≤◌, ◌+◌, ◌*◌, true, length, slice_index, if◌then◌else◌};
ghost use Rattle.sets.specs.Sets.{has};
ghost use Rattle.sets.specs.Sums.{sum_below};
ghost use Rattle.bounds.specs.within.Tables.{leg_at};
ghost use Rattle.bounds.specs.within.Prices.{AreOfOpponents, leads_into, discount, longer};
ghost use Rattle.bounds.specs.within.Lengths.{table_length};

use crate::limits::entry;
use crate::travellers::Traveller;
use sets::TeamSet;

/// Shortens each leg by the prices of the sets that it leads into. All prices together are no longer than any leg to an opponent.
pub(crate) fn discount_legs(
    traveller: Traveller,
    sets: &[TeamSet],
    prices: &[u64],
    legs: &mut [u64],
)
    requires opponents { AreOfOpponents traveller.teams traveller.home sets.now }
    requires prices { length prices.now ≡ length sets.now }
    requires within { sum_below (length prices.now) (slice_index prices.now) ≤ longer }
    requires legs { length legs.old ≡ table_length }
    requires long { (from to : ℕ) → from < traveller.teams → to < traveller.teams → to ≢ traveller.home →
        longer ≤ leg_at legs.old from to }
    ensures { (from to : ℕ) → from < traveller.teams → to < traveller.teams →
        leg_at legs.new from to + discount sets.now prices.now (length sets.now) from to ≡ leg_at legs.old from to }
{
    for (k, &set) in sets.iter().enumerate() {
        shorten(traveller, set, prices[k], legs);
    }
}

/// Shortens the legs that lead into the set.
fn shorten(traveller: Traveller, set: TeamSet, price: u64, legs: &mut [u64])
    requires legs { length legs.old ≡ table_length }
    requires long { (from to : ℕ) → from < traveller.teams → to < traveller.teams → has set to ≡ true → price ≤ leg_at legs.old from to }
    ensures { (from to : ℕ) → from < traveller.teams → to < traveller.teams →
        leg_at legs.new from to + (if leads_into set from to then price else 0) ≡ leg_at legs.old from to }
{
    if price == 0 {
        return;
    }
    for to in 0..traveller.teams {
        if set.has(to) {
            shorten_to(traveller, set, price, to, legs);
        }
    }
}

/// Shortens those that lead to this team of the set.
fn shorten_to(traveller: Traveller, set: TeamSet, price: u64, to: u8, legs: &mut [u64])
    requires to { to < traveller.teams }
    requires legs { length legs.old ≡ table_length }
    requires long { (from : ℕ) → from < traveller.teams → price ≤ leg_at legs.old from to }
    ensures shorter { (from : ℕ) → from < traveller.teams →
        leg_at legs.new from to + (if has set from then 0 else price) ≡ leg_at legs.old from to }
    ensures others { (from other : ℕ) → from < traveller.teams → other ≢ to → leg_at legs.new from other ≡ leg_at legs.old from other }
{
    for from in 0..traveller.teams {
        let shorter = if set.has(from) { 0 } else { price };
        legs[entry(to, from)] -= shorter;
    }
}
