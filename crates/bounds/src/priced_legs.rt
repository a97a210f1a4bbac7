//! The legs of a team, each shorter by the prices of the sets that it leads into.

ghost use Rattle.std.specs.Prelude.{◌≡◌, ◌≢◌, ℕ, ◌<◌, ◌≤◌, ◌+◌, length, slice_index};
ghost use Rattle.sets.specs.Sums.{sum_below};
ghost use Rattle.league.specs.League.{teams};
ghost use Rattle.bounds.specs.within.Tables.{leg_at};
ghost use Rattle.bounds.specs.within.Entries.{whole_leg};
ghost use Rattle.bounds.specs.within.Prices.{AreOfOpponents, discount, longer};
ghost use Rattle.bounds.specs.within.Lengths.{table_length};

use crate::discounts::discount_legs;
use crate::limits::{LONGER, SCALE, entry};
use crate::travellers::Traveller;
use league::League;
use sets::TeamSet;

/// Writes each leg less the prices of the sets that it leads into.
pub(crate) fn price_legs(
    league: &League,
    traveller: Traveller,
    sets: &[TeamSet],
    prices: &[u64],
    legs: &mut [u64],
)
    requires teams { traveller.teams ≡ teams league.now }
    requires opponents { AreOfOpponents traveller.teams traveller.home sets.now }
    requires prices { length prices.now ≡ length sets.now }
    requires within { sum_below (length prices.now) (slice_index prices.now) ≤ longer }
    requires legs { length legs.old ≡ table_length }
    ensures { (from to : ℕ) → from < traveller.teams → to < traveller.teams →
        leg_at legs.new from to + discount sets.now prices.now (length sets.now) from to ≡
        whole_leg league.now traveller.home from to }
{
    write_legs(league, traveller, legs);
    discount_legs(traveller, sets, prices, legs);
}

/// Writes the legs as they are without prices.
fn write_legs(league: &League, traveller: Traveller, legs: &mut [u64])
    requires teams { traveller.teams ≡ teams league.now }
    requires legs { length legs.old ≡ table_length }
    ensures { (from to : ℕ) → from < traveller.teams → to < traveller.teams →
        leg_at legs.new from to ≡ whole_leg league.now traveller.home from to }
{
    for to in 0..traveller.teams {
        write_legs_to(league, traveller, to, legs);
    }
}

fn write_legs_to(league: &League, traveller: Traveller, to: u8, legs: &mut [u64])
    requires teams { traveller.teams ≡ teams league.now }
    requires to { to < traveller.teams }
    requires legs { length legs.old ≡ table_length }
    ensures written { (from : ℕ) → from < traveller.teams → leg_at legs.new from to ≡ whole_leg league.now traveller.home from to }
    ensures others { (from other : ℕ) → from < traveller.teams → other ≢ to → leg_at legs.new from other ≡ leg_at legs.old from other }
{
    let longer = if to == traveller.home { 0 } else { LONGER };
    for from in 0..traveller.teams {
        legs[entry(to, from)] = u64::from(league.distance(from, to)) * SCALE + longer;
    }
}
