//! The bound that a list of prices gives.

ghost use Rattle.std.specs.Prelude.{◌≡◌, ◌≤◌, length, slice_index};
ghost use Rattle.sets.specs.Limits.{max_teams};
ghost use Rattle.sets.specs.Sums.{sum_below};
ghost use Rattle.league.specs.League.{teams};
ghost use Rattle.bounds.specs.within.Entries.{most_of, IsLeastPriced, IsScaledBound};
ghost use Rattle.bounds.specs.within.Prices.{AreOfOpponents, longer};
ghost use Rattle.bounds.specs.within.Lengths.{table_length};

use crate::labels::Label;
use crate::least_tours::{write_tours, write_trips};
use crate::limits::LONGER;
use crate::priced_legs::price_legs;
use crate::prices::{are_payable, paid};
use crate::tables::Tables;
use crate::travellers::Traveller;
use crate::walks::label_walks;
use league::League;
use sets::TeamSet;

/// In parts of a distance: no tour of the team without a run that leads into each set at least as often as its entries say is shorter.
pub(crate) fn evaluate(
    league: &League,
    traveller: Traveller,
    sets: &[TeamSet],
    entries: &[u8],
    prices: &[u64],
    tables: &mut Tables,
) -> u64
    requires teams { traveller.teams ≡ teams league.now }
    requires opponents { AreOfOpponents traveller.teams traveller.home sets.now }
    requires entries { length entries.now ≡ length sets.now }
    requires prices { length prices.now ≡ length sets.now }
    requires most { traveller.most ≡ most_of league.now }
    ensures { IsScaledBound league.now traveller.home sets.now entries.now result }
{
    if !are_payable(prices) {
        return 0;
    }
    let least = shortest_relaxed(
        league,
        traveller,
        sets,
        prices,
        &mut tables.legs,
        &mut tables.labels,
        &mut tables.trips,
        &mut tables.tours,
    );
    let all = least.saturating_add(paid(prices, entries));
    all.saturating_sub(LONGER * u64::from(traveller.teams - 1))
}

/// The length of the shortest relaxed tour, each leg to an opponent longer.
fn shortest_relaxed(
    league: &League,
    traveller: Traveller,
    sets: &[TeamSet],
    prices: &[u64],
    legs: &mut [u64],
    labels: &mut [Label],
    trips: &mut [u64],
    tours: &mut [u64],
) -> u64
    requires teams { traveller.teams ≡ teams league.now }
    requires opponents { AreOfOpponents traveller.teams traveller.home sets.now }
    requires prices { length prices.now ≡ length sets.now }
    requires most { traveller.most ≡ most_of league.now }
    requires within { sum_below (length prices.now) (slice_index prices.now) ≤ longer }
    requires legs { length legs.old ≡ table_length }
    requires labels { length labels.old ≡ table_length }
    requires trips { length trips.old ≡ max_teams }
    requires tours { length tours.old ≡ max_teams }
    ensures { IsLeastPriced league.now traveller.home sets.now prices.now result }
{
    price_legs(league, traveller, sets, prices, legs);
    label_walks(traveller, legs, labels);
    write_trips(traveller, legs, labels, trips);
    write_tours(traveller, trips, tours);
    tours[usize::from(traveller.teams - 1)]
}
