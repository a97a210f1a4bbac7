//! The least trips and tours, by their games.

ghost use Rattle.std.specs.Prelude.{◌≡◌, ◌≢◌, ℕ, ◌<◌, ◌≤◌, ◌+◌, ◌*◌, ◌-◌, length, slice_index};
ghost use Rattle.sets.specs.Limits.{max_teams};
ghost use Rattle.bounds.specs.within.Tables.{IsOpponent, leg_at, walk_at, AreTours};
ghost use Rattle.bounds.specs.within.Lengths.{table_length};

use crate::labels::Label;
use crate::limits::{NO_WALK, entry};
use crate::travellers::Traveller;

/// Writes the least length of a trip with so many games, for each number that a trip may have.
pub(crate) fn write_trips(traveller: Traveller, legs: &[u64], labels: &[Label], trips: &mut [u64])
    requires legs { length legs.now ≡ table_length }
    requires labels { length labels.now ≡ table_length }
    requires trips { length trips.old ≡ max_teams }
    ensures { (games j : ℕ) → games ≤ traveller.most → IsOpponent traveller.teams traveller.home j →
        slice_index trips.new games ≤ walk_at labels.now games j j + leg_at legs.now j traveller.home }
{
    for games in 0..traveller.most + 1 {
        trips[usize::from(games)] = least_trip(traveller, games, legs, labels);
    }
}

fn least_trip(traveller: Traveller, games: u8, legs: &[u64], labels: &[Label]) -> u64
    requires legs { length legs.now ≡ table_length }
    requires labels { length labels.now ≡ table_length }
    requires games { games < max_teams }
    ensures { (j : ℕ) → IsOpponent traveller.teams traveller.home j →
        result ≤ walk_at labels.now games j j + leg_at legs.now j traveller.home }
{
    let mut least = NO_WALK;
    for j in 0..traveller.teams {
        if j != traveller.home {
            let length = trip_by(traveller, games, j, legs, labels);
            least = least.min(length);
        }
    }
    least
}

/// The least length of a trip whose last stop is this team.
pub(crate) fn trip_by(
    traveller: Traveller,
    games: u8,
    last: u8,
    legs: &[u64],
    labels: &[Label],
) -> u64
    requires legs { length legs.now ≡ table_length }
    requires labels { length labels.now ≡ table_length }
    requires games { games < max_teams }
    requires last { last < max_teams }
    ensures { result ≤ walk_at labels.now games last last + leg_at legs.now last traveller.home }
{
    let walk = labels[entry(games, last)].to(last);
    walk.saturating_add(legs[entry(traveller.home, last)])
}

/// Writes the least length of trips that have so many games together, for each number up to one with each opponent.
pub(crate) fn write_tours(traveller: Traveller, trips: &[u64], tours: &mut [u64])
    requires trips { length trips.now ≡ max_teams }
    requires tours { length tours.old ≡ max_teams }
    ensures none { slice_index tours.new 0 ≡ 0 }
    ensures trip { (all games : ℕ) → 1 ≤ games → games ≤ traveller.most → all + games < traveller.teams →
        slice_index tours.new (all + games) ≤ slice_index tours.new all + slice_index trips.now games }
{
    tours[0] = 0;
    for all in 1..traveller.teams {
        tours[usize::from(all)] = least_tour(traveller, all, trips, tours);
    }
}

fn least_tour(traveller: Traveller, all: u8, trips: &[u64], tours: &[u64]) -> u64
    requires trips { length trips.now ≡ max_teams }
    requires tours { length tours.now ≡ max_teams }
    requires all { all < traveller.teams }
    ensures { (before games : ℕ) → 1 ≤ games → games ≤ traveller.most → before + games ≡ all →
        result ≤ slice_index tours.now before + slice_index trips.now games }
{
    let mut least = NO_WALK;
    for games in 1..traveller.most.min(all) + 1 {
        let before = tours[usize::from(all - games)];
        least = least.min(before.saturating_add(trips[usize::from(games)]));
    }
    least
}
