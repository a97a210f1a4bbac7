//! The legs of the least relaxed tour, as the tables tell it.

ghost use Rattle.std.specs.Prelude.{◌≡◌, ◌<◌, ◌≤◌, ◌*◌, ◌+◌, length};
ghost use Rattle.sets.specs.Limits.{max_teams};
ghost use Rattle.bounds.specs.within.Lengths.{table_length};

use crate::labels::Label;
use crate::least_tours::trip_by;
use crate::limits::{ROW, entry};
use crate::tables::Tables;
use crate::travellers::Traveller;
use std::alloc::AllocError;

/// A leg to an opponent, and how often it is in a tour.
#[derive(Clone, Copy, Drop)]
pub(crate) struct TourLeg {
    pub(crate) from: u8,
    pub(crate) to: u8,
    pub(crate) times: u8,
    ghost from_in: { from < max_teams },
    ghost to_in: { to < max_teams },
}

/// Lists the legs to opponents of a relaxed tour that is least. It has one trip of each length, some times over.
pub(crate) fn list_least_tour(
    traveller: Traveller,
    tables: &Tables,
    legs: &mut Vec<TourLeg>,
) -> Result<(), AllocError> {
    legs.clear();
    let times = times_of_trips(traveller, &tables.trips, &tables.tours);
    for games in 1..traveller.most + 1 {
        let often = times[usize::from(games)];
        if often > 0 {
            push_trip(traveller, tables, games, often, legs)?;
        }
    }
    Ok(())
}

/// How often a least tour has a trip of so many games.
fn times_of_trips(traveller: Traveller, trips: &[u64], tours: &[u64]) -> [u8; ROW]
    requires trips { length trips.now ≡ max_teams }
    requires tours { length tours.now ≡ max_teams }
{
    let mut times = [0_u8; ROW];
    let mut all = traveller.teams - 1;
    while all > 0 {
        let games = last_trip(traveller, all, trips, tours);
        let often = &mut times[usize::from(games)];
        *often = often.saturating_add(1);
        all -= games;
    }
    times
}

/// The games of the last trip of a least tour with so many together.
fn last_trip(traveller: Traveller, all: u8, trips: &[u64], tours: &[u64]) -> u8
    requires trips { length trips.now ≡ max_teams }
    requires tours { length tours.now ≡ max_teams }
    requires some { 1 ≤ all }
    requires all { all < traveller.teams }
    ensures least { 1 ≤ result }
    ensures most { result ≤ all }
{
    for games in 1..traveller.most.min(all) + 1 {
        let before = tours[usize::from(all - games)];
        if tours[usize::from(all)] == before.saturating_add(trips[usize::from(games)]) {
            return games;
        }
    }
    1
}

/// Adds the legs of a least trip with so many games, which the tour has so often.
fn push_trip(
    traveller: Traveller,
    tables: &Tables,
    games: u8,
    times: u8,
    legs: &mut Vec<TourLeg>,
) -> Result<(), AllocError>
    requires { games < max_teams }
{
    let mut to = last_stop(traveller, games, tables);
    let mut next = to;
    for g in (1..games + 1).rev() {
        let from = stop_before(traveller, g, to, next, tables);
        legs.push(TourLeg { from, to, times })?;
        next = to;
        to = from;
    }
    Ok(())
}

/// The last stop of a least trip with so many games.
fn last_stop(traveller: Traveller, games: u8, tables: &Tables) -> u8
    requires { games < max_teams }
    ensures { result < traveller.teams }
{
    let least = tables.trips[usize::from(games)];
    for last in 0..traveller.teams {
        if last != traveller.home
            && trip_by(traveller, games, last, &tables.legs, &tables.labels) == least
        {
            return last;
        }
    }
    traveller.home
}

/// The stop before the last of a least walk with so many games to a team that goes on to the next.
fn stop_before(traveller: Traveller, games: u8, last: u8, next: u8, tables: &Tables) -> u8
    requires least { 1 ≤ games }
    requires games { games < max_teams }
    requires last { last < max_teams }
    ensures { result < max_teams }
{
    let label = tables.labels[entry(games, last)];
    if games == 1 {
        return traveller.home;
    }
    if label.before != next {
        return label.before;
    }
    for h in 0..traveller.teams {
        if h != traveller.home && h != last && h != next {
            let walk = tables.labels[entry(games - 1, h)].to(last);
            if walk.saturating_add(tables.legs[entry(last, h)]) == label.second {
                return h;
            }
        }
    }
    traveller.home
}
