//! A bound on the tour of one team.

ghost use Rattle.std.specs.Prelude.{◌≡◌, ◌<◌, ◌≤◌, ◌^◌, length, IfOk};
ghost use Rattle.league.specs.League.{teams};
ghost use Rattle.league.specs.Limits.{max_distance};
ghost use Rattle.bounds.specs.Bounds.{IsTourBound};
ghost use Rattle.bounds.specs.within.Entries.{most_of, IsScaledBound};
ghost use Rattle.bounds.specs.within.Prices.{AreOfOpponents};

use crate::adjusting::{adjust, first_average};
use crate::evaluation::evaluate;
use crate::families::priced_sets;
use crate::limits::SCALE;
use crate::tables::Tables;
use crate::tour_legs::list_least_tour;
use crate::travellers::Traveller;
use crate::trips::trips_of_sets;
use league::League;
use sets::TeamSet;
use std::alloc::{AllocError, Global};

/// How many lists of prices are tried.
const ROUNDS: u64 = 600;
/// After each the step is shorter by this part.
const STEPS: u64 = 60;
/// The first step is this part of the longest distance from home.
const FIRST_STEPS: u64 = 5;

pub(crate) fn team_bound(
    alloc: Global,
    league: &League,
    home: u8,
    tables: &mut Tables,
) -> Result<u64, AllocError>
    requires { home < teams league.now }
    ensures bound { IfOk result (IsTourBound league.now home) }
    ensures limit { IfOk result (λ b. b ≤ 2 ^ 48) }
{
    let traveller = traveller_of(league, home);
    let farthest = farthest_of(league, home);
    if farthest == 0 {
        return Ok(0);
    }
    let sets = priced_sets(alloc, league, traveller)?;
    let entries = trips_of_sets(alloc, traveller, &sets)?;
    let first_step = farthest * SCALE / FIRST_STEPS;
    let best = best_of_rounds(
        alloc, league, traveller, &sets, &entries, first_step, tables,
    )?;
    Ok(best.div_ceil(SCALE))
}

fn traveller_of(league: &League, home: u8) -> Traveller
    requires { home < teams league.now }
    ensures teams { result.teams ≡ teams league.now }
    ensures home { result.home ≡ home }
    ensures most { result.most ≡ most_of league.now }
{
    let teams = league.teams();
    Traveller {
        teams,
        home,
        most: league.at_most().min(teams - 1),
    }
}

/// The longest distance from this home.
fn farthest_of(league: &League, home: u8) -> u64
    requires { home < teams league.now }
    ensures { result ≤ max_distance }
{
    let mut farthest = 0;
    for team in 0..league.teams() {
        farthest = farthest.max(u64::from(league.distance(home, team)));
    }
    farthest
}

/// The best bound that some rounds find, in parts of a distance.
fn best_of_rounds(
    alloc: Global,
    league: &League,
    traveller: Traveller,
    sets: &[TeamSet],
    entries: &[u8],
    first_step: u64,
    tables: &mut Tables,
) -> Result<u64, AllocError>
    requires teams { traveller.teams ≡ teams league.now }
    requires most { traveller.most ≡ most_of league.now }
    requires opponents { AreOfOpponents traveller.teams traveller.home sets.now }
    requires entries { length entries.now ≡ length sets.now }
    ensures { IfOk result (λ b. IsScaledBound league.now traveller.home sets.now entries.now b) }
{
    let mut prices = vec![in alloc; 0; sets.len()]?;
    let mut averages = Vec::with_capacity(alloc, sets.len())?;
    for &needed in entries {
        averages.push(first_average(needed))?;
    }
    let mut legs = Vec::with_capacity(alloc, usize::from(traveller.teams))?;
    let mut step = first_step;
    let mut best = 0;
    for _ in 0..ROUNDS {
        best = best.max(evaluate(league, traveller, sets, entries, &prices, tables));
        list_least_tour(traveller, tables, &mut legs)?;
        adjust(sets, entries, &legs, step, &mut averages, &mut prices);
        step -= step / STEPS;
    }
    Ok(best)
}
