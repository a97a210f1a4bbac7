//! Bounds on what the teams of a league travel, and on what all of them do.

ghost use Rattle.std.specs.Prelude.{◌≡◌, ◌≤◌, ◌<◌, ◌^◌, ℕ, IfOk, length, slice_index};
ghost use Rattle.sets.specs.Sums.{sum_below};
ghost use Rattle.bounds.specs.Bounds.{AreTourBounds, IsBound};

use crate::tables::Tables;
use crate::team_bound::team_bound;
use league::League;
use std::alloc::{AllocError, Global};

/// Bounds on what the teams of a league travel, each alone and all together.
#[derive(Drop)]
pub struct LeagueBounds {
    /// For each team one on its tour.
    pub tours: Vec<u64>,
    /// One on the travel of all: the sum of theirs.
    pub travel: u64,
}

impl LeagueBounds {
    /// Bounds on each schedule of the league in which no team has a run. No contract says how near they are.
    pub fn of(alloc: Global, league: &League) -> Result<LeagueBounds, AllocError>
        ensures tours { IfOk result (λ bounds. AreTourBounds league.now bounds.tours.items) }
        ensures travel { IfOk result (λ bounds. IsBound league.now bounds.travel) }
        ensures sum { IfOk result (λ bounds. bounds.travel
            ≡ sum_below (length bounds.tours.items) (slice_index bounds.tours.items)) }
    {
        let tours = tour_bounds(alloc, league)?;
        let travel = sum_of(&tours);
        Ok(LeagueBounds { tours, travel })
    }
}

fn sum_of(bounds: &[u64]) -> u64
    requires few { length bounds.now < 256 }
    requires small { (team : ℕ) → slice_index bounds.now team ≤ 2 ^ 48 }
    ensures { result ≡ sum_below (length bounds.now) (slice_index bounds.now) }
{
    let mut sum = 0;
    for bound in bounds {
        sum += *bound;
    }
    sum
}

/// For each team a bound on its tours without runs.
fn tour_bounds(alloc: Global, league: &League) -> Result<Vec<u64>, AllocError>
    ensures each { IfOk result (λ bounds. AreTourBounds league.now bounds.items) }
    ensures limit { IfOk result (λ bounds. (team : ℕ) → slice_index bounds.items team ≤ 2 ^ 48) }
    ensures few { IfOk result (λ bounds. length bounds.items < 256) }
{
    let mut tables = Tables::new(alloc)?;
    let teams = league.teams();
    let mut bounds = Vec::with_capacity(alloc, usize::from(teams))?;
    for team in 0..teams {
        bounds.push(team_bound(alloc, league, team, &mut tables)?)?;
    }
    Ok(bounds)
}
