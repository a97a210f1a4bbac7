//! The unit of a league, measured on a walk.

ghost use Rattle.std.specs.Prelude.{◌≡◌, ◌+◌, ◌*◌, ◌<◌, ◌≤◌, ◌++◌, ◌/◌, length, slice_index, IfOk, vec_len, vec_capacity};
ghost use Rattle.league.specs.League.{teams, distance};
ghost use Rattle.league.specs.Limits.{max_teams, max_distance};
ghost use Rattle.league.specs.Sums.{sum_below};
ghost use Rattle.annealing.specs.Walks.{IsUnitOf, changes_of, distance_sum, fraction_of, pair_count, unless_none};

use crate::unit::Unit;
use costs::Weights;
use draws::{Draws, draw_among, each_round};
use fixture_board::{Board, Trial};
use league::League;
use policy::MoveSet;
use rand_pcg::Lcg64Xsh32;
use std::alloc::{AllocError, Global};

/// How many moves the walk draws, and how many entries it may have.
const DRAWS: u32 = 1000;

/// How many units the middle change of the walk is, if that is more than the mean distance.
const PARTS: u64 = 6;

/// Measures a league's unit on a walk from its start that makes each drawn move that can be made, whatever the schedule costs then. The
/// unit is a sixth of the middle one of the changes of travel and soft together, or the mean distance, whichever is larger. What leaving
/// the start costs isn't counted.
pub fn measure(alloc: Global, league: &League) -> Result<Unit, AllocError>
    ensures { IfOk result (IsUnitOf league.now) }
{
    let mut free = league.duplicate(alloc)?;
    free.set_near(0);
    let mut changes = changes_on_walk(alloc, free)?;
    changes.sort_unstable();
    Ok(unit_of(
        middle_of(&changes),
        distance_sum(league),
        pair_count(league),
    ))
}

/// The number in the middle, or 0 if there is none.
fn middle_of(numbers: &[u64]) -> u64
    ensures { result ≡ slice_index numbers.now (length numbers.now / 2) }
{
    numbers.get(numbers.len() / 2).copied().unwrap_or(0)
}

/// The changes of travel and soft together on the walk, but for moves that change neither.
fn changes_on_walk(alloc: Global, league: League) -> Result<Vec<u64>, AllocError>
    ensures { IfOk result (λ v. v.items ≡ changes_of league) }
{
    let mut changes = Vec::with_capacity(alloc, DRAWS as usize)?;
    let Ok(mut board) = Board::new(alloc, league, DRAWS) else {
        return Err(AllocError);
    };
    let teams = board.league().teams();
    let draws = Draws {
        teams,
        kinds: MoveSet::Loose.kinds(),
        rounds: each_round(teams),
    };
    let mut generator = Lcg64Xsh32::new(0, 0);
    let mut total = board.cost().total();
    for _step in 0..DRAWS {
        let trial = Trial {
            mv: draw_among(&mut generator, draws),
            weights: Weights::alike(1),
            rise: u64::MAX,
        };
        board.try_move(0, trial);
        let next = board.cost().total();
        push_change(&mut changes, total.abs_diff(next));
        total = next;
    }
    Ok(changes)
}

/// Adds a change, if it is one.
fn push_change(changes: &mut Vec<u64>, change: u64)
    requires { vec_len changes.old < vec_capacity changes.old }
    ensures items { changes.new.items ≡ changes.old.items ++ unless_none change }
    ensures len { vec_len changes.new ≤ vec_len changes.old + 1 }
    ensures capacity { vec_capacity changes.new ≡ vec_capacity changes.old }
{
    if change > 0 {
        changes.push_reserved(change);
    }
}

/// A sixth of the median, or the mean distance if that is more, or 1 if both are 0.
fn unit_of(median: u64, distances: u64, pairs: u64) -> Unit
    requires { 1 ≤ pairs }
    ensures { (result.numerator, result.denominator) ≡ fraction_of median distances pairs }
{
    let (numerator, denominator) = if u128::from(PARTS) * u128::from(distances)
        < u128::from(median) * u128::from(pairs)
    {
        (median, PARTS)
    } else if distances > 0 {
        (distances, pairs)
    } else {
        (1, 1)
    };
    Unit {
        numerator,
        denominator,
    }
}

/// The sum of the distances of all ordered pairs of teams.
#[tactic(auto, using(league::proofs::ForCallers::sums), unfolding(crate::specs::Walks::distance_sum))]
fn distance_sum(league: &League) -> u64
    ensures { result ≡ distance_sum league.now }
{
    let mut sum = 0;
    for a in 0..league.teams() {
        sum += distances_from(league, a);
    }
    sum
}

/// The sum of the distances from the home of a team to all others.
#[tactic(auto, using(league::proofs::ForCallers::sums))]
fn distances_from(league: &League, a: u8) -> u64
    requires { a < teams league.now }
    ensures value { result ≡ sum_below (teams league.now) (distance league.now a) }
    ensures most { result ≤ max_teams * max_distance }
{
    let mut sum = 0;
    for b in 0..league.teams() {
        sum += u64::from(league.distance(a, b));
    }
    sum
}

/// How many ordered pairs of two different teams there are.
fn pair_count(league: &League) -> u64
    ensures value { result ≡ pair_count league.now }
    ensures least { 1 ≤ result }
{
    let teams = u64::from(league.teams());
    teams * (teams - 1)
}
