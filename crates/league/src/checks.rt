//! The checks of a league as a whole, in their order.

ghost use Rattle.std.specs.Prelude.{◌≡◌, ◌<◌, ◌≤◌, [], length, slice_index_or, nat_le, OnOk, IsTrue};
ghost use Rattle.std.specs.List.{list_all};
ghost use Rattle.league.specs.Checks.{distance_of, is_team_count, is_square, are_in_range, has_zero_diagonal};
ghost use Rattle.league.specs.Checks.{is_mirrored_at, is_symmetric, checked, IsDistanceTable};
ghost use Rattle.league.specs.Limits.{max_distance, max_rules};
ghost use Rattle.league.specs.Views.{rows};

use crate::fault::LeagueFault;
use crate::limits::{MAX_DISTANCE, MAX_RULES, MAX_TEAMS, MIN_TEAMS};

/// The number at column `b` of row `a`.
fn distance_at(table: &[Vec<u64>], a: usize, b: usize) -> u64
    requires row { a < length (rows table.now) }
    requires column { b < length (slice_index_or (rows table.now) a []) }
    ensures { result ≡ distance_of (rows table.now) a b }
{
    table[a][b]
}

/// Even, and from 4 to 40.
pub fn is_team_count(n: usize) -> bool
    ensures { result ≡ is_team_count n }
{
    n % 2 == 0 && (usize::from(MIN_TEAMS)..=usize::from(MAX_TEAMS)).contains(&n)
}

fn is_square(n: usize, table: &[Vec<u64>]) -> bool
    ensures { result ≡ is_square n (rows table.now) }
{
    if table.len() != n {
        return false;
    }
    for row in table {
        if row.len() != n {
            return false;
        }
    }
    true
}

fn is_row_in_range(row: &[u64]) -> bool
    ensures { result ≡ list_all (λ x. nat_le x max_distance) row.now }
{
    row.iter().all(|distance| *distance <= MAX_DISTANCE)
}

fn are_in_range(table: &[Vec<u64>]) -> bool
    ensures { result ≡ are_in_range (rows table.now) }
{
    for row in table {
        if !is_row_in_range(row) {
            return false;
        }
    }
    true
}

#[tactic(auto, using(sets::proofs::ForCallers::each_below), unfolding(crate::specs::Checks::has_zero_diagonal))]
fn has_zero_diagonal(n: usize, table: &[Vec<u64>]) -> bool
    requires { IsTrue (is_square n (rows table.now)) }
    ensures { result ≡ has_zero_diagonal n (rows table.now) }
{
    for a in 0..n {
        if distance_at(table, a, a) != 0 {
            return false;
        }
    }
    true
}

#[tactic(auto, using(sets::proofs::ForCallers::each_below), unfolding(crate::specs::Checks::is_mirrored_at))]
fn is_mirrored_at(n: usize, table: &[Vec<u64>], a: usize) -> bool
    requires square { IsTrue (is_square n (rows table.now)) }
    requires row { a < n }
    ensures { result ≡ is_mirrored_at (rows table.now) n a }
{
    for b in 0..n {
        if distance_at(table, a, b) != distance_at(table, b, a) {
            return false;
        }
    }
    true
}

#[tactic(auto, using(sets::proofs::ForCallers::each_below), unfolding(crate::specs::Checks::is_symmetric))]
fn is_symmetric(n: usize, table: &[Vec<u64>]) -> bool
    requires { IsTrue (is_square n (rows table.now)) }
    ensures { result ≡ is_symmetric n (rows table.now) }
{
    for a in 0..n {
        if !is_mirrored_at(n, table, a) {
            return false;
        }
    }
    true
}

/// Checks `n` teams, their distances and the number of their rules.
#[tactic(auto, unfolding(crate::specs::Checks::checked))]
pub fn check(n: usize, table: &[Vec<u64>], rules: usize) -> Result<(), LeagueFault>
    ensures value { result ≡ checked n (rows table.now) rules }
    ensures table { OnOk result (IsDistanceTable n (rows table.now)) }
    ensures count { OnOk result (rules ≤ max_rules) }
{
    if !is_team_count(n) {
        return Err(LeagueFault::TeamCount);
    }
    if !is_square(n, table) {
        return Err(LeagueFault::DistanceShape);
    }
    if !are_in_range(table) {
        return Err(LeagueFault::DistanceRange);
    }
    if !has_zero_diagonal(n, table) {
        return Err(LeagueFault::Diagonal);
    }
    if !is_symmetric(n, table) {
        return Err(LeagueFault::Asymmetric);
    }
    if rules > MAX_RULES {
        return Err(LeagueFault::TooManyRules);
    }
    Ok(())
}
