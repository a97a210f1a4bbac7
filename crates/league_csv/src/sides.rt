//! Distances that are the same both ways.

ghost use Rattle.std.specs.Prelude.{◌≡◌, ◌<◌, ◌≤◌, [], slice_index_or, IfOk};
ghost use Rattle.league_csv.specs.Sides.{asymmetry, both_ways, first_asymmetry, from_to, leveled, leveled_row, side};
ghost use Rattle.league_csv.specs.within.Views.{number_rows, rows};

use crate::fault::Asymmetry;
use crate::measures::Measure;
use choices::Symmetry;
use std::alloc::{AllocError, Global};

/// The distances of a team to each.
fn row_of(table: &[Vec<Measure>], a: usize) -> &[Measure]
    ensures { result.now ≡ slice_index_or (rows table.now) a [] }
{
    if a < table.len() { &table[a] } else { &[] }
}

/// From team `a` to team `b`, or 0 beyond the table.
fn from_to(table: &[Vec<Measure>], a: usize, b: usize) -> u32
    ensures { result ≡ from_to (rows table.now) a b }
{
    let row = row_of(table, a);
    if b < row.len() { row[b].distance } else { 0 }
}

fn asymmetry(table: &[Vec<Measure>], a: u16, b: u16) -> Option<Asymmetry>
    ensures { result ≡ asymmetry (rows table.now) a b }
{
    let there = from_to(table, a.into(), b.into());
    let back = from_to(table, b.into(), a.into());
    if there == back {
        return None;
    }
    Some(Asymmetry {
        from: u64::from(a) + 1,
        to: u64::from(b) + 1,
        there: there.into(),
        back: back.into(),
    })
}

/// The first pair that is further apart one way, row by row.
#[tactic(auto, unfolding(crate::specs::Sides::asymmetry_below))]
pub(crate) fn first_asymmetry(teams: u8, table: &[Vec<Measure>]) -> Option<Asymmetry>
    requires { 0 < teams }
    ensures { result ≡ first_asymmetry teams (rows table.now) }
{
    let teams = u16::from(teams);
    for k in 0..teams * teams {
        let found = asymmetry(table, k / teams, k % teams);
        if found.is_some() {
            return found;
        }
    }
    None
}

/// The number that stands for the distances of both ways.
fn both_ways(choice: Option<Symmetry>, there: u32, back: u32) -> u64
    ensures { result ≡ both_ways choice there back }
{
    match choice {
        Some(Symmetry::Mean) => (u64::from(there) + u64::from(back) + 1) / 2,
        Some(Symmetry::Max) | None => there.max(back).into(),
    }
}

fn side(choice: Option<Symmetry>, table: &[Vec<Measure>], a: usize, b: usize) -> u64
    ensures { result ≡ side choice (rows table.now) a b }
{
    both_ways(choice, from_to(table, a, b), from_to(table, b, a))
}

fn leveled_row(
    alloc: Global,
    choice: Option<Symmetry>,
    teams: u8,
    table: &[Vec<Measure>],
    a: u8,
) -> Result<Vec<u64>, AllocError>
    ensures { IfOk result (λ row. row.items ≡ leveled_row choice teams (rows table.now) a) }
{
    (0..teams)
        .map(|b| side(choice, table, a.into(), b.into()))
        .collect(alloc)
}

/// The distances of so many teams, the same both ways.
pub(crate) fn leveled(
    alloc: Global,
    choice: Option<Symmetry>,
    teams: u8,
    table: &[Vec<Measure>],
) -> Result<Vec<Vec<u64>>, AllocError>
    ensures { IfOk result (λ distances. number_rows distances.items ≡ leveled choice teams (rows table.now)) }
{
    let mut distances = Vec::with_capacity(alloc, teams.into())?;
    for a in 0..teams {
        distances.push(leveled_row(alloc, choice, teams, table, a)?)?;
    }
    Ok(distances)
}
