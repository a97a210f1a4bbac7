//! Leagues that are made for n teams.

ghost use Rattle.std.specs.Prelude.{◌≡◌, ◌<◌, ◌↔◌, IfOk, IsErrOf, false};
ghost use Rattle.league.specs.Reading.{Gives};
ghost use Rattle.league.specs.Checks.{is_team_count};
ghost use Rattle.league.specs.League.{IsLeague};
ghost use Rattle.league.specs.Made.{apart, made_names, made_row, made_rows, made, circular_of, constant_of};
ghost use Rattle.league.specs.Views.{texts, rows};

use crate::checks::is_team_count;
use crate::fault::LeagueFault;
use crate::labels::Labels;
use crate::leagues::{League, Terms};
use crate::limits::{DEFAULT_AT_MOST, DEFAULT_HARD_WEIGHT};
use crate::origins::Start;
use std::alloc::{AllocError, Global};

/// How the homes of a made league lie.
#[derive(Clone, Copy)]
pub(crate) enum Layout {
    Circular,
    Constant,
}

#[tactic(auto, unfolding(crate::specs::Made::apart))]
fn apart(layout: Layout, n: u8, a: u8, b: u8) -> u64
    requires a_in { a < n }
    requires b_in { b < n }
    ensures { result ≡ apart layout n a b }
{
    match layout {
        Layout::Circular => {
            let along = a.abs_diff(b);
            along.min(n - along).into()
        }
        Layout::Constant => (a != b).into(),
    }
}

fn made_names(alloc: Global, n: u8) -> Result<Vec<String>, AllocError>
    ensures { IfOk result (λ names. texts names.items ≡ made_names n) }
{
    let mut names = Vec::with_capacity(alloc, n.into())?;
    for team in 0..n {
        let number = u16::from(team) + 1;
        names.push(format!(in alloc; "T{number}")?)?;
    }
    Ok(names)
}

fn made_row(alloc: Global, layout: Layout, n: u8, a: u8) -> Result<Vec<u64>, AllocError>
    requires { a < n }
    ensures { IfOk result (λ row. row.items ≡ made_row layout n a) }
{
    (0..n).map(|b| apart(layout, n, a, b)).collect(alloc)
}

fn made_rows(alloc: Global, layout: Layout, n: u8) -> Result<Vec<Vec<u64>>, AllocError>
    ensures { IfOk result (λ table. rows table.items ≡ made_rows layout n) }
{
    let mut table = Vec::with_capacity(alloc, n.into())?;
    for a in 0..n {
        table.push(made_row(alloc, layout, n, a)?)?;
    }
    Ok(table)
}

const DEFAULT_TERMS: Terms = Terms {
    at_most: DEFAULT_AT_MOST,
    hard_weight: DEFAULT_HARD_WEIGHT,
    phased: false,
    free_repeats: false,
};

#[tactic(auto, unfolding(crate::specs::Made::made))]
fn made(alloc: Global, layout: Layout, n: u8) -> Result<League, LeagueFault>
    ensures exact { Gives (λ l. l) result (made layout n) }
    ensures limits { IfOk result IsLeague }
    ensures count { IsErrOf result LeagueFault.TeamCount ↔ (is_team_count n ≡ false) }
{
    if !is_team_count(n.into()) {
        return Err(LeagueFault::TeamCount);
    }
    let names = made_names(alloc, n)?;
    let distances = made_rows(alloc, layout, n)?;
    Ok(League::new(
        alloc,
        names,
        &distances,
        Vec::new(alloc),
        Start::Berger,
        DEFAULT_TERMS,
        Labels::none(alloc),
    )?)
}

/// The league of `n` teams T1 to Tn whose homes lie in a circle, each at distance 1 from the next, with at most
/// 3 rounds in a row at home or away and a hard weight of 100 (the circle instances of Easton, Nemhauser, Trick 2001).
/// TeamCount if `n` is odd, below 4 or above 40.
pub fn circular(alloc: Global, n: u8) -> Result<League, LeagueFault>
    ensures exact { Gives (λ l. l) result (circular_of n) }
    ensures limits { IfOk result IsLeague }
    ensures count { IsErrOf result LeagueFault.TeamCount ↔ (is_team_count n ≡ false) }
{
    made(alloc, Layout::Circular, n)
}

/// Makes the league with each home at distance 1 from each other.
pub fn constant(alloc: Global, n: u8) -> Result<League, LeagueFault>
    ensures exact { Gives (λ l. l) result (constant_of n) }
    ensures limits { IfOk result IsLeague }
    ensures count { IsErrOf result LeagueFault.TeamCount ↔ (is_team_count n ≡ false) }
{
    made(alloc, Layout::Constant, n)
}
