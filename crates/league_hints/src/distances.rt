//! Where the table of distances is wrong.

ghost use Rattle.std.specs.Prelude.{◌≡◌, ◌+◌, ◌^◌, ◌<◌, option_map};
ghost use Rattle.serde_json.specs.View.{view};
ghost use Rattle.league_hints.specs.Distances.{value_at, entry, distance, columns, whole_row_hint, entry_hint, entries_hint, row_hint};
ghost use Rattle.league_hints.specs.Distances.{table_hint, shape_hint, distances_hint};

use crate::forms::item_count;
use crate::hint::{Hint, Seen};
use crate::place::Place;
use crate::seen::seen_in;
use crate::wanted::Wanted;
use league::LeagueFault;
use league::limits::MAX_DISTANCE;
use league_forms::Form;
use serde_json::Value;

/// The form that a distance has to have.
const DISTANCE: Wanted = Wanted::Number(0, MAX_DISTANCE);

/// Where a table of distances between so many teams has the fault.
pub(crate) fn distances_hint(table: &Value, teams: usize, fault: LeagueFault) -> Option<Hint>
    ensures { result ≡ distances_hint fault teams (view table.now) }
{
    match fault {
        LeagueFault::DistanceShape => shape_hint(table, teams),
        _ => table_hint(table, teams, fault),
    }
}

fn shape_hint(table: &Value, teams: usize) -> Option<Hint>
    ensures { result ≡ shape_hint teams (view table.now) }
{
    let rows = item_count(table);
    if rows == teams {
        table_hint(table, teams, LeagueFault::DistanceShape)
    } else {
        Some(Hint::Rows { rows, teams })
    }
}

/// The first row that has the fault, or a number in it.
#[tactic(auto, using(crate::proofs::Firsts::found_below))]
fn table_hint(table: &Value, teams: usize, fault: LeagueFault) -> Option<Hint>
    ensures { result ≡ table_hint fault teams (view table.now) }
{
    for row in 0..item_count(table) {
        if let Some(hint) = row_hint(table, teams, fault, row) {
            return Some(hint);
        }
    }
    None
}

fn row_hint(table: &Value, teams: usize, fault: LeagueFault, row: usize) -> Option<Hint>
    requires { row + 1 < 2 ^ 64 }
    ensures { result ≡ row_hint fault teams (view table.now) row }
{
    match whole_row_hint(table, teams, fault, row) {
        Some(hint) => Some(hint),
        None => entries_hint(table, fault, row),
    }
}

/// The first number in a row that has the fault.
#[tactic(auto, using(crate::proofs::Firsts::found_below))]
fn entries_hint(table: &Value, fault: LeagueFault, row: usize) -> Option<Hint>
    requires { row + 1 < 2 ^ 64 }
    ensures { result ≡ entries_hint fault (view table.now) row }
{
    for column in 0..columns(table, row) {
        if let Some(hint) = entry_hint(table, fault, row, column) {
            return Some(hint);
        }
    }
    None
}

/// How many numbers a row has; none if it is no array.
fn columns(table: &Value, row: usize) -> usize
    ensures { result ≡ columns (view table.now) row }
{
    match table.get(row) {
        Some(row) => item_count(row),
        None => 0,
    }
}

/// A hint on the row as a whole, if that has the fault.
fn whole_row_hint(table: &Value, teams: usize, fault: LeagueFault, row: usize) -> Option<Hint>
    requires { row + 1 < 2 ^ 64 }
    ensures { result ≡ whole_row_hint fault teams (view table.now) row }
{
    let place = Place::Row(row + 1);
    match fault {
        LeagueFault::WrongKind(_) => {
            let found = table.get(row);
            let items = found.and_then(|row| row.as_array());
            let wrong = Hint::Value(place, seen_in(found, Wanted::Numbers), Wanted::Numbers);
            items.is_none().then_some(wrong)
        }
        LeagueFault::DistanceShape => {
            let length = columns(table, row);
            let wrong = Hint::Value(place, Seen::Length(length), Wanted::Exactly(teams));
            (length != teams).then_some(wrong)
        }
        _ => None,
    }
}

/// A hint on the number in a row and column, if that has the fault.
#[tactic(auto, unfolding(crate::specs::Distances::entry_hint))]
fn entry_hint(table: &Value, fault: LeagueFault, row: usize, column: usize) -> Option<Hint>
    requires row { row + 1 < 2 ^ 64 }
    requires column { column + 1 < 2 ^ 64 }
    ensures { result ≡ entry_hint fault (view table.now) row column }
{
    let place = Place::Distance(row + 1, column + 1);
    let there = distance(table, row, column);
    match fault {
        LeagueFault::WrongKind(_) => {
            let seen = seen_in(value_at(table, row, column), DISTANCE);
            let wrong = Hint::Value(place, seen, DISTANCE);
            entry(table, row, column).is_none().then_some(wrong)
        }
        LeagueFault::DistanceRange => {
            let wrong = Hint::Value(place, Seen::Value(Form::Whole(there)), DISTANCE);
            (there > MAX_DISTANCE).then_some(wrong)
        }
        LeagueFault::Diagonal => {
            let wrong = Hint::Value(place, Seen::Value(Form::Whole(there)), Wanted::Exactly(0));
            (row == column && there != 0).then_some(wrong)
        }
        LeagueFault::Asymmetric => {
            let back = distance(table, column, row);
            let wrong = Hint::TwoDistances {
                from: row + 1,
                to: column + 1,
                there,
                back,
            };
            (there != back).then_some(wrong)
        }
        _ => None,
    }
}

fn distance(table: &Value, row: usize, column: usize) -> u64
    ensures { result ≡ distance (view table.now) row column }
{
    entry(table, row, column).unwrap_or(0)
}

fn entry(table: &Value, row: usize, column: usize) -> Option<u64>
    ensures { result ≡ entry (view table.now) row column }
{
    value_at(table, row, column)?.as_u64()
}

/// The form in a row and column.
fn value_at(table: &Value, row: usize, column: usize) -> Option<&Value>
    ensures { option_map (λ value. view value.now) result ≡ value_at (view table.now) row column }
{
    table.get(row)?.get(column)
}
