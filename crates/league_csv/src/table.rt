//! The table, and the league that is made of it.

ghost use Rattle.std.specs.Prelude.{◌≡◌, ◌+◌, ◌<◌, ◌≤◌, ◌^◌, length, IfOk, IsTrue};
ghost use Rattle.std.specs.Str.Lines.{lines};
ghost use Rattle.league.specs.Checks.{is_team_count};
ghost use Rattle.league.specs.Views.{texts};
ghost use Rattle.schedule_csv.specs.Cells.{cells};
ghost use Rattle.league_csv.specs.League.{agreed, AreSettings, GivesLeague, rounded_in, rounded_in_row};
ghost use Rattle.league_csv.specs.LeagueText.{said_by};
ghost use Rattle.league_csv.specs.within.Reading.{Gives};
ghost use Rattle.league_csv.specs.Table.{begins_with_name, has_names, parts_cells, separator_of, table_below, table_of};
ghost use Rattle.league_csv.specs.within.Table.{table_view};
ghost use Rattle.league_csv.specs.within.Views.{rows};

use crate::fault::DistanceFault;
use crate::league_text::{Settings, league_text};
use crate::measures::{Measure, own_measure};
use crate::names::{name_count, team_names};
use crate::rows::{TableHead, rows_below};
use crate::sides::{first_asymmetry, leveled};
use choices::Symmetry;
use league::limits::{MAX_TEAMS, MIN_TEAMS};
use schedule_csv::{cell_at, is_empty_row, without_order_mark};
use std::alloc::Global;
use text_lines::next_line;

/// The names of teams, and the distances from each to each as their cells have them.
#[derive(Drop)]
struct Table {
    names: Vec<String>,
    rows: Vec<Vec<Measure>>,
}

/// The first row, which isn't empty, and the bytes between its cells.
#[derive(Clone, Copy)]
struct FirstRow<'a> {
    text: &'a [u8],
    line: u64,
    separator: u8,
}

/// A league's JSON text, and how many distances of its table were rounded.
#[derive(Debug, Drop)]
pub struct MadeLeague {
    pub text: Vec<u8>,
    pub rounded: u64,
}

/// Whether the byte parts the cells of a row.
fn parts_cells(separator: u8, line: &[u8]) -> bool
    ensures { result ≡ parts_cells separator line.now }
{
    cell_at(line, separator, 1).is_some()
}

/// The byte between cells, by the first row.
fn separator_of(line: &[u8]) -> u8
    ensures { result ≡ separator_of line.now }
{
    if parts_cells(b'\t', line) {
        b'\t'
    } else if parts_cells(b';', line) {
        b';'
    } else {
        b','
    }
}

fn begins_with_name(separator: u8, line: &[u8]) -> bool
    ensures { result ≡ begins_with_name separator (cells separator line.now) }
{
    match cell_at(line, separator, 0) {
        Some(cell) => own_measure(separator, cell).is_err(),
        None => false,
    }
}

/// Whether names stand in the first column: the first row below begins with what is no distance of a team to itself.
fn has_names(separator: u8, rows: &[u8]) -> bool
    ensures { result ≡ has_names separator (lines rows.now) }
{
    let mut rest = rows;
    while let Some(line) = next_line(&mut rest) {
        if !is_empty_row(line, separator) {
            return begins_with_name(separator, line);
        }
    }
    false
}

fn is_team_count(n: usize) -> bool
    ensures { result ≡ is_team_count n }
{
    n % 2 == 0 && (usize::from(MIN_TEAMS)..=usize::from(MAX_TEAMS)).contains(&n)
}

/// The table of a first row and the rows below it.
#[tactic(auto, unfolding(crate::specs::Table::table_with))]
fn table_below(alloc: Global, first: FirstRow, below: &[u8]) -> Result<Table, DistanceFault>
    requires { first.line + length below.now ≤ 2 ^ 63 }
    ensures value { Gives table_view result (table_below first.entry.separator first.entry.line first.entry.text.now (lines below.now)) }
    ensures count { IfOk result (λ table. IsTrue (is_team_count (length (texts table.names.items)))) }
    ensures few { IfOk result (λ table. rounded_in (rows table.rows.items) ≤ 1600) }
{
    let FirstRow {
        text,
        line,
        separator,
    } = first;
    let in_column = has_names(separator, below);
    let names = team_names(alloc, separator, line, text, in_column)?;
    if !is_team_count(name_count(&names)) {
        return Err(DistanceFault::TeamCount);
    }
    let head = TableHead {
        separator,
        in_column,
        names: &names,
    };
    let rows = rows_below(alloc, head, line, below)?;
    Ok(Table { names, rows })
}

/// The table of a text.
fn table_of(alloc: Global, text: &[u8]) -> Result<Table, DistanceFault>
    ensures value { Gives table_view result (table_of text.now) }
    ensures count { IfOk result (λ table. IsTrue (is_team_count (length (texts table.names.items)))) }
    ensures few { IfOk result (λ table. rounded_in (rows table.rows.items) ≤ 1600) }
{
    let mut rest = without_order_mark(text);
    let mut line = 0;
    while let Some(row) = next_line(&mut rest) {
        line += 1;
        let separator = separator_of(row);
        if !is_empty_row(row, separator) {
            let first = FirstRow {
                text: row,
                line,
                separator,
            };
            return table_below(alloc, first, rest);
        }
    }
    Err(DistanceFault::NoRow)
}

fn rounded_in_row(row: &[Measure]) -> u64
    ensures value { result ≡ rounded_in_row row.now }
    ensures few { result ≤ length row.now }
{
    let mut rounded = 0;
    let mut rest = row;
    while let [measure, later @ ..] = rest {
        rounded += u64::from(measure.is_rounded);
        rest = later;
    }
    rounded
}

/// How many distances were rounded.
fn rounded_in(table: &[Vec<Measure>]) -> u64
    requires { rounded_in (rows table.now) < 2 ^ 63 }
    ensures { result ≡ rounded_in (rows table.now) }
{
    let mut rounded = 0;
    let mut rest = table;
    while let [row, later @ ..] = rest {
        rounded += rounded_in_row(row);
        rest = later;
    }
    rounded
}

/// A fault if a pair is further apart one way, and it isn't chosen what to take for it.
fn agreed(choice: Option<Symmetry>, teams: u8, table: &[Vec<Measure>]) -> Result<(), DistanceFault>
    requires { 0 < teams }
    ensures { result ≡ agreed choice teams (rows table.now) }
{
    if choice.is_some() {
        return Ok(());
    }
    match first_asymmetry(teams, table) {
        Some(pair) => Err(DistanceFault::Asymmetric(pair)),
        None => Ok(()),
    }
}

/// A league of the teams and distances of a table, as the JSON text of its format 3, a row of distances a line.
///
/// A table has the teams' names in its first row, and the distances of a team to each in each further row, with the team's name before them
/// or not. Between cells stand tabs if there are any in the first row, semicolons if there are, and commas otherwise. A distance is a whole
/// number or a decimal, which is rounded half up, up to 1000000; that of a team to itself may be empty. Empty rows are passed over.
///
/// A pair that is further apart one way is a fault, unless it is told what to take for it. The first fault is answered, row by row, and
/// Asymmetric last. Memory may come in place of any.
#[tactic(auto, unfolding(crate::specs::League::table_for))]
pub fn league_from_table(
    alloc: Global,
    text: &[u8],
    choice: Option<Symmetry>,
    settings: Settings<'_>,
) -> Result<MadeLeague, DistanceFault>
    requires { AreSettings (said_by settings) }
    ensures { GivesLeague choice (said_by settings.entry) text.now result }
{
    let table = table_of(alloc, text)?;
    let teams = name_count(&table.names) as u8;
    agreed(choice, teams, &table.rows)?;
    let distances = leveled(alloc, choice, teams, &table.rows)?;
    let text = league_text(alloc, &table.names, &distances, settings)?;
    Ok(MadeLeague {
        text,
        rounded: rounded_in(&table.rows),
    })
}
