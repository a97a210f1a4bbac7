//! The names of the first row.

ghost use Rattle.std.specs.Prelude.{◌≡◌, ◌+◌, ◌<◌, ◌≤◌, ◌^◌, length, IfOk, string_bytes, false};
ghost use Rattle.league.specs.Views.{texts};
ghost use Rattle.schedule_csv.specs.Cells.{cells, cells_left};
ghost use Rattle.league_csv.specs.Names.{league_name, name_in, names_from, names_of};
ghost use Rattle.league_csv.specs.Reading.{cell_fault, placed};
ghost use Rattle.league_csv.specs.within.Reading.{Gives};

use crate::fault::{DistanceCellFault, DistanceFault, PlaceFault};
use league::is_text_within;
use league::limits::MAX_NAME;
use schedule_csv::{MARK, next_cell, unmarked};
use std::alloc::{AllocError, Global};

/// The fault of the cell in a column, which counts from 0.
pub(crate) fn cell_fault(line: u64, column: usize, why: DistanceCellFault) -> DistanceFault
    requires { column < 2 ^ 63 }
    ensures { result ≡ cell_fault line column why }
{
    DistanceFault::Cell(PlaceFault {
        line,
        column: column as u64 + 1,
        why,
    })
}

/// The name that a cell has: two marks are one.
pub(crate) fn name_in(alloc: Global, cell: &[u8]) -> Result<Vec<u8>, AllocError>
    ensures { IfOk result (λ name. name.items ≡ name_in cell.now) }
{
    let mut name = Vec::new(alloc);
    let mut behind_mark = false;
    let mut rest = unmarked(cell);
    while let [byte, later @ ..] = rest {
        if behind_mark && *byte == MARK {
            behind_mark = false;
        } else {
            name.push(*byte)?;
            behind_mark = *byte == MARK;
        }
        rest = later;
    }
    Ok(name)
}

#[tactic(auto, using(crate::proofs::Naming::named, crate::proofs::Naming::unnamed))]
fn team_name(alloc: Global, line: u64, column: usize, cell: &[u8]) -> Result<String, DistanceFault>
    requires { column < 2 ^ 63 }
    ensures { Gives string_bytes result (placed line column (league_name (name_in cell.now))) }
{
    let name = name_in(alloc, cell)?;
    if !is_text_within(&name, MAX_NAME) {
        return Err(cell_fault(line, column, DistanceCellFault::NoName));
    }
    match str::from_utf8(&name) {
        Ok(name) => Ok(String::from_str(alloc, name)?),
        Err(_) => Err(cell_fault(line, column, DistanceCellFault::NoName)),
    }
}

/// How many names there are.
pub(crate) fn name_count(names: &[String]) -> usize
    ensures { result ≡ length (texts names.now) }
{
    names.len()
}

/// The names of a first row, behind a corner or not.
#[tactic(auto, using(schedule_csv::proofs::Parting::few_cells))]
pub(crate) fn team_names(
    alloc: Global,
    separator: u8,
    line: u64,
    row: &[u8],
    has_corner: bool,
) -> Result<Vec<String>, DistanceFault>
    ensures { Gives (λ names. texts names.items) result (names_of line has_corner (cells separator row.now)) }
{
    let mut cells = Some(row);
    if !has_corner {
        return names_from(alloc, separator, line, 0, cells);
    }
    match next_cell(&mut cells, separator) {
        Some(_) => names_from(alloc, separator, line, 1, cells),
        None => Ok(Vec::new(alloc)),
    }
}

/// The names in the cells that are left of a first row, from this column on.
fn names_from(
    alloc: Global,
    separator: u8,
    line: u64,
    first: usize,
    cells: Option<&[u8]>,
) -> Result<Vec<String>, DistanceFault>
    requires { first + length (cells_left separator cells) ≤ 2 ^ 63 }
    ensures { Gives (λ names. texts names.items) result (names_from line first (cells_left separator cells.entry)) }
{
    let mut names = Vec::new(alloc);
    let mut rest = cells;
    let mut column = first;
    while let Some(cell) = next_cell(&mut rest, separator) {
        names.push(team_name(alloc, line, column, cell)?)?;
        column += 1;
    }
    Ok(names)
}
