//! The distances of the rows below the first.

ghost use Rattle.std.specs.Prelude.{◌≡◌, ◌+◌, ◌<◌, ◌≤◌, ◌^◌, length};
ghost use Rattle.std.specs.Str.Lines.{lines};
ghost use Rattle.league.specs.Limits.{max_teams};
ghost use Rattle.league.specs.Views.{texts};
ghost use Rattle.schedule_csv.specs.Cells.{cells, cells_left};
ghost use Rattle.league_csv.specs.Reading.{placed};
ghost use Rattle.league_csv.specs.within.Reading.{Gives};
ghost use Rattle.league_csv.specs.Measures.{measure_between};
ghost use Rattle.league_csv.specs.Rows.{first_column, measures_from, row_of, rows_from};
ghost use Rattle.league_csv.specs.within.Views.{rows};

use crate::fault::{DistanceCellFault, DistanceFault};
use crate::measures::{Measure, measure_between};
use crate::names::{cell_fault, name_count, name_in};
use schedule_csv::{is_empty_row, next_cell};
use std::alloc::Global;
use text_lines::next_line;

/// How the rows below the first are to be read.
#[derive(Clone, Copy)]
pub(crate) struct TableHead<'a> {
    /// The byte between cells.
    pub(crate) separator: u8,
    /// Whether names stand in the first column.
    pub(crate) in_column: bool,
    pub(crate) names: &'a [String],
}

/// The row of a team, by its number from 0.
#[derive(Clone, Copy)]
struct TableRow<'a> {
    text: &'a [u8],
    /// The number of its line.
    line: u64,
    team: usize,
}

impl TableHead<'_> {
    fn first_column(self) -> usize
        ensures { result ≡ first_column self.entry.in_column }
    {
        usize::from(self.in_column)
    }

    fn teams(self) -> usize
        ensures { result ≡ length (texts self.entry.names.now) }
    {
        name_count(self.names)
    }
}

/// The distances in the cells that are left of a row, from the first team on.
fn measures_from(
    alloc: Global,
    head: TableHead,
    row: TableRow,
    cells: Option<&[u8]>,
) -> Result<Vec<Measure>, DistanceFault>
    requires { length (texts head.names.now) ≤ max_teams }
    ensures { Gives (λ measures. measures.items) result
        (measures_from head.entry.separator head.entry.in_column (texts head.entry.names.now) row.entry.line row.entry.team 0 (cells_left head.entry.separator cells.entry)) }
{
    let mut measures = Vec::new(alloc);
    let mut rest = cells;
    let mut other = 0;
    while let Some(cell) = next_cell(&mut rest, head.separator) {
        let column = head.first_column() + other;
        if other == head.teams() {
            return Err(cell_fault(row.line, column, DistanceCellFault::Surplus));
        }
        measures.push(placed(
            row.line,
            column,
            measure_between(head.separator, row.team, other, cell),
        )?)?;
        other += 1;
    }
    if other < head.teams() {
        return Err(cell_fault(
            row.line,
            head.first_column() + other,
            DistanceCellFault::Absent,
        ));
    }
    Ok(measures)
}

fn placed(
    line: u64,
    column: usize,
    measure: Result<Measure, DistanceCellFault>,
) -> Result<Measure, DistanceFault>
    requires { column < 2 ^ 63 }
    ensures { result ≡ placed line column measure }
{
    match measure {
        Ok(measure) => Ok(measure),
        Err(why) => Err(cell_fault(line, column, why)),
    }
}

fn row_of(alloc: Global, head: TableHead, row: TableRow) -> Result<Vec<Measure>, DistanceFault>
    requires team { row.team < length (texts head.names.now) }
    requires few { length (texts head.names.now) ≤ max_teams }
    ensures { Gives (λ measures. measures.items) result
        (row_of head.entry.separator head.entry.in_column (texts head.entry.names.now) row.entry.line row.entry.team (cells head.entry.separator row.entry.text.now)) }
{
    let mut rest = Some(row.text);
    if !head.in_column {
        return measures_from(alloc, head, row, rest);
    }
    let Some(cell) = next_cell(&mut rest, head.separator) else {
        return Err(cell_fault(row.line, 0, DistanceCellFault::Absent));
    };
    if name_in(alloc, cell)?.as_slice() != head.names[row.team].as_bytes() {
        return Err(cell_fault(row.line, 0, DistanceCellFault::OtherName));
    }
    measures_from(alloc, head, row, rest)
}

/// The distances of each team, in the rows below a line.
pub(crate) fn rows_below(
    alloc: Global,
    head: TableHead,
    above: u64,
    below: &[u8],
) -> Result<Vec<Vec<Measure>>, DistanceFault>
    requires lines { above + length below.now ≤ 2 ^ 63 }
    requires few { length (texts head.names.now) ≤ max_teams }
    ensures { Gives (λ table. rows table.items) result
        (rows_from head.entry.separator head.entry.in_column (texts head.entry.names.now) (above + 1) 0 (lines below.now)) }
{
    let mut table = Vec::new(alloc);
    let mut rest = below;
    let mut line = above;
    let mut team = 0;
    while let Some(text) = next_line(&mut rest) {
        line += 1;
        if is_empty_row(text, head.separator) {
            continue;
        }
        if team == head.teams() {
            return Err(DistanceFault::SurplusRow(line));
        }
        table.push(row_of(alloc, head, TableRow { text, line, team })?)?;
        team += 1;
    }
    if team < head.teams() {
        return Err(DistanceFault::RowsEnd(team as u64 + 1));
    }
    Ok(table)
}
