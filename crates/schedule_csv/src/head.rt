//! The head row of a table.

ghost use Rattle.std.specs.Prelude.{◌≡◌};
ghost use Rattle.schedule_csv.specs.Cells.{cells};
ghost use Rattle.schedule_csv.specs.Head.{column_of, head_by, head_of, without_order_mark};

use crate::cells::{next_cell, unmarked};

/// Where the rows of a table have what is read of them.
#[derive(Clone, Copy)]
pub(crate) struct GamesHead {
    /// The byte between cells.
    pub(crate) separator: u8,
    /// The columns, from 0.
    pub(crate) round: Option<usize>,
    pub(crate) home: usize,
    pub(crate) away: usize,
}

impl GamesHead {
    /// The head row that a first line is, behind a byte order mark if it has one.
    pub(crate) fn of(line: &[u8]) -> Option<GamesHead>
        ensures { result ≡ head_of line.now }
    {
        let line = without_order_mark(line);
        GamesHead::by(b',', line)
            .or(GamesHead::by(b';', line))
            .or(GamesHead::by(b'\t', line))
    }

    /// The head row that a line is, if its cells are separated so.
    fn by(separator: u8, line: &[u8]) -> Option<GamesHead>
        ensures { result ≡ head_by separator line.now }
    {
        Some(GamesHead {
            separator,
            round: column_of(b"round", line, separator),
            home: column_of(b"home", line, separator)?,
            away: column_of(b"away", line, separator)?,
        })
    }
}

/// A text without a byte order mark at its front.
pub fn without_order_mark(line: &[u8]) -> &[u8]
    ensures { result.now ≡ without_order_mark line.now }
{
    match line {
        [0xEF, 0xBB, 0xBF, rest @ ..] => rest,
        _ => line,
    }
}

/// The index of the first cell with this name in any letter case.
fn column_of(name: &[u8], line: &[u8], separator: u8) -> Option<usize>
    ensures { result ≡ column_of name.now (cells separator line.now) }
{
    let mut index = 0;
    let mut rest = Some(line);
    while let Some(cell) = next_cell(&mut rest, separator) {
        if unmarked(cell).eq_ignore_ascii_case(name) {
            return Some(index);
        }
        index += 1;
    }
    None
}
