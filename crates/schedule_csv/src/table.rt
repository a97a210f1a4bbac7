//! The sheet that a table stands for.

ghost use Rattle.std.specs.Prelude.{◌≡◌};
ghost use Rattle.std.specs.Str.Lines.{lines};
ghost use Rattle.schedule_csv.specs.Table.{is_table, rows_text, text_of, GivesLines};
ghost use Rattle.schedule_csv.specs.within.Table.{GivesText};

use crate::cells::is_empty_row;
use crate::fault::TableFault;
use crate::games::{GameRow, push_game};
use crate::head::GamesHead;
use league::League;
use std::alloc::Global;
use text_lines::next_line;

/// A schedule as a text with lines `round R: H-A ..`.
#[derive(Drop)]
pub enum ScheduleText<'a> {
    /// As it was given.
    Given(&'a [u8]),
    /// Made from a table.
    Made(Vec<u8>),
}

impl ScheduleText<'_> {
    /// Its bytes.
    pub fn as_bytes(&self) -> &[u8]
        ensures { result.now ≡ text_of self.now }
    {
        match self {
            ScheduleText::Given(text) => text,
            ScheduleText::Made(text) => text,
        }
    }
}

/// Whether a text is a table: its first line is a head row. Takes no memory.
pub fn is_table(text: &[u8]) -> bool
    ensures { result ≡ is_table (lines text.now) }
{
    let mut rest = text;
    match next_line(&mut rest) {
        Some(first) => GamesHead::of(first).is_some(),
        None => false,
    }
}

/// A text with lines `round R: H-A` for a schedule that was given. If the first line of what was given is the head row of a table, it has
/// a line for each game of the table, and otherwise it is what was given. Takes memory only for the games of a table.
#[tactic(auto, unfolding(crate::specs::Table::schedule_lines))]
pub fn schedule_text<'a>(
    alloc: Global,
    league: &League,
    given: &'a [u8],
) -> Result<ScheduleText<'a>, TableFault>
    ensures { GivesLines league.now (lines given.now) result }
{
    let mut rest = given;
    let Some(first) = next_line(&mut rest) else {
        return Ok(ScheduleText::Given(given));
    };
    match GamesHead::of(first) {
        Some(head) => Ok(ScheduleText::Made(rows_text(alloc, league, head, rest)?)),
        None => Ok(ScheduleText::Given(given)),
    }
}

/// The lines of the games of the rows below a head row.
fn rows_text(
    alloc: Global,
    league: &League,
    head: GamesHead,
    rows: &[u8],
) -> Result<Vec<u8>, TableFault>
    ensures { GivesText (rows_text league.now head 2 0 (lines rows.now)) result }
{
    let mut sheet = Vec::new(alloc);
    let mut rest = rows;
    let mut line = 1;
    let mut before = 0;
    while let Some(text) = next_line(&mut rest) {
        line += 1;
        if !is_empty_row(text, head.separator) {
            let row = GameRow { text, line, before };
            push_game(&mut sheet, row.game(league, head)?)?;
            before += 1;
        }
    }
    Ok(sheet)
}
