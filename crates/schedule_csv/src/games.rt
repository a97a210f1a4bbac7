//! The game of a row.

ghost use Rattle.std.specs.Prelude.{◌≡◌, ◌++◌, decimal, option_map, OnOk};
ghost use Rattle.schedule_csv.specs.Cells.{cell_at, cells};
ghost use Rattle.schedule_csv.specs.Games.{game_line, game_of_cells, game_of_row, round_of, round_of_cell, team_of_cell};

use crate::cells::{cell_at, unmarked};
use crate::fault::{CellFault, Column, RowFault};
use crate::head::GamesHead;
use crate::names::team_of;
use league::League;
use std::alloc::AllocError;
use text_lines::number;

/// A game as it is written, with numbers from 1.
#[derive(Clone, Copy)]
pub(crate) struct RowGame {
    round: u64,
    home: u64,
    away: u64,
}

/// A row of a table, which isn't empty.
#[derive(Clone, Copy)]
pub(crate) struct GameRow<'a> {
    pub(crate) text: &'a [u8],
    /// The number of its line.
    pub(crate) line: u64,
    /// How many games stand above it.
    pub(crate) before: u64,
}

impl GameRow<'_> {
    /// Its game.
    pub(crate) fn game(self, league: &League, head: GamesHead) -> Result<RowGame, RowFault>
        ensures { result ≡ game_of_row league.now head self.entry.line self.entry.before (cells head.separator self.entry.text.now) }
    {
        let GameRow { text, line, before } = self;
        let round = round_of(league, head, text, before);
        let home = team_of_cell(league, cell_at(text, head.separator, head.home));
        let away = team_of_cell(league, cell_at(text, head.separator, head.away));
        game_of_cells(line, round, home, away)
    }
}

fn game_of_cells(
    line: u64,
    round: Result<u64, CellFault>,
    home: Result<u64, CellFault>,
    away: Result<u64, CellFault>,
) -> Result<RowGame, RowFault>
    ensures { result ≡ game_of_cells line round home away }
{
    match (round, home, away) {
        (Ok(round), Ok(home), Ok(away)) => Ok(RowGame { round, home, away }),
        (Err(why), _, _) => Err(RowFault {
            line,
            column: Column::Round,
            why,
        }),
        (_, Err(why), _) => Err(RowFault {
            line,
            column: Column::Home,
            why,
        }),
        (_, _, Err(why)) => Err(RowFault {
            line,
            column: Column::Away,
            why,
        }),
    }
}

/// The round in its column. Without one, each half of the teams' number of games one after another are a round.
fn round_of(league: &League, head: GamesHead, text: &[u8], before: u64) -> Result<u64, CellFault>
    ensures { result ≡ round_of league.now head.round (cells head.separator text.now) before }
{
    match head.round {
        Some(column) => round_of_cell(cell_at(text, head.separator, column)),
        None => Ok(before / u64::from(league.teams() / 2) + 1),
    }
}

fn round_of_cell(cell: Option<&[u8]>) -> Result<u64, CellFault>
    ensures { result ≡ round_of_cell (option_map (λ c. c.now) cell.entry) }
{
    match cell {
        Some(cell) => number(unmarked(cell)).ok_or(CellFault::NoNumber),
        None => Err(CellFault::Absent),
    }
}

fn team_of_cell(league: &League, cell: Option<&[u8]>) -> Result<u64, CellFault>
    ensures { result ≡ team_of_cell league.now (option_map (λ c. c.now) cell.entry) }
{
    match cell {
        Some(cell) => team_of(league, cell),
        None => Err(CellFault::Absent),
    }
}

/// Adds the line of a game.
pub(crate) fn push_game(sheet: &mut Vec<u8>, game: RowGame) -> Result<(), AllocError>
    ensures { OnOk result (sheet.new.items ≡ sheet.old.items ++ game_line game) }
{
    push_numbered(sheet, b"round ", game.round)?;
    push_numbered(sheet, b": ", game.home)?;
    push_numbered(sheet, b"-", game.away)?;
    sheet.extend_from_slice(b"\n")
}

/// Adds a text and a number behind it.
fn push_numbered(sheet: &mut Vec<u8>, text: &[u8], number: u64) -> Result<(), AllocError>
    ensures { OnOk result (sheet.new.items ≡ sheet.old.items ++ (text.now ++ decimal number)) }
{
    let mut digits = itoa::Buffer::new();
    sheet.extend_from_slice(text)?;
    sheet.extend_from_slice(digits.format(number).as_bytes())
}
