//! The games of a schedule as CSV.

ghost use Rattle.std.specs.Prelude.{◌≡◌, ◌+◌, ◌<◌, [], ◌∷◌, codes, decimal, map, IfOk, OnOk};
ghost use Rattle.csv.specs.Writing.{row_text, writer_pending, writer_setup, writer_under};
ghost use Rattle.fixtures.specs.Games.{round_count};
ghost use Rattle.league.specs.League.{name_of, teams};
ghost use Rattle.byte_streams.specs.Pieces.{pieces_below};
ghost use Rattle.report_page.specs.Table.{byte_of, columns, game_at, game_row, games_of_round, guarded, is_formula, table_text};
ghost use Rattle.report_page.specs.Table.{writer_of};
ghost use Rattle.report_page.specs.within.Table.{row_of, AddsRows, IsBetweenRows};

use crate::labels::{has_round_texts, round_text};
use crate::style::word_if;
use choices::{CsvForm, Separator};
use csv::{Writer, WriterBuilder};
use fixtures::Schedule;
use league::League;
use std::alloc::{AllocError, Global};
use std::io::Write;

/// A head line and a line for each game, ordered by round and home team.
pub(crate) fn table(
    alloc: Global,
    form: CsvForm,
    league: &League,
    schedule: &Schedule,
) -> Result<Vec<u8>, AllocError>
    requires { schedule.now.teams ≡ teams league.now }
    ensures { IfOk result (λ text. text.items ≡ table_text form league.now schedule.now) }
{
    let mut start = Vec::new(alloc);
    start.extend_from_slice(word_if(form.has_mark, b"\xEF\xBB\xBF"))?;
    let mut writer = writer_behind(start, form);
    write_cells(
        &mut writer,
        league,
        &[
            b"round",
            b"home",
            b"home name",
            b"away",
            b"away name",
            b"round text",
        ],
    )?;
    write_rounds(alloc, &mut writer, league, schedule)?;
    match writer.into_inner() {
        Ok(text) => Ok(text),
        Err(_) => Err(AllocError),
    }
}

/// A writer of lines behind the text.
fn writer_behind(start: Vec<u8>, form: CsvForm) -> Writer<Vec<u8>>
    ensures between { IsBetweenRows result }
    ensures setup { writer_setup result ≡ writer_of form.separator }
    ensures under { writer_under result ≡ start }
    ensures pending { writer_pending result ≡ [] }
{
    WriterBuilder::new()
        .delimiter(byte_of(form.separator))
        .from_writer(start)
}

fn byte_of(separator: Separator) -> u8
    ensures { result ≡ byte_of separator }
{
    match separator {
        Separator::Comma => b',',
        Separator::Semicolon => b';',
        Separator::Tab => b'\t',
    }
}

fn write_rounds<W: Write + Drop>(
    alloc: Global,
    writer: &mut Writer<W>,
    league: &League,
    schedule: &Schedule,
) -> Result<(), AllocError>
    requires same { schedule.now.teams ≡ teams league.now }
    requires between { IsBetweenRows writer.old }
    ensures { OnOk result (AddsRows W.contents writer.old writer.new
        (pieces_below (games_of_round (writer_setup writer.old) league.now schedule.now) (round_count schedule.now.teams))) }
{
    for round in 0..schedule.rounds() {
        write_round(alloc, writer, league, schedule, round)?;
    }
    Ok(())
}

fn write_round<W: Write + Drop>(
    alloc: Global,
    writer: &mut Writer<W>,
    league: &League,
    schedule: &Schedule,
    round: u8,
) -> Result<(), AllocError>
    requires same { schedule.now.teams ≡ teams league.now }
    requires round { round < round_count schedule.now.teams }
    requires between { IsBetweenRows writer.old }
    ensures { OnOk result (AddsRows W.contents writer.old writer.new (games_of_round (writer_setup writer.old) league.now schedule.now round)) }
{
    for team in 0..schedule.teams() {
        write_game(alloc, writer, league, schedule, round, team)?;
    }
    Ok(())
}

/// Writes the team's game in the round, if the team is at home there.
fn write_game<W: Write + Drop>(
    alloc: Global,
    writer: &mut Writer<W>,
    league: &League,
    schedule: &Schedule,
    round: u8,
    team: u8,
) -> Result<(), AllocError>
    requires same { schedule.now.teams ≡ teams league.now }
    requires team { team < schedule.now.teams }
    requires round { round < round_count schedule.now.teams }
    requires between { IsBetweenRows writer.old }
    ensures { OnOk result (AddsRows W.contents writer.old writer.new (game_at (writer_setup writer.old) league.now schedule.now round team)) }
{
    let game = schedule.game_at(team, round);
    if game.home {
        write_pairing(alloc, writer, league, round, team, game.opponent)
    } else {
        Ok(())
    }
}

fn write_pairing<W: Write + Drop>(
    alloc: Global,
    writer: &mut Writer<W>,
    league: &League,
    round: u8,
    home: u8,
    away: u8,
) -> Result<(), AllocError>
    requires home { home < teams league.now }
    requires away { away < teams league.now }
    requires between { IsBetweenRows writer.old }
    ensures { OnOk result (AddsRows W.contents writer.old writer.new (game_row (writer_setup writer.old) league.now round home away)) }
{
    let home_name = guarded(alloc, league.name(home).as_bytes())?;
    let away_name = guarded(alloc, league.name(away).as_bytes())?;
    let round_text = guarded(alloc, round_text(league, round))?;
    let mut round_digits = itoa::Buffer::new();
    let mut home_digits = itoa::Buffer::new();
    let mut away_digits = itoa::Buffer::new();
    write_cells(
        writer,
        league,
        &[
            round_digits.format(round as u64 + 1).as_bytes(),
            home_digits.format(home as u64 + 1).as_bytes(),
            home_name.as_slice(),
            away_digits.format(away as u64 + 1).as_bytes(),
            away_name.as_slice(),
            round_text.as_slice(),
        ],
    )
}

/// Writes a record of the cells, of which the last one, the round's text, stands only where the league has texts for its rounds.
fn write_cells<W: Write + Drop>(
    writer: &mut Writer<W>,
    league: &League,
    cells: &[&[u8]; 6],
) -> Result<(), AllocError>
    requires { IsBetweenRows writer.old }
    ensures { OnOk result (AddsRows W.contents writer.old writer.new
        (row_text (writer_setup writer.old) (columns league.now (map (λ c. c.now) cells.now)))) }
{
    if has_round_texts(league) {
        write_row(writer, cells)
    } else {
        write_row(writer, &cells[..5])
    }
}

/// The cell, so that no spreadsheet takes it for a formula.
fn guarded(alloc: Global, cell: &[u8]) -> Result<Vec<u8>, AllocError>
    ensures { IfOk result (λ text. text.items ≡ guarded cell.now) }
{
    let mut text = Vec::new(alloc);
    text.extend_from_slice(word_if(is_formula(cell), b"'"))?;
    text.extend_from_slice(cell)?;
    Ok(text)
}

fn is_formula(cell: &[u8]) -> bool
    ensures { result ≡ is_formula cell.now }
{
    match cell {
        [byte, ..] => matches!(byte, b'=' | b'+' | b'-' | b'@' | b'\t' | b'\r'),
        [] => false,
    }
}

/// Writes a record. A writer over memory fails only if memory is refused, and rows of one length don't differ in length.
fn write_row<W: Write + Drop>(writer: &mut Writer<W>, fields: &[&[u8]]) -> Result<(), AllocError>
    requires { IsBetweenRows writer.old }
    ensures { OnOk result (AddsRows W.contents writer.old writer.new (row_of (writer_setup writer.old) fields.now)) }
{
    match writer.write_fields(fields) {
        Ok(()) => Ok(()),
        Err(_) => Err(AllocError),
    }
}
