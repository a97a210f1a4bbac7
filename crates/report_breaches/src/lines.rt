//! A line for each breach of a rule.

ghost use Rattle.std.specs.Prelude.{◌≡◌, ◌<◌, ◌≤◌};
ghost use Rattle.league.specs.Limits.{max_teams};
ghost use Rattle.league.specs.RuleLimits.{IsBodyFor};
ghost use Rattle.byte_streams.specs.Writing.{Writes};
ghost use Rattle.report_breaches.specs.BreachText.{breach_head, breach_line, breaches_text, by_text, colon_text, lines_of, place_text, side_word};
ghost use Rattle.report_breaches.specs.within.Terms.{breach_in, breaches_in_row, column_count, row_count, IsPlaceFor};

use crate::breach::{Breach, Place};
use crate::made_of::write_made_of;
use crate::places::{column_count, place_at, row_count};
use crate::terms::term;
use byte_streams::{BufferedSink, Sink, WriteFault};
use fixtures::Schedule;
use league::{Rule, RuleBody};
use text_lines::{Piece, write_pieces};

/// Writes a line for each breach of the rule with this number.
pub fn write_breaches<W: Sink>(
    out: &mut BufferedSink<'_, W>,
    number: u64,
    schedule: &Schedule,
    rule: &Rule,
) -> Result<(), WriteFault>
    requires few { number < 256 }
    requires body { IsBodyFor schedule.now.teams rule.now.body }
    ensures { Writes W.held W.tally out.old out.new result (breaches_text schedule.now number rule.now.body) }
{
    for row in 0..row_count(schedule, &rule.body) {
        write_row(out, number, schedule, &rule.body, row)?;
    }
    Ok(())
}

fn write_row<W: Sink>(
    out: &mut BufferedSink<'_, W>,
    number: u64,
    schedule: &Schedule,
    body: &RuleBody,
    row: u8,
) -> Result<(), WriteFault>
    requires few { number < 256 }
    requires most { schedule.now.teams ≤ max_teams }
    requires body { IsBodyFor schedule.now.teams body.now }
    requires row { row < row_count schedule.now body.now }
    ensures { Writes W.held W.tally out.old out.new result
        (lines_of schedule.now number body.now (breaches_in_row schedule.now body.now row)) }
{
    for column in 0..column_count(schedule, body, row) {
        write_breach_in(out, number, schedule, body, (row, column))?;
    }
    Ok(())
}

/// Writes the line of the term at the row and the column, if it is above 0.
fn write_breach_in<W: Sink>(
    out: &mut BufferedSink<'_, W>,
    number: u64,
    schedule: &Schedule,
    body: &RuleBody,
    at: (u8, u8),
) -> Result<(), WriteFault>
    requires few { number < 256 }
    requires most { schedule.now.teams ≤ max_teams }
    requires body { IsBodyFor schedule.now.teams body.now }
    requires row { at.0 < row_count schedule.now body.now }
    requires column { at.1 < column_count schedule.now body.now at.0 }
    ensures { Writes W.held W.tally out.old out.new result
        (lines_of schedule.now number body.now (breach_in schedule.now body.now at.0 at.1)) }
{
    let by = term(schedule, body, at.0, at.1);
    if by == 0 {
        return Ok(());
    }
    let place = place_at(schedule, body, at.0, at.1);
    write_breach(out, number, schedule, body, Breach { place, by })
}

fn write_breach<W: Sink>(
    out: &mut BufferedSink<'_, W>,
    number: u64,
    schedule: &Schedule,
    body: &RuleBody,
    breach: Breach,
) -> Result<(), WriteFault>
    requires few { number < 256 }
    requires body { IsBodyFor schedule.now.teams body.now }
    requires place { IsPlaceFor schedule.now.teams breach.place }
    ensures { Writes W.held W.tally out.old out.new result (breach_line schedule.now number body.now breach) }
{
    write_head(out, number, breach.place)?;
    write_place(out, breach.place)?;
    write_by(out, breach.by, breach.place)?;
    write_made_of(out, schedule, body, breach.place)?;
    out.write(b"\n")
}

fn write_head<W: Sink>(
    out: &mut BufferedSink<'_, W>,
    number: u64,
    place: Place,
) -> Result<(), WriteFault>
    requires { number < 256 }
    ensures { Writes W.held W.tally out.old out.new result (breach_head place number) }
{
    write_pieces(
        out,
        &[
            Piece::Text(side_word(place)),
            Piece::Text(b" rule "),
            Piece::Number(number + 1),
        ],
    )
}

fn write_by<W: Sink>(out: &mut BufferedSink<'_, W>, by: u32, place: Place) -> Result<(), WriteFault>
    ensures { Writes W.held W.tally out.old out.new result (by_text by place) }
{
    write_pieces(
        out,
        &[
            Piece::Text(b" by "),
            Piece::Number(by as u64),
            Piece::Text(colon(place)),
        ],
    )
}

/// The word before the games or rounds that make a breach.
fn colon(place: Place) -> &'static [u8]
    ensures { result.now ≡ colon_text place }
{
    match place {
        Place::BreaksOf { .. } | Place::Pair { .. } => b": rounds",
        Place::Together | Place::PairIn { .. } => b"",
        _ => b":",
    }
}

/// Whether there is too much or too little.
fn side_word(place: Place) -> &'static [u8]
    ensures { result.now ≡ side_word place }
{
    match place {
        Place::GamesUnder | Place::Pair { .. } => b"under",
        _ => b"over",
    }
}

fn write_place<W: Sink>(out: &mut BufferedSink<'_, W>, place: Place) -> Result<(), WriteFault>
    ensures { Writes W.held W.tally out.old out.new result (place_text place) }
{
    match place {
        Place::GamesOf { team } | Place::BreaksOf { team } => write_pieces(
            out,
            &[Piece::Text(b" team "), Piece::Number(team as u64 + 1)],
        ),
        Place::Window { team, first, last } => write_pieces(
            out,
            &[
                Piece::Text(b" team "),
                Piece::Number(team as u64 + 1),
                Piece::Text(b" rounds "),
                Piece::Number(first as u64 + 1),
                Piece::Text(b"-"),
                Piece::Number(last as u64 + 1),
            ],
        ),
        Place::Round { round } => write_pieces(
            out,
            &[Piece::Text(b" round "), Piece::Number(round as u64 + 1)],
        ),
        Place::Together | Place::GamesOver | Place::GamesUnder => Ok(()),
        Place::Pair { low, high } => write_pieces(
            out,
            &[
                Piece::Text(b" teams "),
                Piece::Number(low as u64 + 1),
                Piece::Text(b"-"),
                Piece::Number(high as u64 + 1),
            ],
        ),
        Place::PairIn { low, high, round } => write_pieces(
            out,
            &[
                Piece::Text(b" teams "),
                Piece::Number(low as u64 + 1),
                Piece::Text(b"-"),
                Piece::Number(high as u64 + 1),
                Piece::Text(b" round "),
                Piece::Number(round as u64 + 1),
            ],
        ),
    }
}
