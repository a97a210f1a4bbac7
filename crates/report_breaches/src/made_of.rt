//! Which games or rounds make a breach.

ghost use Rattle.std.specs.Prelude.{◌≡◌, ◌<◌, ◌++◌, ◌||◌, length, slice_get};
ghost use Rattle.std.specs.List.{AllByRecursion};
ghost use Rattle.league.specs.Games.{IsGameFor};
ghost use Rattle.league.specs.Limits.{max_rounds};
ghost use Rattle.league.specs.RuleLimits.{IsBodyFor};
ghost use Rattle.league.specs.Sets.{has};
ghost use Rattle.fixtures.specs.Games.{round_count, IsPair};
ghost use Rattle.byte_streams.specs.Pieces.{pieces_below};
ghost use Rattle.byte_streams.specs.Writing.{Writes};
ghost use Rattle.report_breaches.specs.BreachText.{at_round, column_named, game_of, listed_at, listed_game, listed_text};
ghost use Rattle.report_breaches.specs.BreachText.{made_of, meetings_text, named_cell, next_round, row_named};
ghost use Rattle.report_breaches.specs.within.Terms.{IsPlaceFor};

use crate::breach::Place;
use crate::cells::names_cell;
use byte_streams::{BufferedSink, Sink, WriteFault};
use fixtures::Schedule;
use league::{GameList, Pairing, RuleBody, SlotSet};
use text_lines::{Piece, write_pairing, write_pieces};

/// Writes the games or rounds that make a breach of the rule at the place, if they are told.
pub(crate) fn write_made_of<W: Sink>(
    out: &mut BufferedSink<'_, W>,
    schedule: &Schedule,
    body: &RuleBody,
    place: Place,
) -> Result<(), WriteFault>
    requires body { IsBodyFor schedule.now.teams body.now }
    requires place { IsPlaceFor schedule.now.teams place }
    ensures { Writes W.held W.tally out.old out.new result (made_of schedule.now body.now place) }
{
    match place {
        Place::GamesOf { team } | Place::BreaksOf { team } | Place::Window { team, .. } => {
            write_row(out, schedule, body, place, team)
        }
        Place::Round { round } => write_column(out, schedule, body, place, round),
        Place::GamesOver => write_listed(out, schedule, body, false),
        Place::GamesUnder => write_listed(out, schedule, body, true),
        Place::Pair { low, high } => write_meetings(out, schedule, low, high),
        Place::Together | Place::PairIn { .. } => Ok(()),
    }
}

/// Writes what is told of the team's games that are named, in the order of the rounds.
fn write_row<W: Sink>(
    out: &mut BufferedSink<'_, W>,
    schedule: &Schedule,
    body: &RuleBody,
    place: Place,
    team: u8,
) -> Result<(), WriteFault>
    requires body { IsBodyFor schedule.now.teams body.now }
    requires team { team < schedule.now.teams }
    ensures { Writes W.held W.tally out.old out.new result (row_named schedule.now body.now place team) }
{
    for round in 0..schedule.rounds() {
        write_cell(out, schedule, body, place, (team, round))?;
    }
    Ok(())
}

/// Writes the games of the round that are named, for each team for which one is.
fn write_column<W: Sink>(
    out: &mut BufferedSink<'_, W>,
    schedule: &Schedule,
    body: &RuleBody,
    place: Place,
    round: u8,
) -> Result<(), WriteFault>
    requires body { IsBodyFor schedule.now.teams body.now }
    requires round { round < round_count schedule.now.teams }
    ensures { Writes W.held W.tally out.old out.new result (column_named schedule.now body.now place round) }
{
    for team in 0..schedule.teams() {
        write_cell(out, schedule, body, place, (team, round))?;
    }
    Ok(())
}

/// Writes what is told of the team's game in the round, if it is named.
fn write_cell<W: Sink>(
    out: &mut BufferedSink<'_, W>,
    schedule: &Schedule,
    body: &RuleBody,
    place: Place,
    at: (u8, u8),
) -> Result<(), WriteFault>
    requires body { IsBodyFor schedule.now.teams body.now }
    requires team { at.0 < schedule.now.teams }
    requires round { at.1 < round_count schedule.now.teams }
    ensures { Writes W.held W.tally out.old out.new result (named_cell schedule.now body.now place at.0 at.1) }
{
    let (team, round) = at;
    if !names_cell(schedule, body, place, team, round) {
        return Ok(());
    }
    match place {
        Place::BreaksOf { .. } => write_next_round(out, round),
        Place::Round { .. } => write_game_of(out, schedule, team, round),
        _ => write_game_at(out, schedule, team, round),
    }
}

fn write_game_at<W: Sink>(
    out: &mut BufferedSink<'_, W>,
    schedule: &Schedule,
    team: u8,
    round: u8,
) -> Result<(), WriteFault>
    requires team { team < schedule.now.teams }
    requires round { round < round_count schedule.now.teams }
    ensures { Writes W.held W.tally out.old out.new result (game_of schedule.now team round ++ at_round round) }
{
    write_game_of(out, schedule, team, round)?;
    write_at(out, round)
}

fn write_game_of<W: Sink>(
    out: &mut BufferedSink<'_, W>,
    schedule: &Schedule,
    team: u8,
    round: u8,
) -> Result<(), WriteFault>
    requires team { team < schedule.now.teams }
    requires round { round < round_count schedule.now.teams }
    ensures { Writes W.held W.tally out.old out.new result (game_of schedule.now team round) }
{
    let game = schedule.game_at(team, round);
    if game.home {
        write_pairing(out, team, game.opponent)
    } else {
        write_pairing(out, game.opponent, team)
    }
}

fn write_at<W: Sink>(out: &mut BufferedSink<'_, W>, round: u8) -> Result<(), WriteFault>
    ensures { Writes W.held W.tally out.old out.new result (at_round round) }
{
    write_pieces(out, &[Piece::Text(b" @ "), Piece::Number(round as u64 + 1)])
}

fn write_next_round<W: Sink>(out: &mut BufferedSink<'_, W>, round: u8) -> Result<(), WriteFault>
    ensures { Writes W.held W.tally out.old out.new result (next_round round) }
{
    write_pieces(out, &[Piece::Text(b" "), Piece::Number(round as u64 + 1)])
}

/// Writes the rounds of the two games of a pair.
fn write_meetings<W: Sink>(
    out: &mut BufferedSink<'_, W>,
    schedule: &Schedule,
    low: u8,
    high: u8,
) -> Result<(), WriteFault>
    requires { IsPair schedule.now.teams low high }
    ensures { Writes W.held W.tally out.old out.new result (meetings_text schedule.now low high) }
{
    let first = schedule.round_of(low, high);
    let second = schedule.round_of(high, low);
    write_pieces(
        out,
        &[
            Piece::Text(b" "),
            Piece::Number(first.min(second) as u64 + 1),
            Piece::Text(b" "),
            Piece::Number(first.max(second) as u64 + 1),
        ],
    )
}

/// Writes the listed games with their rounds: the whole list, or those in the slots.
fn write_listed<W: Sink>(
    out: &mut BufferedSink<'_, W>,
    schedule: &Schedule,
    body: &RuleBody,
    whole: bool,
) -> Result<(), WriteFault>
    requires { IsBodyFor schedule.now.teams body.now }
    ensures { Writes W.held W.tally out.old out.new result (listed_text schedule.now whole body.now) }
{
    if let RuleBody::Ga1 { games, slots, .. } = body {
        write_list(out, schedule, games, *slots, whole)
    } else {
        Ok(())
    }
}

#[tactic(auto, using(rules::proofs::ForCallers::IsPair_game))]
fn write_list<W: Sink>(
    out: &mut BufferedSink<'_, W>,
    schedule: &Schedule,
    games: &GameList,
    slots: SlotSet,
    whole: bool,
) -> Result<(), WriteFault>
    requires { AllByRecursion (IsGameFor schedule.now.teams) games.now }
    ensures { Writes W.held W.tally out.old out.new result
        (pieces_below (λ i. listed_at schedule.now whole (has slots) (slice_get games.now i)) (length games.now)) }
{
    for i in 0..games.len() {
        write_listed_game(out, schedule, games.at(i), slots, whole)?;
    }
    Ok(())
}

fn write_listed_game<W: Sink>(
    out: &mut BufferedSink<'_, W>,
    schedule: &Schedule,
    game: Pairing,
    slots: SlotSet,
    whole: bool,
) -> Result<(), WriteFault>
    requires { IsPair schedule.now.teams game.home game.away }
    ensures { Writes W.held W.tally out.old out.new result (listed_game schedule.now whole (has slots) game) }
{
    let round = schedule.round_of(game.home, game.away);
    if !is_told(slots, whole, round) {
        return Ok(());
    }
    write_pairing(out, game.home, game.away)?;
    write_at(out, round)
}

/// Whether a listed game in the round is told.
fn is_told(slots: SlotSet, whole: bool, round: u8) -> bool
    requires { round < max_rounds }
    ensures { result ≡ (whole || has slots round) }
{
    whole || slots.has(round)
}
