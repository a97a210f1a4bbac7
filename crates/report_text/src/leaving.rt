//! The cost of leaving the start of a league, and the games that have left it.

ghost use Rattle.std.specs.Prelude.{◌≡◌, ◌<◌};
ghost use Rattle.league.specs.League.{teams};
ghost use Rattle.byte_streams.specs.Pieces.{pieces_below};
ghost use Rattle.byte_streams.specs.Writing.{Writes};
ghost use Rattle.report_text.specs.within.CostText.{leaving_text, moved_line, moved_lines, moved_text, near_line, was_line};

use byte_streams::{BufferedSink, Sink, WriteFault};
use fixtures::Schedule;
use league::League;
use text_lines::{Piece, write_pieces};
use tours::moved_games;

/// Writes what leaving the start costs, if it has a price, and the games that have left it, if it was given.
pub(crate) fn write_leaving<W: Sink>(
    out: &mut BufferedSink<'_, W>,
    league: &League,
    schedule: &Schedule,
) -> Result<(), WriteFault>
    requires { schedule.now.teams ≡ teams league.now }
    ensures { Writes W.held W.tally out.old out.new result (leaving_text league.now schedule.now) }
{
    write_near(out, league, schedule)?;
    write_moved(out, league, schedule)
}

fn write_near<W: Sink>(
    out: &mut BufferedSink<'_, W>,
    league: &League,
    schedule: &Schedule,
) -> Result<(), WriteFault>
    requires { schedule.now.teams ≡ teams league.now }
    ensures { Writes W.held W.tally out.old out.new result (near_line league.now schedule.now) }
{
    let near = league.near();
    if near == 0 {
        return Ok(());
    }
    let moved = moved_games(schedule, league);
    write_pieces(
        out,
        &[
            Piece::Text(b"near "),
            Piece::Number(near as u64),
            Piece::Text(b" moved "),
            Piece::Number(moved),
            Piece::Text(b"\n"),
        ],
    )
}

fn write_moved<W: Sink>(
    out: &mut BufferedSink<'_, W>,
    league: &League,
    schedule: &Schedule,
) -> Result<(), WriteFault>
    requires { schedule.now.teams ≡ teams league.now }
    ensures { Writes W.held W.tally out.old out.new result (moved_text league.now schedule.now) }
{
    if league.given() {
        write_all_moved(out, league, schedule)
    } else {
        Ok(())
    }
}

fn write_all_moved<W: Sink>(
    out: &mut BufferedSink<'_, W>,
    league: &League,
    schedule: &Schedule,
) -> Result<(), WriteFault>
    requires { schedule.now.teams ≡ teams league.now }
    ensures { Writes W.held W.tally out.old out.new result
        (pieces_below (moved_lines league.now schedule.now) schedule.now.teams) }
{
    for home in 0..schedule.teams() {
        write_moved_of(out, league, schedule, home)?;
    }
    Ok(())
}

fn write_moved_of<W: Sink>(
    out: &mut BufferedSink<'_, W>,
    league: &League,
    schedule: &Schedule,
    home: u8,
) -> Result<(), WriteFault>
    requires same { schedule.now.teams ≡ teams league.now }
    requires home { home < schedule.now.teams }
    ensures { Writes W.held W.tally out.old out.new result (moved_lines league.now schedule.now home) }
{
    for away in 0..schedule.teams() {
        write_moved_game(out, league, schedule, home, away)?;
    }
    Ok(())
}

/// Names the game in which `home` receives `away`, if it isn't in its round of the start. A team has no game with itself.
fn write_moved_game<W: Sink>(
    out: &mut BufferedSink<'_, W>,
    league: &League,
    schedule: &Schedule,
    home: u8,
    away: u8,
) -> Result<(), WriteFault>
    requires same { schedule.now.teams ≡ teams league.now }
    requires home { home < schedule.now.teams }
    requires away { away < schedule.now.teams }
    ensures { Writes W.held W.tally out.old out.new result (moved_line league.now schedule.now home away) }
{
    if home == away {
        return Ok(());
    }
    let was = league.start_round(home, away);
    let now = schedule.round_of(home, away);
    if now == was {
        return Ok(());
    }
    write_was(out, (home, away), was, now)
}

fn write_was<W: Sink>(
    out: &mut BufferedSink<'_, W>,
    game: (u8, u8),
    was: u8,
    now: u8,
) -> Result<(), WriteFault>
    ensures { Writes W.held W.tally out.old out.new result (was_line game.0 game.1 was now) }
{
    write_pieces(
        out,
        &[
            Piece::Text(b"was "),
            Piece::Number(game.0 as u64 + 1),
            Piece::Text(b"-"),
            Piece::Number(game.1 as u64 + 1),
            Piece::Text(b" round "),
            Piece::Number(was as u64 + 1),
            Piece::Text(b" now "),
            Piece::Number(now as u64 + 1),
            Piece::Text(b"\n"),
        ],
    )
}
