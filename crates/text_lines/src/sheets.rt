//! The sheet of a schedule: a head line, each team's home-away pattern, and the games of each round.

ghost use Rattle.std.specs.Prelude.{◌≡◌, ◌+◌, ◌<◌, OnOk, OnErr};
ghost use Rattle.std.specs.Io.KnownBytes.{Appends};
ghost use Rattle.fixtures.specs.Games.{round_count};
ghost use Rattle.league.specs.League.{teams};
ghost use Rattle.byte_streams.specs.Limits.{write_limit};
ghost use Rattle.byte_streams.specs.Sending.{AppendsPrefix};
ghost use Rattle.byte_streams.specs.Tally.{FailsWriting};
ghost use Rattle.byte_streams.specs.Writing.{Writes};
ghost use Rattle.byte_streams.specs.Pieces.{pieces_below};
ghost use Rattle.text_lines.specs.Sheet.{head_line, label, name_end, place_letter, pattern_of, team_line};
ghost use Rattle.text_lines.specs.Sheet.{pairing_of, game_text, round_line, sheet_of};

use crate::pieces::{Piece, write_pieces};
use byte_streams::{BufferedSink, Sink, WriteFault};
use fixtures::Schedule;
use league::League;

/// Writes the sheet of a schedule, with the names of its league's teams. Takes no memory. After a
/// fault a prefix of the sheet went out.
pub fn sheet<W: Sink>(schedule: &Schedule, league: &League, sink: &mut W) -> Result<(), WriteFault>
    requires { schedule.now.teams ≡ teams league.now }
    ensures ok { OnOk result (Appends (W.held sink.old) (W.held sink.new)
        (sheet_of schedule.now league.now)) }
    ensures prefix { OnErr result (AppendsPrefix (W.held sink.old) (W.held sink.new)
        (sheet_of schedule.now league.now)) }
    ensures cause { OnErr result
        (FailsWriting write_limit (W.tally sink.old) (W.tally sink.new)) }
{
    let mut out = BufferedSink::new(sink);
    write_sheet(&mut out, schedule, league)?;
    out.flush()
}

/// Writes the sheet as a piece of a longer text.
pub fn write_sheet<W: Sink>(
    out: &mut BufferedSink<'_, W>,
    schedule: &Schedule,
    league: &League,
) -> Result<(), WriteFault>
    requires { schedule.now.teams ≡ teams league.now }
    ensures { Writes W.held W.tally out.old out.new result (sheet_of schedule.now league.now) }
{
    write_head(out, schedule)?;
    write_teams(out, schedule, league)?;
    write_rounds(out, schedule)
}

fn write_head<W: Sink>(out: &mut BufferedSink<'_, W>, schedule: &Schedule) -> Result<(), WriteFault>
    ensures { Writes W.held W.tally out.old out.new result (head_line schedule.now) }
{
    write_pieces(
        out,
        &[
            Piece::Text(b"league "),
            Piece::Number(schedule.teams() as u64),
            Piece::Text(b" teams "),
            Piece::Number(schedule.rounds() as u64),
            Piece::Text(b" rounds\n"),
        ],
    )
}

fn write_teams<W: Sink>(
    out: &mut BufferedSink<'_, W>,
    schedule: &Schedule,
    league: &League,
) -> Result<(), WriteFault>
    requires { schedule.now.teams ≡ teams league.now }
    ensures { Writes W.held W.tally out.old out.new result
        (pieces_below (team_line schedule.now league.now) schedule.now.teams) }
{
    for team in 0..schedule.teams() {
        write_team(out, schedule, league, team)?;
    }
    Ok(())
}

fn write_team<W: Sink>(
    out: &mut BufferedSink<'_, W>,
    schedule: &Schedule,
    league: &League,
    team: u8,
) -> Result<(), WriteFault>
    requires same { schedule.now.teams ≡ teams league.now }
    requires team { team < schedule.now.teams }
    ensures { Writes W.held W.tally out.old out.new result
        (team_line schedule.now league.now team) }
{
    write_label(out, b"team ", team, b" ")?;
    write_pattern(out, schedule, team)?;
    write_name(out, league.name(team))
}

/// Writes the word, the number and what stands behind it.
fn write_label<'a, W: Sink>(
    out: &mut BufferedSink<'_, W>,
    word: &'a [u8],
    number: u8,
    end: &'a [u8],
) -> Result<(), WriteFault>
    ensures { Writes W.held W.tally out.old out.new result (label word.now number end.now) }
{
    write_pieces(
        out,
        &[
            Piece::Text(word),
            Piece::Number(number as u64 + 1),
            Piece::Text(end),
        ],
    )
}

/// Writes a blank and the name, which ends the line.
fn write_name<W: Sink>(out: &mut BufferedSink<'_, W>, name: &str) -> Result<(), WriteFault>
    ensures { Writes W.held W.tally out.old out.new result (name_end name.now) }
{
    write_pieces(
        out,
        &[
            Piece::Text(b" "),
            Piece::Text(name.as_bytes()),
            Piece::Text(b"\n"),
        ],
    )
}

fn write_pattern<W: Sink>(
    out: &mut BufferedSink<'_, W>,
    schedule: &Schedule,
    team: u8,
) -> Result<(), WriteFault>
    requires { team < schedule.now.teams }
    ensures { Writes W.held W.tally out.old out.new result (pattern_of schedule.now team) }
{
    for round in 0..schedule.rounds() {
        let game = schedule.game_at(team, round);
        out.write(&[place_letter(game.home)])?;
    }
    Ok(())
}

fn place_letter(home: bool) -> u8
    ensures { result ≡ place_letter home }
{
    if home { b'H' } else { b'A' }
}

fn write_rounds<W: Sink>(
    out: &mut BufferedSink<'_, W>,
    schedule: &Schedule,
) -> Result<(), WriteFault>
    ensures { Writes W.held W.tally out.old out.new result
        (pieces_below (round_line schedule.now) (round_count schedule.now.teams)) }
{
    for round in 0..schedule.rounds() {
        write_round(out, schedule, round)?;
    }
    Ok(())
}

fn write_round<W: Sink>(
    out: &mut BufferedSink<'_, W>,
    schedule: &Schedule,
    round: u8,
) -> Result<(), WriteFault>
    requires { round < round_count schedule.now.teams }
    ensures { Writes W.held W.tally out.old out.new result (round_line schedule.now round) }
{
    write_label(out, b"round ", round, b":")?;
    write_games(out, schedule, round)?;
    out.write(b"\n")
}

fn write_games<W: Sink>(
    out: &mut BufferedSink<'_, W>,
    schedule: &Schedule,
    round: u8,
) -> Result<(), WriteFault>
    requires { round < round_count schedule.now.teams }
    ensures { Writes W.held W.tally out.old out.new result
        (pieces_below (game_text schedule.now round) schedule.now.teams) }
{
    for team in 0..schedule.teams() {
        write_game(out, schedule, round, team)?;
    }
    Ok(())
}

/// Writes the team's game in the round, if the team is at home there.
fn write_game<W: Sink>(
    out: &mut BufferedSink<'_, W>,
    schedule: &Schedule,
    round: u8,
    team: u8,
) -> Result<(), WriteFault>
    requires team { team < schedule.now.teams }
    requires round { round < round_count schedule.now.teams }
    ensures { Writes W.held W.tally out.old out.new result (game_text schedule.now round team) }
{
    let game = schedule.game_at(team, round);
    if game.home {
        write_pairing(out, team, game.opponent)
    } else {
        Ok(())
    }
}

/// Writes a blank and the game `H-A`.
pub fn write_pairing<W: Sink>(
    out: &mut BufferedSink<'_, W>,
    home: u8,
    away: u8,
) -> Result<(), WriteFault>
    ensures { Writes W.held W.tally out.old out.new result (pairing_of home away) }
{
    write_pieces(
        out,
        &[
            Piece::Text(b" "),
            Piece::Number(home as u64 + 1),
            Piece::Text(b"-"),
            Piece::Number(away as u64 + 1),
        ],
    )
}
