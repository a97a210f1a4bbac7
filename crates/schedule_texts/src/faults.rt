//! The faults of games that are no double round robin.

ghost use Rattle.std.specs.Prelude.{◌≡◌, ◌≤◌};
ghost use Rattle.std.specs.Str.Lines.{lines};
ghost use Rattle.league.specs.Limits.{max_teams};
ghost use Rattle.byte_streams.specs.Writing.{Writes};
ghost use Rattle.schedule_texts.specs.Faults.{bad_line, bad_lines, faults_text, game_faults};
ghost use Rattle.schedule_texts.specs.within.Faults.{count_line, count_lines};
ghost use Rattle.schedule_texts.specs.Faults.{no_game_line, no_game_lines, pair_line, team_line, times_words};
ghost use Rattle.schedule_texts.specs.Given.{given_games};
ghost use Rattle.schedule_texts.specs.LastSheet.{last_sheet};
ghost use Rattle.schedule_texts.specs.ScheduleText.{written_games};
ghost use Rattle.byte_streams.specs.Pieces.{pieces_below};

use crate::counted::{Counted, counts_of};
use crate::last_sheet::LastSheet;
use crate::schedule_text::{ScheduleLine, WrittenGame};
use byte_streams::{BufferedSink, Sink, WriteFault};
use fixtures::Game;
use text_lines::{Piece, next_line, write_pieces};

/// Writes a line for each fault of the last sheet of a text and of the games that it gives to this number of teams.
pub(crate) fn write_faults<W: Sink>(
    out: &mut BufferedSink<'_, W>,
    teams: u8,
    text: &[u8],
    written: &[WrittenGame],
    games: &[Game],
) -> Result<(), WriteFault>
    requires least { 4 ≤ teams }
    requires most { teams ≤ max_teams }
    requires written { written.now ≡ written_games (last_sheet (lines text.now)) }
    requires games { games.now ≡ given_games (lines text.now) }
    ensures { Writes W.held W.tally out.old out.new result (faults_text teams (lines text.now)) }
{
    write_bad_lines(out, text)?;
    write_no_games(out, teams, written)?;
    write_game_faults(out, teams, games)?;
    out.write(b"no double round robin\n")
}

fn write_bad_lines<W: Sink>(out: &mut BufferedSink<'_, W>, text: &[u8]) -> Result<(), WriteFault>
    ensures { Writes W.held W.tally out.old out.new result (bad_lines 1 (last_sheet (lines text.now))) }
{
    let sheet = LastSheet::of(text);
    let mut number = sheet.before + 1;
    let mut rest = sheet.text;
    while let Some(line) = next_line(&mut rest) {
        write_bad_line(out, number, ScheduleLine::of(line))?;
        number += 1;
    }
    Ok(())
}

fn write_bad_line<W: Sink>(
    out: &mut BufferedSink<'_, W>,
    number: u64,
    line: ScheduleLine,
) -> Result<(), WriteFault>
    ensures { Writes W.held W.tally out.old out.new result (bad_line number line) }
{
    match line {
        ScheduleLine::Bad => write_pieces(
            out,
            &[
                Piece::Text(b"bad line "),
                Piece::Number(number),
                Piece::Text(b"\n"),
            ],
        ),
        _ => Ok(()),
    }
}

fn write_no_games<W: Sink>(
    out: &mut BufferedSink<'_, W>,
    teams: u8,
    written: &[WrittenGame],
) -> Result<(), WriteFault>
    requires { teams ≤ max_teams }
    ensures { Writes W.held W.tally out.old out.new result (no_game_lines teams written.now) }
{
    for game in written {
        write_no_game(out, teams, *game)?;
    }
    Ok(())
}

/// Names the game if it is none of this number of teams.
fn write_no_game<W: Sink>(
    out: &mut BufferedSink<'_, W>,
    teams: u8,
    game: WrittenGame,
) -> Result<(), WriteFault>
    requires { teams ≤ max_teams }
    ensures { Writes W.held W.tally out.old out.new result (no_game_line teams game) }
{
    if game.placed().is_in_range(teams) {
        return Ok(());
    }
    write_pieces(
        out,
        &[
            Piece::Text(b"game "),
            Piece::Number(game.home),
            Piece::Text(b"-"),
            Piece::Number(game.away),
            Piece::Text(b" of round "),
            Piece::Number(game.round),
            Piece::Text(b" is none\n"),
        ],
    )
}

fn write_game_faults<W: Sink>(
    out: &mut BufferedSink<'_, W>,
    teams: u8,
    games: &[Game],
) -> Result<(), WriteFault>
    requires least { 4 ≤ teams }
    requires most { teams ≤ max_teams }
    ensures { Writes W.held W.tally out.old out.new result (game_faults teams games.now) }
{
    write_counts(out, Counted::Rounds, teams, games)?;
    write_counts(out, Counted::Guests, teams, games)
}

/// Names, for each team, the rounds or the guests with which it has another number of games than one.
fn write_counts<W: Sink>(
    out: &mut BufferedSink<'_, W>,
    counted: Counted,
    teams: u8,
    games: &[Game],
) -> Result<(), WriteFault>
    requires least { 4 ≤ teams }
    requires most { teams ≤ max_teams }
    ensures { Writes W.held W.tally out.old out.new result (pieces_below (count_lines counted teams games.now) teams) }
{
    for team in 0..teams {
        write_counts_of(out, counted, teams, games, team)?;
    }
    Ok(())
}

fn write_counts_of<W: Sink>(
    out: &mut BufferedSink<'_, W>,
    counted: Counted,
    teams: u8,
    games: &[Game],
    team: u8,
) -> Result<(), WriteFault>
    requires least { 4 ≤ teams }
    requires most { teams ≤ max_teams }
    ensures { Writes W.held W.tally out.old out.new result (count_lines counted teams games.now team) }
{
    let counts = counts_of(counted, teams, games, team);
    for number in 0..counted.numbers(teams) {
        write_count(out, counted, team, number, counts[usize::from(number)])?;
    }
    Ok(())
}

fn write_count<W: Sink>(
    out: &mut BufferedSink<'_, W>,
    counted: Counted,
    team: u8,
    number: u8,
    count: usize,
) -> Result<(), WriteFault>
    ensures { Writes W.held W.tally out.old out.new result (count_line counted team number count) }
{
    match counted {
        Counted::Rounds => write_team_round(out, team, number, count),
        Counted::Guests => write_pair(out, team, number, count),
    }
}

fn write_team_round<W: Sink>(
    out: &mut BufferedSink<'_, W>,
    team: u8,
    round: u8,
    count: usize,
) -> Result<(), WriteFault>
    ensures { Writes W.held W.tally out.old out.new result (team_line team round count) }
{
    if count == 1 {
        return Ok(());
    }
    if count == 0 {
        return write_pieces(
            out,
            &[
                Piece::Text(b"team "),
                Piece::Number(team as u64 + 1),
                Piece::Text(b" has no game in round "),
                Piece::Number(round as u64 + 1),
                Piece::Text(b"\n"),
            ],
        );
    }
    write_pieces(
        out,
        &[
            Piece::Text(b"team "),
            Piece::Number(team as u64 + 1),
            Piece::Text(b" has "),
            Piece::Number(count as u64),
            Piece::Text(b" games in round "),
            Piece::Number(round as u64 + 1),
            Piece::Text(b"\n"),
        ],
    )
}

fn write_pair<W: Sink>(
    out: &mut BufferedSink<'_, W>,
    home: u8,
    away: u8,
    count: usize,
) -> Result<(), WriteFault>
    ensures { Writes W.held W.tally out.old out.new result (pair_line home away count) }
{
    if home == away || count == 1 {
        return Ok(());
    }
    write_pieces(
        out,
        &[
            Piece::Text(b"game "),
            Piece::Number(home as u64 + 1),
            Piece::Text(b"-"),
            Piece::Number(away as u64 + 1),
        ],
    )?;
    write_times(out, count)
}

/// Tells how often a game stands that should stand once.
fn write_times<W: Sink>(out: &mut BufferedSink<'_, W>, count: usize) -> Result<(), WriteFault>
    ensures { Writes W.held W.tally out.old out.new result (times_words count) }
{
    if count == 0 {
        return write_pieces(out, &[Piece::Text(b" is missing\n")]);
    }
    write_pieces(
        out,
        &[
            Piece::Text(b" stands "),
            Piece::Number(count as u64),
            Piece::Text(b" times\n"),
        ],
    )
}
