//! The stretches of each team at home or away that are longer than the league allows.

ghost use Rattle.std.specs.Prelude.{◌≡◌, ◌+◌, ◌<◌, ◌≤◌, if◌then◌else◌};
ghost use Rattle.league.specs.Limits.{max_rounds};
ghost use Rattle.fixtures.specs.Games.{round_count};
ghost use Rattle.byte_streams.specs.Pieces.{pieces_below};
ghost use Rattle.byte_streams.specs.Writing.{Writes};
ghost use Rattle.report_text.specs.CostText.{side_word};
ghost use Rattle.report_text.specs.Runs.{ended_streak, is_over};
ghost use Rattle.report_text.specs.within.CostText.{run_line, run_lines};

use byte_streams::{BufferedSink, Sink, WriteFault};
use fixtures::Schedule;
use text_lines::{Piece, write_pieces};
use tours::windows_spent;

/// Writes a line for each stretch of a team that is longer than this number of rounds.
pub(crate) fn write_runs<W: Sink>(
    out: &mut BufferedSink<'_, W>,
    schedule: &Schedule,
    at_most: u8,
) -> Result<(), WriteFault>
    requires least { 1 ≤ at_most }
    requires most { at_most ≤ max_rounds }
    ensures { Writes W.held W.tally out.old out.new result
        (pieces_below (run_lines schedule.now at_most) schedule.now.teams) }
{
    for team in 0..schedule.teams() {
        write_runs_of(out, schedule, at_most, team)?;
    }
    Ok(())
}

/// A stretch of a team: so many windows, the last of which begins with the round before this one.
#[derive(Clone, Copy)]
pub struct Stretch {
    pub team: u8,
    pub round: u8,
    pub windows: u8,
}

/// A stretch is written at the round with which no window of it begins any more.
fn write_runs_of<W: Sink>(
    out: &mut BufferedSink<'_, W>,
    schedule: &Schedule,
    at_most: u8,
    team: u8,
) -> Result<(), WriteFault>
    requires least { 1 ≤ at_most }
    requires most { at_most ≤ max_rounds }
    requires team { team < schedule.now.teams }
    ensures { Writes W.held W.tally out.old out.new result (run_lines schedule.now at_most team) }
{
    for round in 0..schedule.rounds() {
        let windows = windows_ended(schedule, at_most, team, round);
        let stretch = Stretch {
            team,
            round,
            windows,
        };
        write_run(out, schedule, at_most, stretch)?;
    }
    Ok(())
}

/// The windows of the team's stretch whose last one begins with the round before this one: 0 if there is no such stretch.
#[tactic(auto, using(crate::proofs::Streaks::streak_within))]
pub fn windows_ended(schedule: &Schedule, at_most: u8, team: u8, round: u8) -> u8
    requires least { 1 ≤ at_most }
    requires most { at_most ≤ max_rounds }
    requires team { team < schedule.now.teams }
    requires round { round < max_rounds }
    ensures windows { result ≡ ended_streak (is_over schedule.now at_most team) round }
    ensures few { result ≤ round }
{
    let begun = windows_spent(schedule, at_most + 1, team);
    if begun.has(round) {
        return 0;
    }
    let mut streak: u8 = 0;
    for earlier in 0..round {
        streak = lengthened(begun.has(earlier), streak);
    }
    streak
}

fn lengthened(goes_on: bool, streak: u8) -> u8
    requires { streak < 255 }
    ensures { result ≡ (if goes_on then streak + 1 else 0) }
{
    if goes_on { streak + 1 } else { 0 }
}

/// Writes the stretch, unless it has no window.
fn write_run<W: Sink>(
    out: &mut BufferedSink<'_, W>,
    schedule: &Schedule,
    at_most: u8,
    stretch: Stretch,
) -> Result<(), WriteFault>
    requires team { stretch.team < schedule.now.teams }
    requires round { stretch.round < round_count schedule.now.teams }
    requires windows { stretch.windows ≤ stretch.round }
    ensures { Writes W.held W.tally out.old out.new result
        (run_line schedule.now at_most stretch.team stretch.round stretch.windows) }
{
    let Stretch {
        team,
        round,
        windows,
    } = stretch;
    if windows == 0 {
        return Ok(());
    }
    let last = schedule.game_at(team, round - 1);
    write_pieces(
        out,
        &[
            Piece::Text(b"run "),
            Piece::Number(team as u64 + 1),
            Piece::Text(side_word(last.home)),
            Piece::Number((round - windows) as u64 + 1),
            Piece::Text(b"-"),
            Piece::Number(round as u64 + at_most as u64),
            Piece::Text(b" windows "),
            Piece::Number(windows as u64),
            Piece::Text(b"\n"),
        ],
    )
}

fn side_word(home: bool) -> &'static [u8]
    ensures { result.now ≡ side_word home }
{
    if home {
        b" home rounds "
    } else {
        b" away rounds "
    }
}
