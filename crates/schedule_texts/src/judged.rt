//! The verdict on a text for a league.

ghost use Rattle.std.specs.Prelude.{◌≡◌, IfOk, option_map};
ghost use Rattle.std.specs.Str.Lines.{lines};
ghost use Rattle.league.specs.League.{teams};
ghost use Rattle.byte_streams.specs.Writing.{Writes};
ghost use Rattle.schedule_texts.specs.Faults.{faults_text};
ghost use Rattle.schedule_texts.specs.Given.{given_games, IsVerdict};
ghost use Rattle.schedule_texts.specs.Judged.{IsJudgedBy};
ghost use Rattle.schedule_texts.specs.within.LastSheet.{IsLastSheet};

use crate::faults::write_faults;
use crate::last_sheet::LastSheet;
use crate::schedule_text::{WrittenGame, has_bad_line, placed_games, written_games};
use byte_streams::{BufferedSink, Sink, WriteFault};
use fixtures::{FixtureFault, Game, Schedule, from_games};
use league::League;
use std::alloc::{AllocError, Global};

/// The games that the last sheet of a text gives for a league, and their schedule if they are a double round robin of its teams.
#[derive(Drop)]
pub struct Judged {
    written: Vec<WrittenGame>,
    games: Vec<Game>,
    schedule: Option<Schedule>,
}

/// Reads the games of the last sheet of a text, what stands behind the last line whose first word is `league` or all of it,
/// and finds out whether they are a double round robin of the league's teams. Takes memory for each game, otherwise for one
/// schedule.
pub fn judge(alloc: Global, league: &League, text: &[u8]) -> Result<Judged, AllocError>
    ensures { IfOk result (IsJudgedBy (teams league.now) (lines text.now)) }
{
    let sheet = LastSheet::of(text);
    let written = written_games(alloc, sheet.text)?;
    let games = placed_games(alloc, &written)?;
    let schedule = given_schedule(alloc, league, text, sheet, &games)?;
    Ok(Judged {
        written,
        games,
        schedule,
    })
}

fn given_schedule(
    alloc: Global,
    league: &League,
    _text: &[u8],
    sheet: LastSheet<'_>,
    games: &[Game],
) -> Result<Option<Schedule>, AllocError>
    requires sheet { IsLastSheet _text.now sheet }
    requires games { games.now ≡ given_games (lines _text.now) }
    ensures { IfOk result (λ schedule. IsVerdict (teams league.now) (lines _text.now) schedule) }
{
    if has_bad_line(sheet.text) {
        return Ok(None);
    }
    match from_games(alloc, league.teams(), games) {
        Ok(schedule) => Ok(Some(schedule)),
        Err(FixtureFault::NotRoundRobin) => Ok(None),
        Err(FixtureFault::Memory) => Err(AllocError),
    }
}

impl Judged {
    /// The schedule, if no line is bad and the games are a double round robin.
    pub fn schedule(&self) -> Option<&Schedule>
        ensures { option_map (λ s. s.now) result ≡ self.now.schedule }
    {
        match &self.schedule {
            Some(schedule) => Some(schedule),
            None => None,
        }
    }

    /// The verdict, to keep.
    pub fn into_schedule(self) -> Option<Schedule>
        ensures { result ≡ self.schedule }
    {
        self.schedule
    }

    /// Writes a line for each fault, if the text was judged for the league, and that it gives no double round robin. Takes no
    /// memory.
    pub fn write_faults<W: Sink>(
        &self,
        out: &mut BufferedSink<'_, W>,
        league: &League,
        text: &[u8],
    ) -> Result<(), WriteFault>
        requires { IsJudgedBy (teams league.now) (lines text.now) self.now }
        ensures { Writes W.held W.tally out.old out.new result (faults_text (teams league.now) (lines text.now)) }
    {
        write_faults(out, league.teams(), text, &self.written, &self.games)
    }
}
