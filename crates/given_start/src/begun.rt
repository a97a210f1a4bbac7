//! A league that begins at a schedule of one's own.

ghost use Rattle.std.specs.Prelude.{◌≡◌, ◌≢◌, ◌≤◌, Ok, Err, IfOk, IfErr, option_map};
ghost use Rattle.std.specs.Str.Lines.{lines};
ghost use Rattle.league.specs.League.{IsLeague};
ghost use Rattle.league.specs.Limits.{max_weight};
ghost use Rattle.given_start.specs.Begun.{begun, kept_from, priced, started, started_at, started_at_text};
ghost use Rattle.given_start.specs.within.Begun.{Gives};

use crate::fault::BeginFault;
use crate::kept::{are_pairs, keep_games, keep_rounds, lacks_round};
use league::{League, SlotSet};
use schedule_csv::schedule_text;
use schedule_texts::{has_round_line, judge};
use std::alloc::Global;

/// Where boards are to begin, and what of that is kept.
#[derive(Clone, Copy)]
pub struct Beginning<'a> {
    /// The text whose last sheet is the schedule at which boards begin, or a table of its games. Without it, it is the league's own start.
    pub from: Option<&'a [u8]>,
    /// The rounds of the start whose games are kept, from 0.
    pub rounds: SlotSet,
    /// Games of the start that are kept, by their teams, the home team first.
    pub games: &'a [(u8, u8)],
    /// The cost of a game that isn't in its round of the start, up to 1,000,000. At 0 it is what the league says.
    pub near: u32,
}

/// The league that begins there, and keeps what it kept before only if there is no text. Takes memory for each game of the
/// text and for one schedule, and none without a text. At an error the league is gone.
pub fn begin(alloc: Global, league: League, beginning: &Beginning<'_>) -> Result<League, BeginFault>
    requires { beginning.now.near ≤ max_weight }
    ensures begun { IfOk result (λ m. begun league beginning.now ≡ Ok m) }
    ensures limits { IfOk result IsLeague }
    ensures fault { IfErr result (λ f. f ≢ BeginFault.Memory → begun league beginning.now ≡ Err f) }
{
    match started(alloc, league, beginning.from) {
        Ok(league) => kept_from(league, beginning),
        Err(fault) => Err(fault),
    }
}

/// The league that begins at the last sheet of the text, if there is one.
fn started(alloc: Global, league: League, from: Option<&[u8]>) -> Result<League, BeginFault>
    ensures { Gives result (started league (option_map (λ text. lines text.now) from.entry)) }
{
    match from {
        Some(text) => started_at(alloc, league, text),
        None => Ok(league),
    }
}

fn started_at(alloc: Global, league: League, given: &[u8]) -> Result<League, BeginFault>
    ensures { Gives result (started_at league (lines given.now)) }
{
    let text = schedule_text(alloc, &league, given)?;
    started_at_text(alloc, league, text.as_bytes())
}

fn started_at_text(alloc: Global, mut league: League, text: &[u8]) -> Result<League, BeginFault>
    ensures { Gives result (started_at_text league (lines text.now)) }
{
    if !has_round_line(text) {
        return Err(BeginFault::NoRound);
    }
    let _teams = league.teams();
    let judged = judge(alloc, &league, text)?;
    match judged.into_schedule() {
        Some(schedule) => {
            league.begin_at(schedule);
            Ok(league)
        }
        None => Err(BeginFault::NotRoundRobin),
    }
}

/// The league that keeps what is to be kept of its start.
fn kept_from(mut league: League, beginning: &Beginning<'_>) -> Result<League, BeginFault>
    requires { beginning.now.near ≤ max_weight }
    ensures { result ≡ kept_from beginning.now league }
{
    if lacks_round(league.teams(), beginning.rounds) {
        return Err(BeginFault::RoundRange);
    }
    if !are_pairs(league.teams(), beginning.games) {
        return Err(BeginFault::GameRange);
    }
    keep_rounds(&mut league, beginning.rounds);
    keep_games(&mut league, beginning.games);
    set_price(&mut league, beginning.near);
    Ok(league)
}

/// Sets the price of leaving the start, unless it is 0.
fn set_price(league: &mut League, near: u32)
    requires { near ≤ max_weight }
    ensures { league.new ≡ priced near league.old }
{
    if near != 0 {
        league.set_near(near);
    }
}
