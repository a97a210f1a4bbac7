//! The rounds that a move may name.

ghost use Rattle.std.specs.Prelude.{◌≡◌, ◌<◌, IfOk};
ghost use Rattle.fixtures.specs.Games.{round_count};
ghost use Rattle.league.specs.League.{teams};
ghost use Rattle.draws.specs.Draws.{AreRoundsOf};
ghost use Rattle.fixture_board.specs.History.{games_of};
ghost use Rattle.improvement.specs.within.Rounds.{free_rounds, is_kept, is_kept_whole};

use draws::each_round;
use fixture_board::Board;
use fixtures::Schedule;
use league::League;
use std::alloc::{AllocError, Global};

/// The rounds of the board's schedule that its league doesn't keep whole, or all if it keeps each of them.
pub(crate) fn free_rounds(alloc: Global, board: &Board) -> Result<Vec<u8>, AllocError>
    ensures value { IfOk result (λ v. v.items ≡
        free_rounds board.now.league (games_of board.now.league board.now.history)) }
    ensures are { IfOk result (λ v. AreRoundsOf (teams board.now.league) v.items) }
{
    let schedule = board.schedule();
    let rounds = schedule.rounds();
    let mut free = Vec::with_capacity(alloc, usize::from(rounds))?;
    for round in 0..rounds {
        if !is_kept_whole(board.league(), schedule, round) {
            free.push_reserved(round);
        }
    }
    if free.is_empty() {
        return Vec::from_slice(alloc, each_round(schedule.teams()));
    }
    Ok(free)
}

/// Whether each game of a round is kept.
fn is_kept_whole(league: &League, schedule: &Schedule, round: u8) -> bool
    requires of { schedule.now.teams ≡ teams league.now }
    requires round { round < round_count (teams league.now) }
    ensures { result ≡ is_kept_whole league.now schedule.now round }
{
    for team in 0..schedule.teams() {
        if !is_kept(league, schedule, round, team) {
            return false;
        }
    }
    true
}

/// Whether the game of a team in a round is kept.
fn is_kept(league: &League, schedule: &Schedule, round: u8, team: u8) -> bool
    requires of { schedule.now.teams ≡ teams league.now }
    requires round { round < round_count (teams league.now) }
    requires team { team < teams league.now }
    ensures { result ≡ is_kept league.now schedule.now round team }
{
    let cell = schedule.game_at(team, round);
    if cell.home {
        league.keeps(team, cell.opponent)
    } else {
        league.keeps(cell.opponent, team)
    }
}
