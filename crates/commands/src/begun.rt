//! The league that a command works on, and a board of it.

ghost use Rattle.std.specs.Prelude.{◌≡◌, ◌≢◌, ◌<◌, ◌≤◌, [], Err, IfErr, IfOk, IfSome, Ok, option_map};
ghost use Rattle.choices.specs.Limits.{max_room};
ghost use Rattle.fixture_board.specs.Record.{book};
ghost use Rattle.league.specs.League.{IsLeague};
ghost use Rattle.league.specs.Limits.{max_weight};
ghost use Rattle.commands.specs.Begun.{begun_if, Begins, Refuses};

use crate::fault::ProgramFault;
use fixture_board::Board;
use given_start::{BeginFault, Beginning, begin};
use league::League;
use league_json::read_league;
use std::alloc::Global;

/// Reads a league's text, and has the league begin where it is to.
pub(crate) fn begun_league(
    alloc: Global,
    text: &[u8],
    beginning: Option<&Beginning<'_>>,
) -> Result<League, ProgramFault>
    requires { IfSome beginning (λ b. b.now.near ≤ max_weight) }
    ensures ok { IfOk result (Begins text.now (option_map (λ b. b.now) beginning.entry)) }
    ensures limits { IfOk result IsLeague }
    ensures fault { IfErr result (λ fault. fault ≢ ProgramFault.Memory → Refuses text.now (option_map (λ b. b.now) beginning.entry) fault) }
{
    let league = read_league(alloc, text)?;
    Ok(begun_at(alloc, league, beginning)?)
}

/// The league that begins there, or at its own start.
fn begun_at(
    alloc: Global,
    league: League,
    beginning: Option<&Beginning<'_>>,
) -> Result<League, BeginFault>
    requires { IfSome beginning (λ b. b.now.near ≤ max_weight) }
    ensures ok { IfOk result (λ begins. begun_if (option_map (λ b. b.now) beginning.entry) league ≡ Ok begins) }
    ensures limits { IfOk result IsLeague }
    ensures fault { IfErr result (λ fault. fault ≢ BeginFault.Memory → begun_if (option_map (λ b. b.now) beginning.entry) league ≡ Err fault) }
{
    match beginning {
        Some(beginning) => begin(alloc, league, beginning),
        None => Ok(league),
    }
}

/// A board of that room at the league's start.
pub(crate) fn board_of(alloc: Global, league: League, room: u32) -> Result<Board, ProgramFault>
    ensures ok { IfOk result (λ board. board ≡ book league room []) }
    ensures within { IfOk result (λ _. room ≤ max_room) }
    ensures fault { IfErr result (λ fault. fault ≢ ProgramFault.Memory → (fault ≡ ProgramFault.Room) × (max_room < room)) }
{
    match Board::new(alloc, league, room) {
        Ok(board) => Ok(board),
        Err(refused) => Err(ProgramFault::from(refused.why)),
    }
}
