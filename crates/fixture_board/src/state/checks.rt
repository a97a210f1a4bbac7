//! Why a board refuses: the first reason that holds, in the order of `Why`.

ghost use Rattle.std.specs.Prelude.{◌≡◌, ◌≢◌, ℕ, ◌^◌, ◌<◌, List, length, Some, IfOk};
ghost use Rattle.std.specs.Result.{result_err};
ghost use Rattle.league.specs.Limits.{max_teams};
ghost use Rattle.fixtures.specs.declared.game.Game.{Game};
ghost use Rattle.fixture_board.specs.History.{has_game, AllStand};
ghost use Rattle.fixture_board.specs.within.PinTable.{ArePinsAt};
ghost use Rattle.fixture_board.specs.Replies.{first_of, is_wrong, version_rows, game_rows, move_rows, score_rows};

use crate::ask::Proposal;
use crate::reply::Why;
use crate::state::State;
use fixtures::Game;
use moves::{Move, MoveFault, check};

/// A score, and why a proposal is refused whose score after its move is above it.
#[derive(Clone, Copy)]
pub(crate) struct Limit {
    pub(crate) limit: u64,
    pub(crate) above: Why,
}

impl State {
    /// Refuses what may only be asked for at the board's version if that is another, or if there is no room.
    pub(crate) fn check_version(&self, version: u64) -> Result<(), Why>
        ensures { result_err result ≡ first_of (version_rows (length self.now.history.items) self.now.room version) }
    {
        let at = self.version();
        if at < version {
            Err(Why::Ahead)
        } else if version < at {
            Err(Why::Old)
        } else if at == u64::from(self.room) {
            Err(Why::Full)
        } else {
            Ok(())
        }
    }

    /// Refuses a pin or an unpin for what doesn't depend on the pins, and tells else whether the game is pinned.
    pub(crate) fn check_game(&self, version: u64, game: Game) -> Result<bool, Why>
        ensures reason { result_err result ≡
            first_of (game_rows (length self.now.history.items) self.now.room version self.now.schedule game) }
        ensures pinned { IfOk result (λ is. (held : List Game) → AllStand self.now.schedule held →
            ArePinsAt self.now.schedule held self.now.pins → is ≡ has_game held game) }
        ensures room { IfOk result (λ _. length self.now.history.items ≢ self.now.room) }
        ensures home { IfOk result (λ _. game.home < max_teams) }
        ensures away { IfOk result (λ _. game.away < max_teams) }
    {
        self.check_version(version)?;
        if !game.is_in_range(self.schedule.teams()) {
            return Err(Why::BadGame);
        }
        if self.schedule.round_of(game.home, game.away) != game.round {
            return Err(Why::NotThere);
        }
        Ok(self.pins.has(game.home, game.away))
    }

    /// Refuses a move that can't be tried.
    pub(crate) fn check_move(&self, version: u64, mv: Move) -> Result<(), Why>
        ensures { result_err result ≡
            first_of (move_rows (length self.now.history.items) self.now.room version self.now.schedule mv) }
    {
        let at = self.version();
        if at < version {
            return Err(Why::Ahead);
        }
        if at == u64::from(self.room) {
            return Err(Why::Full);
        }
        match check(&self.schedule, mv) {
            Err(MoveFault::BadMove) => Err(Why::BadMove),
            Err(MoveFault::Meet) => Err(Why::Meet),
            Ok(()) => Ok(()),
        }
    }

    /// Up to which score after its move a proposal is judged by that score. Above a claim for the board's version the claim is
    /// wrong, whatever the slack. If there is no such claim, a score above the one before and the slack is worse.
    pub(crate) fn limit_of(&self, proposal: Proposal, before: u64) -> Limit
        ensures above { (after : ℕ) → result.limit < after → after < 2 ^ 64 →
            first_of (score_rows (length self.now.history.items) proposal before after) ≡ Some result.above }
        ensures limit { first_of (score_rows (length self.now.history.items) proposal before result.limit) ≢ Some result.above }
    {
        match proposal.claim {
            Some(claim) if self.version() == proposal.version => Limit {
                limit: claim,
                above: Why::WrongClaim,
            },
            _ => Limit {
                limit: before.saturating_add(proposal.slack),
                above: Why::Worse,
            },
        }
    }

    /// Refuses a proposal by its score, which was the one before its move and is the other after.
    pub(crate) fn check_score(&self, proposal: Proposal, before: u64, after: u64) -> Result<(), Why>
        ensures { result_err result ≡
            first_of (score_rows (length self.now.history.items) proposal before after) }
    {
        if self.version() == proposal.version && is_wrong(proposal.claim, after) {
            Err(Why::WrongClaim)
        } else if after.saturating_sub(before) > proposal.slack {
            Err(Why::Worse)
        } else {
            Ok(())
        }
    }
}

/// Whether a score is claimed, and another one than this.
fn is_wrong(claim: Option<u64>, score: u64) -> bool
    ensures { result ≡ is_wrong claim score }
{
    claim.is_some_and(|claim| claim != score)
}
