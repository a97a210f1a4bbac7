//! The board: its league, its history, and what follows from them.

ghost use Rattle.std.specs.Prelude.{◌≡◌, ◌<◌, ◌≤◌, [], List, Some, None, length, nat_lt, slice_index_or};
ghost use Rattle.std.specs.Prelude.{if◌then◌else◌, IfOk, IfErr, IfNone, IfSome};
ghost use Rattle.fixtures.specs.Games.{IsPair};
ghost use Rattle.league.specs.League.{teams, IsLeague};
ghost use Rattle.fixture_board.specs.History.{games_of, pins_of, is_pinned, cost_at, best_of, best_prefix, AllStand};
ghost use Rattle.fixture_board.specs.History.{IsLegal};
ghost use Rattle.fixture_board.specs.Record.{book};
ghost use Rattle.fixture_board.specs.declared.change.Entry.{Entry};

mod calls;
mod copies;

use crate::best::Best;
use crate::change::Entry;
use crate::state::State;
use choices::MAX_ROOM;
use costs::Cost;
use fixtures::Schedule;
use league::League;
use std::alloc::Global;
use std::marker::Model;
use thiserror::Error;

/// Why there is no board.
#[derive(Clone, Copy, Debug, PartialEq, Eq, Error)]
pub enum BoardFault {
    /// The room is over 1,048,576.
    #[error("the room is over 1048576")]
    RoomRange,
    /// Memory ran out.
    #[error("out of memory")]
    Memory,
}

/// Why there is no board, and the league that was meant for it.
#[derive(Debug, Drop)]
pub struct NewRefused {
    /// The fault.
    pub why: BoardFault,
    /// The league as it was given.
    pub league: League,
}

/// A double round robin of a league that changes on request: with the history of its changes, the games that are
/// pinned to their rounds, and the cheapest feasible schedule met so far.
///
/// Contracts see the league, the room (how many entries the history may have) and the history. All else is a
/// function of these.
#[derive(Drop)]
pub struct Board {
    league: League,
    state: State,
}

impl Model for Board {
    ghost use Rattle.fixture_board.specs.Record.{Book, book};
    ghost use Rattle.costs.specs.Evaluators.{IsEvaluatorAt};
    ghost use Rattle.fixture_board.specs.within.Kept.{kept_of, HasMemory, FollowsHistory};

    ghost Value = { Book };

    ghost view = { λ b. book b.league b.state.room b.state.history.items };

    ghost invariant = { λ b. HasMemory b.state × FollowsHistory b.league (kept_of b.state) × IsEvaluatorAt b.league b.state.schedule b.state.evaluator.value };
}

impl Board {
    /// A board without an entry, for at most `room` of them, on the Berger start of the league. All its memory is
    /// taken here. Answers RoomRange if the room is over `MAX_ROOM`, otherwise Memory, which comes only if there
    /// is none; the league comes back with each.
    pub fn new(alloc: Global, league: League, room: u32) -> Result<Board, NewRefused>
        ensures ok { IfOk result (λ b. b ≡ book league room []) }
        ensures within { IfOk result (λ _. room ≤ MAX_ROOM) }
        ensures refused { IfErr result (λ e. e.league ≡ league) }
        ensures range { IfErr result (λ e. e.why ≡
            (if nat_lt MAX_ROOM room then BoardFault.RoomRange else BoardFault.Memory)) }
    {
        if MAX_ROOM < room {
            let why = BoardFault::RoomRange;
            return Err(NewRefused { why, league });
        }
        match State::start(alloc, &league, room) {
            Ok(state) => Ok(Board { league, state }),
            Err(_) => {
                let why = BoardFault::Memory;
                Err(NewRefused { why, league })
            }
        }
    }

    /// How many entries the history has.
    pub fn version(&self) -> u64
        ensures length { result ≡ length self.now.history }
        ensures within { result ≤ self.now.room }
        ensures legal { IsLegal self.now.league self.now.room self.now.history }
    {
        self.state.version()
    }

    /// How many entries the history may have.
    pub fn room(&self) -> u32
        ensures { result ≡ self.now.room }
    {
        self.state.room
    }

    /// The league of its teams.
    pub fn league(&self) -> &League
        ensures { result.now ≡ self.now.league }
    {
        &self.league
    }

    /// The cost of the schedule.
    pub fn cost(&self) -> Cost
        ensures value { result ≡ cost_at self.now.league self.now.history }
        ensures legal { IsLegal self.now.league self.now.room self.now.history }
    {
        self.state.cost
    }

    /// The least total of the feasible versions so far, at the first that has it. An undo doesn't take it away.
    pub fn best(&self) -> Option<Best>
        ensures value { result ≡ best_of self.now.league self.now.history }
        ensures legal { IsLegal self.now.league self.now.room self.now.history }
        ensures limits { IsLeague self.now.league }
    {
        self.state.best
    }

    /// The schedule after the changes in effect.
    pub fn schedule(&self) -> &Schedule
        ensures games { result.now ≡ games_of self.now.league self.now.history }
        ensures size { result.now.teams ≡ teams self.now.league }
        ensures pinned_stand { AllStand result.now (pins_of self.now.league self.now.history) }
        ensures legal { IsLegal self.now.league self.now.room self.now.history }
    {
        &self.state.schedule
    }

    /// The schedule at the best version.
    pub fn best_schedule(&self) -> Option<&Schedule>
        ensures none { IfNone result (best_prefix self.now.league self.now.history ≡ None) }
        ensures some { IfSome result (λ s. (p : List Entry) ×
            (best_prefix self.now.league self.now.history ≡ Some p) × (s.now ≡ games_of self.now.league p)) }
        ensures size { IfSome result (λ s. s.now.teams ≡ teams self.now.league) }
        ensures legal { IsLegal self.now.league self.now.room self.now.history }
    {
        match self.state.best {
            Some(_) => Some(&self.state.best_schedule),
            None => None,
        }
    }

    /// Whether the game in which `home` receives `away` is pinned.
    pub fn is_pinned(&self, home: u8, away: u8) -> bool
        requires { IsPair (teams self.now.league) home away }
        ensures { result ≡ is_pinned (pins_of self.now.league self.now.history) home away }
    {
        prove_eq!(self.state.schedule.teams(), self.league.teams());
        self.state.pins.has(home, away)
    }

    /// The entry at an index from 0, the oldest first.
    pub fn entry(&self, i: u64) -> Entry
        requires { i < length self.now.history }
        ensures { (d : Entry) → result ≡ slice_index_or self.now.history i d }
    {
        self.state.history[i as usize]
    }
}
