//! Boards that are made of a board.

ghost use Rattle.std.specs.Prelude.{◌≡◌, [], IfOk};
ghost use Rattle.fixture_board.specs.Record.{book};

use crate::board::Board;
use crate::state::State;
use std::alloc::{AllocError, Global};

impl Board {
    /// An equal board with memory of its own.
    pub fn duplicate(&self, alloc: Global) -> Result<Board, AllocError>
        ensures { IfOk result (λ b. b ≡ self.now) }
    {
        let league = self.league.duplicate(alloc)?;
        let state = self.state.duplicate(alloc)?;
        Ok(Board { league, state })
    }

    /// A board without an entry, of the same league and with the same room.
    pub fn anew(&self, alloc: Global) -> Result<Board, AllocError>
        ensures { IfOk result (λ b. b ≡ book self.now.league self.now.room []) }
    {
        let league = self.league.duplicate(alloc)?;
        let state = State::start(alloc, &league, self.state.room)?;
        Ok(Board { league, state })
    }
}
