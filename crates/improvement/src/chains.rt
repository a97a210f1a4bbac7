//! The best schedule of each chain.

ghost use Rattle.std.specs.Prelude.{◌≡◌, [], IfOk, OnOk};
ghost use Rattle.std.specs.List.{position_or_len};
ghost use Rattle.fixture_board.specs.History.{best_prefix};
ghost use Rattle.board_texts.specs.SearchText.{games_at_best};
ghost use Rattle.improvement.specs.Chains.{is_of, offered, reached};

use crate::standing::Standing;
use fixture_board::Board;
use fixtures::Schedule;
use std::alloc::{AllocError, Global};

/// The best schedule that a chain has come to: its cheapest feasible one, or else that with the fewest breaches which ends a leg.
#[derive(Drop)]
pub(crate) struct ChainBest {
    /// The number of the chain.
    chain: u64,
    standing: Standing,
    pub(crate) schedule: Schedule,
}

impl ChainBest {
    /// The best of a leg of a chain that ended with this board.
    fn reached(alloc: Global, chain: u64, board: &Board) -> Result<Self, AllocError>
        ensures { IfOk result (λ best. best ≡ reached chain board.now.league board.now.history) }
    {
        Ok(ChainBest {
            chain,
            standing: Standing::of(board),
            schedule: best_or_last(board).duplicate(alloc)?,
        })
    }
}

/// The board's cheapest feasible schedule, or its last one if none is feasible.
fn best_or_last(board: &Board) -> &Schedule
    ensures { result.now ≡ games_at_best board.now.league board.now.history
        (best_prefix board.now.league board.now.history) }
{
    match board.best_schedule() {
        Some(schedule) => schedule,
        None => board.schedule(),
    }
}

/// The best schedules of the chains that have ended a leg, in the order of their first legs.
#[derive(Drop)]
pub(crate) struct Chains {
    pub(crate) bests: Vec<ChainBest>,
}

impl Chains {
    pub(crate) fn new(alloc: Global) -> Self
        ensures { result.bests.items ≡ [] }
    {
        Chains {
            bests: Vec::new(alloc),
        }
    }

    /// Takes in what a leg of a chain came to that ended with this board.
    pub(crate) fn offer(
        &mut self,
        alloc: Global,
        chain: u64,
        board: &Board,
    ) -> Result<(), AllocError>
        ensures { OnOk result (self.new.bests.items ≡
            offered (reached chain board.now.league board.now.history) self.old.bests.items) }
    {
        let place = self.place_of(chain);
        if place == self.bests.len() {
            self.bests.push(ChainBest::reached(alloc, chain, board)?)?;
        } else if Standing::of(board).improves(self.bests[place].standing) {
            self.bests[place] = ChainBest::reached(alloc, chain, board)?;
        }
        Ok(())
    }

    /// How many chains stand before this one.
    fn place_of(&self, chain: u64) -> usize
        ensures { result ≡ position_or_len (is_of chain) self.now.bests.items }
    {
        self.bests
            .iter()
            .position(|best| best.chain == chain)
            .unwrap_or(self.bests.len())
    }
}
