//! The setting that all legs of an improvement share.

ghost use Rattle.std.specs.Prelude.{◌≡◌, [], IfErr, IfOk, unwrap_or};
ghost use Rattle.fixture_board.specs.Record.{book};
ghost use Rattle.improvement.specs.Legs.{IsWorkers, room_of};
ghost use Rattle.improvement.specs.within.Lines.{anew};
ghost use Rattle.improvement.specs.within.Settings.{MayRefuse};

use crate::plan::{ImproveFault, ImprovePlan};
use annealing::Unit;
use choices::{MAX_ROOM, MAX_WORKERS};
use draws::RunContext;
use fixture_board::Board;
use league::League;
use std::alloc::{AllocError, Global};

/// The setting that all legs share.
#[derive_where(Clone, Copy)]
pub(crate) struct Setting<'a, T, G> {
    pub(crate) run_context: RunContext<'a, T, G>,
    pub(crate) plan: ImprovePlan,
    pub(crate) unit: Unit,
    /// The rounds that a move may name.
    pub(crate) rounds: &'a [u8],
    /// A board at the league's start.
    pub(crate) start: &'a Board,
}

impl<T, G> Setting<'_, T, G> {
    /// The board, or another one at the start.
    pub(crate) fn board_or_new(&self, board: Option<Board>) -> Result<Board, AllocError>
        ensures { IfOk result (λ b. b ≡ unwrap_or board (anew self.now.start.now)) }
    {
        match board {
            Some(board) => Ok(board),
            None => self.start.anew(self.run_context.alloc),
        }
    }
}

/// A board at the league's start, with room for the steps of the plan, unless the number of workers in that is wrong.
pub(crate) fn start_board(
    alloc: Global,
    league: League,
    plan: ImprovePlan,
) -> Result<Board, ImproveFault>
    ensures board { IfOk result (λ b. b ≡ book league (room_of plan.effort) []) }
    ensures workers { IfOk result (λ b. IsWorkers plan) }
    ensures refused { IfErr result (MayRefuse plan) }
{
    if plan.workers < 1 || MAX_WORKERS < plan.workers {
        return Err(ImproveFault::Workers);
    }
    let room = plan.effort.min(u64::from(MAX_ROOM)) as u32;
    match Board::new(alloc, league, room) {
        Ok(board) => Ok(board),
        Err(_) => Err(ImproveFault::Memory),
    }
}
