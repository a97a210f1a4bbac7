//! A climber that has the board for itself.

ghost use Rattle.std.specs.Prelude.{◌≡◌, ◌≤◌};
ghost use Rattle.fixture_board.specs.Laws.{least_of};

use crate::proposals::proposal;
use fixture_board::{Board, answer_tells_history, best_never_rises};
use rand_pcg::Lcg64Xsh32;

/// Proposes so many moves, each for the board as it then is. The best total never rises.
pub(crate) fn climb(board: &mut Board, generator: &mut Lcg64Xsh32, steps: u32)
    ensures league { board.new.league ≡ board.old.league }
    ensures best { least_of board.new.league board.new.history ≤ least_of board.old.league board.old.history }
{
    for _ in 0..steps {
        step(board, generator);
    }
}

/// Proposes a move. The laws of the board's histories say that the best total doesn't rise.
fn step(board: &mut Board, generator: &mut Lcg64Xsh32)
    ensures league { board.new.league ≡ board.old.league }
    ensures best { least_of board.new.league board.new.history ≤ least_of board.old.league board.old.history }
{
    answer_tells_history();
    best_never_rises();
    let teams = board.league().teams();
    let proposal = proposal(board.version(), generator, teams);
    board.propose(0, proposal);
}
