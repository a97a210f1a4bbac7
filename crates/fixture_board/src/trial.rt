//! A trial on a board.

use costs::Weights;
use moves::Move;

/// A move that is made if the score by weights of one's own rises by no more than this.
#[derive(Clone, Copy, Debug, PartialEq, Eq)]
pub struct Trial {
    /// The move.
    pub mv: Move,
    /// The weights of breaches of hard limits in the score by which the move is judged.
    pub weights: Weights,
    /// By how much that score may rise.
    pub rise: u64,
}
