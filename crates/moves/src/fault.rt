//! Why a move is refused.

use thiserror::Error;

/// Why a move can't be made.
#[derive(Clone, Copy, Debug, PartialEq, Eq, Error)]
pub enum MoveFault {
    /// A number is out of range, or the two that the move exchanges are equal.
    #[error("bad move")]
    BadMove,
    /// The two teams meet in the round in which they would be exchanged.
    #[error("meet")]
    Meet,
}
