//! The replies of a board.

use costs::Cost;

/// Why a board refuses. If several reasons hold, the first in this order is told.
#[derive(Clone, Copy, Debug, PartialEq, Eq)]
pub enum Why {
    /// The version is one that the board has not yet.
    Ahead,
    /// The version is not the board's any more. A proposal is not refused for this.
    Old,
    /// The history has no room for a further entry.
    Full,
    /// A number of the move is out of range, or the two that it exchanges are equal.
    BadMove,
    /// The two teams of a partial exchange meet in its round.
    Meet,
    /// A pinned game would get another round.
    Pinned,
    /// The claim is not the score after the move.
    WrongClaim,
    /// The score would rise by more than the slack.
    Worse,
    /// A number of the game is out of range, or its teams are one.
    BadGame,
    /// The game is not in that round.
    NotThere,
    /// The game is pinned already.
    AlreadyPinned,
    /// The game is not pinned.
    NotPinned,
    /// No change is in effect.
    NothingToUndo,
}

/// The answer to what was asked.
#[derive(Clone, Copy, Debug, PartialEq, Eq)]
pub enum Reply {
    /// Granted: the new version, and what its schedule costs.
    Done { at: u64, cost: Cost },
    /// Refused: the version, which stays, and the reason.
    No { at: u64, why: Why },
}
