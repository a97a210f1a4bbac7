//! The questions to a board.

use crate::change::Change;
use fixtures::Game;
use moves::Move;

/// A move, and what its caller knows of the board.
#[derive(Clone, Copy, Debug, PartialEq, Eq)]
pub struct Proposal {
    /// The version that the move was found for. If it is old, the move is judged anew and the claim ignored.
    pub version: u64,
    /// The move that is to be made.
    pub mv: Move,
    /// The score after the move as the caller counts it, if it tells one.
    pub claim: Option<u64>,
    /// By how much the score may rise.
    pub slack: u64,
}

/// A question to a board, and for which version.
#[derive(Clone, Copy, Debug, PartialEq, Eq)]
pub enum Ask {
    Shift(Proposal),
    Pin { version: u64, game: Game },
    Unpin { version: u64, game: Game },
    Undo { version: u64 },
}

impl Ask {
    ghost use Rattle.std.specs.Prelude.{◌≡◌};
    ghost use Rattle.fixture_board.specs.Replies.{ask_with, change_of};

    /// The change as it is asked for at the version. A move has no claim and this slack.
    pub fn of(change: Change, version: u64, slack: u64) -> Ask
        ensures { result ≡ ask_with version slack change }
    {
        match change {
            Change::Shift(mv) => Ask::Shift(Proposal {
                version,
                mv,
                claim: None,
                slack,
            }),
            Change::Pin(game) => Ask::Pin { version, game },
            Change::Unpin(game) => Ask::Unpin { version, game },
            Change::Undo => Ask::Undo { version },
        }
    }

    /// The change that is asked for.
    pub(crate) fn change(self) -> Change
        ensures { result ≡ change_of self }
    {
        match self {
            Ask::Shift(proposal) => Change::Shift(proposal.mv),
            Ask::Pin { game, .. } => Change::Pin(game),
            Ask::Unpin { game, .. } => Change::Unpin(game),
            Ask::Undo { .. } => Change::Undo,
        }
    }
}
