//! How good a history is.

ghost use Rattle.std.specs.Prelude.{◌≡◌};
ghost use Rattle.improvement.specs.Legs.{improves, standing_of};

use fixture_board::Board;

/// The standing of a history: two are compared by it.
#[derive(Clone, Copy)]
pub(crate) struct Standing {
    /// The least total of a feasible version.
    best: Option<u64>,
    /// The breaches of the last version.
    hard: u64,
}

impl Standing {
    pub(crate) fn of(board: &Board) -> Standing
        ensures { result ≡ standing_of board.now.league board.now.history }
    {
        Standing {
            best: board.best().map(|best| best.total),
            hard: board.cost().hard,
        }
    }

    /// Tells whether this standing is better than the other.
    #[tactic(auto, unfolding(crate::specs::Legs::improves))]
    pub(crate) fn improves(self, other: Standing) -> bool
        ensures { result ≡ improves self other }
    {
        match (self.best, other.best) {
            (Some(x), Some(y)) => x < y,
            (Some(_), None) => true,
            (None, Some(_)) => false,
            (None, None) => self.hard < other.hard,
        }
    }
}
