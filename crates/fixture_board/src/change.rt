//! The entries of a board's history.

use fixtures::Game;
use moves::Move;

/// A change of a board, as it was granted.
#[derive(Clone, Copy, Debug, PartialEq, Eq)]
pub enum Change {
    /// The move is made.
    Shift(Move),
    /// The game keeps its round until it is unpinned.
    Pin(Game),
    /// The game may get another round again.
    Unpin(Game),
    /// The last change in effect, whoever made it, is dropped.
    Undo,
}

/// A granted change and who asked for it.
#[derive(Clone, Copy, Debug, PartialEq, Eq)]
pub struct Entry {
    /// The number of the caller who made it.
    pub caller: u32,
    /// The change.
    pub change: Change,
}
