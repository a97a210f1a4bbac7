//! How a search ends.

ghost use Rattle.std.specs.Prelude.{◌≡◌, length};
ghost use Rattle.commands.specs.SearchEnd.{end_of};

use fixture_board::Board;

/// How a search ends that wrote its text.
#[derive(Clone, Copy, Debug, PartialEq, Eq)]
pub enum SearchEnd {
    /// Its board has room for more changes.
    RoomLeft,
    /// The history has as many as the board has room for, so a worker ended as soon as it wanted one more.
    HistoryFull,
}

impl SearchEnd {
    pub(crate) fn of(board: &Board) -> SearchEnd
        ensures { result ≡ end_of board.now.room (length board.now.history) }
    {
        if board.version() == u64::from(board.room()) {
            SearchEnd::HistoryFull
        } else {
            SearchEnd::RoomLeft
        }
    }
}
