//! The names of the steps, and what each tells.

ghost use Rattle.shared_board.specs.within.Plays.{took, committed, posted, left, quit, counted, drawn, glanced, lowered, drawer, newcomer};
ghost use Rattle.shared_board.specs.within.Plays.{joined, agreed};

use crate::view::View;
use atomic_table::{Join, Play, Split};
use fixture_board::Board;

/// The turn is taken, if it is free.
pub struct Take;

impl Play<Option<Board>, View> for Take {
    ghost then = { took };
}

/// The history's new length is written.
pub struct Commit;

impl Play<Option<Board>, View> for Commit {
    ghost then = { committed };
}

/// The best total after it is written.
pub struct Post;

impl Play<Option<Board>, View> for Post {
    ghost then = { posted };
}

/// The turn is given up, and the history was seen.
pub struct Leave;

impl Play<Option<Board>, View> for Leave {
    ghost then = { left };
}

/// The turn is given up, and nothing was seen.
pub struct Quit;

impl Play<Option<Board>, View> for Quit {
    ghost then = { quit };
}

/// The count of numbers is read under the turn.
pub struct Count;

impl Play<Option<Board>, View> for Count {
    ghost then = { counted };
}

/// The next number is drawn.
pub struct Draw;

impl Play<Option<Board>, View> for Draw {
    ghost then = { drawn };
}

/// The length of the history is read.
pub struct Glance;

impl Play<Option<Board>, View> for Glance {
    ghost then = { glanced };
}

/// The best total is read.
pub struct Lower;

impl Play<Option<Board>, View> for Lower {
    ghost then = { lowered };
}

/// After a join: the two saw one history.
pub struct Tell;

impl Play<Option<Board>, View> for Tell {
    ghost then = { agreed };
}

/// A new seat comes from another with the number that this one drew last, and has seen what it has.
pub struct Newcomer;

impl Split<View> for Newcomer {
    ghost left = { drawer };

    ghost right = { newcomer };
}

/// Two seats are made one.
pub struct Both;

impl Join<View> for Both {
    ghost use Rattle.shared_board.specs.within.Rule.{spent_view};

    ghost both = { joined };

    ghost spent = { spent_view };
}
