//! The laws of the moves. The functions do nothing: what is known is in their contracts, each of which speaks of all
//! double round robins and all moves that can be made there.

ghost use Rattle.moves.specs.Laws.{OfEachMove, IsItsOwnInverse, StaysDoubleRoundRobin, DiffersWhereTouched};
ghost use Rattle.moves.specs.Laws.{DiffersInEachTouched, IsItsExchange};

/// Each move is its own inverse: it can be made on the schedule that it gives, and gives the first one back. The
/// teams or rounds that have to follow, and those that are touched, are the same both times.
pub fn moves_back()
    ensures { OfEachMove IsItsOwnInverse }
{}

/// After a move the schedule is a double round robin.
pub fn stays_double_round_robin()
    ensures { OfEachMove StaysDoubleRoundRobin }
{}

/// The game of a team in a round is the same before a move and after it, unless both the team and the round are
/// touched.
pub fn differs_where_touched()
    ensures { OfEachMove DiffersWhereTouched }
{}

/// Each touched team has a touched round in which it does something else after a move, and each touched round such a
/// touched team.
pub fn differs_in_each_touched()
    ensures { OfEachMove DiffersInEachTouched }
{}

/// A move is its exchange.
pub fn moves_are_exchanges()
    ensures { OfEachMove IsItsExchange }
{}
