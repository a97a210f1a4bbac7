//! The moves between double round robins for the Travelling Tournament Problem (Anagnostopoulos, Michel,
//! Van Hentenryck, Vergados 2006): which can be made on a schedule, which teams or rounds a partial move takes
//! along, and which cells a move changes.
//!
//! Teams and rounds are numbered from 0. No call takes memory.
#![tactic(auto)]

mod applying;
mod changed_games;
mod checking;
mod ejection_chains;
mod fault;
mod laws;
mod moves;
mod resolving;

pub use applying::{apply, touched};
pub use changed_games::would_change;
pub use checking::check;
pub use ejection_chains::{moved_rounds, moved_teams};
pub use fault::MoveFault;
pub use laws::{
    differs_in_each_touched, differs_where_touched, moves_are_exchanges, moves_back,
    stays_double_round_robin,
};
pub use moves::{Move, MoveKind};
pub use resolving::exchange;
