//! The fixture board of one thread: one double round robin of a league, changed on request, with its history, its
//! pinned games, and the cheapest feasible schedule met so far.
//!
//! Teams and rounds are numbered from 0. Only `Board::new`, `duplicate` and `anew` take memory.
#![tactic(auto)]

mod ask;
mod best;
mod board;
mod change;
mod laws;
mod look;
mod pins;
mod reply;
mod state;
mod trial;

pub use ask::{Ask, Proposal};
pub use best::Best;
pub use board::{Board, BoardFault, NewRefused};
pub use change::{Change, Entry};
pub use choices::MAX_ROOM;
pub use laws::{
    answer_tells_history, best_is_least, best_never_rises, empty_history_is_legal,
    legal_history_is_sound, next_history_is_legal, replay, rewinding_keeps_the_best,
    trial_is_legal, trial_tells_history,
};
pub use look::Seen;
pub use reply::{Reply, Why};
pub use trial::Trial;
