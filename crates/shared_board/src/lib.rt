//! A fixture board that threads share: whatever their calls' order, its changes are one legal history of one thread's
//! board.
//!
//! Each thread calls through a `Seat` of its own. Teams, rounds and seats are numbered from 0. Only `Shared::new` takes
//! memory.
#![tactic(auto)]

mod law;
mod plays;
mod shared;
mod view;

pub use law::{between_steps, fixtures_while_free};
pub use shared::{Closed, Seat, Shared, SplitFault};
