//! Where boards are to begin, if not at the league's own start: at the schedule of a text, with rounds and games of it kept
//! and a price on leaving it.
//!
//! Teams and rounds are numbered from 0 in calls, and from 1 in texts.
#![tactic(auto)]

mod begun;
mod fault;
mod kept;
mod start_faults;

pub use begun::{Beginning, begin};
pub use fault::BeginFault;
pub use start_faults::{TellFault, write_start_faults};
