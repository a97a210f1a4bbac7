//! Workers that search for a cheaper schedule on one board: their doors to the board, what each
//! does, and runs of several in threads.
//!
//! Teams and rounds are numbered from 0.
#![tactic(auto)]

mod doors;
mod runs;
mod workers;

pub use choices::{MAX_WORKERS, SearchPlan};
pub use doors::{Door, OwnDoor, SeatDoor};
pub use runs::{Outcome, Reports, RunFault, RunRefused, run, run_with};
pub use workers::{Report, WorkerPlan, worker};
