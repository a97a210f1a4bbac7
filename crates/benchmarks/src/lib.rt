//! How fast moves, tries, a worker's steps and turns are, on the starts of leagues in a circle.
//!
//! Their results go to standard output, how fast they were to standard error.
#![tactic(auto)]

mod kind;
mod measure;
mod plan;
mod reports;
mod steps;
mod tries;
mod turns;

pub use reports::{report_moves, report_steps, report_tries, report_turns};
pub use turns::Turn;
