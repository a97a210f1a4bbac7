//! Reports on schedules that a text gives: what is wrong with games that are no double round robin, and what a double round
//! robin costs, with the part of each team, run, repeat, pair, rule and moved game.
//!
//! Teams and rounds are numbered from 0 in calls, and from 1 in texts. Nothing here takes memory.
#![tactic(auto)]

mod cost_text;
mod laws;
mod leaving;
mod report;
mod runs;

pub use laws::figures_add_up;
pub use report::{is_feasible, write_report};
pub use runs::{Stretch, windows_ended};
