//! An improvement: the legs of the policy, run wave by wave on chains of schedules, several at once, each better schedule written as
//! soon as it is known.
//!
//! Teams, rounds and bouts are numbered from 0 in calls, chains and legs from 1.
#![tactic(auto)]

mod broken;
mod chains;
mod field;
mod improving;
mod laws;
mod leg_text;
mod legs;
mod line;
mod plan;
mod reported;
mod reported_leg;
mod rounds;
mod series;
mod setting;
mod stage;
mod standing;
mod watcher;

pub use improving::improve;
pub use laws::{
    end_is_least, last_line_has_the_last_total, solutions_are_feasible,
    text_up_to_a_block_is_whole, totals_fall, unkept_is_broken_in_each,
};
pub use plan::{ImproveFault, ImprovePlan};
pub use watcher::{LegEnded, NoWatcher, Watcher, Written};
