//! Schedules that a text gives: its games, the double round robin of a league's teams that they are, and what is wrong with
//! them if they are none.
//!
//! Of a text the last sheet counts: what stands behind the last line whose first word is `league`, or all of it. Teams and
//! rounds are numbered from 0 in calls, and from 1 in texts. Only [`judge`] takes memory.
#![tactic(auto)]

mod counted;
mod faults;
mod judged;
mod last_sheet;
mod laws;
mod schedule_text;

pub use judged::{Judged, judge};
pub use last_sheet::has_round_line;
pub use laws::{faults_are_complete, schedule_is_told};
pub use schedule_text::{ScheduleLine, WrittenGame};
