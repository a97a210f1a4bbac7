//! Rules in the manner of RobinX (Van Bulck, Goossens, Schönberger, Guajardo 2020): how far a schedule is from
//! each. The names of the classes are RobinX's; what each means, and how it is counted, is this project's own.
//!
//! Teams and rounds are numbered from 0. Nothing here takes memory.
#![tactic(auto)]

mod around;
mod break_rules;
mod classes;
mod counted_games;
mod counted_rows;
mod deviations;
mod gap_table;
mod home_counts;
mod home_rows;
mod home_table;
mod known_gaps;
mod laws;
mod looked_past;
mod parts;
mod round_numbers;
mod team_windows;
mod touched_rules;
mod windows;

pub use break_rules::breaks;
pub use deviations::deviation;
pub use home_counts::HomeCounts;
pub use laws::{deviations_balance, nothing_to_alter, untouched_stays};
pub use looked_past::looks_past;
pub use parts::deviation_part;
pub use touched_rules::{looks_at_round, touches};
