//! The report of a double round robin as JSON: the league, the games by round, what they cost, and what that is made of.
//!
//! Teams, rounds and rules are numbered from 0 in calls, and from 1 in the text. Everything here takes memory.
#![tactic(auto)]

mod breach_values;
mod game_values;
mod label_values;
mod meeting_values;
mod parts;
mod report_value;
mod rule_values;
mod run_values;
mod team_values;

pub use report_value::json_report;
