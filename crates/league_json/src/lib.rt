//! The reader of a league's JSON text.
#![tactic(auto)]

mod formats;
mod forms;
mod label_members;
mod league_members;
mod reader;
mod rosters;
mod rule_classes;
mod rule_members;

pub use forms::number_within;
pub use reader::read_league;
