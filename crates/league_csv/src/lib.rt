//! A league from a table of distances, as spreadsheets write one.
//!
//! Teams, lines and columns are numbered from 0 in calls, and from 1 in faults.
#![tactic(auto)]

mod fault;
mod league_text;
mod measures;
mod names;
mod rows;
mod sides;
mod table;

pub use choices::Symmetry;
pub use fault::{Asymmetry, DistanceCellFault, DistanceFault, PlaceFault};
pub use league_text::Settings;
pub use table::{MadeLeague, league_from_table};
