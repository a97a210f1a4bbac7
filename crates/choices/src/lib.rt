//! What a caller of the program may choose: the form of a report, the plan of a search, what is
//! done with distances that differ by direction, and the most that may be asked for.
//!
//! The crates that do what is chosen stand on this one. So do those that read the choice.
#![tactic(auto)]

mod format;
mod limits;
mod search_plan;
mod symmetry;

pub use format::{CsvForm, Format, Separator};
pub use limits::{MAX_ROOM, MAX_WORKERS};
pub use search_plan::SearchPlan;
pub use symmetry::Symmetry;
