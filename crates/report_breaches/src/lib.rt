//! The breaches of a rule: the terms of its deviation that are above 0, each with its place and its line, and the games that they
//! name.
//!
//! Teams, rounds and rules are numbered from 0 in calls, and from 1 in texts. [`breaches_of`] alone takes memory.
#![tactic(auto)]

mod breach;
mod cells;
mod fairness;
mod laws;
mod lines;
mod list;
mod made_of;
mod marks;
mod place_counts;
mod places;
mod terms;

pub use breach::{Breach, Place};
pub use cells::names_cell;
pub use laws::breaches_add_up;
pub use lines::write_breaches;
pub use list::breaches_of;
pub use marks::is_marked;
