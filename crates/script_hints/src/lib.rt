//! Advice on the lines of a script and of a schedule: which is the first bad one, and what is wrong with it.
#![tactic(auto)]

mod cause;
mod schedule;
mod script;

pub use cause::{Cause, LineHint};
pub use schedule::schedule_hint;
pub use script::script_hint;
