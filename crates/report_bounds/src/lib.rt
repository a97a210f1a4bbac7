//! What no schedule of a league travels less than, as a text, and what that says of totals. Teams are numbered from 0 in calls, and from 1 in
//! texts. Nothing here takes memory.
#![tactic(auto)]

mod bounds_text;
mod laws;

pub use bounds_text::write_bounds;
pub use laws::bound_is_below_totals;
