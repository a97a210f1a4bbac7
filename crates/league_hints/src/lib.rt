//! Advice on the text of a league: where the first fault of one that is refused lies and what is wanted there, and which members of
//! one that is read no format knows.
#![tactic(auto)]

mod distances;
mod forms;
mod hint;
mod hints;
mod json;
mod members;
mod needs;
mod place;
mod remarks;
mod rosters;
mod rules;
mod seen;
mod teams;
mod wanted;

pub use hint::{Hint, Seen};
pub use hints::hint_on;
pub use league_forms::{Form, Quote};
pub use place::{Place, RuleMember};
pub use remarks::remarks_on;
pub use wanted::Wanted;
