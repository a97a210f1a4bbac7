//! The burdens of a double round robin for its teams: how far they travel, their long stretches at home or away, and the
//! pairs of teams that meet twice in a row (Easton, Nemhauser, Trick 2001), or twice in one half of the season; and how
//! many games it has in other rounds than the start of the league.
//!
//! A call counts over the whole schedule, or over the part that a change of some teams and rounds can alter. None takes
//! memory. Teams and rounds are numbered from 0.
#![tactic(auto)]

mod clip;
mod delta;
mod laws;
mod moved;
mod moved_delta;
mod repeat_counts;
mod repeats_delta;
mod rounds_delta;
mod streaks;
mod streaks_delta;
mod teams_delta;
mod travel_parts;
mod unphased_pairs;
mod whole_travel;

pub use delta::{CountDelta, MovedDelta, TravelDelta, legs_of, moved_of, repeats_of, streaks_of};
pub use laws::parts_balance;
pub use moved::moved_games;
pub use repeat_counts::{repeats, repeats_part};
pub use streaks::{runs_over, runs_part, windows_spent};
pub use travel_parts::travel_part;
pub use unphased_pairs::{is_unphased, unphased, unphased_part};
pub use whole_travel::{travel, travel_of};
