//! Leagues of the Travelling Tournament Problem (Easton, Nemhauser, Trick 2001): the teams, the distances
//! between their homes, the limits of a schedule and the rules on it, whoever reads them, or made for n teams.
#![tactic(auto)]

mod checks;
mod fault;
mod labels;
mod leagues;
pub mod limits;
mod made;
mod names;
mod origins;
mod rule;
mod text_lists;

pub use checks::check;
pub use fault::{Field, LeagueFault};
pub use labels::Labels;
pub use leagues::{League, Terms};
pub use made::{circular, constant};
pub use names::is_text_within;
pub use origins::Start;
pub use rule::{GameList, Pairing, Rule, RuleBody, Side, Weight};
pub use sets::{PairSet, RuleSet, Rules, SlotSet, Slots, TeamSet, Teams};
