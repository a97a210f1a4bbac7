//! How large leagues and seasons may be; sets of teams and of slots (rounds of a season), each in one word of bits, of rules, in two
//! words, and of pairs of teams; sums and counts over the numbers below one.
#![tactic(auto)]

pub mod limits;
mod pairs;
mod rules;
mod slots;
mod teams;

pub use pairs::PairSet;
pub use rules::{RuleSet, Rules};
pub use slots::{SlotSet, Slots};
pub use teams::{TeamSet, Teams};
