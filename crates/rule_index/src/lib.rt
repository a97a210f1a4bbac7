//! Which rules of a league a change can alter, by an index of the teams and the rounds at which each rule looks. It is made once for a
//! league, and told in a few steps for each change, however many rules there are.
//!
//! Teams, rounds and rules are numbered from 0.
#![tactic(auto)]

mod index;
mod laws;
mod rows;

pub use index::RuleIndex;
pub use laws::nothing_else_alters;
