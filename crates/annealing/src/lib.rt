//! Annealing of one chain of schedules: a leg of so many steps on the chain's board, each of which draws a move and makes it
//! if the score rises by no more than a threshold that is drawn too.
//!
//! A breach of a hard limit adds the chain's weight to the score. The weight follows the share of the steps at which the schedule
//! is feasible. Temperatures of legs are thousandths of a unit, weights are millionths of it.
#![tactic(auto)]

mod blocks;
mod boards;
mod chain;
mod heats;
mod legs;
mod thresholds;
mod unit;
mod walk;
mod weights;

pub use chain::{Annealed, Chain, Conditions, LegPlan};
pub use legs::anneal;
pub use unit::Unit;
pub use walk::measure;
