//! The cost of a double round robin in a league, and the cost that an exchange would make of it: tried on a schedule of known cost,
//! and made if the score after it is within a limit.
//!
//! Teams and rounds are numbered from 0. No call takes memory.
#![tactic(auto)]

mod attempt;
mod cost;
mod cost_delta;
mod counted;
mod counting_order;
mod evaluator;
mod kept_deviations;
mod made_exchanges;
mod penalties;
mod rule_costs;
mod scope;
mod weights;
mod whole_cost;

pub use attempt::Attempt;
pub use cost::Cost;
pub use evaluator::Evaluator;
pub use made_exchanges::{make_at_cost, make_within};
pub use weights::Weights;
pub use whole_cost::{cost_of, counted_repeats};
