//! An attempt on a schedule.

use crate::cost::Cost;
use crate::weights::Weights;
use fixtures::Exchange;

/// An exchange to be made on a schedule of known cost, if the score after it by these weights is at most `limit`.
#[derive(Clone, Copy)]
pub struct Attempt<'a> {
    /// The exchange.
    pub exchange: &'a Exchange,
    /// The cost of the schedule before it.
    pub known: Cost,
    /// The weights of breaches of hard limits in the score by which the exchange is judged.
    pub weights: Weights,
    /// The greatest score after it with which it is made.
    pub limit: u64,
}
