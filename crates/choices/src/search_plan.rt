//! The plan of a search.

/// The plan of a run.
#[derive(Clone, Copy, Debug, PartialEq, Eq)]
pub struct SearchPlan {
    /// 1 to 16.
    pub workers: u32,
    /// The first state of each worker's generator. The number of the worker chooses its stream.
    pub seed: u64,
    /// How many steps each worker takes.
    pub steps: u32,
    /// By how much a score may rise at a worker's first step.
    pub slack: u64,
}
