//! The context of a run.

use std::alloc::Global;

/// What all workers of a run have: the runtime, memory, and a gate.
#[derive_where(Clone, Copy)]
pub struct RunContext<'a, T, G> {
    /// The runtime, which starts their threads.
    pub rt: &'a T,
    pub alloc: Global,
    /// They pass it, and report to it how far they are.
    pub gate: &'a G,
}
