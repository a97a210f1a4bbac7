//! The plan of an improvement, and why it ends early.

ghost use Rattle.std.specs.Prelude.{◌≡◌};
ghost use Rattle.improvement.specs.declared.plan.ImproveFault.TheVariants.{Memory, Write};

use byte_streams::WriteFault;
use std::alloc::AllocError;
use thiserror::Error;

/// The plan of an improvement.
#[derive(Clone, Copy, Debug, PartialEq, Eq)]
pub struct ImprovePlan {
    /// How many legs run at once, each in a thread: 1 to 16. What is written doesn't depend on it.
    pub workers: u32,
    /// The seed of all legs' draws.
    pub seed: u64,
    /// The steps of all legs: at least 1.
    pub effort: u64,
    /// If several improvements are to share these steps those of the first one. Each other one has twice the steps of the one before, or what
    /// is left, and the next seed. They end early if the watcher wants no more.
    pub first: Option<u64>,
    /// Whether the text has the history that leads to the best schedule.
    pub history: bool,
}

/// Why an improvement ended early.
#[derive(Clone, Copy, Debug, PartialEq, Eq, Error)]
pub enum ImproveFault {
    /// The number of workers is not 1 to 16.
    #[error("the number of workers is not 1 to 16")]
    Workers,
    /// Memory ran out.
    #[error("out of memory")]
    Memory,
    /// A write failed, took no byte or was interrupted too often in a row.
    #[error("output cannot be written")]
    Write,
}

impl From<WriteFault> for ImproveFault {
    ghost from_gives = { λ _ gives. gives ≡ Write };

    fn from(_fault: WriteFault) -> ImproveFault {
        ImproveFault::Write
    }
}

impl From<AllocError> for ImproveFault {
    ghost from_gives = { λ _ gives. gives ≡ Memory };

    fn from(_error: AllocError) -> ImproveFault {
        ImproveFault::Memory
    }
}
