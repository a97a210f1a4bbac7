//! The memory of a run.

ghost use Rattle.std.specs.Prelude.{IfOk};
ghost use Rattle.search.specs.within.RunParts.{HasRoom};

use super::threads::WorkerInput;
use crate::workers::Report;
use fixtures::Schedule;
use std::alloc::{AllocError, Global};

/// All memory of a run but the shared board's: a copy for each worker, and room for what there is one of for each, the
/// handle of its thread among them.
#[derive(Drop)]
pub(crate) struct RunBuffers<H> {
    pub(crate) copies: Vec<Schedule>,
    pub(crate) inputs: Vec<WorkerInput>,
    pub(crate) handles: Vec<H>,
    pub(crate) reports: Vec<Report>,
}

impl<H: Drop> RunBuffers<H> {
    pub(crate) fn new(
        alloc: Global,
        schedule: &Schedule,
        workers: u32,
    ) -> Result<RunBuffers<H>, AllocError>
        ensures { IfOk result (HasRoom schedule.now.teams workers) }
    {
        let count = workers as usize;
        let mut copies = Vec::with_capacity(alloc, count)?;
        for _ in 0..count {
            copies.push_reserved(schedule.duplicate(alloc)?);
        }
        Ok(RunBuffers {
            copies,
            inputs: Vec::with_capacity(alloc, count)?,
            handles: Vec::with_capacity(alloc, count)?,
            reports: Vec::with_capacity(alloc, count)?,
        })
    }
}
