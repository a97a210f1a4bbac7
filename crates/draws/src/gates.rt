//! Gates: each stands before and after the proposals of a worker, and hears how far the workers are.

ghost use Rattle.std.specs.Prelude.{ℕ};
ghost use Rattle.fixture_board.specs.declared.reply.Reply.{Reply};
ghost use Rattle.draws.specs.declared.gates.Progress.{Progress};

use fixture_board::Reply;
use std::sync::Wait;

/// After how many steps a worker reports to a gate that doesn't say so.
const STEPS_TO_REPORT: u32 = 4096;

/// How far a worker is.
#[derive(Clone, Copy)]
pub struct Progress {
    /// How many steps it took since it last reported.
    pub steps: u32,
    /// The least total of the feasible ones among the version that it looked at first and those that it made.
    pub least: Option<u64>,
}

/// Is passed by a worker at each proposal. Workers are numbered from 0, and `made` counts the proposals that this one
/// made before. A gate may hold a worker up.
///
/// Each gate says for itself what was heard and reported. So a function that is proved for all gates counts no reply but those that its gate
/// heard, and reports no steps but those that it took.
pub trait Gate {
    /// A worker's proposal, after so many of that worker's, left with this reply.
    ghost heard: { Self → ℕ → ℕ → Reply → Type 0 };

    /// A worker reported that it is so far.
    ghost was_reported: { Self → ℕ → Progress → Type 0 };

    /// Before the proposal.
    fn enter<R: Wait>(&self, rt: &R, worker: u32, made: u32);

    /// After its reply.
    fn left<R: Wait>(&self, rt: &R, worker: u32, made: u32, reply: Reply)
        ensures { heard self.now worker made reply };

    /// Before the first step of a worker, or before workers go on after a text was written.
    fn begun<R: Wait>(&self, _rt: &R, _worker: u32) {}

    /// After how many steps a worker is to report. It is asked after each step.
    fn pause(&self) -> u32 {
        STEPS_TO_REPORT
    }

    /// When the worker took so many steps, or more, since it last reported, and when it ends, if it took one since then. So the steps that are
    /// reported add up to those that it took.
    fn reported<R: Wait>(&self, rt: &R, worker: u32, progress: Progress)
        ensures { was_reported self.now worker progress };

    /// When all workers of a run have ended, or before a text is written while some go on.
    fn ended<R: Wait>(&self, _rt: &R) {}
}

/// Holds nobody up, and keeps nothing of what it hears.
#[derive(Clone, Copy)]
pub struct NoGate;

impl Gate for NoGate {
    ghost heard = { λ _ _ _ _. Unit {0} };

    ghost was_reported = { λ _ _ _. Unit {0} };

    fn enter<R: Wait>(&self, _rt: &R, _worker: u32, _made: u32) {}

    fn left<R: Wait>(&self, _rt: &R, _worker: u32, _made: u32, _reply: Reply) {}

    fn reported<R: Wait>(&self, _rt: &R, _worker: u32, _progress: Progress) {}
}
