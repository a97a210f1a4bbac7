//! The reports of a leg to a gate.

use crate::tests::chains::{MILD, WEIGHTS, board_of, gone_on};
use crate::tests::checks::check_same;
use annealing::LegPlan;
use draws::{Gate, Progress, RunContext};
use fixture_board::Reply;
use std::alloc::Global;
use std::process::Abort;
use std::sync::Wait;
use std::sync::atomic::{AtomicU64, Ordering};

/// Counts the reports.
#[derive(Drop)]
struct Counter {
    reports: AtomicU64,
}

impl Gate for Counter {
    ghost heard = { λ _ _ _ _. Unit {0} };

    ghost was_reported = { λ _ _ _. Unit {0} };

    fn enter<R: Wait>(&self, _rt: &R, _worker: u32, _made: u32) {}

    fn left<R: Wait>(&self, _rt: &R, _worker: u32, _made: u32, _reply: Reply) {}

    fn reported<R: Wait>(&self, _rt: &R, _worker: u32, _progress: Progress) {
        self.reports.fetch_add(1, Ordering::SeqCst);
    }
}

/// How often a leg of 5,000 steps reports.
fn report_count<R: Wait + Abort>(rt: &R, alloc: Global) -> u64 {
    let gate = &Counter {
        reports: AtomicU64::new(0),
    };
    let board = board_of(rt, alloc, MILD.sample, MILD.room);
    let plan = LegPlan {
        leg: MILD.leg,
        seed: 1,
        stream: 0,
    };
    gone_on(RunContext { rt, alloc, gate }, board, plan, WEIGHTS);
    gate.reports.load(Ordering::SeqCst)
}

#[test]
fn each_block_is_reported(rt: HostRuntime) {
    check_same(&rt, &report_count(&rt, rt.alloc()), &5);
}
