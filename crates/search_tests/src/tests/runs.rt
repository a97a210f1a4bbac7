//! Runs of workers in threads.

use crate::tests::boards::check_end;
use crate::tests::checks::check_same;
use crate::tests::searches::{AskedRun, searched};
use costs::cost_of;
use fixture_board::{Board, Change, Entry};
use moves::Move;
use search::{MAX_WORKERS, SearchPlan};
use std::alloc::Global;
use std::process::Abort;
use std::sync::Wait;
use std::thread::Threads;

/// A run in which each move that can be made is granted.
fn free_run(teams: u8, room: u32, workers: u32, steps: u32) -> AskedRun {
    let plan = SearchPlan {
        workers,
        seed: 1,
        steps,
        slack: u64::MAX,
    };
    AskedRun { teams, room, plan }
}

/// The board has so many entries, or some if no number is given, and costs what its schedule does.
fn check_board(rt: &impl Abort, board: &Board, entries: Option<u64>) {
    let wanted = entries.unwrap_or(board.version().max(1));
    check_same(rt, &board.version(), &wanted);
    check_same(
        rt,
        &board.cost(),
        &cost_of(board.schedule(), board.league()),
    );
}

/// Each worker of the run has its report.
fn check_run<R: Threads + Wait + Sync + Abort>(
    rt: &R,
    alloc: Global,
    asked: AskedRun,
    entries: Option<u64>,
) {
    let outcome = searched(rt, alloc, asked);
    check_same(rt, &outcome.reports.len(), &(asked.plan.workers as usize));
    check_board(rt, &outcome.board, entries);
}

#[test]
fn a_run_of_each_number_of_workers(rt: HostRuntime) {
    for workers in 1..=MAX_WORKERS {
        check_run(&rt, rt.alloc(), free_run(4, 4096, workers, 100), None);
    }
}

/// Teams and workers.
const LARGER: [(u8, u32); 5] = [(6, 2), (8, 1), (10, 16), (20, 2), (40, 4)];

#[test]
fn runs_of_larger_leagues(rt: HostRuntime) {
    for (teams, workers) in LARGER {
        check_run(&rt, rt.alloc(), free_run(teams, 4096, workers, 100), None);
    }
}

/// Workers stop where the room is over. Any of them may find at any time that it is.
#[test]
fn a_history_of_each_length_to_200_by_three_workers(rt: HostRuntime) {
    for room in 0..=200 {
        let entries = Some(u64::from(room));
        check_run(&rt, rt.alloc(), free_run(4, room, 3, 2000), entries);
    }
}

const RUN_OF_SIX: AskedRun = AskedRun {
    teams: 6,
    room: 1024,
    plan: SearchPlan {
        workers: 1,
        seed: 8,
        steps: 24,
        slack: 30,
    },
};

const SIXTH: Entry = Entry {
    caller: 0,
    change: Change::Shift(Move::Rounds { k: 4, l: 3 }),
};

/// Six proposals, each granted, are those of `asks 8 0 6 24 30 1024` of `scripts/oracle worker-steps`, a program written apart. With
/// another seed, slack, number of steps or number of the worker it prints others.
#[test]
fn a_worker_has_the_numbers_of_the_plan(rt: HostRuntime) {
    let outcome = searched(&rt, rt.alloc(), RUN_OF_SIX);
    check_end(&rt, &outcome.board, 6, SIXTH);
}
