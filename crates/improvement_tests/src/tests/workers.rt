//! The workers and the seed of an improvement, and what they are for.

use super::{asked, check_same, circle, improvement_of};
use byte_streams::MemorySink;
use draws::{Gate, Progress, RunContext};
use fixture_board::Reply;
use improvement::{ImprovePlan, NoWatcher, improve};
use std::hint::spin_loop;
use std::sync::Wait;
use std::sync::atomic::{AtomicU64, Ordering};

/// How often a leg turns at the gate at most.
const TURNS: u32 = 1_000_000_000;

/// The first leg that tells waits until another one tells, or TURNS is over.
#[derive(Drop)]
struct Meet {
    first: AtomicU64,
    second: AtomicU64,
    late: AtomicU64,
}

impl Gate for Meet {
    ghost heard = { λ _ _ _ _. Unit {0} };

    ghost was_reported = { λ _ _ _. Unit {0} };

    fn enter<R: Wait>(&self, _rt: &R, _worker: u32, _made: u32) {}

    fn left<R: Wait>(&self, _rt: &R, _worker: u32, _made: u32, _reply: Reply) {}

    fn reported<R: Wait>(&self, _rt: &R, _worker: u32, _progress: Progress) {
        if self.first.swap(1, Ordering::SeqCst) == 1 {
            self.second.store(1, Ordering::SeqCst);
            return;
        }
        for _ in 0..TURNS {
            if self.second.load(Ordering::SeqCst) == 1 {
                return;
            }
            spin_loop();
        }
        self.late.store(1, Ordering::SeqCst);
    }
}

/// A leg tells while another one waits in its own telling, which only a second thread can do.
#[test]
fn two_workers_run_two_legs_at_once(rt: HostRuntime) {
    let gate = &Meet {
        first: AtomicU64::new(0),
        second: AtomicU64::new(0),
        late: AtomicU64::new(0),
    };
    let alloc = rt.alloc();
    let mut buffer = vec![in alloc; 0; 400_000].expect(&rt, "memory");
    let mut sink = MemorySink::new(&mut buffer);
    let run_context = RunContext {
        rt: &rt,
        alloc,
        gate,
    };
    let league = circle(&rt, alloc, 6);
    let ended = improve(run_context, league, asked(2, 60_000), &mut sink, NoWatcher);
    let late = gate.late.load(Ordering::SeqCst);
    check_same(&rt, &(ended.is_ok(), late), &(true, 0));
}

/// The first legs of two seeds draw other moves.
#[test]
fn each_seed_has_draws_of_its_own(rt: HostRuntime) {
    let alloc = rt.alloc();
    let first = improvement_of(&rt, alloc, circle(&rt, alloc, 6), asked(1, 20_000));
    let plan = ImprovePlan {
        seed: 2,
        ..asked(1, 20_000)
    };
    let second = improvement_of(&rt, alloc, circle(&rt, alloc, 6), plan);
    check_same(&rt, &(first.text == second.text), &false);
}
