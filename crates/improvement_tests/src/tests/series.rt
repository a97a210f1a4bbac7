//! Improvements that follow each other, until who looks on wants no more.

ghost use Rattle.std.specs.Prelude.{◌≡◌, ◌≤◌};

use super::{asked, check_same, circle, counted};
use improvement::{ImprovePlan, LegEnded};
use std::alloc::Global;
use std::process::Abort;
use std::sync::Wait;
use std::thread::Threads;

/// The legs and the steps of six teams' improvement, of which so many legs are wanted.
fn legs_and_steps<T: Threads + Wait + Sync + Abort>(
    rt: &T,
    alloc: Global,
    plan: ImprovePlan,
    wanted: u64,
) -> (u64, u64)
    requires least { 1 ≤ plan.effort }
    requires most { plan.effort ≤ 1000000 }
{
    let counter = counted(rt, alloc, circle(rt, alloc, 6), plan, wanted, 0);
    (counter.legs, counter.steps)
}

/// Three improvements of 1,000, 2,000 and 4,000 steps.
fn three(workers: u32) -> ImprovePlan
    ensures least { 1 ≤ result.effort }
    ensures most { result.effort ≤ 1000000 }
{
    ImprovePlan {
        first: Some(1000),
        ..asked(workers, 7000)
    }
}

#[test]
fn all_steps_are_taken_if_more_is_always_wanted(rt: HostRuntime) {
    for workers in [1, 2, 16] {
        let (_, steps) = legs_and_steps(&rt, rt.alloc(), three(workers), u64::MAX);
        check_same(&rt, &(workers, steps), &(workers, 7000));
    }
}

#[test]
fn one_improvement_asks_nobody(rt: HostRuntime) {
    let (_, steps) = legs_and_steps(&rt, rt.alloc(), asked(1, 7000), 0);
    check_same(&rt, &steps, &7000);
}

#[test]
fn no_leg_begins_once_enough_have_ended(rt: HostRuntime) {
    for wanted in [0, 1, 5, 30] {
        let (legs, _) = legs_and_steps(&rt, rt.alloc(), three(1), wanted);
        check_same(&rt, &legs, &wanted);
    }
}

#[test]
fn legs_that_run_are_reported_before_the_end(rt: HostRuntime) {
    let (legs, _) = legs_and_steps(&rt, rt.alloc(), three(4), 5);
    check_same(&rt, &(legs, (5..9).contains(&legs)), &(legs, true));
}

/// What is told of the leg behind so many steps, but for its place among all legs.
fn leg_behind<T: Threads + Wait + Sync + Abort>(
    rt: &T,
    alloc: Global,
    plan: ImprovePlan,
    steps: u64,
) -> LegEnded
    requires least { 1 ≤ plan.effort }
    requires most { plan.effort ≤ 1000000 }
{
    let counter = counted(rt, alloc, circle(rt, alloc, 6), plan, u64::MAX, steps);
    let leg = counter.kept.expect(rt, "a leg");
    LegEnded {
        number: 0,
        chain: 0,
        least: None,
        ..leg
    }
}

/// The first leg of the second improvement is that of one alone with the next seed and twice the steps.
#[test]
fn each_next_one_has_twice_the_steps_and_the_next_seed(rt: HostRuntime) {
    let alone = ImprovePlan {
        seed: 2,
        ..asked(1, 2000)
    };
    let wanted = leg_behind(&rt, rt.alloc(), alone, 0);
    check_same(&rt, &leg_behind(&rt, rt.alloc(), three(1), 1000), &wanted);
}
