//! Improvements that end early, and one without a feasible schedule.

use super::{Improved, asked, check_same, impossible, improved_by, improvement_of};
use byte_streams::Step;
use improvement::ImproveFault;
use league::{LeagueFault, circular};
use std::alloc::Global;
use std::process::Abort;
use std::sync::Wait;
use std::thread::Threads;
use text_lines::{next_line, next_word, number, split_at_line};

/// How an improvement of four teams by so many workers ends whose writes go by these steps.
fn ended<T: Threads + Wait + Sync>(
    rt: &T,
    alloc: Global,
    workers: u32,
    writes: &[Step],
) -> Result<Improved, LeagueFault> {
    let league = circular(alloc, 4)?;
    Ok(improved_by(rt, alloc, league, asked(workers, 2000), writes)?)
}

/// So many writes of all that there is, and then one that fails.
fn failing_after(rt: &impl Abort, alloc: Global, writes: u64) -> Vec<Step> {
    let mut steps = Vec::new(alloc);
    for _ in 0..writes {
        steps.push(Step::Moved(usize::MAX)).expect(rt, "memory");
    }
    steps.push(Step::Failed).expect(rt, "memory");
    steps
}

/// The write behind so many ones fails, and a front of the whole text is written.
fn check_failing<T: Threads + Wait + Sync + Abort>(
    rt: &T,
    alloc: Global,
    writes: u64,
    whole: &Improved,
) {
    let steps = failing_after(rt, alloc, writes);
    let found = ended(rt, alloc, 2, &steps).expect(rt, "memory");
    let is_front = whole.text.starts_with(&found.text) && !found.text.is_empty();
    check_same(
        rt,
        &(found.calls, is_front),
        &(writes.saturating_add(1), true),
    );
    check_same(rt, &found.ended, &Err(ImproveFault::Write));
}

#[test]
fn failed_writes_leave_fronts_of_the_text(rt: HostRuntime) {
    let whole = ended(&rt, rt.alloc(), 1, &[]).expect(&rt, "memory");
    check_same(&rt, &whole.ended.is_ok(), &true);
    for writes in 1..whole.calls {
        check_failing(&rt, rt.alloc(), writes, &whole);
    }
}

#[test]
fn wrong_numbers_of_workers_write_nothing(rt: HostRuntime) {
    for workers in [0, 17] {
        let found = ended(&rt, rt.alloc(), workers, &[]).expect(&rt, "memory");
        check_same(
            &rt,
            &(found.ended, found.calls),
            &(Err(ImproveFault::Workers), 0),
        );
    }
}

/// The number behind a word of a line.
fn number_behind(line: &[u8], word: &[u8]) -> Option<u64> {
    let mut rest = line;
    for _ in 0..100 {
        if next_word(&mut rest)? == word {
            return number(next_word(&mut rest)?);
        }
    }
    None
}

/// A rule that no schedule keeps is broken in each chain.
#[test]
fn rule_that_cannot_be_kept_is_broken_in_each_chain(rt: HostRuntime) {
    let league = impossible(&rt, rt.alloc());
    let found = improvement_of(&rt, rt.alloc(), league, asked(1, 3000));
    let mut rest: &[u8] = &found.text;
    let line = next_line(&mut rest).expect(&rt, "a line");
    check_same(&rt, &line.starts_with(b"rule 1 CA1 broken in "), &true);
    let chains = number_behind(line, b"of");
    check_same(&rt, &number_behind(line, b"in"), &chains);
    check_same(&rt, &(chains > Some(1)), &true);
}

#[test]
fn without_a_feasible_schedule_there_is_no_best(rt: HostRuntime) {
    let league = impossible(&rt, rt.alloc());
    let found = improvement_of(&rt, rt.alloc(), league, asked(1, 3000));
    check_same(&rt, &found.ended, &Ok(None));
    let end = b"\nleast hard 3: rule 1 CA1 3\nbest none\n";
    check_same(&rt, &found.text.ends_with(end), &true);
    let (_, solution) = split_at_line(&found.text, b"----------");
    check_same(&rt, &solution.is_none(), &true);
}
