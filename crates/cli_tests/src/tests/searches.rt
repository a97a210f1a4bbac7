//! Searches: the known text of one without a step, what is answered first, and histories that `play` leads back to.

use crate::tests::checks::{check_holds, check_same};
use crate::tests::circle::CIRCLE;
use crate::tests::closings::{closing, script};
use crate::tests::samples::{NO_STEPS, NO_STEPS_MADE, SCRIPT};
use crate::tests::told::{Answer, Command, Told, tell};
use byte_streams::{MemorySink, MemorySource, Sink};
use commands::{Gate, NoGate, ProgramFault, RunContext, SearchPlan, find, find_from};
use league::LeagueFault;
use std::alloc::{AllocError, Global};
use std::process::Abort;
use std::sync::Wait;
use std::test::Fail;
use std::thread::Threads;

#[test]
fn search_without_steps_writes_the_start(rt: HostRuntime) -> Result<(), Fail> {
    let mut buffer = [0; 1000];
    let mut sink = MemorySink::new(&mut buffer);
    let source = MemorySource::new(CIRCLE.as_bytes());
    let run_context = RunContext {
        rt: &rt,
        alloc: rt.alloc(),
        gate: &NoGate,
    };
    find(run_context, source, &mut sink, 1024, NO_STEPS)?;
    check_same(&rt, &NO_STEPS_MADE.is_told(sink.held()), &true);
    Ok(())
}

/// The answer of a search whose workers pass the gate, the text that it wrote, of at most 200,000 bytes, and in how many calls.
pub(crate) fn found_by<T: Threads + Wait + Sync, G: Gate + Sync>(
    run_context: RunContext<'_, T, G>,
    input: &str,
    room: u32,
    plan: SearchPlan,
) -> Result<Told, AllocError> {
    let alloc = run_context.alloc;
    let mut buffer = vec![in alloc; 0; 200_000]?;
    let mut sink = MemorySink::new(&mut buffer);
    let mut source = MemorySource::new(input.as_bytes());
    let outcome = find_from(run_context, &mut source, &mut sink, room, plan);
    let calls = sink.tally().calls;
    let text = Vec::from_slice(alloc, sink.held())?;
    Ok(Told {
        answer: without_verdict(outcome),
        text,
        calls,
    })
}

/// As [`found_by`], without a gate.
pub(crate) fn found<T: Threads + Wait + Sync>(
    rt: &T,
    alloc: Global,
    input: &str,
    room: u32,
    plan: SearchPlan,
) -> Result<Told, AllocError> {
    let gate = &NoGate;
    found_by(RunContext { rt, alloc, gate }, input, room, plan)
}

fn without_verdict(outcome: Result<(), ProgramFault>) -> Answer {
    match outcome {
        Ok(()) => Ok(None),
        Err(fault) => Err(fault),
    }
}

/// The room and the workers that a search without a step is asked for, its input, and the first fault, which is answered.
const FAULTS: &[(u32, u32, &str, ProgramFault)] = &[
    (1_048_577, 0, CIRCLE, ProgramFault::Room),
    (1024, 0, CIRCLE, ProgramFault::Workers),
    (1024, 17, CIRCLE, ProgramFault::Workers),
    (1024, 0, "", ProgramFault::League(LeagueFault::NotJson)),
];

#[test]
fn search_names_the_first_fault(rt: HostRuntime) -> Result<(), Fail> {
    for &(room, workers, input, fault) in FAULTS {
        let plan = SearchPlan {
            workers,
            ..NO_STEPS
        };
        let told = found(&rt, rt.alloc(), input, room, plan)?;
        check_same(&rt, &(told.answer, told.calls), &(Err(fault), 0));
    }
    Ok(())
}

/// The text of a search on the circle, whose schedules are all accepted.
fn searched<T: Threads + Wait + Sync>(
    rt: &T,
    alloc: Global,
    workers: u32,
) -> Result<Vec<u8>, AllocError> {
    let plan = SearchPlan {
        workers,
        seed: 1,
        steps: 100,
        slack: 30,
    };
    Ok(found(rt, alloc, CIRCLE, 2048, plan)?.text)
}

/// The history of a text and its last line, which is the best version.
fn history_and_best(text: &[u8]) -> Option<(&str, &str)> {
    let (history, rest) = closing(text)?;
    let (_, best) = rest.rsplit_once("\nbest ")?;
    Some((history, best))
}

/// The play text of a history on the circle.
pub(crate) fn played(alloc: Global, history: &str) -> Result<Vec<u8>, AllocError> {
    let input = [CIRCLE, SCRIPT, script(history)].concat(alloc)?;
    let command = Command::Play { room: 2048 };
    Ok(tell(alloc, command, input.as_bytes())?.text)
}

/// The search's history isn't empty, and leads to the same history and best when it is played as a script. The best costs
/// less than the start's 30.
fn check_played_again(rt: &impl Abort, alloc: Global, text: &[u8]) -> Result<(), Fail> {
    let Some((history, best)) = history_and_best(text) else {
        return Err(Fail::new("no history"));
    };
    check_holds(rt, &history, history != "0");
    check_holds(rt, &best, best.starts_with("2"));
    let again = played(alloc, history)?;
    check_same(rt, &history_and_best(&again), &Some((history, best)));
    Ok(())
}

#[test]
fn histories_of_searches_played_lead_to_the_same_best(rt: HostRuntime) -> Result<(), Fail> {
    for workers in [1, 2, 4, 16] {
        let text = searched(&rt, rt.alloc(), workers)?;
        check_played_again(&rt, rt.alloc(), &text)?;
    }
    Ok(())
}

#[test]
fn searches_of_one_worker_write_the_same_twice(rt: HostRuntime) -> Result<(), Fail> {
    let one = searched(&rt, rt.alloc(), 1)?;
    check_same(&rt, &one, &searched(&rt, rt.alloc(), 1)?);
    Ok(())
}
