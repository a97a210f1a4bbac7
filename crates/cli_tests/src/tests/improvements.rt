//! The command `improve`: its faults, its text, and its line on a terminal.

ghost use Rattle.std.specs.Prelude.{◌≡◌};

use crate::tests::checks::{check_same, check_same_of};
use crate::tests::circle::CIRCLE;
use crate::tests::closings::{closing, script};
use crate::tests::progress_lines::{Ticks, last_line};
use crate::tests::searches::played;
use crate::tests::told::Text::{self, Excerpt};
use byte_streams::{MemorySink, MemorySource, Sink};
use commands::{
    Extent, Gate, ImprovePlan, NoGate, ProgramFault, ProgressLine, RunContext, Verdict, improve,
};
use league::LeagueFault;
use std::alloc::{AllocError, Global};
use std::process::Abort;
use std::sync::Wait;
use std::test::Fail;
use std::thread::Threads;

/// How many steps all legs take together.
const EFFORT: u64 = 16_000;

fn by(workers: u32, history: bool) -> ImprovePlan
    ensures { result.effort ≡ EFFORT }
{
    ImprovePlan {
        workers,
        seed: 1,
        effort: EFFORT,
        first: None,
        history,
    }
}

/// The answer of an improvement, the text that it wrote, and in how many calls.
#[derive(Drop)]
struct Ended {
    answer: Result<Verdict, ProgramFault>,
    text: Vec<u8>,
    calls: u64,
}

/// An improvement by so many workers, that pass the gate. Its text has the history if that is wanted.
fn improved_by<T: Threads + Wait + Sync, G: Gate + Sync>(
    run_context: RunContext<'_, T, G>,
    input: &str,
    workers: u32,
    history: bool,
) -> Result<Ended, AllocError> {
    let alloc = run_context.alloc;
    let mut buffer = vec![in alloc; 0; 100_000]?;
    let mut sink = MemorySink::new(&mut buffer);
    let source = MemorySource::new(input.as_bytes());
    let answer = improve(run_context, source, &mut sink, by(workers, history));
    let calls = sink.tally().calls;
    let text = Vec::from_slice(alloc, sink.held())?;
    Ok(Ended {
        answer,
        text,
        calls,
    })
}

/// As [`improved_by`], without a gate.
fn improved<T: Threads + Wait + Sync>(
    rt: &T,
    alloc: Global,
    input: &str,
    workers: u32,
    history: bool,
) -> Result<Ended, AllocError> {
    let gate = &NoGate;
    improved_by(RunContext { rt, alloc, gate }, input, workers, history)
}

/// An input, a number of workers, and the fault that is answered.
const FAULTS: [(&str, u32, ProgramFault); 4] = [
    (CIRCLE, 0, ProgramFault::Workers),
    (CIRCLE, 17, ProgramFault::Workers),
    ("", 1, ProgramFault::League(LeagueFault::NotJson)),
    ("", 0, ProgramFault::League(LeagueFault::NotJson)),
];

#[test]
fn improve_names_the_first_fault_and_writes_nothing(rt: HostRuntime) -> Result<(), Fail> {
    for (input, workers, fault) in FAULTS {
        let found = improved(&rt, rt.alloc(), input, workers, false)?;
        let ended = (found.answer, found.calls);
        check_same_of(&rt, &(input, workers), &ended, &(Err(fault), 0));
    }
    Ok(())
}

/// Team 1 is to have no game at home, and has three in each schedule.
const NEVER_AT_HOME: &str = r#"{
    "format": 1,
    "teams": ["A", "B", "C", "D"],
    "distances": [[0, 1, 1, 1], [1, 0, 1, 1], [1, 1, 0, 1], [1, 1, 1, 0]],
    "rules": [{"class": "CA1", "kind": "hard", "teams": [1], "mode": "H", "max": 0}]
}"#;

/// An input, whether the history is wanted, the verdict, and what the text has. The least total of four teams in a circle is 20.
const VERDICTS: [(&str, bool, Verdict, Text<'_>); 3] = [
    (
        CIRCLE,
        false,
        Verdict::Feasible,
        Excerpt("", &["\nround 6: "], "\nbest 20\n"),
    ),
    (
        CIRCLE,
        true,
        Verdict::Feasible,
        Excerpt("", &["\nhistory ", "\nend\n", "\nbest 20 at "], ""),
    ),
    (
        NEVER_AT_HOME,
        false,
        Verdict::Infeasible,
        Excerpt("", &[], "\nleast hard 3: rule 1 CA1 3\nbest none\n"),
    ),
];

#[test]
fn verdicts_of_improvements_are_those_of_their_ends(rt: HostRuntime) -> Result<(), Fail> {
    for (input, history, verdict, text) in VERDICTS {
        let found = improved(&rt, rt.alloc(), input, 2, history)?;
        let ended = (found.answer, text.is_told(&found.text));
        check_same_of(&rt, &(input, history), &ended, &(Ok(verdict), true));
    }
    Ok(())
}

/// The text's history played as a script leads to the same history, sheet and best version.
fn check_played_again(rt: &impl Abort, alloc: Global, text: &[u8]) -> Result<(), Fail> {
    let Some((history, rest)) = closing(text) else {
        return Err(Fail::new("no history"));
    };
    let again = played(alloc, history)?;
    check_same(rt, &closing(&again), &Some((history, rest)));
    Ok(())
}

#[test]
fn histories_of_improvements_played_lead_to_their_ends(rt: HostRuntime) -> Result<(), Fail> {
    for workers in [1, 3] {
        let found = improved(&rt, rt.alloc(), CIRCLE, workers, true)?;
        check_played_again(&rt, rt.alloc(), &found.text)?;
    }
    Ok(())
}
