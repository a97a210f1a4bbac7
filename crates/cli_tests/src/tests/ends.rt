//! Sources and sinks that give or take a byte at a time, are interrupted, fail or take nothing: each command, at each
//! call.

ghost use Rattle.std.specs.Prelude.{None};

use crate::tests::checks::{check_same, check_same_of};
use crate::tests::circle::CIRCLE;
use crate::tests::judged_schedules::FAULTY;
use crate::tests::samples::{
    DISTANCES, NAMED, NO_STEPS, NO_STEPS_MADE, PLAY, REPORT, START, TABLE,
};
use crate::tests::told::{Answer, Case, Command, Text, WRITTEN};
use byte_streams::{
    MemorySink, MemorySource, RehearsedSink, RehearsedSource, Sink, Source, Step, Tally,
};
use commands::{
    NoGate, ProgramFault, RunContext, find_from, league_from, play_from, report_from, start_from,
};
use league::LeagueFault;
use league_csv::DistanceFault;
use std::alloc::{AllocError, Global};
use std::process::Abort;
use std::sync::Wait;
use std::test::Fail;
use std::thread::Threads;

/// What is run.
#[derive(Clone, Copy, Debug)]
enum Run {
    Of(Command),
    /// A search without a step.
    Search,
}

/// What is run, its input in parts, what it answers, and what it writes.
type Sample<'a> = (Run, &'a [&'a str], Answer, Text<'a>);

const CASES: [Case<'_>; 6] = [START, PLAY, REPORT, FAULTY, TABLE, DISTANCES];

const SEARCH: Sample<'_> = (Run::Search, &[CIRCLE], WRITTEN, NO_STEPS_MADE);

fn run_command<R: Source, W: Sink>(
    alloc: Global,
    command: Command,
    source: &mut R,
    sink: &mut W,
) -> Answer {
    match command {
        Command::Start => start_from(alloc, source, sink)?,
        Command::Play { room } => play_from(alloc, source, sink, room)?,
        Command::Report(format) => return Ok(Some(report_from(alloc, source, sink, format)?)),
        Command::League => {
            league_from(alloc, source, sink, None, NAMED)?;
        }
    }
    Ok(None)
}

fn run_from<T: Threads + Wait + Sync, R: Source, W: Sink>(
    rt: &T,
    alloc: Global,
    run: Run,
    source: &mut R,
    sink: &mut W,
) -> Answer {
    match run {
        Run::Of(command) => run_command(alloc, command, source, sink),
        Run::Search => {
            let gate = &NoGate;
            find_from(RunContext { rt, alloc, gate }, source, sink, 8, NO_STEPS)?;
            Ok(None)
        }
    }
}

/// What is run, and on which input.
#[derive(Clone, Copy)]
struct Asked<'a> {
    run: Run,
    input: &'a [u8],
}

/// An answer, the calls of its source and of its sink, and what went out.
#[derive(Drop)]
struct Ended {
    answer: Answer,
    reads: u64,
    writes: u64,
    text: Vec<u8>,
}

/// How it ends where it reads and writes by these steps.
fn run_by<T: Threads + Wait + Sync>(
    rt: &T,
    alloc: Global,
    asked: Asked<'_>,
    (reads, writes): (&[Step], &[Step]),
) -> Result<Ended, AllocError> {
    let mut buffer = [0; 1000];
    let mut memory = MemorySink::new(&mut buffer);
    let mut sink = RehearsedSink::new(&mut memory, writes);
    let mut source = RehearsedSource::new(MemorySource::new(asked.input), reads);
    let answer = run_from(rt, alloc, asked.run, &mut source, &mut sink);
    let (reads, writes) = (source.tally().calls, sink.tally().calls);
    let text = Vec::from_slice(alloc, memory.held())?;
    Ok(Ended {
        answer,
        reads,
        writes,
        text,
    })
}

/// It ends so where it reads and writes by these steps, and with as many writes. Tells how often it read.
fn check_end<T: Threads + Wait + Sync + Abort>(
    rt: &T,
    alloc: Global,
    asked: Asked<'_>,
    (reads, writes): (&[Step], &[Step]),
    (answer, text): (Answer, &[u8]),
) -> Result<u64, Fail> {
    let ended = run_by(rt, alloc, asked, (reads, writes))?;
    let about = (asked.run, reads.len());
    let found = (ended.answer, ended.writes, ended.text.as_slice());
    check_same_of(rt, &about, &found, &(answer, writes.len() as u64, text));
    Ok(ended.reads)
}

/// So many steps of a byte, each after so many interruptions.
fn bytes_after(alloc: Global, bytes: usize, interruptions: usize) -> Result<Vec<Step>, AllocError> {
    let mut steps = Vec::new(alloc);
    for _ in 0..bytes {
        for _ in 0..interruptions {
            steps.push(Step::Again)?;
        }
        steps.push(Step::Moved(1))?;
    }
    Ok(steps)
}

/// The interruptions before each byte that is read, and before each that is written.
const INTERRUPTIONS: [(usize, usize); 3] = [(0, 0), (1, 1), (3, 999)];

/// It reads and writes single bytes, each after so many interruptions, one call for each.
fn check_single_bytes<T: Threads + Wait + Sync + Abort>(
    rt: &T,
    alloc: Global,
    asked: Asked<'_>,
    (answer, text): (Answer, &[u8]),
    (before_reads, before_writes): (usize, usize),
) -> Result<(), Fail> {
    let reads = bytes_after(alloc, asked.input.len(), before_reads)?;
    let writes = bytes_after(alloc, text.len(), before_writes)?;
    check_end(rt, alloc, asked, (&reads, &writes), (answer, text))?;
    Ok(())
}

/// It reads so many single bytes, stops at a failed read and writes nothing.
fn check_failed_read<T: Threads + Wait + Sync + Abort>(
    rt: &T,
    alloc: Global,
    asked: Asked<'_>,
    read: usize,
) -> Result<(), Fail> {
    let mut steps = bytes_after(alloc, read, 0)?;
    steps.push(Step::Failed)?;
    let wanted = (Err(ProgramFault::Read), b"".as_slice());
    let calls = check_end(rt, alloc, asked, (&steps, &[]), wanted)?;
    check_same(rt, &calls, &(steps.len() as u64));
    Ok(())
}

/// Its writes take so many single bytes and then go by these steps, and it leaves a front of as many.
fn check_front<T: Threads + Wait + Sync + Abort>(
    rt: &T,
    alloc: Global,
    asked: Asked<'_>,
    front: &[u8],
    last: &[Step],
) -> Result<(), Fail> {
    let mut steps = bytes_after(alloc, front.len(), 0)?;
    steps.extend_from_slice(last)?;
    let wanted = (Err(ProgramFault::Write), front);
    check_end(rt, alloc, asked, (&[], &steps), wanted)?;
    Ok(())
}

/// Its writes fail behind each fifth byte. One takes nothing, or is interrupted too often, at the first byte, at the second, in the middle and
/// at the last.
fn check_fronts<T: Threads + Wait + Sync + Abort>(
    rt: &T,
    alloc: Global,
    asked: Asked<'_>,
    text: &[u8],
) -> Result<(), Fail> {
    for length in 0..text.len() {
        if length % 5 == 0 {
            check_front(rt, alloc, asked, &text[..length], &[Step::Failed])?;
        }
    }
    let last = text.len().saturating_sub(1);
    for length in [0, 1, last / 2, last] {
        let front = text.get(..length).ok_or("a longer text")?;
        check_front(rt, alloc, asked, front, &[Step::Moved(0)])?;
        check_front(rt, alloc, asked, front, &[Step::Again; 1000])?;
    }
    Ok(())
}

fn check_ends<T: Threads + Wait + Sync + Abort>(
    rt: &T,
    alloc: Global,
    asked: Asked<'_>,
    (answer, text): (Answer, &[u8]),
) -> Result<(), Fail> {
    for interruptions in INTERRUPTIONS {
        check_single_bytes(rt, alloc, asked, (answer, text), interruptions)?;
    }
    // the last of them finds the end
    for read in 0..=asked.input.len() {
        check_failed_read(rt, alloc, asked, read)?;
    }
    check_fronts(rt, alloc, asked, text)
}

fn check_sample<T: Threads + Wait + Sync + Abort>(
    rt: &T,
    alloc: Global,
    (run, input, answer, text): Sample<'_>,
) -> Result<(), Fail> {
    let (input, text) = (input.concat(alloc)?, text.parts().concat(alloc)?);
    let asked = Asked {
        run,
        input: input.as_bytes(),
    };
    check_ends(rt, alloc, asked, (answer, text.as_bytes()))
}

#[test]
fn each_command_ends_as_its_calls_do(rt: HostRuntime) -> Result<(), Fail> {
    for &(command, input, answer, text) in &CASES {
        check_sample(&rt, rt.alloc(), (Run::Of(command), input, answer, text))?;
    }
    check_sample(&rt, rt.alloc(), SEARCH)
}

/// Is interrupted at each call.
#[derive(Drop)]
struct Interrupted {
    tally: Tally,
}

impl Source for Interrupted {
    ghost left = { λ _. None };

    ghost tally = { λ s. s.tally };

    fn pull(&mut self, _buffer: &mut [u8]) -> Step {
        self.tally = self.tally.noting(Step::Again);
        Step::Again
    }
}

#[test]
fn reads_that_are_all_interrupted_are_given_up(rt: HostRuntime) {
    let mut source = Interrupted {
        tally: Tally::new(),
    };
    let mut buffer = [0; 1];
    let mut sink = MemorySink::new(&mut buffer);
    let answer = start_from(rt.alloc(), &mut source, &mut sink);
    let found = (answer, source.tally.calls, sink.tally().calls);
    check_same(&rt, &found, &(Err(ProgramFault::Read), 8_388_608, 0));
}

/// Inputs that a command takes for no league, and why.
const REFUSED_LEAGUES: [(&[u8], ProgramFault); 2] = [
    (b"", ProgramFault::League(LeagueFault::NotJson)),
    (
        br#"{"format":1,"teams":["A","B","C"],"distances":[]}"#,
        ProgramFault::League(LeagueFault::TeamCount),
    ),
];

/// Inputs that are taken for no table of distances, and why.
const REFUSED_TABLES: [(&[u8], ProgramFault); 2] = [
    (b"", ProgramFault::Distances(DistanceFault::NoRow)),
    (
        b"A,B\n0,1\n1,0\n",
        ProgramFault::Distances(DistanceFault::TeamCount),
    ),
];

fn check_no_writes<T: Threads + Wait + Sync + Abort>(
    rt: &T,
    alloc: Global,
    run: Run,
    too_long: &[u8],
) -> Result<(), Fail> {
    let [first, second] = match run {
        Run::Of(Command::League) => REFUSED_TABLES,
        _ => REFUSED_LEAGUES,
    };
    for (input, fault) in [first, second, (too_long, ProgramFault::TooLong)] {
        let asked = Asked { run, input };
        check_end(rt, alloc, asked, (&[], &[]), (Err(fault), b""))?;
    }
    Ok(())
}

#[test]
fn no_command_writes_before_a_fault_of_its_input(rt: HostRuntime) -> Result<(), Fail> {
    let blanks = vec![in rt.alloc(); b' '; 4_194_305]?;
    for (command, ..) in &CASES {
        check_no_writes(&rt, rt.alloc(), Run::Of(*command), &blanks)?;
    }
    check_no_writes(&rt, rt.alloc(), Run::Search, &blanks)
}
