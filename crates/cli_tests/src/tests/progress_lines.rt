//! The line of a search: what is written on a terminal that keeps its bytes, by a clock that is set.

use crate::tests::checks::{check_holds, check_same, check_same_of};
use crate::tests::circle::CIRCLE;
use crate::tests::searches::{found, found_by};
use crate::tests::told::Told;
use byte_streams::{MemorySink, RehearsedSink, Sink, Step};
use commands::{Extent, ProgressLine, RunContext, SearchPlan};
use draws::{Gate, Progress};
use fixture_board::{Reply, Why};
use std::alloc::{AllocError, Global};
use std::io;
use std::io::ErrorKind;
use std::process::Abort;
use std::sync::Wait;
use std::sync::atomic::{AtomicU64, Ordering};
use std::test::Fail;
use std::thread::Threads;
use std::time::{Clock, Duration};

/// A clock that goes on by so many milliseconds at each reading, from 0, or that can't be read.
#[derive(Drop)]
pub(crate) struct Ticks {
    step: Option<u64>,
    readings: AtomicU64,
}

impl Ticks {
    pub(crate) fn new(step: Option<u64>) -> Ticks {
        let readings = AtomicU64::new(0);
        Ticks { step, readings }
    }
}

impl Clock for Ticks {
    fn monotonic(&self) -> io::Result<Duration> {
        let before = self.readings.fetch_add(1, Ordering::SeqCst);
        match self.step {
            Some(step) => Ok(Duration::from_millis(before.saturating_mul(step))),
            None => Err(io::Error::from(ErrorKind::Unsupported)),
        }
    }

    fn since_1970(&self) -> io::Result<Duration> {
        Ok(Duration::ZERO)
    }
}

/// Two workers of 20,000 steps each.
const PLAN: SearchPlan = SearchPlan {
    workers: 2,
    seed: 1,
    steps: 20_000,
    slack: 0,
};

/// The milliseconds between two readings, the number of tellings, and the pauses after the last four.
const PAUSES: [(u64, usize, [u32; 4]); 6] = [
    // where tellings follow each other by less than 8 milliseconds they become half as many, down to one in 4,096 steps
    (7, 4, [2, 4, 8, 16]),
    (7, 12, [512, 1024, 2048, 4096]),
    (7, 16, [4096; 4]),
    // slow steps are told one by one
    (8, 4, [1; 4]),
    (64, 4, [1; 4]),
    (65, 4, [1; 4]),
];

/// The pauses of a line after each of so many tellings.
fn pauses(rt: &impl Wait, clock: &Ticks, tellings: usize) -> [u32; 4] {
    let mut buffer = [0; 1000];
    let line = ProgressLine::new(clock, MemorySink::new(&mut buffer), PLAN);
    let progress = Progress {
        steps: 1,
        least: None,
    };
    let mut pauses = [0; 4];
    line.begun(rt, 0);
    for told in 0..tellings {
        line.reported(rt, 0, progress);
        pauses[told % 4] = line.pause();
    }
    pauses
}

#[test]
fn quick_steps_are_told_by_thousands_and_slow_ones_one_by_one(rt: HostRuntime) {
    for (step, tellings, wanted) in PAUSES {
        let found = pauses(&rt, &Ticks::new(Some(step)), tellings);
        check_same_of(&rt, &(step, tellings), &found, &wanted);
    }
}

/// A worker, and the least total that it tells.
type Telling = (u32, Option<u64>);

/// The reports of a search's workers in turn.
const TOLD: &[Telling] = &[
    (0, None),
    (1, Some(3_000)),
    (0, Some(998)),
    (1, Some(999)),
    (1, None),
];

/// Tellings on a terminal that takes bytes by these steps, and what it holds then.
struct Showing<'a> {
    step: Option<u64>,
    writes: &'a [Step],
    told: &'a [Telling],
    ends: bool,
    shown: &'a str,
}

/// A worker tells so often that it took more steps than were planned.
const TOO_MANY: &[Telling] = &[(0, None); 11];

/// The worker begins at 0 milliseconds. What is left is worked out by hand from the steps and the time.
const SHOWINGS: &[Showing<'_>] = &[
    // each telling writes a line where the clock goes on by 250 milliseconds, and the end writes the last one again
    Showing {
        step: Some(250),
        writes: &[],
        told: TOLD,
        ends: true,
        shown: "\r\x1b[K\x1b[?7l10 % steps 4096 of 40000 best none left 0:00:02\x1b[?7h\
            \r\x1b[K\x1b[?7l20 % steps 8192 of 40000 best 3000 left 0:00:01\x1b[?7h\
            \r\x1b[K\x1b[?7l30 % steps 12288 of 40000 best 998 left 0:00:01\x1b[?7h\
            \r\x1b[K\x1b[?7l40 % steps 16384 of 40000 best 998 left 0:00:01\x1b[?7h\
            \r\x1b[K\x1b[?7l51 % steps 20480 of 40000 best 998 left 0:00:01\x1b[?7h\
            \r\x1b[K\x1b[?7l51 % steps 20480 of 40000 best 998 left 0:00:01\x1b[?7h\
            \r\x1b[K",
    },
    // of the tellings at 249, 498, 747, 996 and 1245 milliseconds the second and the fourth are late enough
    Showing {
        step: Some(249),
        writes: &[],
        told: TOLD,
        ends: true,
        shown: "\r\x1b[K\x1b[?7l20 % steps 8192 of 40000 best 3000 left 0:00:01\x1b[?7h\
            \r\x1b[K\x1b[?7l40 % steps 16384 of 40000 best 998 left 0:00:01\x1b[?7h\
            \r\x1b[K\x1b[?7l51 % steps 20480 of 40000 best 998 left 0:00:01\x1b[?7h\
            \r\x1b[K",
    },
    // no total is known
    Showing {
        step: Some(1000),
        writes: &[],
        told: &[(0, None), (0, None)],
        ends: false,
        shown: "\r\x1b[K\x1b[?7l10 % steps 4096 of 40000 best none left 0:00:08\x1b[?7h\
            \r\x1b[K\x1b[?7l20 % steps 8192 of 40000 best none left 0:00:07\x1b[?7h",
    },
    // steps take an hour
    Showing {
        step: Some(3_600_000),
        writes: &[],
        told: &[(0, None)],
        ends: false,
        shown: "\r\x1b[K\x1b[?7l10 % steps 4096 of 40000 best none left 8:45:56\x1b[?7h",
    },
    Showing {
        step: Some(24),
        writes: &[],
        told: TOO_MANY,
        ends: false,
        shown: "\r\x1b[K\x1b[?7l100 % steps 45056 of 40000 best none left 0:00:00\x1b[?7h",
    },
    // a failed write loses its line alone
    Showing {
        step: Some(250),
        writes: &[Step::Failed, Step::Moved(5), Step::Moved(0)],
        told: TOLD,
        ends: true,
        shown: "\r\x1b[K\x1b\
            \r\x1b[K\x1b[?7l30 % steps 12288 of 40000 best 998 left 0:00:01\x1b[?7h\
            \r\x1b[K\x1b[?7l40 % steps 16384 of 40000 best 998 left 0:00:01\x1b[?7h\
            \r\x1b[K\x1b[?7l51 % steps 20480 of 40000 best 998 left 0:00:01\x1b[?7h\
            \r\x1b[K\x1b[?7l51 % steps 20480 of 40000 best 998 left 0:00:01\x1b[?7h\
            \r\x1b[K",
    },
    // no line is due
    Showing {
        step: Some(49),
        writes: &[],
        told: TOLD,
        ends: true,
        shown: "",
    },
    Showing {
        step: None,
        writes: &[],
        told: TOLD,
        ends: true,
        shown: "",
    },
];

/// A reply, of which the line makes nothing.
const REPLY: Reply = Reply::No {
    at: 0,
    why: Why::Old,
};

fn tell_all<R: Wait, C: Clock, W: Sink>(
    rt: &R,
    line: &ProgressLine<'_, C, W>,
    showing: &Showing<'_>,
) {
    line.begun(rt, 0);
    for (worker, least) in showing.told {
        line.enter(rt, *worker, 0);
        line.left(rt, *worker, 0, REPLY);
        let progress = Progress {
            steps: 4096,
            least: *least,
        };
        line.reported(rt, *worker, progress);
    }
    if showing.ends {
        line.ended(rt);
    }
}

/// The terminal was never called where it is to hold nothing.
fn check_showing<R: Wait + Abort>(rt: &R, showing: &Showing<'_>) {
    let mut buffer = [0; 1000];
    let mut memory = MemorySink::new(&mut buffer);
    let mut terminal = RehearsedSink::new(&mut memory, showing.writes);
    let clock = Ticks::new(showing.step);
    tell_all(rt, &ProgressLine::new(&clock, &mut terminal, PLAN), showing);
    let is_quiet = terminal.tally().calls == 0;
    let found = (memory.held(), is_quiet);
    let wanted = (showing.shown.as_bytes(), showing.shown.is_empty());
    check_same_of(rt, &showing.step, &found, &wanted);
}

#[test]
fn line_is_written_when_it_is_due_and_taken_away(rt: HostRuntime) {
    for showing in SHOWINGS {
        check_showing(&rt, showing);
    }
}

/// Runs with one line: how many steps they have in all, how many are told in each run, how many then in one that doesn't end, and what the
/// terminal holds then.
type Runs<'a> = (u64, &'a [u64], u64, &'a str);

/// A millisecond passes at each telling.
const RUNS: [Runs<'_>; 2] = [
    // after a quarter of a second the first run shows the line, and its end shows it again and takes it away. The first telling of the second
    // run writes it at once, and its end shows all steps
    (
        280,
        &[250, 30],
        0,
        "\r\x1b[K\x1b[?7l89 % steps 250 of 280 best 30 left 0:00:00\x1b[?7h\
            \r\x1b[K\x1b[?7l89 % steps 250 of 280 best 30 left 0:00:00\x1b[?7h\r\x1b[K\
            \r\x1b[K\x1b[?7l89 % steps 251 of 280 best 30 left 0:00:00\x1b[?7h\
            \r\x1b[K\x1b[?7l100 % steps 280 of 280 best 30 left 0:00:00\x1b[?7h\r\x1b[K",
    ),
    // a worker that goes on while a text is written shows no line before a quarter of a second has passed
    (
        800,
        &[250],
        250,
        "\r\x1b[K\x1b[?7l31 % steps 250 of 800 best 30 left 0:00:00\x1b[?7h\
            \r\x1b[K\x1b[?7l31 % steps 250 of 800 best 30 left 0:00:00\x1b[?7h\r\x1b[K\
            \r\x1b[K\x1b[?7l62 % steps 500 of 800 best 30 left 0:00:00\x1b[?7h",
    ),
];

/// A worker tells so often after a step.
fn tell_steps<C: Clock, W: Sink>(rt: &impl Wait, line: &ProgressLine<'_, C, W>, tellings: u64) {
    let progress = Progress {
        steps: 1,
        least: Some(30),
    };
    for _telling in 0..tellings {
        line.reported(rt, 0, progress);
    }
}

fn run_each<C: Clock, W: Sink>(rt: &impl Wait, line: &ProgressLine<'_, C, W>, runs: &[u64]) {
    for tellings in runs {
        line.begun(rt, 0);
        tell_steps(rt, line, *tellings);
        line.ended(rt);
    }
}

fn check_runs<R: Wait + Abort>(rt: &R, (steps, runs, rest, shown): Runs<'_>) {
    let mut buffer = [0; 1000];
    let mut terminal = MemorySink::new(&mut buffer);
    let clock = Ticks::new(Some(1));
    let line = ProgressLine::over(&clock, &mut terminal, Extent::Steps(steps));
    run_each(rt, &line, runs);
    tell_steps(rt, &line, rest);
    drop(line);
    check_same(rt, &terminal.held(), &shown.as_bytes());
}

#[test]
fn line_comes_again_in_the_next_run(rt: HostRuntime) {
    for runs in RUNS {
        check_runs(&rt, runs);
    }
}

const PLAN_OF_ONE: SearchPlan = SearchPlan {
    workers: 1,
    seed: 1,
    steps: 4,
    slack: 4,
};

const ROOM: u32 = 100_000;

/// The answer and the text of a search by one worker that shows on the terminal how far it is. Each step takes a second.
fn searched<T: Threads + Wait + Sync, W: Sink + Send + Drop>(
    rt: &T,
    alloc: Global,
    terminal: W,
    input: &str,
) -> Result<Told, AllocError> {
    let clock = Ticks::new(Some(1000));
    let gate = &ProgressLine::new(&clock, terminal, PLAN_OF_ONE);
    found_by(RunContext { rt, alloc, gate }, input, ROOM, PLAN_OF_ONE)
}

/// The totals are those of `PAUSE=1 scripts/oracle worker-steps asks 1 0 4 4 4 100000`.
const SHOWN: &[u8] = b"\r\x1b[K\x1b[?7l25 % steps 1 of 4 best 30 left 0:00:03\x1b[?7h\
    \r\x1b[K\x1b[?7l50 % steps 2 of 4 best 30 left 0:00:02\x1b[?7h\
    \r\x1b[K\x1b[?7l75 % steps 3 of 4 best 26 left 0:00:01\x1b[?7h\
    \r\x1b[K\x1b[?7l100 % steps 4 of 4 best 26 left 0:00:00\x1b[?7h\
    \r\x1b[K\x1b[?7l100 % steps 4 of 4 best 26 left 0:00:00\x1b[?7h\
    \r\x1b[K";

#[test]
fn search_shows_its_line_and_takes_it_away(rt: HostRuntime) -> Result<(), Fail> {
    let mut buffer = [0; 1000];
    let mut terminal = MemorySink::new(&mut buffer);
    let shown = searched(&rt, rt.alloc(), &mut terminal, CIRCLE)?;
    let quiet = found(&rt, rt.alloc(), CIRCLE, ROOM, PLAN_OF_ONE)?;
    check_same(&rt, &shown.text, &quiet.text);
    check_same(&rt, &terminal.held(), &SHOWN);
    Ok(())
}

#[test]
fn refused_search_shows_no_line(rt: HostRuntime) -> Result<(), Fail> {
    let mut buffer = [0; 1000];
    let mut terminal = MemorySink::new(&mut buffer);
    let answer = searched(&rt, rt.alloc(), &mut terminal, "")?.answer;
    let calls = terminal.tally().calls;
    check_same(&rt, &(answer.is_err(), calls), &(true, 0));
    Ok(())
}

/// A line that is told by a hundred steps, whatever they take.
#[derive(Drop)]
struct ByHundreds<'a, C, W> {
    line: ProgressLine<'a, C, W>,
}

impl<C: Clock, W: Sink> Gate for ByHundreds<'_, C, W> {
    ghost heard = { λ _ _ _ _. Unit {0} };

    ghost was_reported = { λ _ _ _. Unit {0} };

    fn enter<R: Wait>(&self, _rt: &R, _worker: u32, _made: u32) {}

    fn left<R: Wait>(&self, _rt: &R, _worker: u32, _made: u32, _reply: Reply) {}

    fn begun<R: Wait>(&self, rt: &R, worker: u32) {
        self.line.begun(rt, worker);
    }

    fn pause(&self) -> u32 {
        100
    }

    fn reported<R: Wait>(&self, rt: &R, worker: u32, progress: Progress) {
        self.line.reported(rt, worker, progress);
    }

    fn ended<R: Wait>(&self, rt: &R) {
        self.line.ended(rt);
    }
}

/// The text that stands last on a terminal before it is taken away.
pub(crate) fn last_line(shown: &[u8]) -> Option<&str> {
    let shown = str::from_utf8(shown).ok()?;
    let (lines, _) = shown.rsplit_once("\r\x1b[K")?;
    let (_, last) = lines.rsplit_once("\r\x1b[K\x1b[?7l")?;
    last.strip_suffix("\x1b[?7h")
}

/// Workers, and how the last line of a search begins in which each takes 250 steps.
const LAST: [(u32, &str); 3] = [
    (1, "100 % steps 250 of 250 best "),
    (4, "100 % steps 1000 of 1000 best "),
    (16, "100 % steps 4000 of 4000 best "),
];

/// Searches by this plan, with a line on the terminal. A quarter of a second passes at each telling.
fn search_by_hundreds<T: Threads + Wait + Sync, W: Sink + Send + Drop>(
    rt: &T,
    alloc: Global,
    terminal: W,
    plan: SearchPlan,
) -> Result<(), AllocError> {
    let clock = Ticks::new(Some(250));
    let line = ProgressLine::new(&clock, terminal, plan);
    let gate = &ByHundreds { line };
    found_by(RunContext { rt, alloc, gate }, CIRCLE, ROOM, plan)?;
    Ok(())
}

fn check_last_line<T: Threads + Wait + Sync + Abort>(
    rt: &T,
    alloc: Global,
    workers: u32,
    wanted: &str,
) -> Result<(), Fail> {
    let mut buffer = vec![in alloc; 0; 10_000]?;
    let mut terminal = MemorySink::new(&mut buffer);
    let plan = SearchPlan {
        workers,
        steps: 250,
        ..PLAN
    };
    search_by_hundreds(rt, alloc, &mut terminal, plan)?;
    let last = last_line(terminal.held()).ok_or("no line")?;
    check_holds(rt, &last, last.starts_with(wanted));
    Ok(())
}

/// Of each worker the last 50 steps are told at its end alone.
#[test]
fn last_line_shows_all_steps(rt: HostRuntime) -> Result<(), Fail> {
    for (workers, wanted) in LAST {
        check_last_line(&rt, rt.alloc(), workers, wanted)?;
    }
    Ok(())
}
