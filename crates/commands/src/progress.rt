//! The line that tells on a terminal how far a search is.

ghost use Rattle.std.specs.Prelude.{◌≡◌, OnOk, OnErr, Some, true, false};
ghost use Rattle.std.specs.Io.KnownBytes.{Appends};
ghost use Rattle.byte_streams.specs.Sending.{AppendsPrefix};
ghost use Rattle.board_texts.specs.ProgressText.{clear_line, progress_line};
ghost use Rattle.commands.specs.within.Progress.{advance_of, first, is_due, last_after, pause_after, reached_with, seconds_left};
ghost use Rattle.commands.specs.within.Progress.{seconds_of, steps_within};

use board_texts::{Advance, write_clear, write_progress};
use byte_streams::{BufferedSink, Sink, WriteFault};
use choices::SearchPlan;
use draws::{Gate, Progress};
use fixture_board::Reply;
use std::sync::atomic::{AtomicU32, Ordering};
use std::sync::{Mutex, Wait};
use std::time::{Clock, Instant};

/// How many milliseconds pass between two lines.
const PAUSE: u128 = 250;

/// If fewer milliseconds passed between two reports, the workers report half as often.
const SOON: u128 = 8;

/// If more passed, they report twice as often.
const LATE: u128 = 64;

/// The most steps between two tellings of a worker.
const MOST_STEPS: u32 = 4096;

/// How much the workers are to do.
#[derive(Clone, Copy)]
pub enum Extent {
    /// So many steps in all.
    Steps(u64),
    /// As many steps as they get done in so many seconds.
    Seconds(u32),
}

/// Writes on a terminal how many steps the workers took, the least total that they reported, and how long the other steps may
/// take. The line is written a few times a second, each over the one before. At an end it is written a last time and taken
/// away, so that a text can be written. If workers begin after that, the next telling writes it again. No worker waits for the
/// terminal but the one that writes: what is reported meanwhile stands in the next line. Contracts say what is counted and what each line is, but
/// not that each step and each end is reported to a gate.
#[derive(Drop)]
pub struct ProgressLine<'a, C, W> {
    clock: &'a C,
    reached: Mutex<Reached>,
    line: Mutex<TerminalLine<W>>,
    /// The line's pause, which workers read at each step.
    pause: AtomicU32,
}

impl<'a, C: Clock, W: Sink> ProgressLine<'a, C, W> {
    /// A line of a search by this plan, which isn't written yet.
    pub fn new(clock: &'a C, terminal: W, plan: SearchPlan) -> Self {
        let steps = u64::from(plan.workers) * u64::from(plan.steps);
        ProgressLine::over(clock, terminal, Extent::Steps(steps))
    }

    /// A line of runs, one after another, whose workers do so much in all. It isn't written yet.
    pub fn over(clock: &'a C, terminal: W, extent: Extent) -> Self {
        let reached = Reached {
            steps: 0,
            least: None,
        };
        let line = TerminalLine {
            terminal,
            extent,
            since: None,
            last: None,
            reported: None,
            pause: 1,
            written: false,
            taken: false,
            again: false,
        };
        ProgressLine {
            clock,
            reached: Mutex::new(reached),
            line: Mutex::new(line),
            pause: AtomicU32::new(1),
        }
    }
}

impl<C: Clock, W: Sink> Gate for ProgressLine<'_, C, W> {
    ghost heard = { λ _ _ _ _. Unit {0} };

    ghost was_reported = { λ _ _ _. Unit {0} };

    fn enter<R: Wait>(&self, _rt: &R, _worker: u32, _made: u32) {}

    fn left<R: Wait>(&self, _rt: &R, _worker: u32, _made: u32, _reply: Reply) {}

    fn begun<R: Wait>(&self, rt: &R, _worker: u32) {
        if let Ok(now) = Instant::now(self.clock) {
            self.line.lock(rt).begin(now);
        }
    }

    fn pause(&self) -> u32 {
        self.pause.load(Ordering::SeqCst)
    }

    fn reported<R: Wait>(&self, rt: &R, _worker: u32, progress: Progress) {
        self.reached.lock(rt).add(progress);
        let Some(mut line) = self.line.try_lock() else {
            return;
        };
        let Ok(now) = Instant::now(self.clock) else {
            return;
        };
        line.pace(now);
        self.pause.store(line.pause, Ordering::SeqCst);
        if line.is_due(now) {
            let reached = *self.reached.lock(rt);
            // a terminal that takes no line shows none, and the search goes on
            let _ = line.show(reached, Some(now));
        }
    }

    fn ended<R: Wait>(&self, rt: &R) {
        let mut line = self.line.lock(rt);
        let reached = *self.reached.lock(rt);
        line.end(reached, Instant::now(self.clock).ok());
    }
}

/// How far all workers are.
#[derive(Clone, Copy)]
struct Reached {
    steps: u64,
    least: Option<u64>,
}

impl Reached {
    /// Takes in what one worker reports.
    fn add(&mut self, progress: Progress)
        ensures { self.new ≡ reached_with self.old progress }
    {
        self.steps = self.steps.saturating_add(u64::from(progress.steps));
        self.least = match (self.least, progress.least) {
            (Some(known), Some(reported)) => Some(known.min(reported)),
            (known, reported) => known.or(reported),
        };
    }
}

/// The line on the terminal.
#[derive(Drop)]
struct TerminalLine<W> {
    terminal: W,
    extent: Extent,
    /// When the first worker began.
    since: Option<Instant>,
    /// When the line was written or taken away last or, before the first one, was first asked for.
    last: Option<Instant>,
    /// When a worker last reported.
    reported: Option<Instant>,
    /// After how many steps a worker reports.
    pause: u32,
    /// Whether the line was ever written.
    written: bool,
    /// Whether the line was taken away since it was last written.
    taken: bool,
    /// Whether a worker has begun since then.
    again: bool,
}

impl<W: Sink> TerminalLine<W> {
    /// Notes when the first worker began, and that one has.
    fn begin(&mut self, now: Instant)
        ensures { self.new ≡ record self.old
            { since = first self.old.since now; last = first self.old.last now; reported = first self.old.reported now; again = self.old.taken } }
    {
        self.again = self.taken;
        self.since = self.since.or(Some(now));
        self.last = self.last.or(Some(now));
        self.reported = self.reported.or(Some(now));
    }

    /// Has the workers report some hundred times a second at most, and a few times if a step takes long.
    fn pace(&mut self, now: Instant)
        ensures { self.new ≡ record self.old { pause = pause_after self.old.pause self.old.reported now; reported = Some now } }
    {
        if let Some(reported) = self.reported {
            let passed = now.duration_since(reported).as_millis();
            if passed < SOON {
                self.pause = self.pause.min(MOST_STEPS / 2) * 2;
            } else if LATE < passed {
                self.pause = (self.pause / 2).max(1);
            }
        }
        self.reported = Some(now);
    }

    /// Whether the line is to be written now: if it is to come again, or stood or was away long enough. Notes the time if it is, or if
    /// this is asked for the first time.
    fn is_due(&mut self, now: Instant) -> bool
        ensures due { result ≡ is_due self.old.again self.old.last now }
        ensures last { self.new ≡ record self.old { last = last_after self.old.again self.old.last now } }
    {
        let due = match self.last {
            Some(last) => self.again || PAUSE <= now.duration_since(last).as_millis(),
            None => false,
        };
        if due || self.last.is_none() {
            self.last = Some(now);
        }
        due
    }

    /// Writes the line over the one that stands.
    fn show(&mut self, reached: Reached, now: Option<Instant>) -> Result<(), WriteFault>
        ensures ok { OnOk result (Appends (W.held self.old.terminal) (W.held self.new.terminal)
            (progress_line (advance_of reached self.old.extent self.old.since now))) }
        ensures prefix { OnErr result (AppendsPrefix (W.held self.old.terminal) (W.held self.new.terminal)
            (progress_line (advance_of reached self.old.extent self.old.since now))) }
        ensures written { self.new.written ≡ true }
        ensures taken { self.new.taken ≡ false }
        ensures again { self.new.again ≡ false }
    {
        self.written = true;
        self.taken = false;
        self.again = false;
        let advance = self.advance(reached, now);
        let mut out = BufferedSink::new(&mut self.terminal);
        write_progress(&mut out, advance)?;
        out.flush()
    }

    /// Writes the line a last time and takes it away, if it was ever written. A terminal that takes neither may keep it.
    fn end(&mut self, reached: Reached, now: Option<Instant>)
        ensures away { self.old.written ≡ true → self.new.taken ≡ true }
        ensures never { self.old.written ≡ false → self.new ≡ self.old }
    {
        if self.written {
            let _ = self.show(reached, now);
            let _ = self.clear();
            self.last = now.or(self.last);
        }
    }

    /// The text of the line. If there is a time for it, all steps are those that come to be if they go on as they did.
    fn advance(&self, reached: Reached, now: Option<Instant>) -> Advance
        ensures { result ≡ advance_of reached self.now.extent self.now.since now }
    {
        let steps = reached.steps;
        let (all, left) = match self.extent {
            Extent::Steps(all) => (all, self.seconds_left(steps, all, now)),
            Extent::Seconds(seconds) => (
                self.steps_within(steps, seconds, now),
                self.seconds_of(seconds, now),
            ),
        };
        Advance {
            steps,
            all,
            least: reached.least,
            left,
        }
    }

    /// How many steps these seconds make, if they go on as they did.
    fn steps_within(&self, steps: u64, seconds: u32, now: Option<Instant>) -> u64
        ensures { result ≡ steps_within steps seconds self.now.since now }
    {
        let (Some(since), Some(now)) = (self.since, now) else {
            return steps;
        };
        let passed = now.duration_since(since).as_millis().max(1);
        let within = u128::from(steps) * (u128::from(seconds) * 1000) / passed;
        steps.max(within.min(u128::from(u64::MAX)) as u64)
    }

    /// How many of these seconds are left.
    fn seconds_of(&self, seconds: u32, now: Option<Instant>) -> Option<u64>
        ensures { result ≡ seconds_of seconds self.now.since now }
    {
        let (Some(since), Some(now)) = (self.since, now) else {
            return None;
        };
        let passed = now.duration_since(since).as_millis() / 1000;
        Some(u128::from(seconds).saturating_sub(passed) as u64)
    }

    /// How many seconds the other steps take, if each takes as long as those so far did.
    fn seconds_left(&self, steps: u64, all: u64, now: Option<Instant>) -> Option<u64>
        ensures { result ≡ seconds_left steps all self.now.since now }
    {
        let (Some(since), Some(now)) = (self.since, now) else {
            return None;
        };
        if steps == 0 {
            return None;
        }
        let passed = now
            .duration_since(since)
            .as_millis()
            .min(u128::from(u64::MAX));
        let left = u128::from(all.saturating_sub(steps));
        let seconds = left * passed / (u128::from(steps) * 1000);
        Some(seconds.min(u128::from(u64::MAX)) as u64)
    }

    /// Takes the line away.
    fn clear(&mut self) -> Result<(), WriteFault>
        ensures ok { OnOk result (Appends (W.held self.old.terminal) (W.held self.new.terminal) clear_line) }
        ensures prefix { OnErr result (AppendsPrefix (W.held self.old.terminal) (W.held self.new.terminal) clear_line) }
        ensures taken { self.new.taken ≡ true }
    {
        self.taken = true;
        let mut out = BufferedSink::new(&mut self.terminal);
        write_clear(&mut out)?;
        out.flush()
    }
}
