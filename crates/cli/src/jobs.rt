//! The jobs, done on texts that were read.

ghost use Rattle.std.specs.Prelude.{◌≡◌, ◌<◌, ◌≤◌, [], IfOk, IfSome, IsTrue, false, is_some, length, option_map, true, unwrap_or};
ghost use Rattle.std.specs.Str.Lines.{lines};
ghost use Rattle.options.specs.CommandLine.{IsInRange};
ghost use Rattle.league.specs.Labels.{is_title};
ghost use Rattle.league.specs.Limits.{max_weight};
ghost use Rattle.commands.specs.Outcome.{value_of, without_value};
ghost use Rattle.cli.specs.Program.{league_part, lines_part, plan_of, rounded_in, search_end_in, verdict_in, wants_history, Performs};

use crate::timed::Timed;
use byte_streams::WriterSink;
use commands::{
    Beginning, Extent, Gate, ImprovePlan, MAX_EFFORT, NoGate, ProgramFault, ProgressLine,
    RunContext, SearchEnd, Settings, Sink, Verdict, Watcher, bound_on, find_on, improve_on,
    league_on, play_on, report_on, start_on,
};
use options::Job;
use std::alloc::Global;
use std::io::Write;
use std::sync::Wait;
use std::sync::atomic::AtomicBool;
use std::thread::Threads;
use std::time::Clock;
use text_lines::split_at_line;

/// The surroundings of a job, beside its texts and its sink.
#[derive(Drop)]
pub(crate) struct Console<'a, T, E> {
    pub(crate) rt: &'a T,
    pub(crate) alloc: Global,
    /// Nobody reads standard output any more.
    pub(crate) is_closed: &'a AtomicBool,
    /// Where a search shows how far it is.
    pub(crate) terminal: Option<E>,
}

/// The texts that a job works on.
#[derive(Drop)]
pub(crate) struct Texts<'a, 't> {
    /// The league's text, or an input that has the second one too.
    pub(crate) input: &'a [u8],
    /// The script or the schedule, if it was read by itself.
    pub(crate) second: Option<&'a [u8]>,
    /// Where the league begins, if not at its own start.
    pub(crate) beginning: Option<Beginning<'a>>,
    /// The name of a league that is made.
    pub(crate) title: Option<&'t str>,
}

/// How a job ends that did its work.
#[derive(Clone, Copy)]
pub(crate) enum Ending {
    /// Its text is written, and there is no more to say.
    Written,
    /// A report or an improvement, with its verdict.
    Judged(Verdict),
    /// A search, as it ended.
    Searched(SearchEnd),
    /// A league of a table, of which so many distances were rounded.
    Made(u64),
}

/// Does what the job asks for on texts that were read, and shows how far a search is if there is a terminal. A report and an
/// improvement have a verdict, a search tells how it ended, and the watcher is told of the legs of an improvement.
pub(crate) fn perform<
    T: Threads + Wait + Clock + Sync,
    E: Write + Send + Drop,
    W: Sink,
    V: Watcher<W>,
>(
    console: Console<'_, T, E>,
    job: Job,
    texts: &Texts<'_, '_>,
    sink: &mut W,
    watcher: &mut V,
) -> Result<Ending, ProgramFault>
    requires job { IsInRange job }
    requires callable { IsTrue (is_title (option_map (λ title. title.now) texts.now.title)) }
    requires near { IfSome texts.now.beginning (λ b. b.near ≤ max_weight) }
    ensures { Performs W.held W.tally texts.now.input.now (option_map (λ text. text.now) texts.now.second) texts.now.beginning
        (option_map (λ title. title.now) texts.now.title) job sink.old sink.new result }
{
    let Console {
        rt,
        alloc,
        terminal,
        ..
    } = console;
    match terminal {
        Some(terminal) => {
            let gate = &ProgressLine::over(rt, WriterSink::new(terminal), extent_of(job));
            perform_at(RunContext { rt, alloc, gate }, job, texts, sink, watcher)
        }
        None => {
            let gate = &NoGate;
            perform_at(RunContext { rt, alloc, gate }, job, texts, sink, watcher)
        }
    }
}

/// How much the workers of a job do in all.
fn extent_of(job: Job) -> Extent {
    match job {
        Job::Improve {
            effort,
            seconds,
            ..
        } => match seconds {
            Some(seconds) => Extent::Seconds(seconds),
            None => Extent::Steps(effort),
        },
        Job::Find { plan, .. } => Extent::Steps(u64::from(plan.workers) * u64::from(plan.steps)),
        _ => Extent::Steps(0),
    }
}

/// As [`perform`]. The workers pass the run context's gate.
fn perform_at<T: Threads + Wait + Clock + Sync, G: Gate + Sync, W: Sink, V: Watcher<W>>(
    run_context: RunContext<'_, T, G>,
    job: Job,
    texts: &Texts<'_, '_>,
    sink: &mut W,
    watcher: &mut V,
) -> Result<Ending, ProgramFault>
    requires job { IsInRange job }
    requires callable { IsTrue (is_title (option_map (λ title. title.now) texts.now.title)) }
    requires near { IfSome texts.now.beginning (λ b. b.near ≤ max_weight) }
    ensures { Performs W.held W.tally texts.now.input.now (option_map (λ text. text.now) texts.now.second) texts.now.beginning
        (option_map (λ title. title.now) texts.now.title) job sink.old sink.new result }
{
    let alloc = run_context.alloc;
    let Texts {
        input,
        second,
        beginning,
        title,
    } = texts;
    let beginning = beginning.as_ref();
    match job {
        Job::Start => without_verdict(start_on(alloc, input, beginning, sink)),
        Job::Play { room } => {
            let (league, script) = parts(input, *second, b"script");
            let script = script_or_none(script);
            without_verdict(play_on(alloc, league, script, beginning, sink, room))
        }
        Job::Improve {
            workers,
            seed,
            effort,
            seconds,
            history,
        } => {
            let plan = plan_of(workers, seed, effort, seconds, history);
            let timed = Timed::new(run_context.rt, seconds.unwrap_or(0), watcher);
            with_verdict(improve_on(run_context, input, beginning, sink, plan, timed))
        }
        Job::Find { room, plan } => {
            with_search_end(find_on(run_context, input, beginning, sink, room, plan))
        }
        Job::Report(format) => {
            let (league, sheet) = parts(input, *second, b"sheet");
            with_verdict(report_on(alloc, league, sheet, beginning, sink, format))
        }
        Job::League {
            choice,
            at_most,
            hard_weight,
        } => {
            let settings = Settings {
                title: *title,
                at_most,
                hard_weight,
            };
            with_rounded(league_on(alloc, input, sink, choice, settings))
        }
        Job::Bound => without_verdict(bound_on(alloc, input, sink)),
    }
}

/// One improvement, or improvements that follow each other if there are seconds for them.
fn plan_of(workers: u32, seed: u64, effort: u64, seconds: Option<u32>, history: bool) -> ImprovePlan
    ensures { result ≡ plan_of workers seed effort seconds history }
{
    let (effort, first) = match seconds {
        None => (effort, None),
        Some(_) => (MAX_EFFORT, Some(effort)),
    };
    ImprovePlan {
        workers,
        seed,
        effort,
        first,
        history,
    }
}

/// Whether the best schedule is to have the history that leads to it.
pub(crate) fn wants_history(job: Job) -> bool
    ensures { result ≡ wants_history job }
{
    match job {
        Job::Improve { history, .. } => history,
        _ => false,
    }
}

/// The league's text.
pub(crate) fn league_text<'a>(job: Job, texts: &Texts<'a, '_>) -> &'a [u8] {
    match job {
        Job::Play { .. } => parts(texts.input, texts.second, b"script").0,
        Job::Report(_) => parts(texts.input, texts.second, b"sheet").0,
        _ => texts.input,
    }
}

/// The script or the schedule, if there is one.
pub(crate) fn second_text<'a>(job: Job, texts: &Texts<'a, '_>) -> Option<&'a [u8]> {
    match job {
        Job::Play { .. } => parts(texts.input, texts.second, b"script").1,
        Job::Report(_) => parts(texts.input, texts.second, b"sheet").1,
        _ => None,
    }
}

/// The league's text and the one beside it, which was read by itself or stands after the word.
fn parts<'a>(input: &'a [u8], second: Option<&'a [u8]>, word: &[u8]) -> (&'a [u8], Option<&'a [u8]>)
    requires { 0 < length word.now }
    ensures league { result.0.now ≡ league_part word.now input.now (option_map (λ text. text.now) second.entry) }
    ensures lines { option_map (λ text. lines text.now) result.1 ≡ lines_part word.now input.now (option_map (λ text. text.now) second.entry) }
{
    match second {
        Some(second) => (input, Some(second)),
        None => split_at_line(input, word),
    }
}

/// The script, or one without a line if there is none.
fn script_or_none(script: Option<&[u8]>) -> &[u8]
    ensures { lines result.now ≡ unwrap_or (option_map (λ text. lines text.now) script.entry) [] }
{
    match script {
        Some(script) => script,
        None => &[],
    }
}

fn without_verdict(outcome: Result<(), ProgramFault>) -> Result<Ending, ProgramFault>
    ensures outcome { without_value result ≡ outcome }
    ensures verdict { IfOk result (λ ending. is_some (verdict_in (Some ending)) ≡ false) }
    ensures end { IfOk result (λ ending. is_some (search_end_in (Some ending)) ≡ false) }
{
    match outcome {
        Ok(()) => Ok(Ending::Written),
        Err(fault) => Err(fault),
    }
}

fn with_verdict(outcome: Result<Verdict, ProgramFault>) -> Result<Ending, ProgramFault>
    ensures outcome { without_value result ≡ without_value outcome }
    ensures told { verdict_in (value_of result) ≡ value_of outcome }
    ensures verdict { IfOk result (λ ending. is_some (verdict_in (Some ending)) ≡ true) }
    ensures end { IfOk result (λ ending. is_some (search_end_in (Some ending)) ≡ false) }
{
    match outcome {
        Ok(verdict) => Ok(Ending::Judged(verdict)),
        Err(fault) => Err(fault),
    }
}

fn with_search_end(outcome: Result<SearchEnd, ProgramFault>) -> Result<Ending, ProgramFault>
    ensures outcome { without_value result ≡ without_value outcome }
    ensures told { search_end_in (value_of result) ≡ value_of outcome }
    ensures verdict { IfOk result (λ ending. is_some (verdict_in (Some ending)) ≡ false) }
    ensures end { IfOk result (λ ending. is_some (search_end_in (Some ending)) ≡ true) }
{
    match outcome {
        Ok(end) => Ok(Ending::Searched(end)),
        Err(fault) => Err(fault),
    }
}

fn with_rounded(outcome: Result<u64, ProgramFault>) -> Result<Ending, ProgramFault>
    ensures outcome { without_value result ≡ without_value outcome }
    ensures told { rounded_in (value_of result) ≡ value_of outcome }
    ensures verdict { IfOk result (λ ending. is_some (verdict_in (Some ending)) ≡ false) }
    ensures end { IfOk result (λ ending. is_some (search_end_in (Some ending)) ≡ false) }
{
    match outcome {
        Ok(rounded) => Ok(Ending::Made(rounded)),
        Err(fault) => Err(fault),
    }
}
