//! From the words of the command line to the exit status, with the texts of what goes wrong.

ghost use Rattle.std.specs.Prelude.{◌≡◌, ◌≢◌, ◌≤◌, [], ◌∷◌, IfErr, IfOk, IsTrue, OnErr, OnOk, Option, Some, false, map, option_map, string_bytes, true};
ghost use Rattle.std.specs.IoError.{error_kind};
ghost use Rattle.std.specs.declared.io.ErrorKind.TheVariants.{OutOfMemory};
ghost use Rattle.std.specs.Process.{exit_status};
ghost use Rattle.clap.specs.Words.{Text, kind_of};
ghost use Rattle.clap.specs.declared.error.kind.ErrorKind.{ErrorKind as Kind};
ghost use Rattle.options.specs.Beginnings.{Beginning as Kept, beginning_of};
ghost use Rattle.options.specs.CommandLine.{beginning_of_words, files_of_words, job_of_words, title_of_words, words_fault, IsInRange};
ghost use Rattle.options.specs.Files.{Files, files_of};
ghost use Rattle.options.specs.declared.job.Job.{Job as Named};
ghost use Rattle.league.specs.Labels.{is_title};
ghost use Rattle.league.specs.Limits.{max_weight};
ghost use Rattle.cli.specs.Program.{is_followed, is_judged, is_plain, status_of, DoesJob, DoesJobOn, EndsWithFiles, IsJudged, IsStatusOf, IsStatusOfWords};
ghost use Rattle.cli.specs.Program.{IsStatusBehind};

use crate::follower::Follower;
use crate::jobs::{Console, Ending, Texts, league_text, perform, wants_history};
use crate::same_file::same_file;
use crate::texts_read::{TextsRead, read_texts};
use crate::told::{
    clashing, failure, not_begun, refused, tell_bad_line, tell_full, tell_remarks, tell_rounded,
    tell_terminal, unread, unwritten,
};
use byte_streams::{ReaderSource, Sink, Source, WriterSink, read_all};
use clap::error::ErrorKind;
use commands::{Beginning, NoWatcher, ProgramFault, SearchEnd, Verdict, Watcher};
use league::SlotSet;
use options::{FileWords, Job, Request, args};
use std::io::{IsTerminal, Write};
use std::process::ExitCode;
use std::rt::Runtime;
use std::sync::Wait;
use std::sync::atomic::{AtomicBool, Ordering};
use std::thread::Threads;
use std::{env, io};

/// The exit status of a fault on the command line.
const MISUSE: u8 = 2;

/// The exit status of a report on a schedule that is no double round robin, or that breaks a hard limit, and of an improvement
/// that found no schedule that breaks none.
const INFEASIBLE: u8 = 3;

/// Does what the program's words ask for, between standard input and output. The exit status is 0 on success, 1 after a
/// fault, 2 if the words are wrong, and 3 after a report on a schedule that isn't feasible or an improvement that found none
/// that is. A search shows how far it is if standard error is a terminal. A fault has a line on standard error, unless it is that nobody
/// reads standard output any more.
pub fn run<R, I, E>(rt: &R, input: &I, error: E) -> ExitCode
where
    R: Runtime + AllocGlobal + Threads + Wait + Sync,
    I: IsTerminal,
    E: Write + IsTerminal + Send + Drop,
{
    let is_closed = AtomicBool::new(false);
    let ends = Ends {
        input: input.is_terminal(),
        is_closed: &is_closed,
        error: if error.is_terminal() {
            Some(error)
        } else {
            None
        },
    };
    match words_of(rt) {
        Ok(words) => {
            let source = ReaderSource::new(rt.reader());
            let mut sink = WriterSink::over_pipe(io::writer(rt), &is_closed);
            answer(rt, ends, &words, source, &mut sink)
        }
        Err(error) => words_not_had(rt, error),
    }
}

/// The kinds of the other ends of the standard streams.
#[derive(Drop)]
struct Ends<'a, E> {
    /// A terminal is at that of standard input.
    input: bool,
    /// Nobody is at that of standard output any more.
    is_closed: &'a AtomicBool,
    /// Standard error, if a terminal is at its end.
    error: Option<E>,
}

fn words_of<R: Runtime + AllocGlobal>(rt: &R) -> io::Result<Vec<String>> {
    Ok(env::args(rt)?.collect(rt.alloc())?)
}

/// Does what these words ask for, between a source and a sink. Wrong words, and those that ask for help or the version,
/// leave both as they were.
fn answer<
    T: Runtime + AllocGlobal + Threads + Wait + Sync,
    E: Write + Send + Drop,
    R: Source + Drop,
    W: Sink,
>(rt: &T, ends: Ends<'_, E>, words: &[String], source: R, sink: &mut W) -> ExitCode
    ensures done { (job : Named) (files : Files) (title : Option Text) (kept : Kept) → words_fault (map string_bytes words.now) ≡ []
        → job_of_words (map string_bytes words.now) ≡ Some job → files_of_words (map string_bytes words.now) ≡ Some files
        → title_of_words (map string_bytes words.now) ≡ Some title
        → beginning_of_words (map string_bytes words.now) ≡ Some kept → is_plain files kept ≡ true
        → DoesJob R.left R.tally W.held W.tally title job source sink.old sink.new (exit_status result) }
    ensures on_files { (job : Named) (files : Files) (title : Option Text) (kept : Kept) → words_fault (map string_bytes words.now) ≡ []
        → job_of_words (map string_bytes words.now) ≡ Some job → files_of_words (map string_bytes words.now) ≡ Some files
        → title_of_words (map string_bytes words.now) ≡ Some title
        → beginning_of_words (map string_bytes words.now) ≡ Some kept → is_plain files kept ≡ false
        → EndsWithFiles W.held W.tally title job files kept sink.old sink.new (exit_status result) }
    ensures quiet { (kind : Kind) → words_fault (map string_bytes words.now) ≡ kind ∷ [] → sink.new ≡ sink.old }
    ensures taken { words_fault (map string_bytes words.now) ≡ [] → exit_status result ≢ 2 }
    ensures infeasible { exit_status result ≡ 3 → IsJudged (job_of_words (map string_bytes words.now)) }
    ensures fault { (kind : Kind) → words_fault (map string_bytes words.now) ≡ kind ∷ []
        → IsStatusOfWords kind (exit_status result) }
    ensures most { exit_status result ≤ 3 }
{
    let request = args(rt.alloc(), words);
    respond(rt, ends, request, source, sink)
}

/// Does what a request asks for, or says why there is none.
fn respond<
    T: Runtime + AllocGlobal + Threads + Wait + Sync,
    E: Write + Send + Drop,
    R: Source + Drop,
    W: Sink,
>(
    rt: &T,
    ends: Ends<'_, E>,
    request: Result<Request, clap::Error>,
    source: R,
    sink: &mut W,
) -> ExitCode
    requires job { IfOk request (λ r. IsInRange r.job) }
    requires callable { IfOk request (λ r. IsTrue (is_title (option_map string_bytes r.title))) }
    requires near { IfOk request (λ r. r.beginning.near ≤ max_weight) }
    ensures done { IfOk request (λ r. is_plain (files_of r.files) (beginning_of r.beginning) ≡ true
        → DoesJob R.left R.tally W.held W.tally (option_map string_bytes r.title) r.job source sink.old sink.new (exit_status result)) }
    ensures on_files { IfOk request (λ r. is_plain (files_of r.files) (beginning_of r.beginning) ≡ false
        → EndsWithFiles W.held W.tally (option_map string_bytes r.title) r.job (files_of r.files) (beginning_of r.beginning)
        sink.old sink.new (exit_status result)) }
    ensures quiet { OnErr request (sink.new ≡ sink.old) }
    ensures status { IfErr request (λ error. IsStatusOf (kind_of error) (exit_status result)) }
    ensures taken { OnOk request (exit_status result ≢ 2) }
    ensures infeasible { IfOk request (λ r. exit_status result ≡ 3 → is_judged r.job ≡ true) }
    ensures few { OnErr request (exit_status result ≤ 2) }
    ensures most { exit_status result ≤ 3 }
{
    let request = match request {
        Ok(request) => request,
        Err(error) => return words_not_taken(rt, error),
    };
    tell_terminal(rt, ends.input, &request);
    let console = Console {
        rt,
        alloc: rt.alloc(),
        is_closed: ends.is_closed,
        terminal: ends.error,
    };
    if is_plain(&request) {
        respond_on_input(console, &request, source, sink)
    } else {
        respond_on_files(console, &request, source, sink)
    }
}

fn is_plain(request: &Request) -> bool
    ensures { result ≡ is_plain (files_of request.now.files) (beginning_of request.now.beginning) }
{
    let Request {
        files,
        beginning,
        ..
    } = request;
    files.league.is_none()
        && files.second.is_none()
        && files.from.is_none()
        && !is_followed(files)
        && beginning.rounds == SlotSet::empty()
        && beginning.games.is_empty()
        && beginning.near == 0
}

/// Whether files are to follow an improvement.
fn is_followed(files: &FileWords) -> bool
    ensures { result ≡ is_followed (files_of files.now) }
{
    files.output.is_some() || files.log.is_some()
}

/// Reads standard input to its end, then does the job on it.
fn respond_on_input<
    T: Runtime + AllocGlobal + Threads + Wait + Sync,
    E: Write + Send + Drop,
    R: Source + Drop,
    W: Sink,
>(console: Console<'_, T, E>, request: &Request, mut source: R, sink: &mut W) -> ExitCode
    requires job { IsInRange request.now.job }
    requires callable { IsTrue (is_title (option_map string_bytes request.now.title)) }
    ensures { DoesJob R.left R.tally W.held W.tally (option_map string_bytes request.now.title) request.now.job source sink.old sink.new
        (exit_status result) }
{
    let Console { rt, is_closed, .. } = console;
    let input = match read_all(console.alloc, &mut source) {
        Ok(input) => input,
        Err(fault) => return failure(rt, ProgramFault::from(fault)),
    };
    let texts = Texts {
        input: &input,
        second: None,
        beginning: None,
        title: request.title.as_deref(),
    };
    tell_remarks(rt, request.job, &texts);
    let outcome = perform(console, request.job, &texts, sink, &mut NoWatcher);
    ended(rt, is_closed, request.job, &texts, outcome)
}

/// Reads the files that are named, then does the job on them. An improvement is followed by those that are to be written.
fn respond_on_files<
    T: Runtime + AllocGlobal + Threads + Wait + Sync,
    E: Write + Send + Drop,
    R: Source + Drop,
    W: Sink,
>(console: Console<'_, T, E>, request: &Request, mut source: R, sink: &mut W) -> ExitCode
    requires job { IsInRange request.now.job }
    requires callable { IsTrue (is_title (option_map string_bytes request.now.title)) }
    requires near { request.now.beginning.near ≤ max_weight }
    ensures { EndsWithFiles W.held W.tally (option_map string_bytes request.now.title) request.now.job (files_of request.now.files)
        (beginning_of request.now.beginning) sink.old sink.new (exit_status result) }
{
    let rt = console.rt;
    if let Some(same) = same_file(rt, &request.files) {
        return clashing(rt, same);
    }
    let texts = match read_texts(rt, request.job, &request.files, &mut source) {
        Ok(texts) => texts,
        Err(text) => return unread(rt, text),
    };
    let history = wants_history(request.job);
    let mut follower = match Follower::new(rt, console.alloc, &request.files, history) {
        Ok(follower) => follower,
        Err(file) => return unwritten(rt, file),
    };
    let status = respond_on(console, request, &texts, sink, &mut follower);
    followed(&request.files, follower.has_failed(), status)
}

/// The status of a job whose files followed it. It is 1 if one of them couldn't be written.
fn followed(files: &FileWords, has_failed: bool, status: ExitCode) -> ExitCode
    ensures { IsStatusBehind (files_of files.now) (exit_status status) (exit_status result) }
{
    if has_failed && is_followed(files) {
        ExitCode::FAILURE
    } else {
        status
    }
}

/// Does the job on texts that were read.
fn respond_on<
    T: Runtime + AllocGlobal + Threads + Wait + Sync,
    E: Write + Send + Drop,
    W: Sink,
    V: Watcher<W>,
>(
    console: Console<'_, T, E>,
    request: &Request,
    texts: &TextsRead,
    sink: &mut W,
    watcher: &mut V,
) -> ExitCode
    requires job { IsInRange request.now.job }
    requires callable { IsTrue (is_title (option_map string_bytes request.now.title)) }
    requires near { request.now.beginning.near ≤ max_weight }
    ensures { DoesJobOn W.held W.tally (option_map string_bytes request.now.title) request.now.job (beginning_of request.now.beginning)
        texts.now.input.items (option_map (λ text. text.items) texts.now.second) (option_map (λ text. text.items) texts.now.from) sink.old sink.new
        (exit_status result) }
{
    let Console { rt, is_closed, .. } = console;
    let given = Texts {
        input: &texts.input,
        second: texts.second.as_deref(),
        beginning: Some(Beginning {
            from: texts.from.as_deref(),
            rounds: request.beginning.rounds,
            games: &request.beginning.games,
            near: request.beginning.near,
        }),
        title: request.title.as_deref(),
    };
    tell_remarks(rt, request.job, &given);
    let outcome = perform(console, request.job, &given, sink, watcher);
    if let Err(ProgramFault::Begin(fault)) = outcome {
        return not_begun(rt, request, &given, fault);
    }
    ended(rt, is_closed, request.job, &given, outcome)
}

/// The status of a job on these texts. What went wrong is said, unless nobody reads the output any more, the first bad line, and that a
/// search ended with its history full.
fn ended<R: Runtime + AllocGlobal>(
    rt: &R,
    is_closed: &AtomicBool,
    job: Job,
    texts: &Texts<'_, '_>,
    outcome: Result<Ending, ProgramFault>,
) -> ExitCode
    ensures { exit_status result ≡ status_of outcome }
{
    if outcome.is_ok() {
        tell_bad_line(rt, job, texts);
    }
    match outcome {
        Ok(Ending::Judged(Verdict::Infeasible)) => ExitCode::from(INFEASIBLE),
        Ok(Ending::Searched(SearchEnd::HistoryFull)) => {
            tell_full(rt, job);
            ExitCode::SUCCESS
        }
        Ok(Ending::Made(rounded)) => {
            tell_rounded(rt, rounded);
            ExitCode::SUCCESS
        }
        Ok(_) => ExitCode::SUCCESS,
        Err(ProgramFault::League(fault)) => refused(rt, league_text(job, texts), fault),
        Err(ProgramFault::Write) if is_closed.load(Ordering::SeqCst) => ExitCode::FAILURE,
        Err(fault) => failure(rt, fault),
    }
}

/// Prints clap's text: help and the version on standard output, and a mistake on standard error.
fn words_not_taken<R: Runtime>(rt: &R, error: clap::Error) -> ExitCode
    ensures { IsStatusOf (kind_of error) (exit_status result) }
{
    if error.kind() == ErrorKind::OutOfMemory {
        return failure(rt, ProgramFault::Memory);
    }
    let printed = error.print(rt);
    if error.use_stderr() {
        return ExitCode::from(MISUSE);
    }
    shown(rt, printed)
}

/// The status after a text of help or of the version.
fn shown<R: Runtime>(rt: &R, printed: io::Result<()>) -> ExitCode
    ensures written { OnOk printed (exit_status result ≡ 0) }
    ensures failed { OnErr printed (exit_status result ≡ 1) }
{
    match printed {
        Ok(()) => ExitCode::SUCCESS,
        Err(error) if error.kind() == io::ErrorKind::BrokenPipe => ExitCode::FAILURE,
        Err(_) => failure(rt, ProgramFault::Write),
    }
}

/// Memory ran out, or a word is no text.
fn words_not_had<R: Runtime>(rt: &R, error: io::Error) -> ExitCode
    ensures memory { error_kind error ≡ OutOfMemory → exit_status result ≡ 1 }
    ensures mistake { error_kind error ≢ OutOfMemory → exit_status result ≡ 2 }
{
    if error.kind() == io::ErrorKind::OutOfMemory {
        return failure(rt, ProgramFault::Memory);
    }
    let _ = eprintln!(rt; "ttp: the command line is no text");
    ExitCode::from(MISUSE)
}
