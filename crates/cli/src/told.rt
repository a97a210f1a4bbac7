//! The lines on standard error: of texts that could not be read, of a start that is none, and of what isn't read.

ghost use Rattle.std.specs.Prelude.{◌≡◌, IfOk};
ghost use Rattle.std.specs.Process.{exit_status};
ghost use Rattle.cli.specs.Program.{IsHinted};

use crate::follower::Unwritten;
use crate::jobs::{Texts, league_text, second_text};
use crate::texts_read::{Unread, reads_input};
use byte_streams::{ReadFault, WriterSink};
use commands::{Format, LeagueRefusal, ProgramFault, hint_on};
use fixture_board::MAX_ROOM;
use given_start::{BeginFault, Beginning, write_start_faults};
use league::LeagueFault;
use league_hints::remarks_on;
use league_json::read_league;
use options::{Job, Request, SameFile};
use schedule_csv::is_table;
use script_hints::{LineHint, schedule_hint, script_hint};
use std::alloc::{AllocError, Global};
use std::io::{Eprint, ErrorKind};
use std::process::ExitCode;
use std::rt::Runtime;
use std::{io, str};

/// Names the fault on standard error. If that can't be written either, the status still tells.
pub(crate) fn failure<R: Runtime>(rt: &R, fault: ProgramFault) -> ExitCode
    ensures { exit_status result ≡ 1 }
{
    let _ = eprintln!(rt; "ttp: {fault}");
    ExitCode::FAILURE
}

/// Names the fault of a league's text, and where it lies if that can be told.
pub(crate) fn refused<R: Runtime + AllocGlobal>(rt: &R, text: &[u8], fault: LeagueFault) -> ExitCode
    ensures { exit_status result ≡ 1 }
{
    match hinted(rt.alloc(), text, fault) {
        Ok(refusal) => {
            let _ = eprintln!(rt; "ttp: {refusal}");
            ExitCode::FAILURE
        }
        Err(_) => failure(rt, ProgramFault::Memory),
    }
}

/// The fault of a league's text, with the hint on it if there is one.
fn hinted(alloc: Global, text: &[u8], fault: LeagueFault) -> Result<LeagueRefusal, AllocError>
    ensures { IfOk result (IsHinted text.now fault) }
{
    match hint_on(alloc, text, fault)? {
        Some(hint) => Ok(LeagueRefusal::Hinted(fault, hint)),
        None => Ok(LeagueRefusal::Bare(fault)),
    }
}

/// Names the file that could not be read, and why.
pub(crate) fn unread<R: Runtime>(rt: &R, text: Unread<'_>) -> ExitCode
    ensures { exit_status result ≡ 1 }
{
    if text.is_input() {
        return failure(rt, ProgramFault::from(text.why));
    }
    let name = text.name;
    let _ = match text.why {
        ReadFault::Read => eprintln!(rt; "ttp: {name}: cannot be read"),
        ReadFault::TooLong => eprintln!(rt; "ttp: {name} is over 4194304 bytes"),
        ReadFault::Memory => eprintln!(rt; "ttp: out of memory"),
    };
    ExitCode::FAILURE
}

/// Names the file that is to be written and can't be.
pub(crate) fn unwritten(rt: &impl Eprint, file: Unwritten<'_>) -> ExitCode
    ensures { exit_status result ≡ 1 }
{
    tell_unwritten(rt, file.name, &file.why);
    ExitCode::FAILURE
}

/// Names the two words that name one file.
pub(crate) fn clashing(rt: &impl Eprint, same: SameFile<'_>) -> ExitCode
    ensures { exit_status result ≡ 1 }
{
    let _ = eprintln!(rt; "ttp: {same}");
    ExitCode::FAILURE
}

/// Says that a file can't be written, or that memory ran out. If that can't be said either, the status still tells.
pub(crate) fn tell_unwritten(rt: &impl Eprint, name: &str, why: &io::Error) {
    let _ = if why.kind() == ErrorKind::OutOfMemory {
        eprintln!(rt; "ttp: out of memory")
    } else {
        eprintln!(rt; "ttp: {name}: cannot be written")
    };
}

/// Says why the league doesn't begin at what was given, behind the file's name.
pub(crate) fn not_begun<R: Runtime + AllocGlobal>(
    rt: &R,
    request: &Request,
    texts: &Texts<'_, '_>,
    fault: BeginFault,
) -> ExitCode
    ensures { exit_status result ≡ 1 }
{
    let name = match &request.files.from {
        Some(name) if name.as_str() != "-" => name.as_str(),
        _ => "input",
    };
    let _ = match fault {
        BeginFault::Row(row) => eprintln!(rt; "ttp: {name}: {row}"),
        BeginFault::NoRound => eprintln!(rt; "ttp: {name} has no line \"round R: H-A\""),
        BeginFault::NotRoundRobin => eprintln!(rt; "ttp: {name} is no double round robin"),
        BeginFault::RoundRange => eprintln!(rt;
            "ttp: the league has no such round as --keep names"
        ),
        BeginFault::GameRange => eprintln!(rt;
            "ttp: the league has no such game as --keep-game names"
        ),
        BeginFault::Memory => eprintln!(rt; "ttp: out of memory"),
    };
    if fault == BeginFault::NotRoundRobin {
        start_faults(rt, request, texts);
    }
    ExitCode::FAILURE
}

/// Writes what is wrong with the games of the start, a line for each fault. If there is no memory for them they are left out.
fn start_faults<R: Runtime + AllocGlobal>(rt: &R, request: &Request, texts: &Texts<'_, '_>) {
    let Some(
        Beginning {
            from: Some(from),
            ..
        },
    ) = &texts.beginning
    else {
        return;
    };
    if let Ok(league) = read_league(rt.alloc(), league_text(request.job, texts)) {
        let mut faults = Vec::new(rt.alloc());
        let mut sink = WriterSink::new(&mut faults);
        if write_start_faults(rt.alloc(), &league, from, &mut sink).is_ok() {
            tell_text(rt, &faults);
        }
    }
    tell_line(rt, hint_on_schedule(from));
}

/// Says what is wrong with the first bad line of a script or a schedule.
pub(crate) fn tell_bad_line(rt: &impl Eprint, job: Job, texts: &Texts<'_, '_>) {
    let hint = match (job, second_text(job, texts)) {
        (Job::Play { .. }, Some(script)) => script_hint(script),
        (_, Some(schedule)) => hint_on_schedule(schedule),
        (_, None) => None,
    };
    tell_line(rt, hint);
}

/// The fault of the first bad line of a schedule, which a table has not.
fn hint_on_schedule(text: &[u8]) -> Option<LineHint> {
    if is_table(text) {
        None
    } else {
        schedule_hint(text)
    }
}

fn tell_line(rt: &impl Eprint, hint: Option<LineHint>) {
    if let Some(hint) = hint {
        let _ = eprintln!(rt; "ttp: {hint}");
    }
}

/// Says that standard input is read, if it is a terminal and a text is to come from it.
pub(crate) fn tell_terminal(rt: &impl Eprint, is_terminal: bool, request: &Request) {
    if is_terminal && reads_input(request.job, &request.files) {
        let _ = eprintln!(rt;
            "remark: standard input is read, which is the terminal: Ctrl-D on a line of its own ends it"
        );
    }
}

/// Writes a line for each member of the league's text that is not read. A report as a text has these lines itself, and a table
/// of distances has no members. If there is no memory for them they are left out.
pub(crate) fn tell_remarks<R: Runtime + AllocGlobal>(rt: &R, job: Job, texts: &Texts<'_, '_>) {
    if matches!(job, Job::Report(Format::Text) | Job::League { .. }) {
        return;
    }
    if let Ok(remarks) = remarks_on(rt.alloc(), league_text(job, texts)) {
        tell_text(rt, &remarks);
    }
}

/// Writes lines, which are text.
fn tell_text(rt: &impl Eprint, lines: &[u8]) {
    if let Ok(lines) = str::from_utf8(lines) {
        let _ = eprint!(rt; "{lines}");
    }
}

/// Says that the history of a search got full, and what gives it more room.
pub(crate) fn tell_full(rt: &impl Eprint, job: Job) {
    let Job::Find { room, .. } = job else {
        return;
    };
    let more = if room < MAX_ROOM {
        "--room N gives up to 1048576"
    } else {
        "--room gives no more"
    };
    let _ = eprintln!(rt;
        "remark: the history is full, which ends a search early: its room is {room}, and {more}"
    );
}

/// Says how many distances of a table were rounded, if any were.
pub(crate) fn tell_rounded(rt: &impl Eprint, rounded: u64) {
    if rounded > 0 {
        let _ = eprintln!(rt; "remark: distances are whole numbers: {rounded} were rounded");
    }
}
