//! The lines of breaches, and the games that they name.

use super::cases::{CASES, Case, league_with};
use super::checks::check_same;
use super::marks::marks_of;
use byte_streams::{BufferedSink, MemorySink, Sink, WriteFault};
use fixtures::{Schedule, berger};
use league::League;
use report_breaches::write_breaches;
use std::alloc::Global;
use std::process::Abort;
use std::str;
use std::test::Fail;

/// The lines of the league's first rule, if it has one and as many teams as the schedule.
fn write_lines<W: Sink>(
    sink: &mut W,
    schedule: &Schedule,
    league: &League,
) -> Result<(), WriteFault> {
    if league.teams() != schedule.teams() || league.rule_count() == 0 {
        return Ok(());
    }
    let mut out = BufferedSink::new(sink);
    write_breaches(&mut out, 0, schedule, league.rule(0))?;
    out.flush()
}

fn lines_of(alloc: Global, schedule: &Schedule, league: &League) -> Result<Vec<u8>, Fail> {
    let mut buffer = [0; 256];
    let mut sink = MemorySink::new(&mut buffer);
    write_lines(&mut sink, schedule, league)?;
    Ok(Vec::from_slice(alloc, sink.held())?)
}

fn check_case(
    rt: &impl Abort,
    alloc: Global,
    schedule: &Schedule,
    (rule, lines, marks): Case,
) -> Result<(), Fail> {
    let league = league_with(alloc, rule)?;
    let found = lines_of(alloc, schedule, &league)?;
    check_same(rt, &(rule, str::from_utf8(&found)), &(rule, Ok(lines)));
    let found = marks_of(alloc, schedule, &league)?;
    check_same(rt, &(rule, found.as_str()), &(rule, marks));
    Ok(())
}

#[test]
fn names_and_marks_each_breach(rt: HostRuntime) -> Result<(), Fail> {
    let alloc = rt.alloc();
    let schedule = berger(alloc, 4)?;
    for &case in CASES {
        check_case(&rt, alloc, &schedule, case)?;
    }
    Ok(())
}
