//! The start of a league: a known sheet, faults on known leagues, and the faults' texts.

use crate::tests::checks::check_same;
use crate::tests::circle::SHEET;
use crate::tests::samples::START;
use crate::tests::told::Text::Whole;
use crate::tests::told::{Case, Command, NOTHING, WRITTEN, check_cases, tell};
use commands::ProgramFault::{self, League};
use league::Field;
use league::LeagueFault::{
    Asymmetric, Diagonal, DistanceShape, MissingField, NotJson, RuleClass, TeamCount, WrongKind,
};
use std::alloc::Global;
use std::process::Abort;
use std::test::Fail;

const CASES: &[Case<'_>] = &[
    START,
    // distances up to the limit
    (
        Command::Start,
        &[
            r#"{"format":1,"teams":["T1","T2","T3","T4"],"distances":[[0,1000000,1000000,1000000],
            [1000000,0,1000000,1000000],[1000000,1000000,0,1000000],[1000000,1000000,1000000,0]]}"#,
        ],
        WRITTEN,
        Whole(&[SHEET]),
    ),
    // the first fault of a league
    (
        Command::Start,
        &[r#"{"format":1,"teams":["A","B","C"],"distances":[[0,1,1],[1,0,1],[1,1,0]]}"#],
        Err(League(TeamCount)),
        NOTHING,
    ),
    (Command::Start, &[""], Err(League(NotJson)), NOTHING),
    (
        Command::Start,
        &[r#"{"format":1,"teams":["T1","T2","T3","T4"],"distanc"#],
        Err(League(NotJson)),
        NOTHING,
    ),
    (
        Command::Start,
        &[r#"{"format":1,"distances":[[0,1,2,1],[1,0,1,2],[2,1,0,1],[1,2,1,0]]}"#],
        Err(League(MissingField(Field::Teams))),
        NOTHING,
    ),
    (
        Command::Start,
        &[
            r#"{"format":1,"teams":["T1","T2","T3","T4"],"distances":[[0,1,2,1],[1,0,1,2],[2,1,0,1]]}"#,
        ],
        Err(League(DistanceShape)),
        NOTHING,
    ),
    (
        Command::Start,
        &[
            r#"{"format":1,"teams":["T1","T2","T3","T4"],"distances":[[0,1,2,1],[1,1,1,2],[2,1,0,1],[1,2,1,0]]}"#,
        ],
        Err(League(Diagonal)),
        NOTHING,
    ),
    (
        Command::Start,
        &[
            r#"{"format":1,"teams":["T1","T2","T3","T4"],"distances":[[0,2,2,1],[1,0,1,2],[2,1,0,1],[1,2,1,0]]}"#,
        ],
        Err(League(Asymmetric)),
        NOTHING,
    ),
    (
        Command::Start,
        &[
            r#"{"format":4,"teams":["T1","T2","T3","T4"],"distances":[[0,1,2,1],[1,0,1,2],[2,1,0,1],[1,2,1,0]]}"#,
        ],
        Err(League(WrongKind(Field::Format))),
        NOTHING,
    ),
    (
        Command::Start,
        &["[]"],
        Err(League(WrongKind(Field::Whole))),
        NOTHING,
    ),
];

#[test]
fn start_writes_a_sheet_or_names_the_first_fault(rt: HostRuntime) -> Result<(), Fail> {
    check_cases(&rt, rt.alloc(), CASES)
}

/// One byte more is too long.
#[test]
fn start_reads_a_text_up_to_the_limit(rt: HostRuntime) -> Result<(), Fail> {
    let blanks = vec![in rt.alloc(); b' '; 4_194_304]?;
    let told = tell(rt.alloc(), Command::Start, &blanks)?;
    check_same(&rt, &(told.answer, told.calls), &(Err(League(NotJson)), 0));
    Ok(())
}

const FAULTS: [ProgramFault; 14] = [
    ProgramFault::Read,
    ProgramFault::TooLong,
    League(NotJson),
    League(WrongKind(Field::Whole)),
    League(WrongKind(Field::Start)),
    League(WrongKind(Field::Phased)),
    League(WrongKind(Field::Format)),
    League(RuleClass(0)),
    ProgramFault::Room,
    ProgramFault::Workers,
    ProgramFault::Spawn,
    ProgramFault::Receipts,
    ProgramFault::Write,
    ProgramFault::Memory,
];

/// The text of each of them.
const TEXTS: [&str; 14] = [
    "input cannot be read",
    "input is over 4194304 bytes",
    "league is not JSON",
    "league is no object",
    "league member start is wrong",
    "league member phased is wrong",
    "league member format is wrong",
    "rule 1 has no known class",
    "room is over 1048576",
    "workers must be 1 to 16",
    "a worker cannot be started",
    "receipts do not add up",
    "output cannot be written",
    "out of memory",
];

fn check_text(rt: &impl Abort, alloc: Global, fault: ProgramFault, text: &str) -> Result<(), Fail> {
    let told = format!(in alloc; "{fault}")?;
    check_same(rt, &told.as_str(), &text);
    Ok(())
}

#[test]
fn faults_have_their_texts(rt: HostRuntime) -> Result<(), Fail> {
    for (fault, text) in FAULTS.iter().zip(TEXTS) {
        check_text(&rt, rt.alloc(), *fault, text)?;
    }
    Ok(())
}
