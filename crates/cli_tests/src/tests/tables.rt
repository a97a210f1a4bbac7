//! Schedules as tables: heads, separators, quotation marks and names, rows that give no game, and hostile texts.

use crate::tests::checks::{check_holds, check_same_of};
use crate::tests::circle::{CIRCLE, SHEET};
use crate::tests::formatted_reports::{MARKED, marked};
use crate::tests::samples::{COMMAS, COST, JUDGED};
use crate::tests::told::Text::{Excerpt, Whole};
use crate::tests::told::{Answer, Case, NOTHING, TEXT_REPORT, Text, check_case, check_cases, tell};
use byte_streams::MemorySink;
use commands::{Format, ProgramFault, Verdict};
use given_start::write_start_faults;
use league::League;
use league_json::read_league;
use schedule_csv::CellFault::{Absent, NoNumber, NoTeam, TwoTeams};
use schedule_csv::Column::{Away, Home, Round};
use schedule_csv::{CellFault, Column, RowFault, TableFault, schedule_text};
use std::alloc::Global;
use std::process::Abort;
use std::test::Fail;

const FEASIBLE: Answer = Ok(Some(Verdict::Feasible));

/// The games of the start, without their rounds.
const GAMES: &str = "1,4\n2,3\n1,2\n4,3\n2,4\n3,1\n3,2\n4,1\n2,1\n3,4\n1,3\n4,2\n";

/// By names, with semicolons, a byte order mark and line ends of two bytes, and in quotation marks.
const NAMED: &str = "\u{FEFF}Note; AWAY ;Home\r\nopening;T4;T1\r\n;T3;T2\r\n;\"T2\"; T1 \r\n\
    \"a;b\";T3;T4\r\n;T4;T2\r\n;T1;T3\r\n;T2;T3\r\n;T1;T4\r\n\r\n;T1;T2\r\n;T4;\"T3\"\r\n;;\r\n\"\"\"x\"\";\";3;1\r\n;2;4";

/// With tabs, and the rows in no order.
const TABBED: &str =
    "\"round\"\thome\taway\n6\t1\t3\n6\t4\t2\n1\t1\t4\n1\t\"2\"\tT3\n2\t1\t2\n2\t4\t3\n3\t2\t4\n\
    3\t3\t1\n4\t3\t2\n4\t4\t1\n 5 \t2\t1\n5\t3\t4\tlast\n";

/// Tables that give the start, and its report.
const STARTS: &[&[&str]] = &[
    &[CIRCLE, JUDGED, "home,away\n", GAMES],
    &[CIRCLE, JUDGED, NAMED],
    &[CIRCLE, JUDGED, TABBED],
];

#[test]
fn tables_give_the_games_of_their_rows(rt: HostRuntime) -> Result<(), Fail> {
    for input in STARTS {
        let case = (TEXT_REPORT, *input, FEASIBLE, Whole(&[SHEET, COST]));
        check_case(&rt, rt.alloc(), &case)?;
    }
    Ok(())
}

/// The table that a report writes, read again.
pub(crate) const READ_AGAIN: Case<'_> = (
    TEXT_REPORT,
    &[
        CIRCLE,
        JUDGED,
        "round,home,home name,away,away name\n1,1,T1,4,T4\n1,2,T2,3,T3\n2,1,T1,2,T2\n2,4,T4,3,T3\n\
        3,2,T2,4,T4\n3,3,T3,1,T1\n4,3,T3,2,T2\n4,4,T4,1,T1\n5,2,T2,1,T1\n5,3,T3,4,T4\n6,1,T1,3,T3\n6,4,T4,2,T2\n",
    ],
    FEASIBLE,
    Whole(&[SHEET, COST]),
);

#[test]
fn a_written_table_is_read_again(rt: HostRuntime) -> Result<(), Fail> {
    check_case(&rt, rt.alloc(), &READ_AGAIN)
}

/// The table that `report --format csv` writes for names with commas and quotation marks, under a head row that gives the names in place of the
/// numbers, is the same schedule.
#[test]
fn any_names_are_read_again(rt: HostRuntime) -> Result<(), Fail> {
    let table = marked(&rt, rt.alloc(), Format::Csv(COMMAS))?;
    let text = std::str::from_utf8(&table).unwrap_or("");
    let games = text.strip_prefix("round,home,home name,away,away name\n");
    for head in ["round,home,x,away,y\n", "round,x,home,y,away\n"] {
        let input = [MARKED, JUDGED, head, games.unwrap_or("")].concat(rt.alloc())?;
        let found = tell(rt.alloc(), TEXT_REPORT, input.as_bytes())?;
        check_same_of(&rt, &head, &found.answer, &FEASIBLE);
        check_holds(&rt, &head, STARTED.is_told(&found.text));
    }
    Ok(())
}

/// The rounds of the start, in a report that is feasible.
const STARTED: Text<'_> = Excerpt(
    "league 4 teams 6 rounds\n",
    &[
        "round 1: 1-4 2-3\nround 2: 1-2 4-3\nround 3: 2-4 3-1\nround 4: 3-2 4-1\nround 5: 2-1 3-4\nround 6: 1-3 4-2\n",
    ],
    "total 30\n",
);

/// Teams of which two have the same name, and one has a number for a name.
const TWINS: &str = r#"{"format":1,"teams":["Aa","Bb","Aa","1"],
    "distances":[[0,1,2,1],[1,0,1,2],[2,1,0,1],[1,2,1,0]]}"#;

/// Tables, and the first row that gives no game: its line, its column and why.
const BAD: &[(&str, u64, Column, CellFault)] = &[
    ("round,home,away\n1,1,4\n1,2\n", 3, Away, Absent),
    ("round,home,away\n1\n", 2, Home, Absent),
    ("home,away,round\n1,4\n", 2, Round, Absent),
    ("round,home,away\nfirst,x,y\n", 2, Round, NoNumber),
    ("round,home,away\n1.5,1,4\n", 2, Round, NoNumber),
    ("round;home;away\n1;Bb;Cc\n", 2, Away, NoTeam),
    ("home,away\n\n,\nBb,bb\n", 4, Away, NoTeam),
    ("home,away\n,4\n", 2, Home, NoTeam),
    ("home,away\n1,4\0\n", 2, Away, NoTeam),
    ("home,away\r\nBb,\"1\r\n2,1\r\n", 2, Away, NoTeam),
    ("home,away\n\"Bb\"\",1\n", 2, Home, NoTeam),
    ("home,away\nBb,1\nBb,Aa\n", 3, Away, TwoTeams),
    ("home,away\n\"Aa\",Aa\n", 2, Home, TwoTeams),
];

#[test]
fn the_first_row_without_a_game_is_told(rt: HostRuntime) -> Result<(), Fail> {
    for &(table, line, column, why) in BAD {
        let fault = ProgramFault::Row(RowFault { line, column, why });
        let input: &[&str] = &[TWINS, JUDGED, table];
        check_case(&rt, rt.alloc(), &(TEXT_REPORT, input, Err(fault), NOTHING))?;
    }
    Ok(())
}

/// Tables whose games are none, or are too few; and texts that are no tables.
const FAULTY: &[Case<'_>] = &[
    (
        TEXT_REPORT,
        &[TWINS, JUDGED, "round,home,away\n1,1,9\n0,Bb,1\n"],
        Ok(Some(Verdict::Infeasible)),
        Excerpt(
            "game 1-9 of round 1 is none\ngame 2-1 of round 0 is none\nteam 1 has no game in round 1\n",
            &["game 1-2 is missing\n"],
            "no double round robin\n",
        ),
    ),
    (
        TEXT_REPORT,
        &[CIRCLE, JUDGED, "home,away\n1,4\n1,4\n1,4\n"],
        Ok(Some(Verdict::Infeasible)),
        Excerpt(
            "team 1 has 2 games in round 1\nteam 1 has no game in round 3\n",
            &["game 1-4 stands 3 times\n"],
            "no double round robin\n",
        ),
    ),
    (
        TEXT_REPORT,
        &[CIRCLE, JUDGED, "home,guest\n1,4\n", SHEET],
        FEASIBLE,
        Whole(&[SHEET, COST]),
    ),
    (
        TEXT_REPORT,
        &[CIRCLE, JUDGED, "\nhome,away\n1,4\n", SHEET],
        FEASIBLE,
        Whole(&[SHEET, COST]),
    ),
];

#[test]
fn games_of_a_table_are_judged(rt: HostRuntime) -> Result<(), Fail> {
    check_cases(&rt, rt.alloc(), FAULTY)
}

/// Starts that have the game of teams 1 and 4 in the first round alone.
const STARTS_OF_ONE_GAME: [&[u8]; 2] = [b"away,home\nT4,T1\n", b"round 1: 1-4\n"];

/// What is wrong with them.
const FAULTS_OF_ONE_GAME: Text<'_> = Excerpt(
    "team 1 has no game in round 2\n",
    &["game 1-2 is missing\n", "game 4-1 is missing\n"],
    "no double round robin\n",
);

fn check_start_faults(
    rt: &impl Abort,
    alloc: Global,
    league: &League,
    text: &[u8],
) -> Result<(), Fail> {
    let mut buffer = [0; 2000];
    let mut sink = MemorySink::new(&mut buffer);
    write_start_faults(alloc, league, text, &mut sink)?;
    check_holds(rt, &text, FAULTS_OF_ONE_GAME.is_told(sink.held()));
    Ok(())
}

#[test]
fn a_start_from_a_table_is_told_as_from_a_text(rt: HostRuntime) -> Result<(), Fail> {
    let league = read_league(rt.alloc(), CIRCLE.as_bytes())?;
    for text in STARTS_OF_ONE_GAME {
        check_start_faults(&rt, rt.alloc(), &league, text)?;
    }
    Ok(())
}

/// How often a piece stands in a hostile table, behind its head row, the fault of its first bad row if it has one, and else how long the
/// text is that it is turned into.
const HOSTILE: &[(&str, usize, Result<usize, TableFault>)] = &[
    (",", 50_000, Ok(0)),
    ("\"", 50_001, Ok(0)),
    (" ", 50_000, Ok(0)),
    ("\n", 50_000, Ok(0)),
    ("1,2\n", 9, Ok(117)),
    ("\0", 50_000, Err(NO_HOME)),
    ("\"a", 50_001, Err(NO_HOME)),
    ("1,", 50_000, Ok(13)),
];

/// The first cell of the first row is no team.
const NO_HOME: TableFault = TableFault::Row(RowFault {
    line: 2,
    column: Home,
    why: NoTeam,
});

fn length_of(alloc: Global, league: &League, table: &[u8]) -> Result<usize, TableFault> {
    match schedule_text(alloc, league, table) {
        Ok(text) => Ok(text.as_bytes().len()),
        Err(fault) => Err(fault),
    }
}

fn check_hostile(rt: &impl Abort, alloc: Global, league: &League) -> Result<(), Fail> {
    for &(piece, times, wanted) in HOSTILE {
        let rows = piece.repeat(alloc, times)?;
        let table = ["home,away\n", rows.as_str()].concat(alloc)?;
        let found = length_of(alloc, league, table.as_bytes());
        check_same_of(rt, &piece, &found, &wanted);
    }
    Ok(())
}

#[test]
fn hostile_tables_give_a_text_or_a_fault(rt: HostRuntime) -> Result<(), Fail> {
    let league = read_league(rt.alloc(), CIRCLE.as_bytes())?;
    check_hostile(&rt, rt.alloc(), &league)
}
