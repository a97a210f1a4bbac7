//! Reports on a league with a name, short names and texts of its rounds, which were put to the start's known reports by hand.

use crate::tests::circle::SHEET;
use crate::tests::samples::{COMMAS, COST, JUDGED};
use crate::tests::told::Text::{Excerpt, Whole};
use crate::tests::told::{Answer, Case, Command, TEXT_REPORT, check_cases};
use commands::{CsvForm, Format, Separator, Verdict};
use std::test::Fail;

/// The circle with labels that have marks of CSV and of HTML.
pub(crate) const LABELLED: &str =
    r#"{"format":3,"name":"Cup & <Plate>","teams":["T1","T2","T3","T4"],
    "short":["ONE","TWO","<3>","4&"],"rounds":["7 March","=8","a, b","<4>","\"5\"","6; 7"],
    "distances":[[0,1,2,1],[1,0,1,2],[2,1,0,1],[1,2,1,0]],"repeats":"free"}"#;

const FEASIBLE: Answer = Ok(Some(Verdict::Feasible));

/// The games of the start, with the round's text in each row.
const TABLE: &str = "round,home,home name,away,away name,round text\n\
    1,1,T1,4,T4,7 March\n\
    1,2,T2,3,T3,7 March\n\
    2,1,T1,2,T2,'=8\n\
    2,4,T4,3,T3,'=8\n\
    3,2,T2,4,T4,\"a, b\"\n\
    3,3,T3,1,T1,\"a, b\"\n\
    4,3,T3,2,T2,<4>\n\
    4,4,T4,1,T1,<4>\n\
    5,2,T2,1,T1,\"\"\"5\"\"\"\n\
    5,3,T3,4,T4,\"\"\"5\"\"\"\n\
    6,1,T1,3,T3,6; 7\n\
    6,4,T4,2,T2,6; 7\n";

const SEMICOLONS: CsvForm = CsvForm {
    separator: Separator::Semicolon,
    has_mark: false,
};

/// The table with semicolons.
const TABLE_OF_SEMICOLONS: &str = "round;home;home name;away;away name;round text\n\
    1;1;T1;4;T4;7 March\n\
    1;2;T2;3;T3;7 March\n\
    2;1;T1;2;T2;'=8\n\
    2;4;T4;3;T3;'=8\n\
    3;2;T2;4;T4;a, b\n\
    3;3;T3;1;T1;a, b\n\
    4;3;T3;2;T2;<4>\n\
    4;4;T4;1;T1;<4>\n\
    5;2;T2;1;T1;\"\"\"5\"\"\"\n\
    5;3;T3;4;T4;\"\"\"5\"\"\"\n\
    6;1;T1;3;T3;\"6; 7\"\n\
    6;4;T4;2;T2;\"6; 7\"\n";

const TABLES: &[Case<'_>] = &[
    (
        Command::Report(Format::Csv(COMMAS)),
        &[LABELLED, JUDGED, SHEET],
        FEASIBLE,
        Whole(&[TABLE]),
    ),
    (
        Command::Report(Format::Csv(SEMICOLONS)),
        &[LABELLED, JUDGED, SHEET],
        FEASIBLE,
        Whole(&[TABLE_OF_SEMICOLONS]),
    ),
];

/// The tables are the same schedule again.
const READ_AGAIN: &[Case<'_>] = &[
    (
        TEXT_REPORT,
        &[LABELLED, JUDGED, TABLE],
        FEASIBLE,
        Whole(&[SHEET, COST]),
    ),
    (
        TEXT_REPORT,
        &[LABELLED, JUDGED, TABLE_OF_SEMICOLONS],
        FEASIBLE,
        Whole(&[SHEET, COST]),
    ),
];

/// The games of the start in words.
const IN_WORDS: &str = "Round 1, 7 March\nT1 - T4\nT2 - T3\n\n\
    Round 2, =8\nT1 - T2\nT4 - T3\n\n\
    Round 3, a, b\nT2 - T4\nT3 - T1\n\n\
    Round 4, <4>\nT3 - T2\nT4 - T1\n\n\
    Round 5, \"5\"\nT2 - T1\nT3 - T4\n\n\
    Round 6, 6; 7\nT1 - T3\nT4 - T2\n";

/// Parts of the page: its title and its head, the rows of two teams in the grid, their rows of the travel, and the games by round.
const PARTS_OF_PAGE: &[&str] = &[
    "<title>Cup &amp; &lt;Plate&gt;: Schedule</title>",
    "<h1>Cup &amp; &lt;Plate&gt;: 4 teams, 6 rounds</h1>",
    "<th>1 ONE T1</th><td class='h'>4</td><td class='h'>2</td><td class=''>@3</td><td class=''>@4</td>\
    <td class=''>@2</td><td class='h'>3</td>",
    "<th>3 &lt;3&gt; T3</th><td class=''>@2</td><td class=''>@4</td><td class='h'>1</td>",
    "<th>1 ONE T1</th><td>6</td>",
    "<th>4 4&amp; T4</th><td>8</td>",
    "<section><h3>Round 1, 7 March</h3><div>T1 - T4</div><div>T2 - T3</div></section>\n\
    <section><h3>Round 2, =8</h3><div>T1 - T2</div><div>T4 - T3</div></section>\n",
    "<section><h3>Round 4, &lt;4&gt;</h3><div>T3 - T2</div>",
    "<section><h3>Round 5, &quot;5&quot;</h3><div>T2 - T1</div>",
];

const TEXTS: &[Case<'_>] = &[
    (
        Command::Report(Format::Names),
        &[LABELLED, JUDGED, SHEET],
        FEASIBLE,
        Whole(&[IN_WORDS]),
    ),
    (
        Command::Report(Format::Html),
        &[LABELLED, JUDGED, SHEET],
        FEASIBLE,
        Excerpt("<!DOCTYPE html>", PARTS_OF_PAGE, "</html>\n"),
    ),
];

#[test]
fn words_and_pages_have_the_labels(rt: HostRuntime) -> Result<(), Fail> {
    check_cases(&rt, rt.alloc(), TEXTS)
}

#[test]
fn tables_have_the_texts_of_rounds_and_are_read_again(rt: HostRuntime) -> Result<(), Fail> {
    check_cases(&rt, rt.alloc(), TABLES)?;
    check_cases(&rt, rt.alloc(), READ_AGAIN)
}
