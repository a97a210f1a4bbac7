//! Reports as CSV, as a page and in words: the games read back, names that try to break out, damage, and a page whose writes are refused.

use crate::tests::checks::{check_holds, check_same};
use crate::tests::circle::{CIRCLE, SHEET};
use crate::tests::judged_schedules::{DAMAGE, FAULTS_ALONE};
use crate::tests::samples::{COMMAS, JUDGED, NAMES, PAGE, TABLE};
use crate::tests::told::Text::Excerpt;
use crate::tests::told::{Case, Command, Text, check_cases, tell};
use byte_streams::{MemorySink, MemorySource, RehearsedSink, Step};
use commands::{CsvForm, Format, ProgramFault, Separator, Verdict, report};
use csv::{ByteRecord, ReaderBuilder};
use std::alloc::Global;
use std::process::Abort;
use std::str;
use std::test::Fail;

const CASES: &[Case<'_>] = &[
    TABLE,
    PAGE,
    NAMES,
    (
        Command::Report(Format::Csv(COMMAS)),
        DAMAGE,
        Ok(Some(Verdict::Infeasible)),
        FAULTS_ALONE,
    ),
    (
        Command::Report(Format::Html),
        DAMAGE,
        Ok(Some(Verdict::Infeasible)),
        FAULTS_ALONE,
    ),
    (
        Command::Report(Format::Names),
        DAMAGE,
        Ok(Some(Verdict::Infeasible)),
        FAULTS_ALONE,
    ),
    (
        Command::Report(Format::Json),
        DAMAGE,
        Ok(Some(Verdict::Infeasible)),
        FAULTS_ALONE,
    ),
];

#[test]
fn tables_and_pages_have_the_games_or_the_faults(rt: HostRuntime) -> Result<(), Fail> {
    check_cases(&rt, rt.alloc(), CASES)
}

/// Four teams whose names have marks of CSV and of HTML.
pub(crate) const MARKED: &str =
    r#"{"format":1,"teams":["a, b","say \"c\"","<script>d</script>","\"' onload='&lt;"],
    "distances":[[0,1,2,1],[1,0,1,2],[2,1,0,1],[1,2,1,0]]}"#;

const FIRST: &str = "a, b";

const SECOND: &str = "say \"c\"";

const THIRD: &str = "<script>d</script>";

const FOURTH: &str = "\"' onload='&lt;";

/// The games of the start with those names.
const RECORDS: [[&str; 5]; 12] = [
    ["1", "1", FIRST, "4", FOURTH],
    ["1", "2", SECOND, "3", THIRD],
    ["2", "1", FIRST, "2", SECOND],
    ["2", "4", FOURTH, "3", THIRD],
    ["3", "2", SECOND, "4", FOURTH],
    ["3", "3", THIRD, "1", FIRST],
    ["4", "3", THIRD, "2", SECOND],
    ["4", "4", FOURTH, "1", FIRST],
    ["5", "2", SECOND, "1", FIRST],
    ["5", "3", THIRD, "4", FOURTH],
    ["6", "1", FIRST, "3", THIRD],
    ["6", "4", FOURTH, "2", SECOND],
];

/// The report of that league and its start, which is feasible.
pub(crate) fn marked(rt: &impl Abort, alloc: Global, format: Format) -> Result<Vec<u8>, Fail> {
    let input = [MARKED, JUDGED, SHEET].concat(alloc)?;
    let told = tell(alloc, Command::Report(format), input.as_bytes())?;
    check_same(rt, &told.answer, &Ok(Some(Verdict::Feasible)));
    Ok(told.text)
}

fn is_record(record: &ByteRecord, fields: &[&str]) -> bool {
    for (place, field) in fields.iter().enumerate() {
        if record.get(place) != Some(field.as_bytes()) {
            return false;
        }
    }
    record.len() == fields.len()
}

#[test]
fn table_with_any_names_is_read_back(rt: HostRuntime) -> Result<(), Fail> {
    let table = marked(&rt, rt.alloc(), Format::Csv(COMMAS))?;
    let mut reader = ReaderBuilder::new().from_reader(rt.alloc(), table.as_slice());
    let mut record = ByteRecord::new(rt.alloc());
    for wanted in &RECORDS {
        let is_read = reader.read_byte_record(&mut record).unwrap_or(false);
        check_holds(&rt, wanted, is_read && is_record(&record, wanted));
    }
    let is_over = !reader.read_byte_record(&mut record).unwrap_or(true);
    check_same(&rt, &is_over, &true);
    Ok(())
}

/// Four teams whose names begin as formulas of a spreadsheet do, and what stands in a name behind its first mark.
const FORMULAS: &str =
    r#"{"format":1,"teams":["=1+1","+2","-3; 4","@5=\""],"distances":[[0,1,2,1],[1,0,1,2],[2,1,0,1],[1,2,1,0]]}"#;

/// A form, and the first lines of the start of those teams in it.
const GUARDED: [(CsvForm, &str); 3] = [
    (
        COMMAS,
        "round,home,home name,away,away name\n1,1,'=1+1,4,\"'@5=\"\"\"\n1,2,'+2,3,'-3; 4\n2,1,'=1+1,2,'+2\n",
    ),
    (
        CsvForm {
            separator: Separator::Semicolon,
            has_mark: true,
        },
        "\u{feff}round;home;home name;away;away name\n1;1;'=1+1;4;\"'@5=\"\"\"\n1;2;'+2;3;\"'-3; 4\"\n",
    ),
    (
        CsvForm {
            separator: Separator::Tab,
            has_mark: false,
        },
        "round\thome\thome name\taway\taway name\n1\t1\t'=1+1\t4\t\"'@5=\"\"\"\n1\t2\t'+2\t3\t'-3; 4\n",
    ),
];

#[test]
fn no_cell_is_a_formula(rt: HostRuntime) -> Result<(), Fail> {
    let input = [FORMULAS, JUDGED, SHEET].concat(rt.alloc())?;
    for (form, wanted) in GUARDED {
        let command = Command::Report(Format::Csv(form));
        let told = tell(rt.alloc(), command, input.as_bytes())?;
        check_holds(&rt, &wanted, told.text.starts_with(wanted.as_bytes()));
    }
    Ok(())
}

/// Parts of a page with those names, and what none has.
const ESCAPED: Text<'_> = Excerpt(
    "",
    &[
        "<th>1 a, b</th>",
        "<th>2 say &quot;c&quot;</th>",
        "<th>3 &lt;script&gt;d&lt;/script&gt;</th>",
        "<th>4 &quot;&#39; onload=&#39;&amp;lt;</th>",
    ],
    "",
);

const BREAKING_OUT: [&str; 4] = ["<script", "' onload", "\"c", "4 &lt;"];

#[test]
fn names_stay_names_on_a_page(rt: HostRuntime) -> Result<(), Fail> {
    let page = marked(&rt, rt.alloc(), Format::Html)?;
    check_holds(&rt, &"escaped", ESCAPED.is_told(&page));
    let page = str::from_utf8(&page)?;
    for part in BREAKING_OUT {
        check_holds(&rt, &part, !page.contains(part));
    }
    Ok(())
}

/// The first rounds in words with those names.
const IN_WORDS: Text<'_> = Excerpt(
    "Round 1\na, b - \"' onload='&lt;\nsay \"c\" - <script>d</script>\n\nRound 2\n",
    &["\n\nRound 6\na, b - <script>d</script>\n"],
    "\"' onload='&lt; - say \"c\"\n",
);

#[test]
fn names_in_words_are_as_they_are(rt: HostRuntime) -> Result<(), Fail> {
    let text = marked(&rt, rt.alloc(), Format::Names)?;
    check_holds(&rt, &"in words", IN_WORDS.is_told(&text));
    Ok(())
}

/// A page whose sink takes so many bytes and then fails leaves a prefix of it.
fn check_front(
    rt: &impl Abort,
    alloc: Global,
    input: &str,
    page: &[u8],
    length: usize,
) -> Result<(), Fail> {
    let mut buffer = vec![in alloc; 0; 20_000]?;
    let mut memory = MemorySink::new(&mut buffer);
    let steps = [Step::Moved(length), Step::Failed];
    let mut sink = RehearsedSink::new(&mut memory, &steps);
    let source = MemorySource::new(input.as_bytes());
    let answer = report(alloc, source, &mut sink, Format::Html);
    let front = memory.held();
    let found = (answer, front.len(), page.starts_with(front));
    check_same(rt, &found, &(Err(ProgramFault::Write), length, true));
    Ok(())
}

#[test]
fn page_leaves_a_front_wherever_a_write_fails(rt: HostRuntime) -> Result<(), Fail> {
    let (command, parts, _, _) = PAGE;
    let input = parts.concat(rt.alloc())?;
    let page = tell(rt.alloc(), command, input.as_bytes())?;
    for length in (1..page.text.len()).step_by(100) {
        check_front(&rt, rt.alloc(), input.as_str(), &page.text, length)?;
    }
    Ok(())
}
