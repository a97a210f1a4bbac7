//! The command `report`.

ghost use Rattle.std.specs.Prelude.{◌≡◌, ◌≤◌, IfSome, List, Ok, Option, Some, option_map, ℕ};
ghost use Rattle.given_start.specs.declared.begun.Beginning.{Beginning as Given};
ghost use Rattle.league.specs.League.{teams};
ghost use Rattle.league.specs.Limits.{max_weight};
ghost use Rattle.schedule_csv.specs.Table.{schedule_lines};
ghost use Rattle.schedule_texts.specs.Judged.{IsJudgedBy};
ghost use Rattle.std.specs.Str.Lines.{lines};
ghost use Rattle.commands.specs.Begun.{Begins};
ghost use Rattle.commands.specs.Outcome.{value_of, without_value, Ends, EndsOn};
ghost use Rattle.commands.specs.Report.{AnswersReport, AnswersReportOn};

use crate::begun::begun_league;
use crate::fault::{ProgramFault, after_writing};
use crate::verdict::Verdict;
use byte_streams::{Sink, Source, read_all};
use choices::Format;
use given_start::Beginning;
use league::League;
use league_hints::remarks_on;
use report_page::{prepare, write_prepared};
use report_text::is_feasible;
use schedule_csv::schedule_text;
use schedule_texts::{Judged, judge};
use std::alloc::Global;
use text_lines::split_at_line;

/// Reads a league, a line `sheet` and a schedule, as a text or a table, to the end of the source, and writes the report: the games and what they
/// cost in the format if they are a double round robin of the league's teams, otherwise what is wrong with them, as text. Behind
/// a text stands a remark on each member of the league that no format knows.
/// Nothing is written before all other faults are past, and no memory is taken from then on.
///
/// The outcome is that of [`report_from`]. What the source became is some later state.
pub fn report<R: Source + Drop, W: Sink>(
    alloc: Global,
    mut source: R,
    sink: &mut W,
    format: Format,
) -> Result<Verdict, ProgramFault>
    ensures { (after : R) × Ends R.left R.tally W.held W.tally (AnswersReport format (value_of result))
        source after sink.old sink.new (without_value result) }
{
    report_from(alloc, &mut source, sink, format)
}

/// As [`report`], from a source that is lent.
pub fn report_from<R: Source, W: Sink>(
    alloc: Global,
    source: &mut R,
    sink: &mut W,
    format: Format,
) -> Result<Verdict, ProgramFault>
    ensures { Ends R.left R.tally W.held W.tally (AnswersReport format (value_of result))
        source.old source.new sink.old sink.new (without_value result) }
{
    let input = read_all(alloc, source)?;
    let (league, sheet) = split_at_line(&input, b"sheet");
    report_on(alloc, league, sheet, None, sink, format)
}

/// As [`report`], of a league's text and the text or table of a schedule that were read, where the league is to begin: at its own start, if nothing else is said.
pub fn report_on<W: Sink>(
    alloc: Global,
    league: &[u8],
    sheet: Option<&[u8]>,
    beginning: Option<&Beginning<'_>>,
    sink: &mut W,
    format: Format,
) -> Result<Verdict, ProgramFault>
    requires near { IfSome beginning (λ b. b.now.near ≤ max_weight) }
    ensures { EndsOn W.held W.tally
        (AnswersReportOn format (value_of result) league.now (option_map (λ text. lines text.now) sheet.entry) (option_map (λ b. b.now) beginning.entry))
        sink.old sink.new (without_value result) }
{
    let begun = begun_league(alloc, league, beginning)?;
    report_in(alloc, league, &begun, sheet, sink, format)
}

/// As [`report_on`], in the league of this text that has begun.
fn report_in<W: Sink>(
    alloc: Global,
    text: &[u8],
    league: &League,
    sheet: Option<&[u8]>,
    sink: &mut W,
    format: Format,
) -> Result<Verdict, ProgramFault>
    ensures { (beginning : Option Given) → Begins text.now beginning league.now → EndsOn W.held W.tally
        (AnswersReportOn format (value_of result) text.now (option_map (λ text. lines text.now) sheet.entry) beginning)
        sink.old sink.new (without_value result) }
{
    let Some(given) = sheet else {
        return Err(ProgramFault::NoSheet);
    };
    let given = schedule_text(alloc, league, given)?;
    report_lines(alloc, text, league, given.as_bytes(), sink, format)
}

/// As [`report_in`], on the lines of a schedule.
fn report_lines<W: Sink>(
    alloc: Global,
    text: &[u8],
    league: &League,
    sheet: &[u8],
    sink: &mut W,
    format: Format,
) -> Result<Verdict, ProgramFault>
    ensures { (given : Option (List (List ℕ))) (beginning : Option Given) → Begins text.now beginning league.now
        → option_map (schedule_lines league.now) given ≡ Some (Ok (lines sheet.now))
        → EndsOn W.held W.tally (AnswersReportOn format (value_of result) text.now given beginning) sink.old sink.new (without_value result) }
{
    let judged = judge(alloc, league, sheet)?;
    report_judged(alloc, text, league, sheet, &judged, sink, format)
}

/// As [`report_lines`], where they were judged.
fn report_judged<W: Sink>(
    alloc: Global,
    text: &[u8],
    league: &League,
    sheet: &[u8],
    judged: &Judged,
    sink: &mut W,
    format: Format,
) -> Result<Verdict, ProgramFault>
    requires { IsJudgedBy (teams league.now) (lines sheet.now) judged.now }
    ensures { (given : Option (List (List ℕ))) (beginning : Option Given) → Begins text.now beginning league.now
        → option_map (schedule_lines league.now) given ≡ Some (Ok (lines sheet.now))
        → EndsOn W.held W.tally (AnswersReportOn format (value_of result) text.now given beginning) sink.old sink.new (without_value result) }
{
    let verdict = Verdict::of(is_feasible(judged, league));
    let remarks = remarks_on(alloc, text)?;
    let prepared = prepare(alloc, format, league, judged, remarks)?;
    let outcome = write_prepared(league, sheet, judged, &prepared, sink);
    after_writing(outcome, verdict)
}
