//! The formats of a report.

ghost use Rattle.std.specs.Prelude.{◌≡◌, IfOk, IfSome, OnOk, OnErr, option_map};
ghost use Rattle.std.specs.Io.KnownBytes.{Appends};
ghost use Rattle.std.specs.Str.Lines.{lines};
ghost use Rattle.league.specs.League.{teams};
ghost use Rattle.byte_streams.specs.Limits.{write_limit};
ghost use Rattle.byte_streams.specs.Sending.{AppendsPrefix};
ghost use Rattle.byte_streams.specs.Tally.{FailsWriting};
ghost use Rattle.schedule_texts.specs.Judged.{IsJudgedBy};
ghost use Rattle.report_text.specs.Report.{report_text};
ghost use Rattle.report_page.specs.Format.{prepared_of, text_with, IsPrepared};

use crate::page::page;
use crate::pairings::pairings;
use crate::table::table;
use byte_streams::{Sink, WriteFault, write_all};
use choices::Format;
use fixtures::Schedule;
use league::League;
use report_json::json_report;
use report_text::write_report;
use schedule_texts::Judged;
use std::alloc::{AllocError, Global};

/// The texts that a report takes memory for.
#[derive(Drop)]
pub struct Prepared {
    // the report, unless it is the text that `write_report` writes as it goes
    whole: Option<Vec<u8>>,
    // what stands behind that text
    remarks: Vec<u8>,
}

/// Makes the report in the format, unless it is the text that [`write_report`] writes as it goes: in the format of text,
/// and if the games are no double round robin. The remarks stand behind that text alone. Takes memory for the whole report.
pub fn prepare(
    alloc: Global,
    format: Format,
    league: &League,
    judged: &Judged,
    remarks: Vec<u8>,
) -> Result<Prepared, AllocError>
    requires { IfSome judged.now.schedule (λ s. s.teams ≡ teams league.now) }
    ensures { IfOk result (IsPrepared format league.now judged.now.schedule remarks.items) }
{
    let whole = match judged.schedule() {
        Some(schedule) => prepare_schedule(alloc, format, league, schedule)?,
        None => None,
    };
    Ok(Prepared { whole, remarks })
}

fn prepare_schedule(
    alloc: Global,
    format: Format,
    league: &League,
    schedule: &Schedule,
) -> Result<Option<Vec<u8>>, AllocError>
    requires { schedule.now.teams ≡ teams league.now }
    ensures { IfOk result (λ prepared. option_map (λ text. text.items) prepared ≡ prepared_of format league.now schedule.now) }
{
    match format {
        Format::Text => Ok(None),
        Format::Csv(form) => Ok(Some(table(alloc, form, league, schedule)?)),
        Format::Html => Ok(Some(page(alloc, league, schedule)?)),
        Format::Names => Ok(Some(pairings(alloc, league, schedule)?)),
        Format::Json => Ok(Some(json_report(alloc, league, schedule)?)),
    }
}

/// Writes what was prepared, or else the report of what was judged as text, if this is the text that it was read from, and
/// the remarks. Takes no memory. After a fault a prefix of it went out.
pub fn write_prepared<W: Sink>(
    league: &League,
    text: &[u8],
    judged: &Judged,
    prepared: &Prepared,
    sink: &mut W,
) -> Result<(), WriteFault>
    requires { IsJudgedBy (teams league.now) (lines text.now) judged.now }
    ensures ok { OnOk result (Appends (W.held sink.old) (W.held sink.new)
        (text_with prepared.now (report_text league.now (lines text.now) judged.now.schedule))) }
    ensures prefix { OnErr result (AppendsPrefix (W.held sink.old) (W.held sink.new)
        (text_with prepared.now (report_text league.now (lines text.now) judged.now.schedule))) }
    ensures cause { OnErr result (FailsWriting write_limit (W.tally sink.old) (W.tally sink.new)) }
{
    match &prepared.whole {
        Some(bytes) => write_all(sink, bytes),
        None => write_report(league, text, judged, &prepared.remarks, sink),
    }
}
