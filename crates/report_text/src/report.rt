//! The report of what a text gives for a league.

ghost use Rattle.std.specs.Prelude.{◌≡◌, ◌++◌, IfSome, OnOk, OnErr};
ghost use Rattle.std.specs.Io.KnownBytes.{Appends};
ghost use Rattle.std.specs.Str.Lines.{lines};
ghost use Rattle.league.specs.League.{teams};
ghost use Rattle.byte_streams.specs.Limits.{write_limit};
ghost use Rattle.byte_streams.specs.Sending.{AppendsPrefix};
ghost use Rattle.byte_streams.specs.Tally.{FailsWriting};
ghost use Rattle.byte_streams.specs.Writing.{Writes};
ghost use Rattle.text_lines.specs.Sheet.{sheet_of};
ghost use Rattle.schedule_texts.specs.Judged.{IsJudgedBy};
ghost use Rattle.report_text.specs.CostText.{cost_text};
ghost use Rattle.report_text.specs.Report.{is_feasible, report_text};

use crate::cost_text::write_costs;
use byte_streams::{BufferedSink, Sink, WriteFault};
use costs::cost_of;
use fixtures::Schedule;
use league::League;
use schedule_texts::Judged;
use text_lines::write_sheet;

/// Whether there is a double round robin that breaks no hard limit of the league that it was judged for.
pub fn is_feasible(judged: &Judged, league: &League) -> bool
    requires { IfSome judged.now.schedule (λ s. s.teams ≡ teams league.now) }
    ensures { result ≡ is_feasible league.now judged.now.schedule }
{
    match judged.schedule() {
        Some(schedule) => cost_of(schedule, league).is_feasible(),
        None => false,
    }
}

/// Writes the report of what was judged, if this is the text that it was read from, and behind it the remarks. Takes no
/// memory. After a fault a prefix of both went out.
pub fn write_report<W: Sink>(
    league: &League,
    text: &[u8],
    judged: &Judged,
    remarks: &[u8],
    sink: &mut W,
) -> Result<(), WriteFault>
    requires { IsJudgedBy (teams league.now) (lines text.now) judged.now }
    ensures ok { OnOk result (Appends (W.held sink.old) (W.held sink.new)
        (report_text league.now (lines text.now) judged.now.schedule ++ remarks.now)) }
    ensures prefix { OnErr result (AppendsPrefix (W.held sink.old) (W.held sink.new)
        (report_text league.now (lines text.now) judged.now.schedule ++ remarks.now)) }
    ensures cause { OnErr result (FailsWriting write_limit (W.tally sink.old) (W.tally sink.new)) }
{
    let mut out = BufferedSink::new(sink);
    write_remarked(&mut out, league, text, judged, remarks)?;
    out.flush()
}

fn write_remarked<W: Sink>(
    out: &mut BufferedSink<'_, W>,
    league: &League,
    text: &[u8],
    judged: &Judged,
    remarks: &[u8],
) -> Result<(), WriteFault>
    requires { IsJudgedBy (teams league.now) (lines text.now) judged.now }
    ensures { Writes W.held W.tally out.old out.new result
        (report_text league.now (lines text.now) judged.now.schedule ++ remarks.now) }
{
    write_judged(out, league, text, judged)?;
    out.write(remarks)
}

fn write_judged<W: Sink>(
    out: &mut BufferedSink<'_, W>,
    league: &League,
    text: &[u8],
    judged: &Judged,
) -> Result<(), WriteFault>
    requires { IsJudgedBy (teams league.now) (lines text.now) judged.now }
    ensures { Writes W.held W.tally out.old out.new result
        (report_text league.now (lines text.now) judged.now.schedule) }
{
    match judged.schedule() {
        Some(schedule) => write_schedule(out, league, schedule),
        None => judged.write_faults(out, league, text),
    }
}

fn write_schedule<W: Sink>(
    out: &mut BufferedSink<'_, W>,
    league: &League,
    schedule: &Schedule,
) -> Result<(), WriteFault>
    requires { schedule.now.teams ≡ teams league.now }
    ensures { Writes W.held W.tally out.old out.new result
        (sheet_of schedule.now league.now ++ cost_text league.now schedule.now) }
{
    write_sheet(out, schedule, league)?;
    write_costs(out, league, schedule)
}
