//! The search text: what was asked for, a line for each worker, and the board in the end.

ghost use Rattle.std.specs.Prelude.{OnOk, OnErr};
ghost use Rattle.std.specs.Io.KnownBytes.{Appends};
ghost use Rattle.byte_streams.specs.Limits.{write_limit};
ghost use Rattle.byte_streams.specs.Sending.{AppendsPrefix};
ghost use Rattle.byte_streams.specs.Tally.{FailsWriting};
ghost use Rattle.byte_streams.specs.Writing.{Writes};
ghost use Rattle.commands.specs.Find.{search_text, worker_lines};

use board_texts::{write_found, write_plan, write_worker};
use byte_streams::{BufferedSink, Sink, WriteFault};
use search::{Outcome, Reports};

/// Writes the search text of an outcome. Takes no memory. After a fault a prefix of the text went out.
pub fn search_report<W: Sink>(outcome: &Outcome, sink: &mut W) -> Result<(), WriteFault>
    ensures ok { OnOk result (Appends (W.held sink.old) (W.held sink.new) (search_text outcome.now)) }
    ensures prefix { OnErr result (AppendsPrefix (W.held sink.old) (W.held sink.new) (search_text outcome.now)) }
    ensures cause { OnErr result (FailsWriting write_limit (W.tally sink.old) (W.tally sink.new)) }
{
    let mut out = BufferedSink::new(sink);
    write_outcome(&mut out, outcome)?;
    out.flush()
}

fn write_outcome<W: Sink>(
    out: &mut BufferedSink<'_, W>,
    outcome: &Outcome,
) -> Result<(), WriteFault>
    ensures { Writes W.held W.tally out.old out.new result (search_text outcome.now) }
{
    let plan = outcome.plan;
    write_plan(out, plan.workers, plan.steps, plan.seed)?;
    write_workers(out, &outcome.reports)?;
    write_found(out, &outcome.board)
}

fn write_workers<W: Sink>(
    out: &mut BufferedSink<'_, W>,
    reports: &Reports,
) -> Result<(), WriteFault>
    ensures { Writes W.held W.tally out.old out.new result (worker_lines 1 reports.now) }
{
    for i in 0..reports.len() {
        let report = reports.at(i);
        let number = i as u64 + 1;
        write_worker(out, number, report.made, report.accepted, report.refused)?;
    }
    Ok(())
}
