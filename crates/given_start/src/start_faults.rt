//! The faults of a text at which boards can't begin.

ghost use Rattle.std.specs.Prelude.{◌≡◌, Err, OnOk, OnErr};
ghost use Rattle.std.specs.Io.KnownBytes.{Appends};
ghost use Rattle.std.specs.Str.Lines.{lines};
ghost use Rattle.league.specs.League.{teams};
ghost use Rattle.byte_streams.specs.Sending.{AppendsPrefix};
ghost use Rattle.schedule_texts.specs.Faults.{faults_text};
ghost use Rattle.given_start.specs.Begun.{start_faults};
ghost use Rattle.schedule_texts.specs.Judged.{IsJudgedBy};

use byte_streams::{BufferedSink, Sink, WriteFault};
use league::League;
use schedule_csv::{TableFault, schedule_text};
use schedule_texts::{Judged, judge};
use std::alloc::{AllocError, Global};
use thiserror::Error;

/// Why the faults of a text weren't told.
#[derive(Clone, Copy, Debug, PartialEq, Eq, Error)]
pub enum TellFault {
    /// Memory ran out.
    #[error("out of memory")]
    Memory,
    /// A write failed.
    #[error("output cannot be written")]
    Write,
}

impl From<AllocError> for TellFault {
    ghost use Rattle.given_start.specs.declared.start_faults.TellFault.TheVariants.{Memory};

    ghost from_gives = { λ _ fault. fault ≡ Memory };

    fn from(_error: AllocError) -> Self {
        TellFault::Memory
    }
}

impl From<WriteFault> for TellFault {
    ghost use Rattle.given_start.specs.declared.start_faults.TellFault.TheVariants.{Write};

    ghost from_gives = { λ _ fault. fault ≡ Write };

    fn from(_fault: WriteFault) -> Self {
        TellFault::Write
    }
}

/// Writes what is wrong with the last sheet of a text, or with a table's games, that are no double round robin of the league's
/// teams, a line for each fault as in a report, and the line `no double round robin`. Of a table with a row that gives no game
/// nothing is written. If a write fails, a prefix of the lines went out. Memory is taken before anything is written.
pub fn write_start_faults<W: Sink>(
    alloc: Global,
    league: &League,
    given: &[u8],
    sink: &mut W,
) -> Result<(), TellFault>
    ensures ok { OnOk result (Appends (W.held sink.old) (W.held sink.new) (start_faults league.now (lines given.now))) }
    ensures prefix { result ≡ Err TellFault.Write → AppendsPrefix (W.held sink.old) (W.held sink.new)
        (start_faults league.now (lines given.now)) }
    ensures memory { result ≡ Err TellFault.Memory → sink.new ≡ sink.old }
{
    let text = match schedule_text(alloc, league, given) {
        Ok(text) => text,
        Err(TableFault::Row(_)) => return Ok(()),
        Err(TableFault::Memory) => return Err(TellFault::Memory),
    };
    let judged = judge(alloc, league, text.as_bytes())?;
    write_judged(league, text.as_bytes(), &judged, sink)?;
    Ok(())
}

fn write_judged<W: Sink>(
    league: &League,
    text: &[u8],
    judged: &Judged,
    sink: &mut W,
) -> Result<(), WriteFault>
    requires { IsJudgedBy (teams league.now) (lines text.now) judged.now }
    ensures ok { OnOk result (Appends (W.held sink.old) (W.held sink.new) (faults_text (teams league.now) (lines text.now))) }
    ensures prefix { OnErr result (AppendsPrefix (W.held sink.old) (W.held sink.new)
        (faults_text (teams league.now) (lines text.now))) }
{
    let mut out = BufferedSink::new(sink);
    judged.write_faults(&mut out, league, text)?;
    out.flush()
}
