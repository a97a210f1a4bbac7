//! Writing a whole text.
ghost use Rattle.std.specs.Prelude.{◌≡◌, ◌+◌, ◌*◌, ◌≤◌, length, OnOk, OnErr};
ghost use Rattle.std.specs.Io.KnownBytes.{Appends};
ghost use Rattle.byte_streams.specs.Limits.{write_limit};
ghost use Rattle.byte_streams.specs.Sending.{AppendsPrefix};
ghost use Rattle.byte_streams.specs.Tally.{NotBelow, FailsWriting};

use super::ends::{Sink, Step};
use thiserror::Error;

/// So many writes that were interrupted in a row count as a failed one.
pub const WRITE_LIMIT: u64 = 1_000;

/// A write failed, took no byte, or was interrupted [`WRITE_LIMIT`] times in a row.
#[derive(Clone, Copy, Debug, PartialEq, Eq, Error)]
#[error("output cannot be written")]
pub struct WriteFault;

/// Writes the whole text. An interrupted write is tried again. At an `Err` a prefix of the text went out.
pub fn write_all<W: Sink>(sink: &mut W, text: &[u8]) -> Result<(), WriteFault>
    ensures ok { OnOk result (Appends (W.held sink.old) (W.held sink.new) text.now) }
    ensures prefix { OnErr result (AppendsPrefix (W.held sink.old) (W.held sink.new) text.now) }
    ensures cause { OnErr result (FailsWriting write_limit (W.tally sink.old) (W.tally sink.new)) }
    ensures counts { NotBelow (W.tally sink.old) (W.tally sink.new) }

    // at most 999 interrupted writes stand before each byte, and one more ends it
    ensures calls { (W.tally sink.new).calls ≤ (W.tally sink.old).calls + write_limit * length text.now }
    ensures at_once { (W.tally sink.new).failed + (W.tally sink.new).empty ≤ (W.tally sink.old).failed + (W.tally sink.old).empty + 1 }
    ensures none_failed { OnOk result
        ((W.tally sink.new).failed + (W.tally sink.new).empty ≡ (W.tally sink.old).failed + (W.tally sink.old).empty) }
{
    let mut rest = text;
    let mut interrupted = 0;
    while !rest.is_empty() {
        match sink.push(rest) {
            Step::Moved(n) => {
                if n == 0 {
                    return Err(WriteFault);
                }
                let (_sent, left) = rest.split_at(n);
                rest = left;
                interrupted = 0;
            }
            Step::Again => {
                interrupted += 1;
                if interrupted == WRITE_LIMIT {
                    return Err(WriteFault);
                }
            }
            Step::Failed => return Err(WriteFault),
        }
    }
    Ok(())
}
