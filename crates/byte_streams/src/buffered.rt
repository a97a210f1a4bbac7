//! Small pieces, gathered before they go out.
ghost use Rattle.std.specs.Prelude.{◌≡◌, ◌+◌, ◌≤◌, [], length, decimal};
ghost use Rattle.byte_streams.specs.Limits.{buffer_limit};
ghost use Rattle.byte_streams.specs.Writing.{IsFreshOver, Waits, Writes, waiting_in};

use super::ends::Sink;
use super::writing::{WriteFault, write_all};
use arrayvec::ArrayVec;

/// How many bytes may wait.
const CAPACITY: usize = 4096;

/// Gathers pieces of a text for a sink, so that small ones don't make a call each. What waits goes out when a piece
/// doesn't fit beside it, and at [`BufferedSink::flush`]; a drop does not flush. After a fault nothing waits: what had
/// not gone out is lost. The sink is lent for as long as this lives.
#[derive(Drop)]
pub struct BufferedSink<'a, W> {
    sink: &'a mut W,
    waiting: ArrayVec<u8, CAPACITY>,
}

impl<'a, W: Sink> BufferedSink<'a, W> {
    /// Nothing waits, and the sink is as it was.
    pub fn new(sink: &'a mut W) -> Self
        ensures { IsFreshOver sink.entry result }
    {
        BufferedSink {
            sink,
            waiting: ArrayVec::new(),
        }
    }

    /// Adds the bytes to the text. If they fit beside those that wait, they wait as well.
    pub fn write(&mut self, bytes: &[u8]) -> Result<(), WriteFault>
        ensures waits { length (waiting_in self.old) + length bytes.now ≤ buffer_limit →
            Waits self.old self.new result bytes.now }
        ensures writes { Writes W.held W.tally self.old self.new result bytes.now }
    {
        if self.waiting.try_extend_from_slice(bytes).is_ok() {
            return Ok(());
        }
        self.flush()?;
        if self.waiting.try_extend_from_slice(bytes).is_ok() {
            return Ok(());
        }
        write_all(self.sink, bytes)
    }

    /// Adds the number to the text, in decimal.
    pub fn write_number(&mut self, number: u64) -> Result<(), WriteFault>
        ensures waits { length (waiting_in self.old) + length (decimal number) ≤ buffer_limit →
            Waits self.old self.new result (decimal number) }
        ensures writes { Writes W.held W.tally self.old self.new result (decimal number) }
    {
        let mut digits = itoa::Buffer::new();
        self.write(digits.format(number).as_bytes())
    }

    /// Sends all that waits to the sink.
    pub fn flush(&mut self) -> Result<(), WriteFault>
        ensures writes { Writes W.held W.tally self.old self.new result [] }
        ensures waiting { waiting_in self.new ≡ [] }
    {
        let outcome = write_all(self.sink, self.waiting.as_slice());
        self.waiting.clear();
        outcome
    }
}
