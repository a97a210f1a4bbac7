//! A sink over memory that the caller owns. It allocates nothing, and no call of it fails.
ghost use Rattle.std.specs.Prelude.{◌≡◌, ◌-◌, ◌<◌, ◌≤◌, [], length, min, Some, take};
ghost use Rattle.byte_streams.specs.declared.ends.Step.TheVariants.{Moved};
ghost use Rattle.byte_streams.specs.Ends.{StepGives};
ghost use Rattle.byte_streams.specs.Tally.{no_calls, noted};

use super::ends::{Sink, Step};
use super::tally::Tally;

/// Takes bytes into a slice, until that is full.
#[derive(Drop)]
pub struct MemorySink<'a> {
    buffer: &'a mut [u8],
    filled: usize,
    tally: Tally,
    ghost within: { filled ≤ length buffer.now },
}

impl<'a> MemorySink<'a> {
    ghost use Rattle.byte_streams.specs.Memory.{space_in};

    /// A sink that holds nothing yet, and takes as many bytes as the slice has places.
    pub fn new(buffer: &'a mut [u8]) -> Self
        ensures held { ⟦<MemorySink<'a> as Sink>⟧.held result ≡ Some [] }
        ensures tally { ⟦<MemorySink<'a> as Sink>⟧.tally result ≡ no_calls }
        ensures space { space_in result ≡ length buffer.entry.now }
    {
        MemorySink {
            buffer,
            filled: 0,
            tally: Tally::new(),
        }
    }

    /// The bytes that it holds.
    pub fn held(&self) -> &[u8]
        ensures { ⟦<MemorySink<'a> as Sink>⟧.held self.now ≡ Some result.now }
    {
        &self.buffer[..self.filled]
    }

    /// The calls so far.
    pub const fn tally(&self) -> Tally
        ensures { result ≡ ⟦<MemorySink<'a> as Sink>⟧.tally self.now }
    {
        self.tally
    }
}

impl Sink for MemorySink<'_> {
    ghost use Rattle.byte_streams.specs.Memory.{bytes_in, space_in};

    ghost held = { λ s. Some (take s.filled s.buffer.now) };

    ghost tally = { λ s. s.tally };

    fn push(&mut self, piece: &[u8]) -> Step
        requires { 0 < length piece.now }
        ensures bytes { StepGives (Some (bytes_in self.old)) (Some (bytes_in self.new)) result piece.now }
        ensures counted { self.new.tally ≡ noted self.old.tally result }
        ensures moved { result ≡ Moved (min (length piece.now) (space_in self.old)) }
        ensures space { space_in self.new ≡ space_in self.old - min (length piece.now) (space_in self.old) }
    {
        let start = self.filled;
        let count = piece.len().min(self.buffer.len() - start);
        self.buffer[start..start + count].copy_from_slice(&piece[..count]);
        self.filled = start + count;
        let step = Step::Moved(count);
        step.noted_in(&mut self.tally)
    }
}
