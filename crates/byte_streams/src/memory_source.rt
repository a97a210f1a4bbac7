//! A source over memory that the caller owns. It allocates nothing, and no call of it fails.
ghost use Rattle.std.specs.Prelude.{◌≡◌, ◌<◌, length, min, Some};
ghost use Rattle.byte_streams.specs.declared.ends.Step.TheVariants.{Moved};
ghost use Rattle.byte_streams.specs.Ends.{StepTakes};
ghost use Rattle.byte_streams.specs.Tally.{no_calls, noted};

use super::ends::{Source, Step};
use super::tally::Tally;

/// Gives the bytes of a slice.
#[derive(Drop)]
pub struct MemorySource<'a> {
    rest: &'a [u8],
    most: usize,
    tally: Tally,
    ghost positive: { 0 < most },
}

impl<'a> MemorySource<'a> {
    ghost use Rattle.byte_streams.specs.Memory.{most_at_once};

    /// A source of all these bytes, as many at a call as the buffer takes.
    pub const fn new(bytes: &'a [u8]) -> Self
        ensures left { ⟦<MemorySource<'a> as Source>⟧.left result ≡ Some bytes.now }
        ensures tally { ⟦<MemorySource<'a> as Source>⟧.tally result ≡ no_calls }
        ensures most { most_at_once result ≡ usize.MAX }
    {
        MemorySource::in_pieces(bytes, usize::MAX)
    }

    /// A source of all these bytes, at most `most` at a call.
    pub const fn in_pieces(bytes: &'a [u8], most: usize) -> Self
        requires { 0 < most }
        ensures left { ⟦<MemorySource<'a> as Source>⟧.left result ≡ Some bytes.now }
        ensures tally { ⟦<MemorySource<'a> as Source>⟧.tally result ≡ no_calls }
        ensures most { most_at_once result ≡ most }
    {
        MemorySource {
            rest: bytes,
            most,
            tally: Tally::new(),
        }
    }

    /// The calls so far.
    pub const fn tally(&self) -> Tally
        ensures { result ≡ ⟦<MemorySource<'a> as Source>⟧.tally self.now }
    {
        self.tally
    }
}

impl Source for MemorySource<'_> {
    ghost use Rattle.byte_streams.specs.Memory.{most_at_once, rest_of};

    ghost left = { λ s. Some s.rest.now };

    ghost tally = { λ s. s.tally };

    fn pull(&mut self, buffer: &mut [u8]) -> Step
        requires { 0 < length buffer.old }
        ensures bytes { StepTakes (Some (rest_of self.old)) (Some (rest_of self.new)) result buffer.new }
        ensures counted { self.new.tally ≡ noted self.old.tally result }
        ensures moved { result ≡ Moved (min (min (most_at_once self.old) (length buffer.old)) (length (rest_of self.old))) }
        ensures most { most_at_once self.new ≡ most_at_once self.old }
    {
        let count = self.most.min(buffer.len()).min(self.rest.len());
        let (front, rest) = self.rest.split_at(count);
        buffer[..count].copy_from_slice(front);
        self.rest = rest;
        let step = Step::Moved(count);
        step.noted_in(&mut self.tally)
    }
}
