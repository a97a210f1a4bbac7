//! A source over std's readers.
ghost use Rattle.std.specs.Prelude.{◌≡◌};
ghost use Rattle.byte_streams.specs.Tally.{no_calls};

use super::ends::{Source, Step};
use super::standard::step_of;
use super::tally::Tally;
use std::io::Read;

/// Gives what a reader gives.
#[derive(Drop)]
pub struct ReaderSource<R> {
    reader: R,
    tally: Tally,
}

impl<R: Read> ReaderSource<R> {
    /// A source of what the reader has left.
    pub fn new(reader: R) -> Self
        ensures left { ⟦<ReaderSource<R> as Source>⟧.left result ≡ R.remaining reader }
        ensures tally { ⟦<ReaderSource<R> as Source>⟧.tally result ≡ no_calls }
    {
        ReaderSource {
            reader,
            tally: Tally::new(),
        }
    }

    /// The calls so far.
    pub fn tally(&self) -> Tally
        ensures { result ≡ ⟦<ReaderSource<R> as Source>⟧.tally self.now }
    {
        self.tally
    }
}

impl<R: Read> Source for ReaderSource<R> {
    ghost left = { λ s. R.remaining s.reader };

    ghost tally = { λ s. s.tally };

    fn pull(&mut self, buffer: &mut [u8]) -> Step {
        let answer = self.reader.read(buffer);
        step_of(&answer).noted_in(&mut self.tally)
    }
}
