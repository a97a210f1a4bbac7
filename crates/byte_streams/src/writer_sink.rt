//! A sink over std's writers.
ghost use Rattle.std.specs.Prelude.{◌≡◌};
ghost use Rattle.byte_streams.specs.Tally.{no_calls};

use super::ends::{Sink, Step};
use super::standard::step_of;
use super::tally::Tally;
use std::io;
use std::io::{ErrorKind, Write};
use std::sync::atomic::{AtomicBool, Ordering};

/// Hands on what it takes to a writer.
#[derive(Drop)]
pub struct WriterSink<'a, W> {
    writer: W,
    tally: Tally,
    /// What is to be set once nobody reads what is written.
    is_closed: Option<&'a AtomicBool>,
}

impl<'a, W: Write> WriterSink<'a, W> {
    /// A sink that holds what the writer holds.
    pub fn new(writer: W) -> Self
        ensures held { ⟦<WriterSink<'a, W> as Sink>⟧.held result ≡ W.contents writer }
        ensures tally { ⟦<WriterSink<'a, W> as Sink>⟧.tally result ≡ no_calls }
    {
        WriterSink {
            writer,
            tally: Tally::new(),
            is_closed: None,
        }
    }

    /// The same over a pipe. A write that fails because the other end is closed, as by `ttp improve | head`, sets the flag: whoever closed
    /// it wants no more.
    pub fn over_pipe(writer: W, is_closed: &'a AtomicBool) -> Self
        ensures held { ⟦<WriterSink<'a, W> as Sink>⟧.held result ≡ W.contents writer }
        ensures tally { ⟦<WriterSink<'a, W> as Sink>⟧.tally result ≡ no_calls }
    {
        WriterSink {
            writer,
            tally: Tally::new(),
            is_closed: Some(is_closed),
        }
    }

    /// The calls so far.
    pub fn tally(&self) -> Tally
        ensures { result ≡ ⟦<WriterSink<'a, W> as Sink>⟧.tally self.now }
    {
        self.tally
    }
}

impl<W: Write> Sink for WriterSink<'_, W> {
    ghost held = { λ s. W.contents s.writer };

    ghost tally = { λ s. s.tally };

    fn push(&mut self, piece: &[u8]) -> Step {
        let answer = self.writer.write(piece);
        note_closed(self.is_closed, &answer);
        step_of(&answer).noted_in(&mut self.tally)
    }
}

fn note_closed(is_closed: Option<&AtomicBool>, answer: &io::Result<usize>) {
    if let (Some(is_closed), Err(error)) = (is_closed, answer) {
        if error.kind() == ErrorKind::BrokenPipe {
            is_closed.store(true, Ordering::SeqCst);
        }
    }
}
