//! A sink that follows a list of steps, for tests of code that may meet an interrupted, short or failed call.
ghost use Rattle.std.specs.Prelude.{◌≡◌, ◌<◌, drop, length};
ghost use Rattle.byte_streams.specs.Ends.{StepGives};
ghost use Rattle.byte_streams.specs.Rehearsed.{sink_steps, RehearsesSink};
ghost use Rattle.byte_streams.specs.Tally.{no_calls, noted};

use super::ends::{Sink, Step};
use super::rehearsed::next_step;
use super::tally::Tally;

/// Answers the steps in turn, and then as its own sink does. At `Moved(n)` that sink is offered `n` bytes at most, and
/// none at `Moved(0)`.
#[derive(Drop)]
pub struct RehearsedSink<'a, S> {
    sink: S,
    steps: &'a [Step],
    tally: Tally,
}

impl<'a, S: Sink> RehearsedSink<'a, S> {
    /// Before the first step, with what the sink holds.
    pub fn new(sink: S, steps: &'a [Step]) -> Self
        ensures held { ⟦<RehearsedSink<'a, S> as Sink>⟧.held result ≡ S.held sink }
        ensures tally { ⟦<RehearsedSink<'a, S> as Sink>⟧.tally result ≡ no_calls }
        ensures steps { sink_steps result ≡ steps.now }
    {
        RehearsedSink {
            sink,
            steps,
            tally: Tally::new(),
        }
    }

    /// The calls so far.
    pub fn tally(&self) -> Tally
        ensures { result ≡ ⟦<RehearsedSink<'a, S> as Sink>⟧.tally self.now }
    {
        self.tally
    }
}

impl<S: Sink> Sink for RehearsedSink<'_, S> {
    ghost held = { λ s. S.held s.sink };

    ghost tally = { λ s. s.tally };

    fn push(&mut self, piece: &[u8]) -> Step
        requires { 0 < length piece.now }
        ensures bytes { StepGives (S.held self.old.sink) (S.held self.new.sink) result piece.now }
        ensures counted { self.new.tally ≡ noted self.old.tally result }
        ensures rehearses { RehearsesSink S.tally self.old.sink self.new.sink (sink_steps self.old) result }
        ensures steps { sink_steps self.new ≡ drop 1 (sink_steps self.old) }
    {
        let step = match next_step(&mut self.steps) {
            None => self.sink.push(piece),
            Some(Step::Moved(0)) => Step::Moved(0),
            Some(Step::Moved(most)) => self.sink.push(&piece[..piece.len().min(most)]),
            Some(step) => step,
        };
        step.noted_in(&mut self.tally)
    }
}
