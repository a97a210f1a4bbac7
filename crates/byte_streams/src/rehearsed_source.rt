//! A source that follows a list of steps, for tests of code that may meet an interrupted, short or failed call.
ghost use Rattle.std.specs.Prelude.{◌≡◌, ◌<◌, drop, length};
ghost use Rattle.byte_streams.specs.Ends.{StepTakes};
ghost use Rattle.byte_streams.specs.Rehearsed.{source_steps, RehearsesSource};
ghost use Rattle.byte_streams.specs.Tally.{no_calls, noted};

use super::ends::{Source, Step};
use super::rehearsed::next_step;
use super::tally::Tally;

/// Answers the steps in turn, and then as its own source does. At `Moved(n)` that source gives at most `n` bytes, but
/// at least one as long as there are any.
#[derive(Drop)]
pub struct RehearsedSource<'a, S> {
    source: S,
    steps: &'a [Step],
    tally: Tally,
}

impl<'a, S: Source> RehearsedSource<'a, S> {
    /// Before the first step, with what the source has left.
    pub fn new(source: S, steps: &'a [Step]) -> Self
        ensures left { ⟦<RehearsedSource<'a, S> as Source>⟧.left result ≡ S.left source }
        ensures tally { ⟦<RehearsedSource<'a, S> as Source>⟧.tally result ≡ no_calls }
        ensures steps { source_steps result ≡ steps.now }
    {
        RehearsedSource {
            source,
            steps,
            tally: Tally::new(),
        }
    }

    /// The calls so far.
    pub fn tally(&self) -> Tally
        ensures { result ≡ ⟦<RehearsedSource<'a, S> as Source>⟧.tally self.now }
    {
        self.tally
    }
}

impl<S: Source> Source for RehearsedSource<'_, S> {
    ghost left = { λ s. S.left s.source };

    ghost tally = { λ s. s.tally };

    fn pull(&mut self, buffer: &mut [u8]) -> Step
        requires { 0 < length buffer.old }
        ensures bytes { StepTakes (S.left self.old.source) (S.left self.new.source) result buffer.new }
        ensures counted { self.new.tally ≡ noted self.old.tally result }
        ensures rehearses { RehearsesSource S.tally self.old.source self.new.source (source_steps self.old) result }
        ensures steps { source_steps self.new ≡ drop 1 (source_steps self.old) }
    {
        let step = match next_step(&mut self.steps) {
            None => self.source.pull(buffer),
            Some(Step::Moved(most)) => {
                let space = buffer.len().min(most.max(1));
                self.source.pull(&mut buffer[..space])
            }
            Some(step) => step,
        };
        step.noted_in(&mut self.tally)
    }
}
