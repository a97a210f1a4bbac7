//! The two traits, and what one call answers.
ghost use Rattle.std.specs.Prelude.{◌≡◌, ◌<◌, ℕ, List, Option, length};
ghost use Rattle.byte_streams.specs.declared.tally.Tally.{Tally};
ghost use Rattle.byte_streams.specs.Ends.{StepTakes, StepGives};
ghost use Rattle.byte_streams.specs.Tally.{noted};

/// The answer of one call of an end.
#[derive(Clone, Copy, Debug, PartialEq, Eq)]
pub enum Step {
    /// So many bytes were moved, at most as many as the slice has.
    Moved(usize),
    /// The call was interrupted and moved nothing: it may be tried again.
    Again,
    /// The call failed and moved nothing.
    Failed,
}

/// Gives bytes.
pub trait Source {
    // The bytes that are left, if they are known.
    ghost left: { Self → Option (List ℕ) };

    // The calls so far.
    ghost tally: { Self → Tally };

    /// Puts bytes at the start of the buffer, which isn't empty. `Moved(0)` is the end of the input.
    fn pull(&mut self, buffer: &mut [u8]) -> Step
        requires { 0 < length buffer.old }
        ensures bytes { StepTakes (left self.old) (left self.new) result buffer.new }
        ensures counted { tally self.new ≡ noted (tally self.old) result };
}

/// Takes bytes.
pub trait Sink {
    // The bytes that it holds, if they are known.
    ghost held: { Self → Option (List ℕ) };

    // The calls so far.
    ghost tally: { Self → Tally };

    /// Takes bytes from the start of the piece, which isn't empty. `Moved(0)` says that there is no space.
    fn push(&mut self, piece: &[u8]) -> Step
        requires { 0 < length piece.now }
        ensures bytes { StepGives (held self.old) (held self.new) result piece.now }
        ensures counted { tally self.new ≡ noted (tally self.old) result };
}

impl<S: Source> Source for &mut S {
    ghost left = { λ s. S.left s.now };

    ghost tally = { λ s. S.tally s.now };

    fn pull(&mut self, buffer: &mut [u8]) -> Step {
        Source::pull(&mut **self, buffer)
    }
}

impl<S: Sink> Sink for &mut S {
    ghost held = { λ s. S.held s.now };

    ghost tally = { λ s. S.tally s.now };

    fn push(&mut self, piece: &[u8]) -> Step {
        Sink::push(&mut **self, piece)
    }
}
