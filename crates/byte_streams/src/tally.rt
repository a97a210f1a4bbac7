//! Counts of the calls of an end.
ghost use Rattle.std.specs.Prelude.{◌≡◌};
ghost use Rattle.byte_streams.specs.Tally.{no_calls, noted};

use super::ends::Step;

/// How often an end was called, and what it answered. Counts stop at the greatest `u64`.
#[derive(Clone, Copy, Debug, Default, PartialEq, Eq)]
pub struct Tally {
    pub calls: u64,
    /// Calls that answered `Failed`.
    pub failed: u64,
    /// Calls that answered `Moved(0)`.
    pub empty: u64,
    /// Calls that answered `Again`.
    pub again: u64,
    /// How many of the latest calls answered `Again`, one after another.
    pub again_in_a_row: u64,
}

impl Tally {
    /// Before the first call.
    pub const fn new() -> Self
        ensures { result ≡ no_calls }
    {
        Tally {
            calls: 0,
            failed: 0,
            empty: 0,
            again: 0,
            again_in_a_row: 0,
        }
    }

    /// After one more call.
    pub fn noting(self, step: Step) -> Self
        ensures { result ≡ noted self step }
    {
        let calls = self.calls.saturating_add(1);
        match step {
            Step::Moved(0) => Tally {
                calls,
                empty: self.empty.saturating_add(1),
                again_in_a_row: 0,
                ..self
            },
            Step::Moved(_) => Tally {
                calls,
                again_in_a_row: 0,
                ..self
            },
            Step::Again => Tally {
                calls,
                again: self.again.saturating_add(1),
                again_in_a_row: self.again_in_a_row.saturating_add(1),
                ..self
            },
            Step::Failed => Tally {
                calls,
                failed: self.failed.saturating_add(1),
                again_in_a_row: 0,
                ..self
            },
        }
    }
}

impl Step {
    /// Notes this answer of a call in the counts, and gives it on.
    pub(crate) fn noted_in(self, tally: &mut Tally) -> Step
        ensures same { result ≡ self }
        ensures counted { tally.new ≡ noted tally.old self }
    {
        *tally = tally.noting(self);
        self
    }
}
