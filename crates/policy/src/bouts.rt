//! Bouts: what one chain does in a wave.

ghost use Rattle.std.specs.Prelude.{◌≡◌, ◌≤◌};

use crate::legs::{Course, Leg, MoveSet};

/// Two legs in a row, of which the second has what the first leaves over, too. Either may have no steps.
#[derive(Clone, Copy)]
pub(crate) struct Bout {
    pub(crate) first: Leg,
    pub(crate) second: Leg,
}

impl Bout {
    ghost use Rattle.std.specs.Prelude.{◌+◌, ◌-◌, ◌^◌, ◌<◌};
    ghost use Rattle.policy.specs.Bouts.{leg_of, single};

    /// One leg.
    pub(crate) fn single(moves: MoveSet, course: Course, steps: u64) -> Self
        ensures { result ≡ single moves course steps }
    {
        let first = Leg {
            moves,
            course,
            steps,
        };
        Bout {
            first,
            second: Leg { steps: 0, ..first },
        }
    }

    /// The second leg, once the first one has taken so many steps.
    pub(crate) fn second_after(self, steps: u64) -> Leg
        requires steps { steps ≤ self.first.steps }
        requires fits { self.first.steps + self.second.steps < 2 ^ 64 }
        ensures { result ≡ leg_of self.second.moves self.second.course (self.second.steps + (self.first.steps - steps)) }
    {
        Leg {
            steps: self.second.steps + (self.first.steps - steps),
            ..self.second
        }
    }
}

/// Steps that bouts share as equally as whole numbers allow, the first ones having the larger parts.
#[derive(Clone, Copy)]
pub(crate) struct Shares {
    pub(crate) steps: u64,
    pub(crate) bouts: u32,
    ghost some: { 1 ≤ steps },
    ghost shared: { 1 ≤ bouts },
}

impl Shares {
    ghost use Rattle.policy.specs.Bouts.{share_of};

    /// The steps of one bout.
    pub(crate) fn of(self, bout: u32) -> u64
        ensures value { result ≡ share_of self bout }
        ensures some { bout ≡ 0 → 1 ≤ result }
    {
        let bouts = u64::from(self.bouts);
        let more = u64::from(bout) < self.steps % bouts;
        self.steps / bouts + u64::from(more)
    }
}
