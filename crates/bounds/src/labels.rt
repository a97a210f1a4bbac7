//! Labels of teams by the walks that end there.

ghost use Rattle.std.specs.Prelude.{◌<◌, ◌≤◌};
ghost use Rattle.sets.specs.Limits.{max_teams};

use crate::limits::NO_WALK;

/// Of walks that end at a team: the least length, the stop before the last of such a walk, and the least length of
/// those with another stop there.
#[derive(Clone, Copy, Drop)]
pub(crate) struct Label {
    pub(crate) least: u64,
    pub(crate) before: u8,
    pub(crate) second: u64,
    ghost ordered: { least ≤ second },
    ghost before_in: { before < max_teams },
}

impl Label {
    ghost use Rattle.std.specs.Prelude.{◌≡◌, ◌≢◌, ℕ};
    ghost use Rattle.bounds.specs.within.Tables.{to_of};

    /// Of no walk.
    pub(crate) fn blank() -> Self {
        Label {
            least: NO_WALK,
            before: 0,
            second: NO_WALK,
        }
    }

    /// The least length of a walk that may go on to this team: one that doesn't come from there.
    pub(crate) fn to(self, next: u8) -> u64
        ensures { result ≡ to_of self next }
    {
        if self.before == next {
            self.second
        } else {
            self.least
        }
    }

    /// The label of these walks and one more.
    pub(crate) fn with(self, length: u64, before: u8) -> Self
        requires { before < max_teams }
        ensures kept { (x : ℕ) → to_of result x ≤ to_of self x }
        ensures offered { (x : ℕ) → x ≢ before → to_of result x ≤ length }
    {
        if length < self.least {
            return Label {
                least: length,
                before,
                second: self.least,
            };
        }
        Label {
            least: self.least,
            before: self.before,
            second: self.second.min(length),
        }
    }
}
