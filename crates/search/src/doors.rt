//! Doors: what a worker knows of a board, and how it proposes changes.

ghost use Rattle.std.specs.Prelude.{◌≡◌, ◌↔◌, ℕ, ◌+◌, ◌^◌, ◌<◌, ◌≤◌, List, length};
ghost use Rattle.league.specs.League.{LeagueData};
ghost use Rattle.fixture_board.specs.declared.change.Entry.{Entry};

mod own;
mod seated;

use fixture_board::{Proposal, Reply, Seen};
use fixtures::Schedule;
pub use own::OwnDoor;
pub use seated::SeatDoor;
use std::sync::Wait;

/// A way to a board that others may change too.
pub trait Door {
    ghost use Rattle.search.specs.Doors.{Replies, Shows, done_count};

    /// The part that no call changes is the same in both.
    ghost stays: { Self → Self → Type 0 };

    /// How many of its proposals were granted.
    ghost granted: { Self → ℕ };

    /// The history as far as the door has seen it.
    ghost seen: { Self → List Entry };

    /// The leagues and rooms that its board may have.
    ghost may_have: { Self → LeagueData → ℕ → Type 0 };

    /// The number of the caller under which its changes are entered.
    ghost caller: { Self → ℕ };

    /// Makes the copy the board's schedule, and tells its version and cost. A copy for another number of teams stays
    /// as it was.
    fn look<R: Wait>(&mut self, rt: &R, copy: &mut Schedule) -> Seen
        ensures stays { stays self.old self.new }
        ensures counted { granted self.new ≡ granted self.old }
        ensures shown { Shows (may_have self.old) (seen self.old) copy.old result copy.new (seen self.new) };

    /// Proposes a change.
    fn propose<R: Wait>(&mut self, rt: &R, proposal: Proposal) -> Reply
        requires { granted self.old < 2 ^ 63 }
        ensures stays { stays self.old self.new }
        ensures counted { granted self.new ≡ granted self.old + done_count result }
        ensures replied { Replies (may_have self.old) (caller self.old) (seen self.old) proposal result (seen self.new) };

    /// A length that the history has reached.
    fn front<R: Wait>(&mut self, rt: &R) -> u64
        ensures stays { stays self.old self.new }
        ensures counted { granted self.new ≡ granted self.old }
        ensures seen { seen self.new ≡ seen self.old }
        ensures front { length (seen self.old) ≤ result };

    /// How many of its proposals were granted.
    fn dones(&self) -> u64
        ensures { result ≡ granted self.now };

    ghost stays_same: { (d : Self) → stays d d };

    ghost stays_then: { (a b c : Self) → stays a b → stays b c → stays a c };

    // no call changes the caller, or which boards the door may have

    ghost stays_caller: { (a b : Self) → stays a b → caller a ≡ caller b };

    ghost stays_boards: { (a b : Self) → stays a b → (league : LeagueData) → (room : ℕ)
        → may_have a league room ↔ may_have b league room };
}
