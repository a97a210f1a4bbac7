//! A look at a board.

ghost use Rattle.std.specs.Prelude.{◌≡◌, length};
ghost use Rattle.fixture_board.specs.History.{games_of, cost_at, IsLegal};
ghost use Rattle.fixture_board.specs.Looks.{copied};

use crate::board::Board;
use costs::Cost;
use fixtures::Schedule;

/// The version and the cost that a look shows, beside the schedule.
#[derive(Clone, Copy, Debug, PartialEq, Eq)]
pub struct Seen {
    /// How many entries the history has.
    pub version: u64,
    /// The cost of the schedule.
    pub cost: Cost,
}

impl Board {
    /// Makes the copy the board's schedule if it is for as many teams, and tells the board's version and cost. Takes no memory.
    pub fn look(&self, copy: &mut Schedule) -> Seen
        ensures version { result.version ≡ length self.now.history }
        ensures cost { result.cost ≡ cost_at self.now.league self.now.history }
        ensures copy { copy.new ≡ copied copy.old (games_of self.now.league self.now.history) }
        ensures legal { IsLegal self.now.league self.now.room self.now.history }
    {
        let schedule = self.schedule();
        if copy.teams() == schedule.teams() {
            copy.copy_from(schedule);
        }
        Seen {
            version: self.version(),
            cost: self.cost(),
        }
    }
}
