//! The way back to the best version.

ghost use Rattle.std.specs.Prelude.{◌≡◌, ◌+◌, ◌<◌, ◌≤◌, length, vec_len, vec_capacity};
ghost use Rattle.fixture_board.specs.History.{effect, effective};

use crate::change::{Change, Entry};
use crate::state::State;
use costs::cost_of;
use league::League;

impl State {
    ghost use Rattle.std.specs.Prelude.{◌≡◌};
    ghost use Rattle.fixture_board.specs.within.Kept.{kept_of, HasMemory, FollowsHistory};
    ghost use Rattle.fixture_board.specs.Rewound.{rewound};
    ghost use Rattle.costs.specs.Evaluators.{IsEvaluatorAt};

    /// Goes back to the best version, if there is one. What follows from the history is made anew, but the schedule
    /// of the best version, which is kept.
    pub(crate) fn rewind(&mut self, league: &League)
        requires memory { HasMemory self.old }
        requires kept { FollowsHistory league.now (kept_of self.old) }
        requires evaluator { IsEvaluatorAt league.now self.old.schedule self.old.evaluator.value }
        ensures memory { HasMemory self.new }
        ensures room { self.new.room ≡ self.old.room }
        ensures evaluator { IsEvaluatorAt league.now self.new.schedule self.new.evaluator.value }
        ensures history { self.new.history.items ≡ rewound league.now self.old.history.items }
        ensures kept { FollowsHistory league.now (kept_of self.new) }
    {
        let Some(best) = self.best else {
            return;
        };
        self.history.truncate(best.at as usize);
        retrace(&mut self.changes, &self.history);
        self.pins.retrace(league, &self.changes);
        self.schedule.copy_from(&self.best_schedule);
        self.evaluator.forget();
        self.cost = cost_of(&self.schedule, league);
    }
}

/// Finds the changes in effect anew.
fn retrace(changes: &mut Vec<Change>, history: &[Entry])
    requires { length history.now ≤ vec_capacity changes.old }
    ensures items { changes.new.items ≡ effective history.now }
    ensures capacity { vec_capacity changes.new ≡ vec_capacity changes.old }
{
    changes.clear();
    for entry in history {
        take_effect(changes, entry.change);
    }
}

/// Has one more change take effect.
fn take_effect(changes: &mut Vec<Change>, change: Change)
    requires { vec_len changes.old < vec_capacity changes.old }
    ensures items { changes.new.items ≡ effect changes.old.items change }
    ensures capacity { vec_capacity changes.new ≡ vec_capacity changes.old }
    ensures limit { vec_len changes.new ≤ vec_len changes.old + 1 }
{
    match change {
        Change::Undo => {
            changes.pop();
        }
        Change::Shift(_) | Change::Pin(_) | Change::Unpin(_) => changes.push_reserved(change),
    }
}
