//! A copy of what a board keeps beside its league.

ghost use Rattle.std.specs.Prelude.{◌≡◌, ◌≤◌, length, vec_capacity, IfOk};

use crate::state::State;
use std::alloc::{AllocError, Global};

impl State {
    ghost use Rattle.std.specs.Prelude.{◌≡◌, ◌≤◌, length, None, IfOk};
    ghost use Rattle.fixture_board.specs.within.Kept.{kept_of, HasMemory};

    /// Copies the state into memory of its own, with room for as many entries.
    pub(crate) fn duplicate(&self, alloc: Global) -> Result<State, AllocError>
        requires within { length self.now.history.items ≤ self.now.room }
        requires no_more { length self.now.changes.items ≤ length self.now.history.items }
        ensures memory { IfOk result HasMemory }
        ensures kept { IfOk result (λ s. kept_of s ≡ kept_of self.now) }
        ensures evaluator { IfOk result (λ s. s.evaluator.value ≡ record self.now.evaluator.value { deviations = None }) }
    {
        Ok(State {
            room: self.room,
            history: with_room(alloc, &self.history, self.room)?,
            changes: with_room(alloc, &self.changes, self.room)?,
            schedule: self.schedule.duplicate(alloc)?,
            pins: self.pins.duplicate(alloc)?,
            cost: self.cost,
            best: self.best,
            best_schedule: self.best_schedule.duplicate(alloc)?,
            evaluator: Box::new(alloc, self.evaluator.anew())?,
        })
    }
}

/// A copy of the items, with room for so many.
fn with_room<T: Copy>(alloc: Global, items: &[T], room: u32) -> Result<Vec<T>, AllocError>
    requires { length items.now ≤ room }
    ensures items { IfOk result (λ v. v.items ≡ items.now) }
    ensures room { IfOk result (λ v. vec_capacity v ≡ room) }
{
    let mut copy = Vec::with_capacity(alloc, room as usize)?;
    for item in items {
        copy.push_reserved(*item);
    }
    Ok(copy)
}
