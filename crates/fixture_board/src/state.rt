//! The state of a board beside its league.

mod checks;
mod copies;
mod rewind;
mod steps;

use crate::best::{Best, keep_best};
use crate::change::{Change, Entry};
use crate::pins::Pins;
use costs::{Cost, Evaluator, cost_of};
use fixtures::Schedule;
use league::League;
use std::alloc::{AllocError, Global};

/// A history of at most `room` entries, and what follows from it.
#[derive(Drop)]
pub(crate) struct State {
    pub(crate) room: u32,
    pub(crate) history: Vec<Entry>,
    /// The changes in effect, the oldest first.
    pub(crate) changes: Vec<Change>,
    pub(crate) schedule: Schedule,
    pub(crate) pins: Pins,
    /// The cost of the schedule.
    pub(crate) cost: Cost,
    pub(crate) best: Option<Best>,
    /// The schedule at the best version, if there is one.
    pub(crate) best_schedule: Schedule,
    /// It is large and a board is passed by value, so it lies in a box.
    pub(crate) evaluator: Box<Evaluator>,
}

impl State {
    ghost use Rattle.std.specs.Prelude.{◌≡◌, ◌^◌, ◌<◌, ◌≤◌, [], length, IfOk};
    ghost use Rattle.costs.specs.Costs.{total_of};
    ghost use Rattle.costs.specs.Evaluators.{IsEvaluatorAt};
    ghost use Rattle.choices.specs.Limits.{max_room};
    ghost use Rattle.fixture_board.specs.within.Kept.{kept_of, entered, HasMemory, FollowsHistory};

    /// Without an entry, on the start of the league. All memory is taken here.
    pub(crate) fn start(alloc: Global, league: &League, room: u32) -> Result<State, AllocError>
        requires { room ≤ max_room }
        ensures none { IfOk result (λ s. s.history.items ≡ []) }
        ensures room { IfOk result (λ s. s.room ≡ room) }
        ensures memory { IfOk result HasMemory }
        ensures kept { IfOk result (λ s. FollowsHistory league.now (kept_of s)) }
        ensures evaluator { IfOk result (λ s. IsEvaluatorAt league.now s.schedule s.evaluator.value) }
    {
        let history = Vec::with_capacity(alloc, room as usize)?;
        let changes = Vec::with_capacity(alloc, room as usize)?;
        let pins = Pins::of(alloc, league)?;
        let schedule = league.start(alloc)?;
        let mut best_schedule = schedule.duplicate(alloc)?;
        let evaluator = Box::new(alloc, Evaluator::new(league))?;
        let cost = cost_of(&schedule, league);
        let mut best = None;
        keep_best(&mut best, &mut best_schedule, &schedule, cost, 0);
        Ok(State {
            room,
            history,
            changes,
            schedule,
            pins,
            cost,
            best,
            best_schedule,
            evaluator,
        })
    }

    /// How many entries the history has.
    pub(crate) fn version(&self) -> u64
        ensures { result ≡ length self.now.history.items }
    {
        self.history.len() as u64
    }

    /// Enters a change that was made: it comes into the history, and the best version is kept.
    pub(crate) fn enter(&mut self, entry: Entry)
        requires memory { HasMemory self.old }
        requires under { length self.old.history.items < self.old.room }
        requires total { total_of self.old.cost < 2 ^ 64 }
        ensures memory { HasMemory self.new }
        ensures entered { kept_of self.new ≡ entered (kept_of self.old) entry }
        ensures evaluator { self.new.evaluator.value ≡ self.old.evaluator.value }
        ensures schedule { self.new.schedule ≡ self.old.schedule }
    {
        self.history.push_reserved(entry);
        let at = self.version();
        keep_best(
            &mut self.best,
            &mut self.best_schedule,
            &self.schedule,
            self.cost,
            at,
        );
    }
}
