//! Legs that wait and legs that run.

ghost use Rattle.std.specs.Prelude.{◌≡◌, List, IfOk};
ghost use Rattle.league.specs.League.{teams};
ghost use Rattle.fixture_board.specs.Record.{Book};
ghost use Rattle.policy.specs.Legs.{IsLeg, IsWeightCourse};
ghost use Rattle.draws.specs.Draws.{AreRoundsOf};
ghost use Rattle.annealing.specs.Legs.{IsAnnealed};
ghost use Rattle.improvement.specs.declared.legs.Assignment.{Assignment};
ghost use Rattle.improvement.specs.Legs.{LegRun};
ghost use Rattle.improvement.specs.within.Lines.{CanEnd, IsRunning, IsState, IsWaiting, chain_of};

use crate::setting::Setting;
use annealing::{Annealed, Chain, Conditions, LegPlan, anneal};
use draws::{Gate, RunContext};
use fixture_board::Board;
use policy::{Leg, WeightCourse};
use std::alloc::AllocError;
use std::snapshot::Snapshot;
use std::sync::Wait;
use std::thread::{Promise, PromisedHandle, Scope, Threads};

/// A leg of a chain's bout.
#[derive(Clone, Copy)]
pub(crate) struct Assignment {
    /// The number of the chain.
    pub(crate) chain: u64,
    pub(crate) bout: u32,
    pub(crate) leg: Leg,
}

impl Assignment {
    fn plan(self, seed: u64, stream: u64) -> LegPlan
        ensures { result ≡ record { leg = self.leg; seed = seed; stream = stream } }
    {
        let leg = self.leg;
        LegPlan { leg, seed, stream }
    }
}

/// A leg that can begin.
#[derive(Drop)]
pub(crate) struct WaitingLeg {
    pub(crate) assignment: Assignment,
    /// The stream of its draws.
    pub(crate) stream: u64,
    /// The chain's weight.
    pub(crate) weight: u64,
    /// The chain's board. None stands for a new one.
    pub(crate) board: Option<Board>,
}

/// A leg that has begun.
#[derive(Drop)]
pub(crate) struct RunningLeg {
    pub(crate) assignment: Assignment,
    pub(crate) state: LegState,
}

/// The result of a leg. Memory may run out in it.
pub(crate) type LegOutcome = Result<Annealed, AllocError>;

/// Where a leg is.
#[derive(Drop)]
pub(crate) enum LegState {
    InThread(PromisedHandle<LegOutcome, LegTask>),
    Over(LegOutcome),
}

/// The promise of a leg's thread: it goes on from the chain that it was given.
#[derive(Drop)]
pub(crate) struct LegTask {
    pub(crate) weights: WeightCourse,
    pub(crate) leg: Leg,
    pub(crate) chain: Snapshot<Chain>,
}

impl Promise<LegOutcome> for LegTask {
    ghost use Rattle.std.specs.Prelude.{IfOk};
    ghost use Rattle.annealing.specs.Legs.{IsAnnealed};

    ghost kept_by = { λ p r. IfOk r (IsAnnealed p.weights p.leg p.chain.value) };
}

impl WaitingLeg {
    /// The chain with which it begins.
    fn chain<T, G>(self, setting: &Setting<'_, T, G>) -> Result<Chain, AllocError>
        ensures { IfOk result (λ chain. chain ≡ chain_of setting.now.start.now self) }
    {
        let board = setting.board_or_new(self.board)?;
        let weight = self.weight;
        Ok(Chain { board, weight })
    }

    /// Has it begin: in a thread if there are several workers and a thread can be had, and else at once in this one.
    pub(crate) fn begin<'s, E, T: Threads + Wait + Sync, G: Gate + Sync>(
        self,
        scope: &Scope<'s, E>,
        setting: Setting<'s, T, G>,
        seed: u64,
        weights: WeightCourse,
    ) -> Result<RunningLeg, AllocError>
        requires weights { IsWeightCourse weights }
        requires rounds { AreRoundsOf (teams setting.start.now.league) setting.rounds.now }
        requires leg { (legs : List LegRun) × IsWaiting setting.start.now legs self }
        ensures assignment { IfOk result (λ r. r.assignment ≡ self.assignment) }
        ensures running { (legs : List LegRun) → IsWaiting setting.entry.start.now legs self →
            IfOk result (IsRunning setting.entry.start.now legs) }
    {
        let assignment = self.assignment;
        let plan = assignment.plan(seed, self.stream);
        let chain = self.chain(&setting)?;
        let state = run(scope, setting, weights, chain, plan);
        Ok(RunningLeg { assignment, state })
    }
}

fn run<'s, E, T: Threads + Wait + Sync, G: Gate + Sync>(
    scope: &Scope<'s, E>,
    setting: Setting<'s, T, G>,
    weights: WeightCourse,
    chain: Chain,
    plan: LegPlan,
) -> LegState
    requires leg { IsLeg plan.leg }
    requires weights { IsWeightCourse weights }
    requires rounds { AreRoundsOf (teams chain.board.league) setting.rounds.now }
    ensures { IsState (IsAnnealed weights plan.leg chain) result }
{
    let RunContext { rt, alloc, gate } = setting.run_context;
    let Setting { unit, rounds, .. } = setting;
    if setting.plan.workers == 1 {
        let conditions = Conditions {
            unit,
            rounds,
            weights,
        };
        return LegState::Over(anneal(setting.run_context, conditions, chain, plan));
    }
    let given = LegTask {
        weights,
        leg: plan.leg,
        chain: Snapshot::of(&chain),
    };
    // what the thread promises is proved of captured references, not of a captured record of them
    match scope.spawn_with(
        given,
        move || -> LegOutcome
            requires leg { IsLeg plan.leg }
            requires weights { IsWeightCourse weights }
            requires rounds { AreRoundsOf (teams chain.board.league) rounds.now }
            ensures { IfOk result (IsAnnealed weights plan.leg chain) }
        {
            let conditions = Conditions {
                unit,
                rounds,
                weights,
            };
            anneal(RunContext { rt, alloc, gate }, conditions, chain, plan)
        },
    ) {
        Ok(handle) => LegState::InThread(handle),
        Err(refused) => LegState::Over((refused.value)()),
    }
}

impl LegState {
    /// Waits for the leg's end.
    pub(crate) fn outcome<T: Threads>(self, rt: &T) -> LegOutcome
        ensures { (start : Book) (legs : List LegRun) (assignment : Assignment) →
            IsState (CanEnd start legs assignment) self → IfOk result (CanEnd start legs assignment) }
    {
        match self {
            LegState::InThread(handle) => handle.join(rt),
            LegState::Over(outcome) => outcome,
        }
    }
}
