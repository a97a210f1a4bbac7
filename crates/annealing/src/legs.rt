//! A leg.

ghost use Rattle.std.specs.Prelude.{◌≡◌, ◌↔◌, ◌+◌, ◌-◌, ◌*◌, ◌<◌, ◌≤◌, min, IsTrue, IfOk, OnOk};
ghost use Rattle.league.specs.League.{teams};
ghost use Rattle.fixture_board.specs.History.{best_of};
ghost use Rattle.fixture_board.specs.Record.{Book};
ghost use Rattle.policy.specs.Legs.{IsLeg, IsWeightCourse};
ghost use Rattle.draws.specs.Draws.{AreRoundsOf};
ghost use Rattle.draws.specs.Reported.{AreReported};
ghost use Rattle.annealing.specs.within.Heats.{block_count};
ghost use Rattle.annealing.specs.Legs.{IsAnnealed, total_in};
ghost use Rattle.annealing.specs.within.Progress.{HasHeated, IsEndOf, IsGoing, IsWithin, progress_of};

use crate::blocks::{BLOCK, Block, StepTally, take_steps};
use crate::boards::Boards;
use crate::chain::{Annealed, Chain, Conditions, LegPlan};
use crate::heats::{block_count, heat_at, hottest_of};
use crate::weights::weight_after;
use draws::{Draws, Gate, Progress, RunContext};
use fixture_board::Board;
use policy::{Course, Leg, LegEnd};
use rand_pcg::Lcg64Xsh32;
use std::alloc::{AllocError, Global};
use std::sync::Wait;

/// A leg under way.
#[derive(Drop)]
struct Going {
    boards: Boards,
    generator: Lcg64Xsh32,
    /// The weight of a breach of a hard limit, in millionths of the unit.
    weight: u64,
    /// How many steps were taken, and how many moves were made.
    steps: u64,
    accepted: u64,
}

/// Takes a leg's steps on the chain, in blocks of a thousand, and reports each block to the run context's gate, as worker 0. A step draws a word for its
/// threshold and a move of the leg's kinds. The move is made, under caller 0, if it can be and the score doesn't rise above the threshold.
///
/// If the board has too little room for a block, it is taken back to its best version. If that leaves too little too, the leg begins anew at
/// the league's start. In the end the chain has the board with the least total of all.
pub fn anneal<R: Wait, G: Gate>(
    run_context: RunContext<'_, R, G>,
    conditions: Conditions<'_>,
    chain: Chain,
    plan: LegPlan,
) -> Result<Annealed, AllocError>
    requires leg { IsLeg plan.leg }
    requires weights { IsWeightCourse conditions.weights }
    requires rounds { AreRoundsOf (teams chain.board.league) conditions.rounds.now }
    ensures annealed { IfOk result (IsAnnealed conditions.entry.weights plan.leg chain) }
    ensures reported { IfOk result (λ now. AreReported (G.was_reported run_context.entry.gate.now 0) now.end.steps) }
{
    let RunContext { rt, alloc, gate } = run_context;
    let Chain { board, weight } = chain;
    let leg = plan.leg;
    let mut going = Going {
        boards: Boards {
            board,
            parked: None,
        },
        generator: Lcg64Xsh32::new(plan.seed, plan.stream),
        weight,
        steps: 0,
        accepted: 0,
    };
    for number in 0..block_count(leg) {
        let tally = going.take_block(alloc, conditions, leg, number)?;
        gate.reported(rt, 0, going.progress(tally));
        if going.may_end(leg) {
            return Ok(going.end(leg));
        }
    }
    Ok(going.end(leg))
}

impl Going {
    /// Takes the steps of a block, from 0.
    fn take_block(
        &mut self,
        alloc: Global,
        conditions: Conditions<'_>,
        leg: Leg,
        number: u64,
    ) -> Result<StepTally, AllocError>
        requires leg { IsLeg leg }
        requires number { number < block_count leg }
        requires weights { IsWeightCourse conditions.weights }
        requires rounds { AreRoundsOf (teams self.old.boards.board.league) conditions.rounds.now }
        requires steps { self.old.steps ≡ 1000 * number }
        requires accepted { self.old.accepted ≤ self.old.steps }
        ensures goes_on { (old : Book) → IsGoing leg old number self.old → OnOk result (IsGoing leg old (number + 1) self.new) }
        ensures weight { OnOk result (IsWithin conditions.entry.weights self.new.weight) }
        ensures steps { IfOk result (λ tally. self.new.steps ≡ self.old.steps + tally.steps) }
    {
        self.boards.make_room(alloc)?;
        let board = &mut self.boards.board;
        let block = Block {
            steps: block_steps(leg, number),
            draws: Draws {
                teams: board.league().teams(),
                kinds: leg.moves.kinds(),
                rounds: conditions.rounds,
            },
            weights: conditions.weights_at(self.weight),
            apart: conditions.weights.rule.is_some(),
            temperature: conditions.unit.temperature(heat_at(leg, number)),
        };
        let tally = take_steps(board, &mut self.generator, block);
        self.weight = weight_after(conditions.weights, self.weight, tally);
        self.steps += u64::from(tally.steps);
        self.accepted += u64::from(tally.accepted);
        Ok(tally)
    }

    /// The progress that is reported to the gate after a block.
    fn progress(&self, tally: StepTally) -> Progress
        ensures { result ≡ progress_of self.now tally }
    {
        Progress {
            steps: tally.steps,
            least: total_in(&self.boards.board),
        }
    }

    /// Whether the leg may end before its last step: if it heats, and a version is feasible.
    fn may_end(&self, leg: Leg) -> bool
        ensures { IsTrue result ↔ HasHeated leg.course self.now.boards }
    {
        match leg.course {
            Course::Cools { .. } => false,
            Course::Heats { .. } => self.boards.least() < u64::MAX,
        }
    }

    /// The chain, and what the leg came to.
    fn end(self, leg: Leg) -> Annealed
        requires leg { IsLeg leg }
        requires some { 1 ≤ self.steps }
        requires few { self.steps ≤ leg.steps }
        ensures { IsEndOf leg self result }
    {
        let Going {
            boards,
            generator: _,
            weight,
            steps,
            accepted,
        } = self;
        let board = boards.into_better();
        let end = LegEnd {
            steps,
            hottest: hottest_of(leg, (steps - 1) / BLOCK),
            accepted,
            hard: board.cost().hard,
            best: total_in(&board),
        };
        let chain = Chain { board, weight };
        Annealed { chain, end }
    }
}

/// How many steps a block has.
fn block_steps(leg: Leg, number: u64) -> u32
    requires { number < block_count leg }
    ensures value { result ≡ min (leg.steps - 1000 * number) 1000 }
    ensures least { 1 ≤ result }
{
    (leg.steps - BLOCK * number).min(BLOCK) as u32
}

/// The least total of a feasible version, if there is one.
fn total_in(board: &Board) -> Option<u64>
    ensures { result ≡ total_in (best_of board.now.league board.now.history) }
{
    board.best().map(|best| best.total)
}
