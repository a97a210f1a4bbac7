//! Blocks: up to a thousand steps at one temperature and one weight.

ghost use Rattle.std.specs.Prelude.{◌≡◌, ◌^◌, ◌<◌, ◌≤◌, Contains};
ghost use Rattle.league.specs.League.{IsLeague};
ghost use Rattle.moves.specs.Moves.{kind_of};
ghost use Rattle.costs.specs.Costs.{AreWeights};
ghost use Rattle.draws.specs.Draws.{CanDraw, stream_of_generator};
ghost use Rattle.annealing.specs.within.Blocks.{counts_as_feasible, start_at, trial_drawn, walked, IsTallied};
ghost use Rattle.annealing.specs.within.Boards.{least_in};
ghost use Rattle.annealing.specs.Legs.{IsFrom};

use crate::thresholds::threshold;
use costs::{Cost, Weights};
use draws::{Draws, draw_among};
use fixture_board::{Board, Trial};
use rand_core::Rng;
use rand_pcg::Lcg64Xsh32;

/// The most steps of a block.
pub(crate) const BLOCK: u64 = 1000;

/// The conditions of a block's steps.
#[derive(Clone, Copy)]
pub(crate) struct Block<'a> {
    pub(crate) steps: u32,
    /// The kinds and rounds among which each move is drawn.
    pub(crate) draws: Draws<'a>,
    /// The weights of breaches of hard limits in the score.
    pub(crate) weights: Weights,
    /// Whether breaches of rules weigh apart from the others.
    pub(crate) apart: bool,
    /// In 1024ths of a distance.
    pub(crate) temperature: u64,
}

/// The tally of a block's steps.
#[derive(Clone, Copy)]
pub(crate) struct StepTally {
    pub(crate) steps: u32,
    /// At how many of them the schedule was feasible before its move, or broke no limit but rules if these weigh apart.
    pub(crate) feasible: u32,
    /// How many moves were made.
    pub(crate) accepted: u32,
}

/// Takes the steps of a block. Each draws a threshold and then a move, which is made if it can be and the score rises by no more than
/// the threshold. Takes no memory.
pub(crate) fn take_steps(
    board: &mut Board,
    generator: &mut Lcg64Xsh32,
    block: Block<'_>,
) -> StepTally
    requires league { IsLeague board.old.league }
    requires draws { CanDraw block.draws.teams block.draws.kinds.now block.draws.rounds.now }
    requires weights { AreWeights block.weights }
    requires temperature { block.temperature < 2 ^ 58 }
    ensures walked { IsTallied result (stream_of_generator generator.new) board.new
        (walked board.old.league board.old.room block.entry block.entry.steps
        (start_at board.old.history (stream_of_generator generator.old))) }
    ensures from { IsFrom block.entry.draws.kinds.now result.accepted board.old board.new }
    ensures never_worse { least_in board.new ≤ least_in board.old }
    ensures steps { result.steps ≡ block.entry.steps }
    ensures feasible { result.feasible ≤ result.steps }
    ensures accepted { result.accepted ≤ result.steps }
{
    let mut cost = board.cost();
    let mut tally = StepTally {
        steps: block.steps,
        feasible: 0,
        accepted: 0,
    };
    for _step in 0..block.steps {
        tally.feasible += u32::from(counts_as_feasible(block.apart, cost));
        let trial = draw_trial(generator, block);
        match board.try_move(0, trial) {
            Some(after) => {
                cost = after;
                tally.accepted += 1;
            }
            None => {}
        }
    }
    tally
}

/// Whether a schedule of this cost counts as feasible: if it is, or if rules weigh apart and it breaks nothing else.
#[inline(always)]
fn counts_as_feasible(apart: bool, cost: Cost) -> bool
    ensures { result ≡ counts_as_feasible apart cost }
{
    cost.hard == if apart { cost.of_rules } else { 0 }
}

/// Draws a threshold, and then a move.
#[inline(always)]
fn draw_trial(generator: &mut Lcg64Xsh32, block: Block<'_>) -> Trial
    requires draws { CanDraw block.draws.teams block.draws.kinds.now block.draws.rounds.now }
    requires temperature { block.temperature < 2 ^ 58 }
    ensures drawn { (result, stream_of_generator generator.new) ≡ trial_drawn block.entry (stream_of_generator generator.old) }
    ensures kind { Contains block.entry.draws.kinds.now (kind_of result.mv) }
    ensures weights { result.weights ≡ block.entry.weights }
{
    let rise = threshold(block.temperature, generator.next_u32());
    let mv = draw_among(generator, block.draws);
    let weights = block.weights;
    Trial { mv, weights, rise }
}
