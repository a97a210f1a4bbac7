//! Chains at the start of a league, and legs on them. What owns a board has no way out but to end the test, since each `?` drops all that
//! is held, and its proof with it.

ghost use Rattle.policy.specs.Legs.{IsLeg, IsWeightCourse};

use crate::tests::leagues::{Sample, league_of};
use annealing::{Annealed, Chain, Conditions, LegPlan, anneal, measure};
use draws::{Gate, NoGate, RunContext, each_round};
use fixture_board::Board;
use policy::{Course, Leg, MoveSet, WeightCourse};
use std::alloc::Global;
use std::process::Abort;
use std::sync::Wait;

pub(crate) const WEIGHTS: WeightCourse = WeightCourse {
    first: 2_000_000,
    least: 300_000,
    most: 100_000_000,
    rule: None,
};

/// A leg that is taken at the start of a league.
#[derive(Clone, Copy, Debug)]
pub(crate) struct Asked {
    pub(crate) sample: Sample,
    pub(crate) room: u32,
    /// What a breach of a rule weighs at least, if that is apart.
    pub(crate) rule: Option<u64>,
    pub(crate) leg: Leg,
    pub(crate) seed: u64,
    pub(crate) stream: u64,
}

/// 5,000 steps of all moves, not too hot.
pub(crate) const MILD: Asked = Asked {
    sample: Sample::Circle,
    room: 10_000,
    rule: None,
    leg: Leg {
        moves: MoveSet::Full,
        course: Course::Cools { from: 600, to: 150 },
        steps: 5000,
    },
    seed: 1,
    stream: 0,
};

/// A new board of the league.
pub(crate) fn board_of(rt: &impl Abort, alloc: Global, sample: Sample, room: u32) -> Board {
    let league = league_of(alloc, sample).expect(rt, "a league");
    Board::new(alloc, league, room).expect(rt, "a board")
}

/// The chain after a leg in all rounds, which begins at the board's start.
pub(crate) fn gone_on<R: Wait + Abort, G: Gate>(
    run_context: RunContext<'_, R, G>,
    board: Board,
    plan: LegPlan,
    weights: WeightCourse,
) -> Annealed
    requires leg { IsLeg plan.leg }
    requires weights { IsWeightCourse weights }
{
    let league = board.league();
    let unit = measure(run_context.alloc, league).expect(run_context.rt, "a unit");
    let conditions = Conditions {
        unit,
        rounds: each_round(league.teams()),
        weights,
    };
    let weight = weights.first;
    let chain = Chain { board, weight };
    anneal(run_context, conditions, chain, plan).expect(run_context.rt, "a leg")
}

/// The outcome of a leg, through no gate.
pub(crate) fn annealed<R: Wait + Abort>(rt: &R, alloc: Global, asked: Asked) -> Annealed
    requires { IsLeg asked.leg }
{
    let Asked {
        sample,
        room,
        rule,
        leg,
        seed,
        stream,
    } = asked;
    let rule = match rule {
        Some(rule) => Some(rule.min(1_000_000_000)),
        None => None,
    };
    let gate = &NoGate;
    let board = board_of(rt, alloc, sample, room);
    gone_on(
        RunContext { rt, alloc, gate },
        board,
        LegPlan { leg, seed, stream },
        WeightCourse { rule, ..WEIGHTS },
    )
}
