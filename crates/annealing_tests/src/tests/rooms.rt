//! Legs whose room is used up.

ghost use Rattle.policy.specs.Legs.{IsLeg};

use crate::tests::boards::check_same_board;
use crate::tests::chains::{Asked, MILD, annealed};
use crate::tests::checks::{check_holds_of, check_same};
use crate::tests::leagues::Sample;
use crate::tests::twin::{Twin, twin_of};
use fixture_board::Board;
use policy::{Course, Leg, LegEnd, MoveSet};
use std::alloc::Global;
use std::process::Abort;
use std::sync::Wait;

/// Steps of which nearly all make a move.
const HOT: Leg = Leg {
    moves: MoveSet::Loose,
    course: Course::Cools {
        from: 1_000_000,
        to: 1_000_000,
    },
    steps: 4000,
};

const HEAT: u128 = 1_000_000_000;

/// A twin after three blocks, which has no room for another one.
fn full_twin(rt: &impl Abort, alloc: Global, asked: Asked) -> Twin {
    let mut twin = twin_of(rt, alloc, asked);
    for _ in 0..3 {
        twin.take_block(HEAT, 1000);
    }
    check_room(rt, &twin.board);
    twin
}

/// Fewer than a thousand entries are left.
fn check_room(rt: &impl Abort, board: &Board) {
    let left = u64::from(board.room()).saturating_sub(board.version());
    check_holds_of(rt, &left, left < 1000);
}

/// The leg leads to the board. Tells what it came to.
fn check_board<R: Wait + Abort>(rt: &R, alloc: Global, asked: Asked, board: &Board) -> LegEnd
    requires { IsLeg asked.leg }
{
    let found = annealed(rt, alloc, asked);
    check_same_board(rt, &found.chain.board, board);
    found.end
}

#[test]
fn boards_are_cut_back_to_the_best(rt: HostRuntime) {
    let asked = Asked {
        leg: HOT,
        room: 3500,
        ..MILD
    };
    let mut twin = full_twin(&rt, rt.alloc(), asked);
    twin.board.rewind_to_best();
    twin.take_block(HEAT, 1000);
    check_board(&rt, rt.alloc(), asked, &twin.board);
}

#[test]
fn chains_without_a_best_begin_anew(rt: HostRuntime) {
    let asked = Asked {
        sample: Sample::Impossible,
        leg: HOT,
        room: 3000,
        ..MILD
    };
    let twin = full_twin(&rt, rt.alloc(), asked);
    // neither board has a feasible version, and of equals the first stays
    let end = check_board(&rt, rt.alloc(), asked, &twin.board);
    check_same(&rt, &(end.steps, end.best), &(4000, None));
}

/// The least total of blocks that each begin at the start.
fn least_of_blocks(rt: &impl Abort, alloc: Global, asked: Asked) -> Option<u64> {
    let mut twin = twin_of(rt, alloc, asked);
    let mut least = None;
    for heat in [600_000, 510_000, 420_000, 330_000, 240_000] {
        twin.take_block(heat, 1000);
        let best = best_total(&twin.board);
        least = best.min(least.or(best));
        twin.begin_anew(rt, alloc);
    }
    least
}

fn best_total(board: &Board) -> Option<u64> {
    board.best().map(|best| best.total)
}

#[test]
fn chains_that_begin_anew_keep_the_best(rt: HostRuntime) {
    // room for one block
    let asked = Asked { room: 1000, ..MILD };
    let least = least_of_blocks(&rt, rt.alloc(), asked);
    check_same(&rt, &annealed(&rt, rt.alloc(), asked).end.best, &least);
}

#[test]
fn rooms_of_less_than_a_block_do(rt: HostRuntime) {
    let asked = Asked {
        leg: HOT,
        room: 10,
        ..MILD
    };
    let end = annealed(&rt, rt.alloc(), asked).end;
    check_same(&rt, &end.steps, &4000);
    // eight teams in a circle travel 244 at the start
    check_holds_of(&rt, &end.best, end.best.is_some_and(|best| best <= 244));
}
