//! Drawn questions to a seat, which is answered as a board of one thread.

ghost use Rattle.std.specs.Prelude.{◌≡◌};

use crate::tests::boards::{new_board, shared};
use crate::tests::checks::check_alike;
use crate::tests::drawn_asks::drawn_ask;
use crate::tests::drawn_leagues::drawn_league;
use crate::tests::seat_checks::{check_ask, close};
use fixture_board::Board;
use shared_board::{Seat, Shared};
use std::alloc::Global;
use std::process::Abort;
use std::sync::Wait;

/// A seat is answered as the board.
fn ask_both<R: Wait + Abort>(
    rt: &R,
    shared: &Shared,
    seat: &mut Seat,
    board: &mut Board,
    state: &mut u64,
)
    requires { seat.old.table ≡ shared.now }
    ensures { seat.new.table ≡ shared.now }
{
    for _ in 0..300 {
        let ask = drawn_ask(board, state);
        let reply = board.answer(0, ask);
        check_ask(rt, shared, seat, ask, reply);
    }
}

/// A seat of a board that begins anew is answered as the board.
fn check_seat<R: Wait + Abort>(rt: &R, alloc: Global, board: &mut Board, state: &mut u64) {
    let anew = board.anew(alloc).expect(rt, "a board");
    let (shared, mut seat) = shared(rt, alloc, anew);
    ask_both(rt, &shared, &mut seat, board, state);
    check_alike(rt, &close(rt, shared, seat, true), board);
}

fn check_drawn<R: Wait + Abort>(rt: &R, alloc: Global, state: &mut u64, teams: u8) {
    let league = drawn_league(rt, alloc, state, teams);
    check_seat(rt, alloc, &mut new_board(rt, alloc, league, 2048), state);
}

#[test]
fn drawn_questions_to_a_seat(rt: HostRuntime) {
    let mut state = 11;
    for teams in [4, 8, 40] {
        check_drawn(&rt, rt.alloc(), &mut state, teams);
    }
}
