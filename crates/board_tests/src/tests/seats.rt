//! Seats of a shared board, of one thread. The answers were worked out by hand.

ghost use Rattle.std.specs.Prelude.{◌≡◌};

use crate::tests::answers::Answer::{Done, No};
use crate::tests::boards::{board_of, board_with, shared};
use crate::tests::checks::check_same;
use crate::tests::questions::{Asked, propose};
use crate::tests::seat_checks::{absorb, check_ask, check_front, check_held, split};
use crate::tests::seat_steps::SeatStep::{self, Accepted, Ask, Front, Look, Number, Total};
use crate::tests::seat_steps::Who::{self, First, Second};
use crate::tests::seat_steps::{check_closed, check_pair};
use fixture_board::{Change, Why};
use fixtures::Game;
use moves::Move;
use shared_board::{Seat, Shared, SplitFault};
use std::process::Abort;
use std::sync::Wait;

const TEAMS: Move = Move::Teams { i: 0, j: 1 };

const HOMES: Move = Move::Homes { i: 0, j: 1 };

const ROUNDS: Move = Move::Rounds { k: 1, l: 3 };

/// A move of no two teams.
const SAME: Move = Move::Homes { i: 0, j: 0 };

/// Two seats see each other's changes.
const EACH_A_CHANGE: &[(Who, SeatStep)] = &[
    (First, Number(0)),
    (Second, Number(1)),
    (First, Ask(Asked::Shift(0, TEAMS, None, 0), Done(1, 26, 0))),
    (First, Front(1)),
    (First, Look(1, 26)),
    (First, Total(Some(26))),
    (Second, Total(Some(26))),
    (Second, Look(1, 26)),
    (Second, Ask(Asked::Shift(0, HOMES, None, 0), Done(2, 26, 0))),
    (First, Front(2)),
];

const EACH_ENTRY: &[(u32, Change)] = &[(0, Change::Shift(TEAMS)), (1, Change::Shift(HOMES))];

/// Two seats are answered the first reason.
const FIRST_REASONS: &[(Who, SeatStep)] = &[
    (First, Ask(Asked::Pin(0, 0, 0, 3), Done(1, 30, 0))),
    (
        Second,
        Ask(
            Asked::Shift(1, Move::Rounds { k: 0, l: 1 }, Some(0), 0),
            No(1, Why::Pinned),
        ),
    ),
    (
        First,
        Ask(Asked::Shift(1, ROUNDS, Some(0), 0), No(1, Why::WrongClaim)),
    ),
    (
        Second,
        Ask(Asked::Shift(1, ROUNDS, Some(430), 399), No(1, Why::Worse)),
    ),
    (
        First,
        Ask(Asked::Shift(1, ROUNDS, Some(430), 400), Done(2, 30, 4)),
    ),
    (Second, Ask(Asked::Undo(1), No(2, Why::Old))),
    (
        First,
        Ask(Asked::Shift(u64::MAX, SAME, None, 0), No(2, Why::Ahead)),
    ),
    (Second, Ask(Asked::Pin(2, 6, 0, 3), No(2, Why::BadGame))),
    (First, Ask(Asked::Pin(2, 0, 0, 0), No(2, Why::BadGame))),
    (
        Second,
        Ask(Asked::Shift(2, ROUNDS, None, u64::MAX), Done(3, 30, 0)),
    ),
    (First, Look(3, 30)),
    (Second, Ask(Asked::Unpin(3, 0, 0, 3), Done(4, 30, 0))),
    (First, Accepted(2)),
    (Second, Accepted(2)),
];

const PINNED: Game = Game {
    round: 0,
    home: 0,
    away: 3,
};

const ENTRIES: &[(u32, Change)] = &[
    (0, Change::Pin(PINNED)),
    (0, Change::Shift(ROUNDS)),
    (1, Change::Shift(ROUNDS)),
    (1, Change::Unpin(PINNED)),
];

/// A shared board without room is full.
const WITHOUT_ROOM: &[(Who, SeatStep)] = &[
    (
        First,
        Ask(Asked::Shift(1, SAME, None, 0), No(0, Why::Ahead)),
    ),
    (
        Second,
        Ask(Asked::Shift(0, SAME, None, 0), No(0, Why::Full)),
    ),
    (First, Ask(Asked::Pin(0, 0, 0, 0), No(0, Why::Full))),
    (Second, Ask(Asked::Undo(u64::MAX), No(0, Why::Ahead))),
    (First, Ask(Asked::Undo(0), No(0, Why::Full))),
    (First, Total(Some(30))),
];

/// The rooms of boards, the steps of two seats, and the entries in the end.
const PAIRS: &[(u32, &[(Who, SeatStep)], &[(u32, Change)])] = &[
    (8, EACH_A_CHANGE, EACH_ENTRY),
    (8, FIRST_REASONS, ENTRIES),
    (0, WITHOUT_ROOM, &[]),
];

#[test]
fn two_seats_of_one_board(rt: HostRuntime) {
    for &(room, steps, entries) in PAIRS {
        let board = board_of(&rt, rt.alloc(), 4, room);
        check_pair(&rt, rt.alloc(), board, steps, entries);
    }
}

const LAST_ROUNDS: Move = Move::Rounds { k: 4, l: 5 };

/// Rounds 5 and 6 exchanged, and that undone.
const BEST_IN_BETWEEN: &[(Who, SeatStep)] = &[
    (First, Total(None)),
    (First, Front(0)),
    (
        First,
        Ask(Asked::Shift(0, LAST_ROUNDS, None, 0), Done(1, 28, 0)),
    ),
    (Second, Total(Some(28))),
    (Second, Front(1)),
    (Second, Ask(Asked::Undo(1), Done(2, 30, 2))),
    (First, Total(Some(28))),
    (First, Front(2)),
];

const UNDONE: &[(u32, Change)] = &[(0, Change::Shift(LAST_ROUNDS)), (1, Change::Undo)];

#[test]
fn best_and_front_are_read_without_a_turn(rt: HostRuntime) {
    let board = board_with(&rt, rt.alloc(), 1, "\"at_most\":2");
    check_pair(&rt, rt.alloc(), board, BEST_IN_BETWEEN, UNDONE);
}

/// Splits as often from a seat, which takes each new one in.
fn draw_numbers<R: Wait + Abort>(rt: &R, shared: &Shared, seat: &mut Seat, times: u64)
    requires { seat.old.table ≡ shared.now }
    ensures { seat.new.table ≡ shared.now }
{
    for _ in 0..times {
        let other = split(rt, shared, seat);
        absorb(shared, seat, other);
    }
}

fn check_refused_split<R: Wait + Abort>(rt: &R, shared: &Shared, seat: &mut Seat)
    requires { seat.old.table ≡ shared.now }
    ensures { seat.new.table ≡ shared.now }
{
    let fault = shared.split(rt, seat).err();
    check_same(rt, &fault, &Some(SplitFault::TooManySeats));
}

#[test]
fn a_refused_split_draws_no_number(rt: HostRuntime) {
    let (shared, mut seat) = shared(&rt, rt.alloc(), board_of(&rt, rt.alloc(), 4, 8));
    draw_numbers(&rt, &shared, &mut seat, 63);
    check_refused_split(&rt, &shared, &mut seat);
    check_held(&rt, &seat, 64, 0);
    check_closed(&rt, shared, seat, true, &[]);
}

/// One more seat changes the board, and is dropped.
fn change_and_drop<R: Wait + Abort>(rt: &R, shared: &Shared, seat: &mut Seat)
    requires { seat.old.table ≡ shared.now }
    ensures { seat.new.table ≡ shared.now }
{
    let mut other = split(rt, shared, seat);
    let homes = propose(0, HOMES, Some(26), 0);
    check_ask(rt, shared, &mut other, homes, Done(1, 26, 0).reply());
}

#[test]
fn a_dropped_seats_change_stands_and_the_board_is_not_whole(rt: HostRuntime) {
    let (shared, mut seat) = shared(&rt, rt.alloc(), board_of(&rt, rt.alloc(), 4, 8));
    change_and_drop(&rt, &shared, &mut seat);
    check_front(&rt, &shared, &mut seat, 1);
    check_closed(&rt, shared, seat, false, &[(1, Change::Shift(HOMES))]);
}

#[test]
fn the_fault_of_a_split_is_told_in_a_line(rt: HostRuntime) {
    let text = format!(in rt.alloc(); "{}", SplitFault::TooManySeats).expect(&rt, "a text");
    check_same(&rt, &text.as_str(), &"64 seats were given out");
}
