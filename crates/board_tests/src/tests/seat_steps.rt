//! Steps of two seats of a shared board, one after the other, in tables.

ghost use Rattle.std.specs.Prelude.{◌≡◌, []};

use crate::tests::answers::{Answer, seen};
use crate::tests::boards::shared;
use crate::tests::checks::{check_entry, check_same, check_version};
use crate::tests::questions::Asked;
use crate::tests::seat_checks::{
    absorb, check_ask, check_front, check_held, check_look, check_number, check_total, close, split,
};
use fixture_board::{Board, Change};
use fixtures::{Schedule, berger_fide};
use shared_board::{Seat, Shared};
use std::alloc::Global;
use std::process::Abort;
use std::sync::Wait;

/// Two seats of a shared board.
#[derive(Drop)]
struct Pair {
    first: Seat,
    second: Seat,
}

#[derive(Clone, Copy)]
pub(crate) enum Who {
    First,
    Second,
}

/// A question to a seat, or a look at it.
#[derive(Clone, Copy)]
pub(crate) enum SeatStep {
    Ask(Asked, Answer),
    Front(u64),
    /// The least total.
    Total(Option<u64>),
    /// The version and the travel.
    Look(u64, u64),
    /// How many entries are its own.
    Accepted(u64),
    Number(u32),
}

fn check_seat_step<R: Wait + Abort>(
    rt: &R,
    shared: &Shared,
    seat: &mut Seat,
    copy: &mut Schedule,
    step: SeatStep,
)
    requires { seat.old.table ≡ shared.now }
    ensures { seat.new.table ≡ shared.now }
{
    match step {
        SeatStep::Ask(asked, answer) => {
            check_ask(rt, shared, seat, asked.ask(), answer.reply());
        }
        SeatStep::Front(front) => check_front(rt, shared, seat, front),
        SeatStep::Total(best) => check_total(rt, shared, seat, best),
        SeatStep::Look(version, travel) => {
            check_look(rt, shared, seat, copy, &seen(version, travel));
        }
        SeatStep::Accepted(accepted) => check_same(rt, &seat.accepted(), &accepted),
        SeatStep::Number(number) => check_number(rt, seat, number),
    }
}

/// The copy is one to look into.
fn check_seats<R: Wait + Abort>(
    rt: &R,
    shared: &Shared,
    pair: &mut Pair,
    copy: &mut Schedule,
    steps: &[(Who, SeatStep)],
)
    requires one { pair.old.first.table ≡ shared.now }
    requires other { pair.old.second.table ≡ shared.now }
    ensures one { pair.new.first.table ≡ shared.now }
    ensures other { pair.new.second.table ≡ shared.now }
{
    for &(who, step) in steps {
        match who {
            Who::First => check_seat_step(rt, shared, &mut pair.first, copy, step),
            Who::Second => check_seat_step(rt, shared, &mut pair.second, copy, step),
        }
    }
}

/// The first seat takes the second in, and then holds both numbers. It accounts for these entries, which are all that the board has
/// when it is closed.
fn check_end<R: Wait + Abort>(rt: &R, shared: Shared, pair: Pair, entries: &[(u32, Change)])
    requires { (pair.first.table ≡ shared) × (pair.second.table ≡ shared) }
{
    let Pair { mut first, second } = pair;
    absorb(&shared, &mut first, second);
    check_held(rt, &first, 2, entries.len() as u64);
    check_closed(rt, shared, first, true, entries);
}

/// The board that the seat closes has just these entries. It is whole, or not.
pub(crate) fn check_closed<R: Wait + Abort>(
    rt: &R,
    shared: Shared,
    seat: Seat,
    is_whole: bool,
    entries: &[(u32, Change)],
)
    requires { seat.table ≡ shared }
{
    check_history(rt, &close(rt, shared, seat, is_whole), entries);
}

/// Two seats of a board of four teams, to its end with these entries.
pub(crate) fn check_pair<R: Wait + Abort>(
    rt: &R,
    alloc: Global,
    board: Board,
    steps: &[(Who, SeatStep)],
    entries: &[(u32, Change)],
)
    requires { board.history ≡ [] }
{
    let mut copy = berger_fide(alloc, 4).expect(rt, "a copy");
    let (shared, mut first) = shared(rt, alloc, board);
    let second = split(rt, &shared, &mut first);
    let mut pair = Pair { first, second };
    check_seats(rt, &shared, &mut pair, &mut copy, steps);
    check_end(rt, shared, pair, entries);
}

/// Just these entries, each by its caller.
fn check_history(rt: &impl Abort, board: &Board, entries: &[(u32, Change)]) {
    check_version(rt, board, entries.len() as u64);
    for (i, &(caller, change)) in entries.iter().enumerate() {
        check_entry(rt, board, i as u64, caller, change);
    }
}
