//! One assertion each on a shared board and a seat. A caller's proof knows no more of the seat after each than whose it is,
//! which keeps that proof short.

ghost use Rattle.std.specs.Prelude.{◌≡◌};

use crate::tests::checks::check_same;
use crate::tests::questions::ask_seat;
use fixture_board::{Ask, Board, Reply, Seen};
use fixtures::Schedule;
use shared_board::{Seat, Shared};
use std::process::Abort;
use std::sync::Wait;

/// Asks through a seat. It has then seen the version that is answered, which is the front.
pub(crate) fn check_ask<R: Wait + Abort>(
    rt: &R,
    shared: &Shared,
    seat: &mut Seat,
    ask: Ask,
    reply: Reply,
)
    requires { seat.old.table ≡ shared.now }
    ensures { seat.new.table ≡ shared.now }
{
    check_same(rt, &(ask, ask_seat(rt, shared, seat, ask)), &(ask, reply));
    let (Reply::Done { at, .. } | Reply::No { at, .. }) = reply;
    let seen = [seat.seen(), shared.front(seat)];
    check_same(rt, &(ask, seen), &(ask, [at, at]));
}

pub(crate) fn check_look<R: Wait + Abort>(
    rt: &R,
    shared: &Shared,
    seat: &mut Seat,
    copy: &mut Schedule,
    wanted: &Seen,
)
    requires { seat.old.table ≡ shared.now }
    ensures { seat.new.table ≡ shared.now }
{
    let shown = shared.look(rt, seat, copy);
    check_same(rt, &shown, wanted);
}

pub(crate) fn check_front(rt: &impl Abort, shared: &Shared, seat: &mut Seat, front: u64)
    requires { seat.old.table ≡ shared.now }
    ensures { seat.new.table ≡ shared.now }
{
    let found = shared.front(seat);
    check_same(rt, &found, &front);
}

pub(crate) fn check_total(rt: &impl Abort, shared: &Shared, seat: &mut Seat, best: Option<u64>)
    requires { seat.old.table ≡ shared.now }
    ensures { seat.new.table ≡ shared.now }
{
    let found = shared.best(seat);
    check_same(rt, &found, &best);
}

/// How many numbers the seat holds, and how many entries are its own.
pub(crate) fn check_held(rt: &impl Abort, seat: &Seat, held: u32, accepted: u64) {
    check_same(rt, &(seat.held(), seat.accepted()), &(held, accepted));
}

pub(crate) fn check_number(rt: &impl Abort, seat: &Seat, number: u32) {
    check_same(rt, &seat.number(), &number);
}

/// One more seat.
pub(crate) fn split<R: Wait + Abort>(rt: &R, shared: &Shared, seat: &mut Seat) -> Seat
    requires { seat.old.table ≡ shared.now }
    ensures same { seat.new.table ≡ shared.now }
    ensures new { result.table ≡ shared.now }
{
    shared.split(rt, seat).expect(rt, "a seat")
}

/// The first seat takes the other in.
pub(crate) fn absorb(shared: &Shared, seat: &mut Seat, other: Seat)
    requires { (seat.old.table ≡ shared.now) × (other.table ≡ shared.now) }
    ensures { seat.new.table ≡ shared.now }
{
    shared.absorb(seat, other);
}

/// Ends the sharing of a board whose every number the seat holds, or not.
pub(crate) fn close<R: Wait + Abort>(rt: &R, shared: Shared, seat: Seat, is_whole: bool) -> Board
    requires { seat.table ≡ shared }
{
    let closed = shared.close(rt, seat);
    check_same(rt, &closed.whole, &is_whole);
    closed.board
}
