//! One assertion each. A test that is a row of such calls is proved much faster than one with as many assertions of its own,
//! since each carries all that is alive in it. A table that a function of `steps.rt` reads is proved faster still.

use crate::tests::answers::{is_pinned, round_of, travels};
use crate::tests::questions::ask_board;
use costs::Cost;
use fixture_board::{Ask, Best, Board, Change, Entry, Reply};
use fixtures::Schedule;
use std::fmt::Debug;
use std::process::Abort;

/// The two are equal. An assertion takes as long to prove as five calls, so it stands here once for all types.
pub(crate) fn check_same<T: PartialEq + Debug>(rt: &impl Abort, found: &T, wanted: &T) {
    assert_eq!(rt; found, wanted);
}

/// Checks the answer to a question by the call that it stands for. That of a move is told before.
pub(crate) fn check_ask(rt: &impl Abort, board: &mut Board, caller: u32, ask: Ask, reply: Reply) {
    if let Ask::Shift(proposal) = ask {
        check_same(rt, &(ask, board.would_answer(proposal)), &(ask, reply));
    }
    check_same(rt, &(ask, ask_board(board, caller, ask)), &(ask, reply));
}

/// The boards show the same.
pub(crate) fn check_alike(rt: &impl Abort, one: &Board, other: &Board) {
    let shown = (one.version(), one.cost(), one.best());
    check_same(rt, &shown, &(other.version(), other.cost(), other.best()));
    check_same(rt, &one.schedule().is_same(other.schedule()), &true);
}

// what a board shows; its teams and rounds count from 1

pub(crate) fn check_best(rt: &impl Abort, board: &Board, best: Option<Best>) {
    check_same(rt, &board.best(), &best);
}

pub(crate) fn check_no_best_schedule(rt: &impl Abort, board: &Board) {
    check_same(rt, &board.best_schedule().is_none(), &true);
}

/// In the best schedule the two teams meet in this round.
pub(crate) fn check_best_round(rt: &impl Abort, board: &Board, home: u8, away: u8, round: u8) {
    let best = board.best_schedule().expect(rt, "a best schedule");
    check_round(rt, best, home, away, round);
}

pub(crate) fn check_entry(rt: &impl Abort, board: &Board, i: u64, caller: u32, change: Change) {
    assert!(rt; i < board.version());
    check_same(rt, &board.entry(i), &Entry { caller, change });
}

pub(crate) fn check_cost(rt: &impl Abort, board: &Board, cost: Cost) {
    check_same(rt, &board.cost(), &cost);
}

pub(crate) fn check_version(rt: &impl Abort, board: &Board, version: u64) {
    check_same(rt, &board.version(), &version);
}

pub(crate) fn check_pinned(rt: &impl Abort, board: &Board, home: u8, away: u8, is: bool) {
    let found = is_pinned(rt, board, home, away);
    check_same(rt, &(home, away, found), &(home, away, is));
}

pub(crate) fn check_round(rt: &impl Abort, schedule: &Schedule, home: u8, away: u8, round: u8) {
    let found = round_of(rt, schedule, home, away);
    check_same(rt, &(home, away, found), &(home, away, round));
}

pub(crate) fn check_travels(rt: &impl Abort, board: &Board, tours: [u64; 4]) {
    check_same(rt, &travels(rt, board), &tours);
}
