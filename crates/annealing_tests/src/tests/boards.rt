//! Boards compared.

use crate::tests::checks::check_same;
use costs::Cost;
use fixture_board::{Best, Board, Entry};
use std::process::Abort;

fn entry(rt: &impl Abort, board: &Board, i: u64) -> Entry {
    assert!(rt; i < board.version());
    board.entry(i)
}

fn shown(board: &Board) -> (u64, Cost, Option<Best>) {
    (board.version(), board.cost(), board.best())
}

/// The boards show the same, and have the same entries.
pub(crate) fn check_same_board(rt: &impl Abort, one: &Board, other: &Board) {
    check_same(rt, &shown(one), &shown(other));
    for i in 0..one.version() {
        check_same(rt, &(i, one.entry(i)), &(i, entry(rt, other, i)));
    }
}
