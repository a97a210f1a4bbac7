//! The boards of a leg: the one that it goes on with, and one that was set aside when its room was used up.

ghost use Rattle.std.specs.Prelude.{◌≡◌, ◌^◌, ◌<◌, OnOk};
ghost use Rattle.annealing.specs.within.Boards.{better, has_room_for, least_in, least_of_both, with_room};

use crate::blocks::BLOCK;
use fixture_board::Board;
use std::alloc::{AllocError, Global};
use std::mem;

/// The boards of a leg.
#[derive(Drop)]
pub(crate) struct Boards {
    pub(crate) board: Board,
    /// The best of those whose room was used up.
    pub(crate) parked: Option<Board>,
}

impl Boards {
    /// Makes room for a block. If there is too little, the board is taken back to its best version. If it has none, or that leaves too
    /// little for two blocks, the leg begins anew at the league's start, and the board is set aside.
    pub(crate) fn make_room(&mut self, alloc: Global) -> Result<(), AllocError>
        ensures { OnOk result (self.new ≡ with_room self.old) }
    {
        if has_room_for(&self.board, BLOCK) {
            return Ok(());
        }
        self.board.rewind_to_best();
        if has_room_for(&self.board, 2 * BLOCK) {
            return Ok(());
        }
        let board = self.board.anew(alloc)?;
        let full = mem::replace(&mut self.board, board);
        self.parked = Some(better(self.parked.take(), full));
        Ok(())
    }

    /// The least total of a feasible version of the two, or the greatest of 64 bits if there is none.
    pub(crate) fn least(&self) -> u64
        ensures { result ≡ least_of_both self.now.parked self.now.board }
    {
        let least = least_in(&self.board);
        match &self.parked {
            None => least,
            Some(parked) => least_in(parked).min(least),
        }
    }

    /// The one with the least total, and of equals the one that was set aside.
    pub(crate) fn into_better(self) -> Board
        ensures { result ≡ better self.parked self.board }
    {
        let Boards { board, parked } = self;
        better(parked, board)
    }
}

/// The board with the least total, and of equals the one that was set aside.
fn better(parked: Option<Board>, board: Board) -> Board
    ensures { result ≡ better parked board }
{
    match parked {
        None => board,
        Some(parked) => {
            if least_in(&parked) <= least_in(&board) {
                parked
            } else {
                board
            }
        }
    }
}

/// The least total of a feasible version, or the greatest of 64 bits if there is none.
fn least_in(board: &Board) -> u64
    ensures { result ≡ least_in board.now }
{
    match board.best() {
        None => u64::MAX,
        Some(best) => best.total,
    }
}

/// Whether the history may have so many entries more.
fn has_room_for(board: &Board, entries: u64) -> bool
    requires { entries < 2 ^ 32 }
    ensures { result ≡ has_room_for entries board.now }
{
    let room = u64::from(board.room());
    board.version() + entries <= room
}
