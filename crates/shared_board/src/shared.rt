//! The board behind a turn, and the seats of its callers.

ghost use Rattle.std.specs.Prelude.{◌≡◌, [], length, IfOk};
ghost use Rattle.shared_board.specs.Seats.{IsConsistent, first_seat};
ghost use Rattle.shared_board.specs.Held.{under};

mod calls;
mod seats;
mod turn;
#[cfg(test)]
mod waits;

use crate::view::{Order, View};
use atomic_table::Table;
use fixture_board::{Board, Reply};
use std::alloc::{AllocError, Global};
use std::marker::Model;
use std::snapshot::Snapshot;
use thiserror::Error;

// the words of the table

/// 1 while a seat holds the turn.
const TURN: usize = 0;

/// The length of the history.
const FRONT: usize = 1;

/// How many numbers are given out.
const NUMBERS: usize = 2;

/// The best total, or the greatest `u64` if there is none.
const BEST: usize = 3;

/// The slot of the board.
const SLOT: usize = 0;

/// How many numbers there are.
const MAX_SEATS: u64 = 64;

/// The token that a seat has at the table.
type Token = atomic_table::Seat<Option<Board>, View>;

/// A board that threads share. Contracts see which one it is.
#[derive(Drop)]
pub struct Shared {
    table: Table<Option<Board>, View, Snapshot<Board>, Order, Global>,
}

impl Model for Shared {
    ghost use Rattle.std.specs.Prelude.{◌≡◌};
    ghost use Rattle.atomic_table.specs.Seated.{TableId, table_id_coded};

    ghost Value = { TableId };

    ghost coded = { table_id_coded };

    ghost view = { λ s. s.table.shared.table_id };

    ghost invariant = { λ s. (s.table.shared.table_id.words ≡ 4) × (s.table.shared.table_id.slots ≡ 1) };
}

/// One caller of a shared board. Contracts see its number, the numbers that it holds (its own and those of the seats
/// that it absorbed), the history as it last saw it, and what it has read without a turn.
#[derive(Drop)]
pub struct Seat {
    token: Token,
    number: u32,
    held: u32,
    seen: u64,
    accepted: u64,
}

impl Model for Seat {
    ghost use Rattle.shared_board.specs.Seats.{SeatValue, seat_value};
    ghost use Rattle.shared_board.specs.within.Seats.{IsSeat};

    ghost Value = { SeatValue };

    ghost view = { λ s. seat_value s.token.table_id s.number s.token.me.0 };

    ghost invariant = { λ s. IsSeat s.token.me s.number s.held s.seen s.accepted };
}

impl Seat {
    /// The number under which its changes stand in the history. The call tells a proof what holds of every seat.
    pub fn number(&self) -> u32
        ensures value { result ≡ self.now.number }
        ensures seat { IsConsistent self.now }
    {
        self.number
    }

    /// How many numbers it holds.
    pub fn held(&self) -> u32
        ensures { result ≡ length self.now.held }
    {
        self.held
    }

    /// How long the history was when the seat last saw it.
    pub fn seen(&self) -> u64
        ensures { result ≡ length self.now.seen }
    {
        self.seen
    }

    /// How many of the entries that it has seen are under numbers that it holds.
    pub fn accepted(&self) -> u64
        ensures { result ≡ under self.now.held self.now.seen }
    {
        self.accepted
    }
}

/// Why there is no further seat.
#[derive(Clone, Copy, Debug, PartialEq, Eq, Error)]
pub enum SplitFault {
    /// As many numbers are given out as there may be.
    #[error("64 seats were given out")]
    TooManySeats,
}

/// The board, once no thread shares it any more.
#[derive(Drop)]
pub struct Closed {
    /// The board with all changes.
    pub board: Board,
    /// The seat held each number that was given out.
    pub whole: bool,
}

/// The reply of the board to a call under the turn.
#[derive(Clone, Copy)]
pub(crate) struct JudgedAsk {
    reply: Reply,
    version: u64,
    least: u64,
}

impl Shared {
    ghost use Rattle.shared_board.specs.Setting.{Setting};

    /// A shared board and its first seat, number 0. The board has no entry yet. If there is no memory the board is
    /// dropped.
    pub fn new(alloc: Global, board: Board) -> Result<(Shared, Seat), AllocError>
        requires { board.history ≡ [] }
        ensures { IfOk result (λ r. r.1 ≡ first_seat r.0 (record { league = board.league; room = board.room })) }
    {
        let best = turn::number_of(board.best());
        let key = Snapshot::of(&board);
        let mut slots = Vec::with_capacity(alloc, 1)?;
        slots.push_reserved(Some(board));
        let words = [0, 0, 1, best];
        let Ok((table, token)) = Table::new(alloc, &words, slots, &key) else {
            return Err(AllocError);
        };
        let seat = Seat {
            token,
            number: 0,
            held: 1,
            seen: 0,
            accepted: 0,
        };
        Ok((Shared { table }, seat))
    }
}
