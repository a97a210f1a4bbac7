//! Seats come and go, and the sharing ends.

ghost use Rattle.std.specs.Prelude.{◌≡◌, ◌+◌, MatchResult};
ghost use Rattle.shared_board.specs.Seats.{IsNew, Absorbed, ClosedBy, given_at};

use crate::plays::Newcomer;
use crate::shared::{Closed, MAX_SEATS, Seat, Shared, SplitFault};
use std::sync::Wait;

impl Shared {
    /// One more seat, which has seen what this one has. There are 64 numbers, each given out once. The old seat then knows
    /// of the new one's number.
    pub fn split<R: Wait>(&self, rt: &R, seat: &mut Seat) -> Result<Seat, SplitFault>
        requires { seat.old.table ≡ self.now }
        ensures { MatchResult result (λ s. (seat.new ≡ given_at seat.old (s.number + 1)) × IsNew seat.old s)
            (λ _. seat.new ≡ given_at seat.old 64) }
    {
        self.take(rt, &mut seat.token);
        let number = self.count(&mut seat.token);
        if number >= MAX_SEATS {
            self.quit(&mut seat.token);
            return Err(SplitFault::TooManySeats);
        }
        self.draw(&mut seat.token, number + 1);
        self.quit(&mut seat.token);
        let token = self.table.shared.split_seat::<Newcomer>(&mut seat.token);
        Ok(Seat {
            token,
            number: number as u32,
            held: 1,
            seen: seat.seen,
            accepted: 0,
        })
    }

    /// The first seat takes in the numbers of the other, and has seen the longer of the two histories. It waits for
    /// nobody.
    pub fn absorb(&self, seat: &mut Seat, other: Seat)
        requires { (seat.old.table ≡ self.now) × (other.table ≡ self.now) }
        ensures { Absorbed seat.old other seat.new }
    {
        let Seat {
            token,
            number: _,
            held,
            seen,
            accepted,
        } = other;
        self.merge(&mut seat.token, token);
        seat.held += held;
        seat.seen = seat.seen.max(seen);
        seat.accepted += accepted;
    }

    /// Ends the sharing. The board is whole exactly if the seat holds each number that was given out.
    pub fn close<R: Wait>(self, rt: &R, seat: Seat) -> Closed
        requires { seat.table ≡ self }
        ensures { ClosedBy seat result }
    {
        let Seat {
            mut token,
            number: _,
            held,
            seen: _,
            accepted: _,
        } = seat;
        let (board, numbers) = self.bring_out(rt, &mut token);
        Closed {
            board,
            whole: u64::from(held) == numbers,
        }
    }
}
