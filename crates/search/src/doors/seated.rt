//! A door to a shared board.

ghost use Rattle.std.specs.Prelude.{◌≡◌};

use crate::Door;
use fixture_board::{Proposal, Reply, Seen};
use fixtures::Schedule;
use shared_board::{Seat, Shared};
use std::sync::Wait;

/// A door to a board that threads share, by any seat of it.
#[derive(Drop)]
pub struct SeatDoor<'a> {
    /// The board that the seat is of.
    pub shared: &'a Shared,
    /// The seat, which has one number or more.
    pub seat: Seat,
    pub ghost same_board: { seat.table ≡ shared.now },
}

impl Door for SeatDoor<'_> {
    ghost use Rattle.std.specs.Prelude.{◌≡◌, ◌+◌, ◌≤◌, length};
    ghost use Rattle.std.proofs.Common.{refl, ◌∙◌};
    ghost use Rattle.fixture_board.specs.declared.ask.Ask.TheVariants.{Shift};
    ghost use Rattle.shared_board.specs.Held.{under};
    ghost use Rattle.shared_board.specs.Seats.{Answered, Looked, glanced_at};
    ghost use Rattle.search.specs.Doors.{IsSameSeat, Replies, Shows, done_count, is_of, same_boards};

    ghost stays = { λ d e. IsSameSeat d.seat e.seat };

    ghost granted = { λ d. under d.seat.held d.seat.seen };

    ghost seen = { λ d. d.seat.seen };

    ghost may_have = { λ d. is_of d.seat };

    ghost caller = { λ d. d.seat.number };

    ghost stays_same = { λ d. record { table = refl; number = refl; setting = refl; held = refl } };

    ghost stays_then = { λ a b c p q. record
        { table = p.table ∙ q.table; number = p.number ∙ q.number; setting = p.setting ∙ q.setting; held = p.held ∙ q.held } };

    ghost stays_caller = { λ a b p. p.number };

    ghost stays_boards = { λ a b p. same_boards a.seat b.seat p };

    fn look<R: Wait>(&mut self, rt: &R, copy: &mut Schedule) -> Seen
        ensures stays { IsSameSeat self.old.seat self.new.seat }
        ensures counted { under self.new.seat.held self.new.seat.seen ≡ under self.old.seat.held self.old.seat.seen }
        ensures shown { Shows (is_of self.old.seat) self.old.seat.seen copy.old result copy.new self.new.seat.seen }
        ensures looked { Looked self.old.seat self.new.seat copy.old copy.new result }
    {
        self.shared.look(rt, &mut self.seat, copy)
    }

    fn propose<R: Wait>(&mut self, rt: &R, proposal: Proposal) -> Reply
        ensures stays { IsSameSeat self.old.seat self.new.seat }
        ensures counted { under self.new.seat.held self.new.seat.seen ≡ under self.old.seat.held self.old.seat.seen + done_count result }
        ensures replied { Replies (is_of self.old.seat) self.old.seat.number self.old.seat.seen proposal result self.new.seat.seen }
        ensures answered { Answered self.old.seat self.new.seat (Shift proposal) result }
    {
        self.shared.propose(rt, &mut self.seat, proposal)
    }

    fn front<R: Wait>(&mut self, _rt: &R) -> u64
        ensures stays { IsSameSeat self.old.seat self.new.seat }
        ensures counted { under self.new.seat.held self.new.seat.seen ≡ under self.old.seat.held self.old.seat.seen }
        ensures seen { self.new.seat.seen ≡ self.old.seat.seen }
        ensures front { length self.old.seat.seen ≤ result }
        ensures later { self.old.seat.glanced ≤ result }
        ensures seat { self.new.seat ≡ glanced_at self.old.seat result }
    {
        self.shared.front(&mut self.seat)
    }

    fn dones(&self) -> u64 {
        self.seat.accepted()
    }
}
