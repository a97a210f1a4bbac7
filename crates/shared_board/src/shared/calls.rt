//! The calls of a seat.

ghost use Rattle.std.specs.Prelude.{◌≡◌, ◌<◌, ◌≤◌, ◌^◌, ◌-◌, length, IfSome};
ghost use Rattle.shared_board.specs.Seats.{Answered, Looked, glanced_at, lowest_at, word_of_total};

use crate::plays::{Glance, Lower};
use crate::shared::{BEST, FRONT, Seat, Shared};
use fixture_board::{Ask, Proposal, Reply, Seen};
use fixtures::{Game, Schedule};
use std::sync::Wait;

impl Shared {
    /// Makes the move under the seat's number if nothing speaks against it, and answers as `Board::propose` does.
    pub fn propose<R: Wait>(&self, rt: &R, seat: &mut Seat, proposal: Proposal) -> Reply
        requires { seat.old.table ≡ self.now }
        ensures { Answered seat.old seat.new (Ask.Shift proposal) result }
    {
        self.ask(rt, seat, Ask::Shift(proposal))
    }

    /// Pins a game to its round, and answers as `Board::pin` does.
    pub fn pin<R: Wait>(&self, rt: &R, seat: &mut Seat, version: u64, game: Game) -> Reply
        requires { seat.old.table ≡ self.now }
        ensures { Answered seat.old seat.new (Ask.Pin version game) result }
    {
        self.ask(rt, seat, Ask::Pin { version, game })
    }

    /// Lets a pinned game get another round again, and answers as `Board::unpin` does.
    pub fn unpin<R: Wait>(&self, rt: &R, seat: &mut Seat, version: u64, game: Game) -> Reply
        requires { seat.old.table ≡ self.now }
        ensures { Answered seat.old seat.new (Ask.Unpin version game) result }
    {
        self.ask(rt, seat, Ask::Unpin { version, game })
    }

    /// Drops the last change in effect, whoever made it, and answers as `Board::undo` does.
    pub fn undo<R: Wait>(&self, rt: &R, seat: &mut Seat, version: u64) -> Reply
        requires { seat.old.table ≡ self.now }
        ensures { Answered seat.old seat.new (Ask.Undo version) result }
    {
        self.ask(rt, seat, Ask::Undo { version })
    }

    /// Asks the board under the seat's number.
    fn ask<R: Wait>(&self, rt: &R, seat: &mut Seat, ask: Ask) -> Reply
        requires { seat.old.table ≡ self.now }
        ensures { Answered seat.old seat.new ask result }
    {
        let reply = self.asked(rt, &mut seat.token, seat.number, ask);
        match reply {
            Reply::Done { at, .. } => {
                seat.seen = at;
                seat.accepted += 1;
            }
            Reply::No { at, .. } => seat.seen = at,
        }
        reply
    }

    /// Looks at the board. The copy becomes the board's schedule, if it is for as many teams.
    pub fn look<R: Wait>(&self, rt: &R, seat: &mut Seat, copy: &mut Schedule) -> Seen
        requires { seat.old.table ≡ self.now }
        ensures { Looked seat.old seat.new copy.old copy.new result }
    {
        self.take(rt, &mut seat.token);
        let seen = self.read(&mut seat.token, copy);
        self.leave(&mut seat.token);
        seat.seen = seen.version;
        seen
    }

    /// A length that the history has reached. It waits for nobody.
    pub fn front(&self, seat: &mut Seat) -> u64
        requires { seat.old.table ≡ self.now }
        ensures seen { length seat.old.seen ≤ result }
        ensures later { seat.old.glanced ≤ result }
        ensures seat { seat.new ≡ glanced_at seat.old result }
    {
        self.table.shared.load::<Glance>(&mut seat.token, FRONT)
    }

    /// The best total that the history has had at some point, or none. It waits for nobody.
    pub fn best(&self, seat: &mut Seat) -> Option<u64>
        requires { seat.old.table ≡ self.now }
        ensures lower { word_of_total result ≤ seat.old.lowest }
        ensures seat { seat.new ≡ lowest_at seat.old (word_of_total result) }
        ensures some { IfSome result (λ n. n < 2 ^ 64 - 1) }
    {
        let total = self.table.shared.load::<Lower>(&mut seat.token, BEST);
        if total == u64::MAX { None } else { Some(total) }
    }
}
