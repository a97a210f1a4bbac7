//! Threads that take turns on one shared board.

ghost use Rattle.std.specs.Prelude.{◌≡◌, ◌≤◌, IfSome};
ghost use Rattle.std.specs.Thread.{IsSync};

use fixture_board::Proposal;
use fixtures::Schedule;
use moves::Move;
use shared_board::{Seat, Shared};
use std::alloc::Global;
use std::fmt;
use std::fmt::Write;
use std::sync::Wait;
use std::thread::{Threads, join};

/// The kinds of turns that threads take.
#[derive(Clone, Copy, Debug, PartialEq, Eq)]
pub enum Turn {
    /// Each is a look.
    Look,
    /// Proposals and undos take turns.
    Change,
}

impl Turn {
    pub const ALL: [Turn; 2] = [Turn::Look, Turn::Change];
}

impl fmt::Display for Turn {
    fn fmt<W: Write>(&self, f: &mut fmt::Formatter<W>) -> fmt::Result {
        f.write_str(match self {
            Turn::Look => "look",
            Turn::Change => "propose and undo",
        })
    }
}

/// The work of so many threads: so many turns of a kind each.
#[derive(Clone, Copy, Debug, PartialEq, Eq)]
pub struct Work {
    pub threads: u32,
    pub turn: Turn,
    pub turns: u32,
}

/// Has the threads take their turns, each with a copy of the schedule. The seat that took in all others, if each thread had
/// its seat and its copy.
pub fn take_turns<R: Threads + Wait + Sync>(
    rt: &R,
    alloc: Global,
    shared: &Shared,
    mut seat: Seat,
    copy: &Schedule,
    work: Work,
) -> Option<Seat>
    requires { seat.table ≡ shared.now }
    ensures { IfSome result (λ s. s.table ≡ shared.now) }
{
    if work.threads < 2 {
        return take_alone(rt, alloc, shared, seat, copy, work);
    }
    let other = shared.split(rt, &mut seat).ok()?;
    let half = Work {
        threads: work.threads / 2,
        ..work
    };
    let rest = Work {
        threads: work.threads - half.threads,
        ..work
    };
    let (first, second) = join(
        rt,
        move || -> Option<Seat>
            requires { IsSync R.row × (seat.table ≡ shared.now) }
            ensures { IfSome result (λ s. s.table ≡ shared.entry.now) }
        { take_turns(rt, alloc, shared, seat, copy, half) },
        move || -> Option<Seat>
            requires { IsSync R.row × (other.table ≡ shared.now) }
            ensures { IfSome result (λ s. s.table ≡ shared.entry.now) }
        { take_turns(rt, alloc, shared, other, copy, rest) },
    );
    Some(joined(shared, first?, second?))
}

/// The first seat, which took the other in.
fn joined(shared: &Shared, mut first: Seat, other: Seat) -> Seat
    requires { (first.table ≡ shared.now) × (other.table ≡ shared.now) }
    ensures { result.table ≡ shared.now }
{
    shared.absorb(&mut first, other);
    first
}

/// One thread's turns with a copy of its own. Its seat, if it has the copy.
fn take_alone<R: Wait>(
    rt: &R,
    alloc: Global,
    shared: &Shared,
    mut seat: Seat,
    copy: &Schedule,
    work: Work,
) -> Option<Seat>
    requires { seat.table ≡ shared.now }
    ensures { IfSome result (λ s. s.table ≡ shared.now) }
{
    let mut copy = copy.duplicate(alloc).ok()?;
    take(rt, shared, &mut seat, &mut copy, work);
    Some(seat)
}

/// One thread's turns.
fn take<R: Wait>(rt: &R, shared: &Shared, seat: &mut Seat, copy: &mut Schedule, work: Work)
    requires { seat.old.table ≡ shared.now }
    ensures { seat.new.table ≡ seat.old.table }
{
    for index in 0..work.turns {
        match work.turn {
            Turn::Look => {
                shared.look(rt, seat, copy);
            }
            Turn::Change => change(rt, shared, seat, index),
        }
    }
}

/// Proposes a move, or takes back the last change, at the front.
fn change<R: Wait>(rt: &R, shared: &Shared, seat: &mut Seat, index: u32)
    requires { seat.old.table ≡ shared.now }
    ensures { seat.new.table ≡ seat.old.table }
{
    let version = shared.front(seat);
    if index % 2 == 0 {
        let proposal = Proposal {
            version,
            mv: Move::Homes { i: 0, j: 1 },
            claim: None,
            slack: u64::MAX,
        };
        shared.propose(rt, seat, proposal);
    } else {
        shared.undo(rt, seat, version);
    }
}
