//! Two climbers, each in a thread, on one board that they share.

ghost use Rattle.std.specs.Prelude.{◌≡◌, ◌≤◌, [], IfSome};
ghost use Rattle.std.specs.Thread.{IsSync};
ghost use Rattle.league.specs.Limits.{max_teams};

use crate::proposals::{generator, proposal};
use fixture_board::{Board, Change, Proposal, Reply};
use shared_board::{Seat, Shared};
use std::alloc::Global;
use std::sync::Wait;
use std::thread::{Threads, join};

/// Has two threads climb on the board. The board after them, if their seats account for each change of it.
pub(crate) fn climb_together<R: Threads + Wait + Sync>(
    rt: &R,
    alloc: Global,
    board: Board,
    steps: u32,
) -> Option<Board>
    requires { board.history ≡ [] }
{
    let teams = board.league().teams();
    let (shared, seat) = Shared::new(alloc, board).ok()?;
    let seat = climb_in_threads(rt, &shared, seat, teams, steps)?;
    let closed = shared.close(rt, seat);
    if closed.whole {
        Some(closed.board)
    } else {
        None
    }
}

/// Two threads with a seat each. The first seat takes in the other.
fn climb_in_threads<R: Threads + Wait + Sync>(
    rt: &R,
    shared: &Shared,
    mut seat: Seat,
    teams: u8,
    steps: u32,
) -> Option<Seat>
    requires table { seat.table ≡ shared.now }
    requires least { 2 ≤ teams }
    requires most { teams ≤ max_teams }
    ensures { IfSome result (λ s. s.table ≡ shared.now) }
{
    let other = shared.split(rt, &mut seat).ok()?;
    let (mut first, second) = join(
        rt,
        move || -> Seat
            requires { IsSync R.row × (seat.table ≡ shared.now) × (2 ≤ teams) × (teams ≤ max_teams) }
            ensures { result.table ≡ shared.entry.now }
        { climb_from(rt, shared, seat, teams, steps) },
        move || -> Seat
            requires { IsSync R.row × (other.table ≡ shared.now) × (2 ≤ teams) × (teams ≤ max_teams) }
            ensures { result.table ≡ shared.entry.now }
        { climb_from(rt, shared, other, teams, steps) },
    );
    shared.absorb(&mut first, second);
    Some(first)
}

/// Proposes so many moves from a seat, each for the board as the seat can tell.
fn climb_from<R: Wait>(rt: &R, shared: &Shared, mut seat: Seat, teams: u8, steps: u32) -> Seat
    requires table { seat.table ≡ shared.now }
    requires least { 2 ≤ teams }
    requires most { teams ≤ max_teams }
    ensures { result.table ≡ shared.now }
{
    let mut generator = generator(u64::from(seat.number()));
    for _ in 0..steps {
        let proposal = proposal(shared.front(&mut seat), &mut generator, teams);
        shared.propose(rt, &mut seat, proposal);
    }
    seat
}

/// Whether a new board of one thread grants the same changes in order, and comes to the same best.
pub(crate) fn replays(mut start: Board, board: &Board) -> bool {
    for at in 0..board.version() {
        if let Change::Shift(mv) = board.entry(at).change {
            let proposal = Proposal {
                version: at,
                mv,
                claim: None,
                slack: u64::MAX,
            };
            if let Reply::No { .. } = start.propose(0, proposal) {
                return false;
            }
        }
    }
    start.best() == board.best()
}
