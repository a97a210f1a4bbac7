//! Threads that ask for drawn changes: what they did is what one thread's board does with their history.

ghost use Rattle.std.specs.Prelude.{◌≡◌, ◌<◌};
ghost use Rattle.std.specs.Thread.{IsSync};

use crate::tests::boards::{board_of, shared};
use crate::tests::checks::{check_alike, check_same, check_version};
use crate::tests::drawn_numbers::{next_word, part};
use crate::tests::questions::{ask_seat, at_any_cost, game_from_0};
use crate::tests::seat_checks::{absorb, check_held, close, split};
use fixture_board::{Ask, Board, Reply};
use moves::Move;
use shared_board::{Seat, Shared};
use std::alloc::Global;
use std::process::Abort;
use std::sync::Wait;
use std::thread::{Threads, join};

const RUNS: u64 = 20;

const CALLS: u32 = 40;

const ROOM: u32 = 1024;

/// A move, a pin, an unpin or an undo that the word says, at a version.
fn drawn_by(word: u64, version: u64) -> Ask {
    let (i, j, k) = (part(word, 20, 4), part(word, 30, 4), part(word, 40, 6));
    let game = game_from_0(k, i, j);
    let mv = match part(word, 50, 5) {
        0 => Move::Homes { i, j },
        1 => Move::Teams { i, j },
        2 => Move::Rounds { k, l: i },
        3 => Move::PartRounds { i, k, l: j },
        _ => Move::PartTeams { i, j, k },
    };
    match part(word, 56, 8) {
        0 => Ask::Pin { version, game },
        1 => Ask::Unpin { version, game },
        2 => Ask::Undo { version },
        _ => at_any_cost(version, mv),
    }
}

/// Asks what the word says, at the front. Whether it was granted.
fn ask_drawn<R: Wait>(rt: &R, shared: &Shared, seat: &mut Seat, word: u64) -> bool
    requires { seat.old.table ≡ shared.now }
    ensures { seat.new.table ≡ shared.now }
{
    let ask = drawn_by(word, shared.front(seat));
    matches!(ask_seat(rt, shared, seat, ask), Reply::Done { .. })
}

/// Asks for drawn changes. The seat's count of accepted changes rises by those that were granted.
fn work<R: Wait + Abort>(rt: &R, shared: &Shared, seat: &mut Seat, seed: u64)
    requires { seat.old.table ≡ shared.now }
    ensures { seat.new.table ≡ shared.now }
{
    let before = seat.accepted();
    let mut granted: u64 = 0;
    let mut word = seed;
    for _ in 0..CALLS {
        word = next_word(word);
        granted = granted.saturating_add(u64::from(ask_drawn(rt, shared, seat, word)));
    }
    check_same(rt, &seat.accepted().checked_sub(before), &Some(granted));
}

/// So many threads, each with a seat of its own. The seat that took in all others.
fn crew<R: Threads + Wait + Sync + Abort>(
    rt: &R,
    shared: &Shared,
    mut seat: Seat,
    threads: u32,
    seed: u64,
) -> Seat
    requires { seat.table ≡ shared.now }
    ensures { result.table ≡ shared.now }
{
    if threads < 2 {
        work(rt, shared, &mut seat, seed);
        return seat;
    }
    let other = split(rt, shared, &mut seat);
    let half = threads / 2;
    let rest = threads - half;
    let (mut first, second) = join(
        rt,
        move || -> Seat
            requires { IsSync R.row × (seat.table ≡ shared.now) }
            ensures { result.table ≡ shared.entry.now }
        { crew(rt, shared, seat, half, next_word(seed)) },
        move || -> Seat
            requires { IsSync R.row × (other.table ≡ shared.now) }
            ensures { result.table ≡ shared.entry.now }
        { crew(rt, shared, other, rest, next_word(!seed)) },
    );
    absorb(shared, &mut first, second);
    first
}

/// Asks what made the history.
fn replay(again: &mut Board, changed: &Board) {
    for i in 0..changed.version() {
        let entry = changed.entry(i);
        again.answer(entry.caller, Ask::of(entry.change, i, u64::MAX));
    }
}

/// The history, asked of a new board, leads to the same.
fn check_replay(rt: &impl Abort, alloc: Global, changed: &Board) {
    let mut again = board_of(rt, alloc, 4, ROOM);
    replay(&mut again, changed);
    check_alike(rt, &again, changed);
}

/// A board that so many threads changed, and the seat of each accounts for its changes.
fn changed_by<R: Threads + Wait + Sync + Abort>(
    rt: &R,
    alloc: Global,
    threads: u32,
    seed: u64,
) -> Board {
    let (shared, seat) = shared(rt, alloc, board_of(rt, alloc, 4, ROOM));
    let seat = crew(rt, &shared, seat, threads, seed);
    let accepted = seat.accepted();
    check_held(rt, &seat, threads, accepted);
    let board = close(rt, shared, seat, true);
    check_version(rt, &board, accepted);
    board
}

fn check_run<R: Threads + Wait + Sync + Abort>(rt: &R, alloc: Global, threads: u32, seed: u64) {
    let board = changed_by(rt, alloc, threads, seed);
    check_replay(rt, alloc, &board);
}

fn run<R: Threads + Wait + Sync + Abort>(rt: &R, alloc: Global, threads: u32) {
    for seed in 0..RUNS {
        check_run(rt, alloc, threads, seed);
    }
}

#[test]
fn drawn_changes_of_threads(rt: HostRuntime) {
    for threads in [2, 4, 8, 16] {
        run(&rt, rt.alloc(), threads);
    }
}
