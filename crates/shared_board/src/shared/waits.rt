//! Calls that wait for nobody while another seat holds the turn, and how long one waits that has to.

ghost use Rattle.std.specs.Prelude.{◌≡◌};
ghost use Rattle.std.specs.Thread.{IsSync};

use crate::shared::{Seat, Shared};
use fixture_board::Board;
use league::circular;
use std::alloc::Global;
use std::io;
use std::sync::Wait;
use std::test::Fail;
use std::thread::{Threads, join, sleep};
use std::time::{Clock, Duration, Instant};

#[test]
fn front_best_and_absorb_need_no_turn(rt: HostRuntime) -> Result<(), Fail> {
    let board = Board::new(rt.alloc(), circular(rt.alloc(), 4)?, 8)?;
    let (shared, mut a) = Shared::new(rt.alloc(), board)?;
    let mut b = shared.split(&rt, &mut a)?;
    let c = shared.split(&rt, &mut a)?;
    shared.take(&rt, &mut a.token);
    assert_eq!(rt; shared.front(&mut b), 0);
    assert_eq!(rt; shared.best(&mut b), Some(30));
    shared.absorb(&mut b, c);
    assert_eq!(rt; b.held(), 2);
    shared.quit(&mut a.token);
    shared.absorb(&mut a, b);
    assert!(rt; shared.close(&rt, a).whole);
    Ok(())
}

/// Takes the turn after so many milliseconds, and holds it for so many. How long it waited for it.
fn hold<R: Wait + Clock>(
    rt: &R,
    shared: &Shared,
    mut seat: Seat,
    after: u64,
    held: u64,
) -> io::Result<Duration>
    requires { seat.table ≡ shared.now }
{
    sleep(rt, Duration::from_millis(after));
    let start = Instant::now(rt)?;
    shared.take(rt, &mut seat.token);
    let taken = Instant::now(rt)?;
    sleep(rt, Duration::from_millis(held));
    shared.quit(&mut seat.token);
    Ok(taken.duration_since(start))
}

/// One seat holds the turn for so many milliseconds, and another one comes while it does. How long that one waits.
fn waited<R: Threads + Wait + Clock + Sync>(
    rt: &R,
    shared: &Shared,
    first: Seat,
    second: Seat,
    held: u64,
) -> io::Result<Duration>
    requires first { first.table ≡ shared.now }
    requires second { second.table ≡ shared.now }
{
    let (_, waited) = join(
        rt,
        move || -> io::Result<Duration>
            requires { IsSync R.row × (first.table ≡ shared.now) }
        { hold(rt, shared, first, 0, held) },
        move || -> io::Result<Duration>
            requires { IsSync R.row × (second.table ≡ shared.now) }
        { hold(rt, shared, second, 50, 0) },
    );
    waited
}

/// How long a seat waits for a turn that is held for so many milliseconds.
fn waited_on_a_new_board<R: Threads + Wait + Clock + Sync>(
    rt: &R,
    alloc: Global,
    held: u64,
) -> Result<Duration, Fail> {
    let board = Board::new(alloc, circular(alloc, 4)?, 8)?;
    let (shared, mut first) = Shared::new(alloc, board)?;
    let second = shared.split(rt, &mut first)?;
    Ok(waited(rt, &shared, first, second, held)?)
}

/// A seat whose nap were a second, or had no end, fails this.
#[test]
fn a_turn_that_is_left_is_taken_within_a_second(rt: HostRuntime) -> Result<(), Fail> {
    let waited = waited_on_a_new_board(&rt, rt.alloc(), 200)?;
    assert!(rt; waited < Duration::from_millis(1_000));
    Ok(())
}

/// `scripts/check wait` runs this, and tells by the processor time whether the seat that waits sleeps or spins.
#[test]
fn a_seat_waits_a_second(rt: HostRuntime) -> Result<(), Fail> {
    let waited = waited_on_a_new_board(&rt, rt.alloc(), 1_200)?;
    assert!(rt; Duration::from_millis(500) < waited);
    Ok(())
}
