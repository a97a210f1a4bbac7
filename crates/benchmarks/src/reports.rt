//! Measurements as lines: what they came to on standard output, and how fast it was on standard error.

ghost use Rattle.std.specs.Prelude.{◌≡◌, ◌*◌, ◌^◌, ◌<◌, [], IfOk, IfSome};
ghost use Rattle.league.specs.League.{teams};

use crate::kind::Kind;
use crate::measure::{Count, measure};
use crate::plan::Plan;
use crate::steps::{own_steps, seat_steps};
use crate::tries::{Tried, Tries, try_moves};
use crate::turns::{Turn, Work, take_turns};
use fixture_board::{Board, MAX_ROOM};
use fixtures::Schedule;
use league::{League, circular};
use search::{Report, SeatDoor};
use shared_board::{Seat, Shared};
use std::alloc::Global;
use std::io;
use std::rt::Runtime;
use std::sync::Wait;
use std::thread::Threads;
use std::time::Instant;

/// By how much the score may rise at the first of the tries or steps.
const SLACKS: [u32; 2] = [0, 300];

/// Moves of each kind, made and taken back.
pub fn report_moves<R: Runtime + AllocGlobal>(rt: &R, teams: u8, count: u32) -> io::Result<()> {
    for kind in Kind::ALL {
        report_kind(rt, teams, kind, count)?;
    }
    Ok(())
}

fn report_kind<R: Runtime + AllocGlobal>(
    rt: &R,
    teams: u8,
    kind: Kind,
    count: u32,
) -> io::Result<()> {
    let (Count { made, refused }, each) = time_moves(rt, teams, kind, count)?;
    println!(rt; "{teams} teams {kind}: made {made} refused {refused}")?;
    eprintln!(rt; "{teams} teams {kind}: {each} ns each")
}

/// The results of the moves, and the nanoseconds of each.
fn time_moves<R: Runtime + AllocGlobal>(
    rt: &R,
    teams: u8,
    kind: Kind,
    count: u32,
) -> io::Result<(Count, u128)> {
    let Setup { mut copy, .. } = setup_of(rt.alloc(), teams, 0)?;
    let start = Instant::now(rt);
    let counted = measure(&mut copy, kind, count);
    timed(rt, start, counted.made, counted)
}

/// Tries of drawn moves, and of the moves of each kind, with each slack.
pub fn report_tries<R: Runtime + AllocGlobal>(rt: &R, teams: u8, count: u32) -> io::Result<()> {
    for slack in SLACKS {
        report_tries_by_kind(rt, teams, Plan { count, slack })?;
    }
    Ok(())
}

fn report_tries_by_kind<R: Runtime + AllocGlobal>(rt: &R, teams: u8, plan: Plan) -> io::Result<()> {
    for tried in Tried::ALL {
        report_tried(rt, teams, tried, plan)?;
    }
    Ok(())
}

fn report_tried<R: Runtime + AllocGlobal>(
    rt: &R,
    teams: u8,
    tried: Tried,
    plan: Plan,
) -> io::Result<()> {
    let (tries, each) = time_tries(rt, teams, tried, plan)?;
    let slack = plan.slack;
    println!(rt;
        "{teams} teams {tried} tries, slack {slack}: kept {} withdrawn {} refused {}",
        tries.kept, tries.withdrawn, tries.refused
    )?;
    eprintln!(rt; "{teams} teams {tried} tries, slack {slack}: {each} ns each")
}

/// The results of the tries, and the nanoseconds of each.
fn time_tries<R: Runtime + AllocGlobal>(
    rt: &R,
    teams: u8,
    tried: Tried,
    plan: Plan,
) -> io::Result<(Tries, u128)> {
    let Setup {
        league,
        mut copy,
        ..
    } = setup_of(rt.alloc(), teams, 0)?;
    let start = Instant::now(rt);
    let tries = try_moves(&mut copy, &league, tried, plan);
    timed(rt, start, plan.count, tries)
}

/// Steps of a worker that has the board for itself, and of one that has the only seat of a shared board, with each slack.
pub fn report_steps<R: Runtime + AllocGlobal + Wait>(
    rt: &R,
    teams: u8,
    count: u32,
) -> io::Result<()> {
    for slack in SLACKS {
        let plan = Plan { count, slack };
        let own = time_own_steps(rt, teams, plan)?;
        report_worker(rt, teams, "own board", slack, own)?;
        let seat = time_seat_steps(rt, teams, plan)?;
        report_worker(rt, teams, "shared board", slack, seat)?;
    }
    Ok(())
}

/// The report of a worker, and the nanoseconds of a step.
fn report_worker<R: Runtime + AllocGlobal>(
    rt: &R,
    teams: u8,
    board: &str,
    slack: u32,
    timed: (Report, u128),
) -> io::Result<()> {
    let (Report { made, accepted, .. }, each) = timed;
    println!(rt; "{teams} teams {board}, slack {slack}: proposed {made} accepted {accepted}")?;
    eprintln!(rt; "{teams} teams {board}, slack {slack}: {each} ns each")
}

/// The report of a worker with a board of its own, and the nanoseconds of a step.
fn time_own_steps<R: Runtime + AllocGlobal + Wait>(
    rt: &R,
    teams: u8,
    plan: Plan,
) -> io::Result<(Report, u128)> {
    let Setup {
        league,
        mut copy,
        board,
    } = setup_of(rt.alloc(), teams, plan.count)?;
    let start = Instant::now(rt);
    let report = own_steps(rt, &league, board, &mut copy, plan);
    timed(rt, start, plan.count, report)
}

/// The report of a worker with the only seat, and the nanoseconds of a step.
fn time_seat_steps<R: Runtime + AllocGlobal + Wait>(
    rt: &R,
    teams: u8,
    plan: Plan,
) -> io::Result<(Report, u128)> {
    let Setup {
        league,
        mut copy,
        board,
    } = setup_of(rt.alloc(), teams, plan.count)?;
    time_seat(rt, &league, board, &mut copy, plan)
}

/// As a worker with the only seat of the board.
fn time_seat<R: Runtime + AllocGlobal + Wait>(
    rt: &R,
    league: &League,
    board: Board,
    copy: &mut Schedule,
    plan: Plan,
) -> io::Result<(Report, u128)>
    requires { board.history ≡ [] }
{
    let (shared, seat) = Shared::new(rt.alloc(), board)?;
    let door = SeatDoor {
        shared: &shared,
        seat,
    };
    let start = Instant::now(rt);
    let report = seat_steps(rt, league, door, copy, plan);
    timed(rt, start, plan.count, report)
}

/// Turns of 1 to 16 threads on one shared board.
pub fn report_turns<R: Runtime + AllocGlobal + Threads + Wait + Sync>(
    rt: &R,
    teams: u8,
    turn: Turn,
    count: u32,
) -> io::Result<()> {
    for threads in [1, 2, 4, 8, 16] {
        report_threads(rt, teams, turn, threads, count)?;
    }
    Ok(())
}

fn report_threads<R: Runtime + AllocGlobal + Threads + Wait + Sync>(
    rt: &R,
    teams: u8,
    turn: Turn,
    threads: u32,
    count: u32,
) -> io::Result<()>
    requires { 0 < threads }
{
    let turns = count / threads;
    let work = Work {
        threads,
        turn,
        turns,
    };
    let each = time_turns(rt, teams, work)?;
    println!(rt; "{teams} teams {turn}: {threads} threads, {turns} turns each")?;
    eprintln!(rt; "{teams} teams {turn}, {threads} threads: {each} ns each")
}

/// The nanoseconds of a turn of the threads.
fn time_turns<R: Runtime + AllocGlobal + Threads + Wait + Sync>(
    rt: &R,
    teams: u8,
    work: Work,
) -> io::Result<u128>
    requires threads { 0 < work.threads }
    requires turns { work.turns * work.threads < 2 ^ 32 }
{
    let turns = work.turns * work.threads;
    let Setup { copy, board, .. } = setup_of(rt.alloc(), teams, turns)?;
    let start = Instant::now(rt);
    turns_taken(rt, board, &copy, work)?;
    nanoseconds_each(rt, start, turns)
}

/// Has the threads take their turns on the board. Their changes have to be those of the board.
fn turns_taken<R: Runtime + AllocGlobal + Threads + Wait + Sync>(
    rt: &R,
    board: Board,
    copy: &Schedule,
    work: Work,
) -> io::Result<()>
    requires { board.history ≡ [] }
{
    let (shared, seat) = Shared::new(rt.alloc(), board)?;
    let Some(seat) = take_turns(rt, rt.alloc(), &shared, seat, copy, work) else {
        return Err(io::Error::from(io::ErrorKind::OutOfMemory));
    };
    close(rt, shared, seat, work.threads)
}

/// Ends the sharing. The seat has to account for each entry of the board, and each thread's number.
fn close<R: Wait>(rt: &R, shared: Shared, seat: Seat, threads: u32) -> io::Result<()>
    requires { seat.table ≡ shared }
{
    let (held, accepted) = (seat.held(), seat.accepted());
    let closed = shared.close(rt, seat);
    if closed.whole && held == threads && accepted == closed.board.version() {
        Ok(())
    } else {
        Err(io::Error::from(io::ErrorKind::InvalidData))
    }
}

/// A league in a circle, its start, and a board of it.
#[derive(Drop)]
struct Setup {
    league: League,
    copy: Schedule,
    board: Board,
}

/// Setup of a league of this size. The board has room for so many entries, or for as many as a board may have.
fn setup_of(alloc: Global, size: u8, count: u32) -> io::Result<Setup>
    ensures board { IfOk result (λ s. s.board.history ≡ []) }
    ensures size { IfOk result (λ s. teams s.league ≡ s.copy.teams) }
{
    let board = board_of(alloc, size, count)?;
    let (league, copy) = league_and_copy(alloc, &board)?;
    Ok(Setup {
        league,
        copy,
        board,
    })
}

/// A copy of the board's league, and one of its schedule.
fn league_and_copy(alloc: Global, board: &Board) -> io::Result<(League, Schedule)>
    ensures { IfOk result (λ r. teams r.0 ≡ r.1.teams) }
{
    let copy = board.schedule().duplicate(alloc)?;
    let league = board.league().duplicate(alloc)?;
    Ok((league, copy))
}

fn board_of(alloc: Global, teams: u8, count: u32) -> io::Result<Board>
    ensures { IfOk result (λ b. b.history ≡ []) }
{
    let no_memory = io::Error::from(io::ErrorKind::OutOfMemory);
    new_board(alloc, teams, count).ok_or(no_memory)
}

fn new_board(alloc: Global, teams: u8, count: u32) -> Option<Board>
    ensures { IfSome result (λ b. b.history ≡ []) }
{
    let league = circular(alloc, teams).ok()?;
    Board::new(alloc, league, count.min(MAX_ROOM)).ok()
}

/// The value, and how long each of so many took since the start.
fn timed<R: Runtime, T: Copy>(
    rt: &R,
    start: io::Result<Instant>,
    count: u32,
    value: T,
) -> io::Result<(T, u128)> {
    Ok((value, nanoseconds_each(rt, start, count)?))
}

/// How long each of so many took since the start.
fn nanoseconds_each<R: Runtime>(
    rt: &R,
    start: io::Result<Instant>,
    count: u32,
) -> io::Result<u128> {
    Ok(start?.elapsed(rt)?.as_nanos() / u128::from(count.max(1)))
}
