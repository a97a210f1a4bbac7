//! A search of one's own over the board, as a researcher would write it: a hill climber, alone and then in two threads.
//!
//! The search of the climber alone is printed as `ttp search` prints it, so its history is a script for `ttp play`. What two
//! threads find depends on how they take turns, so of them only what holds each time is printed.
#![tactic(auto)]

ghost use Rattle.std.specs.Prelude.{◌≡◌, [], IfOk};

mod alone;
mod proposals;
mod together;

use alone::climb;
use board_texts::write_found;
use byte_streams::{BufferedSink, WriteFault, WriterSink};
use fixture_board::Board;
use league::circular;
use proposals::generator;
use std::alloc::Global;
use std::io;
use std::process::ExitCode;
use std::rt::Runtime;
use std::sync::Wait;
use std::thread::Threads;
use together::{climb_together, replays};

const TEAMS: u8 = 6;

/// How many moves a climber proposes.
const STEPS: u32 = 4_000;

fn main(rt: HostRuntime) -> ExitCode {
    match run(&rt) {
        Ok(()) => ExitCode::SUCCESS,
        Err(error) => {
            let _ = eprintln!(rt; "climber: {error}");
            ExitCode::FAILURE
        }
    }
}

fn run<R: Runtime + AllocGlobal + Threads + Wait + Sync>(rt: &R) -> io::Result<()> {
    climb_alone(rt)?;
    let replays = climb_in_two(rt)?;
    println!(rt; "two threads: history replays {replays}")
}

/// Prints what a climber finds alone.
fn climb_alone<R: Runtime + AllocGlobal>(rt: &R) -> io::Result<()> {
    let mut board = board_of(rt.alloc())?;
    climb(&mut board, &mut generator(0), STEPS);
    match print(rt, &board) {
        Ok(()) => Ok(()),
        Err(_) => Err(io::Error::from(io::ErrorKind::WriteZero)),
    }
}

/// Whether the history that two climbers made replays on a board of one thread.
fn climb_in_two<R: Runtime + AllocGlobal + Threads + Wait + Sync>(rt: &R) -> io::Result<bool> {
    let board = board_of(rt.alloc())?;
    let Some(shared) = climb_together(rt, rt.alloc(), board, STEPS) else {
        return Err(io::Error::from(io::ErrorKind::OutOfMemory));
    };
    Ok(replays(board_of(rt.alloc())?, &shared))
}

/// A board for the circle, with room for each change of two climbers.
fn board_of(alloc: Global) -> io::Result<Board>
    ensures { IfOk result (λ b. b.history ≡ []) }
{
    let Ok(league) = circular(alloc, TEAMS) else {
        return Err(io::Error::from(io::ErrorKind::OutOfMemory));
    };
    match Board::new(alloc, league, 2 * STEPS) {
        Ok(board) => Ok(board),
        Err(_) => Err(io::Error::from(io::ErrorKind::OutOfMemory)),
    }
}

/// Prints the history, the sheet of the best schedule and its total.
fn print<R: Runtime>(rt: &R, board: &Board) -> Result<(), WriteFault> {
    let mut sink = WriterSink::new(io::writer(rt));
    let mut out = BufferedSink::new(&mut sink);
    write_found(&mut out, board)?;
    out.flush()
}
