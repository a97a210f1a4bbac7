//! How fast moves, tries, a worker's steps and turns are, on the starts of leagues in a circle.
//!
//! The first argument says how many of each are measured, 100 if it is absent. What became of them goes to standard
//! output, how fast they were to standard error.
#![tactic(auto)]

use benchmarks::{Turn, report_moves, report_steps, report_tries, report_turns};
use std::process::ExitCode;
use std::rt::Runtime;
use std::sync::Wait;
use std::thread::Threads;
use std::{env, io};

const DEFAULT_COUNT: u32 = 100;

fn main(rt: HostRuntime) -> ExitCode {
    match run(&rt) {
        Ok(()) => ExitCode::SUCCESS,
        Err(error) => {
            let _ = eprintln!(rt; "bench: {error}");
            ExitCode::FAILURE
        }
    }
}

fn run<R: Runtime + AllocGlobal + Threads + Wait + Sync>(rt: &R) -> io::Result<()> {
    let count = count_of(rt)?;
    for teams in [4, 10, 20, 40] {
        report_moves(rt, teams, count)?;
    }
    for teams in [4, 8, 10, 20, 40] {
        report_tries(rt, teams, count)?;
        report_steps(rt, teams, count)?;
    }
    for turn in Turn::ALL {
        for teams in [10, 40] {
            report_turns(rt, teams, turn, count)?;
        }
    }
    Ok(())
}

/// The number that the one argument gives.
fn count_of<R: Runtime + AllocGlobal>(rt: &R) -> io::Result<u32> {
    let words: Vec<String> = env::args(rt)?.collect(rt.alloc())?;
    match words.get(1) {
        None => Ok(DEFAULT_COUNT),
        Some(word) => match word.as_str().parse() {
            Ok(count) => Ok(count),
            Err(_) => Err(io::Error::from(io::ErrorKind::InvalidInput)),
        },
    }
}
