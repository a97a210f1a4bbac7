//! `ttp`: a fixture board for the Travelling Tournament Problem (Easton, Nemhauser, Trick 2001).
#![tactic(auto)]

use std::process::ExitCode;

fn main(rt: HostRuntime) -> ExitCode {
    cli::run(&rt, &rt.stdin(), rt.stderr())
}
