//! What a searching worker needs beside its boards: the moves that it draws, the gate that it
//! passes, and the context of a run.
//!
//! Teams and rounds are numbered from 0. No call takes memory.
#![tactic(auto)]

mod draws;
mod gates;
mod run_context;

pub use draws::{Draws, draw, draw_among, each_round};
pub use gates::{Gate, NoGate, Progress};
pub use run_context::RunContext;
