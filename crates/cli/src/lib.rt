//! The program around its commands: words in, texts and an exit status out.
#![tactic(auto)]

mod follower;
mod found_file;
mod jobs;
mod leg_log;
mod same_file;
mod texts_read;
mod timed;
mod told;
mod words;

pub use follower::{Follower, Unwritten};
pub use words::run;
