//! The tests by subject, and what they share.

mod boards;
mod checks;
mod fault_texts;
mod first_moves;
mod own_streams;
mod recorder;
mod reporting;
mod runs;
mod searches;
mod steps;
