//! The tests by subject, and what they share.

mod buffering;
mod checks;
mod fault_texts;
mod reading;
mod samples;
mod writing;
