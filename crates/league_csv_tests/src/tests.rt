//! The tests by subject, and what they share.

mod checks;
mod faults;
mod leagues;
