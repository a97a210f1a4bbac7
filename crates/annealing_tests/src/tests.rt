//! The tests by subject, and what they share.

mod boards;
mod chains;
mod checks;
mod leagues;
mod reporting;
mod rooms;
mod steps;
mod twin;
mod units;
