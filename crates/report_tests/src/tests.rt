//! The tests by subject, and what they share.

mod cases;
mod checks;
mod lines;
mod marks;
