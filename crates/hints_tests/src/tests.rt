//! The tests by subject, and what they share.

mod hints;
mod lines;
mod memory;
mod numbers;
mod remarks;
mod third_format;
