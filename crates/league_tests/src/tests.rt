//! The tests by subject, and what they share.

mod beginnings;
mod checks;
mod faults;
mod formats;
mod hostile;
mod league_texts;
mod members;
mod memory;
mod rule_faults;
mod rules;
mod third_format;
