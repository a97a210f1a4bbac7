//! The report of a judged schedule in the format that is asked for: a text, a table of its games as CSV, a page for a
//! browser, its games in words, or JSON. Games that are no double round robin are answered by the text's faults in each format.
//!
//! Teams and rounds are numbered from 0 in calls, and from 1 in texts. [`prepare`] alone takes memory.
#![tactic(auto)]

mod broken_games;
mod format;
mod grid;
mod labels;
mod laws;
mod listed_games;
mod lists;
mod moved_games;
mod page;
mod pairings;
mod pieces;
mod rule_words;
mod style;
mod table;
mod verdicts;

pub use choices::{CsvForm, Format, Separator};
pub use format::{Prepared, prepare, write_prepared};
pub use laws::{names_are_read_back, names_have_no_marks};
