//! Lines of bytes: an input's league and script, the lines of a text, the words of a line, the numbers that words are, and
//! lines that are written piece by piece, as those of a schedule's sheet. Teams and rounds are numbered from 0 in calls, and
//! from 1 in texts. Nothing here takes memory.
#![tactic(auto)]

mod classes;
mod input;
mod lines;
mod numerals;
mod pieces;
mod sheets;
mod splits;
mod words;

pub use classes::class_name;
pub use input::{line_ending_with, next_line, split_at_line, split_input};
pub use lines::{write_counted, write_numbered};
pub use numerals::{index, number};
pub use pieces::{Piece, write_pieces};
pub use sheets::{sheet, write_pairing, write_sheet};
pub use splits::{byte_index, numbers_at_dash, rest_after};
pub use words::next_word;
