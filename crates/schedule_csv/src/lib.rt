//! A schedule as a table: comma-separated values with a head row, as spreadsheets write them, turned into a text with lines
//! `round R: H-A`.
//!
//! Teams, rounds and lines are numbered from 1.
#![tactic(auto)]

mod cells;
mod fault;
mod games;
mod head;
mod names;
mod table;

pub use cells::{MARK, cell_at, is_empty_row, next_cell, unmarked};
pub use fault::{CellFault, Column, RowFault, TableFault};
pub use head::without_order_mark;
pub use table::{ScheduleText, is_table, schedule_text};
