//! The command line of the program `ttp`, which clap reads.
#![tactic(auto)]

mod beginning;
mod command_parts;
mod commands;
mod default_args;
mod effort;
mod file_clash;
mod files;
mod flag_args;
mod help;
mod improve_args;
mod job;
mod league_args;
mod names;
mod number_args;
mod number_options;
mod refusals;
mod report_args;
mod request;
mod text_args;
mod wrong_number;

pub use beginning::BeginningWords;
pub use choices::{CsvForm, Format, SearchPlan, Separator, Symmetry};
pub use file_clash::{FileRole, SameFile};
pub use files::FileWords;
pub use job::{Job, args};
pub use request::Request;
