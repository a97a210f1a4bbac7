//! The commands of the program `ttp`, as calls over any source and sink, and the faults that they end with.
#![tactic(auto)]

mod begun;
mod bound_command;
mod fault;
mod hints;
mod improve_command;
mod league_command;
mod play_command;
mod progress;
mod report_command;
mod search_command;
mod search_end;
mod search_text;
mod start_command;
mod verdict;

pub use bound_command::{bound, bound_from, bound_on};
pub use byte_streams::{Sink, Source, Step};
pub use choices::{CsvForm, Format, SearchPlan, Separator, Symmetry};
pub use draws::{Gate, NoGate, RunContext};
pub use fault::ProgramFault;
pub use given_start::Beginning;
pub use hints::{LeagueRefusal, hint_on};
pub use improve_command::{improve, improve_from, improve_on};
pub use improvement::{ImprovePlan, LegEnded, NoWatcher, Watcher, Written};
pub use league_command::{league, league_from, league_on};
pub use league_csv::{DistanceFault, Settings};
pub use play_command::{play, play_from, play_on};
pub use policy::{MAX_EFFORT, MoveSet};
pub use progress::{Extent, ProgressLine};
pub use report_command::{report, report_from, report_on};
pub use search::Outcome;
pub use search_command::{find, find_from, find_on};
pub use search_end::SearchEnd;
pub use search_text::search_report;
pub use start_command::{start, start_from, start_on};
pub use text_lines::sheet;
pub use verdict::Verdict;
