//! The texts of the fixture board, as bytes: the lines of a script, the play text, and the parts of a search text. Teams and
//! rounds are numbered from 0 in calls, and from 1 in texts. Nothing here takes memory: a text goes out piece by piece.
#![tactic(auto)]

mod answers;
mod history;
mod least_hard;
mod play_text;
mod progress_text;
mod script_line;
mod search_text;

pub use least_hard::breaches_add_up;
pub use play_text::play_script;
pub use progress_text::{Advance, write_clear, write_progress};
pub use script_line::{Keyword, ScriptLine, parse_line};
pub use search_text::{write_best_sheet, write_found, write_improved, write_plan, write_worker};
