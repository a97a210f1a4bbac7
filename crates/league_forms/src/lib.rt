//! The forms of JSON values, and how a line of advice shows them.
#![tactic(auto)]

mod form;
mod shown;

pub use form::{Form, Quote};
pub use shown::shown_byte;
