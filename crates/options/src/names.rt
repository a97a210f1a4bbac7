//! The names that a word can have.

use std::fmt;

/// All names that an option takes.
#[derive(Clone, Copy)]
pub(crate) struct Names {
    pub(crate) all: &'static [&'static str],
}

/// Writes them as `',', ';', tab`: those of one byte in quotes.
impl fmt::Display for Names {
    fn fmt<W: fmt::Write>(&self, f: &mut fmt::Formatter<W>) -> fmt::Result {
        let mut before = "";
        for name in self.all {
            let quote = if name.len() == 1 { "'" } else { "" };
            write!(f, "{before}{quote}{name}{quote}")?;
            before = ", ";
        }
        Ok(())
    }
}
