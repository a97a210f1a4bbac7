//! The hint on a league's text that is refused.

ghost use Rattle.std.specs.Prelude.{◌≡◌, IfOk};
ghost use Rattle.commands.specs.Hinted.{behind, IsAdvice};

use league::LeagueFault;
use league_hints::Hint;
use std::alloc::{AllocError, Global};
use text_lines::line_ending_with;
use thiserror::Error;

/// Why a text is no league, with the hint on it if there is one.
#[derive(Clone, Copy, Debug, Error)]
pub enum LeagueRefusal {
    #[error("{0}")]
    Bare(LeagueFault),
    /// The hint is a second line.
    #[error("{0}\nttp: {1}")]
    Hinted(LeagueFault, Hint),
}

/// Where a league's text has this fault, as [`league_hints::hint_on`] tells, or where a script or a sheet begins behind its last brace, and not on
/// a line of its own: then what stands before is right perhaps.
pub fn hint_on(alloc: Global, text: &[u8], fault: LeagueFault) -> Result<Option<Hint>, AllocError>
    ensures { IfOk result (IsAdvice text.now fault) }
{
    if fault != LeagueFault::NotJson {
        return league_hints::hint_on(alloc, text, fault);
    }
    match behind(text) {
        Some(hint) => Ok(Some(hint)),
        None => league_hints::hint_on(alloc, text, fault),
    }
}

/// The first line on which such a word stands behind a brace.
fn behind(text: &[u8]) -> Option<Hint>
    ensures { result ≡ behind text.now }
{
    match line_ending_with(text, b"}script") {
        Some(line) => Some(Hint::ScriptBehind(line)),
        None => line_ending_with(text, b"}sheet").map(Hint::SheetBehind),
    }
}
