//! The steps that reads and writes of std come to.
ghost use Rattle.std.specs.Prelude.{◌≡◌};
ghost use Rattle.byte_streams.specs.within.Ends.{step_of_answer};

use super::ends::Step;
use std::io;
use std::io::ErrorKind;

/// The step of an end whose reader or writer answers this.
pub(crate) fn step_of(answer: &io::Result<usize>) -> Step
    ensures { result ≡ step_of_answer answer.now }
{
    match answer {
        Ok(count) => Step::Moved(*count),
        Err(error) => match error.kind() {
            ErrorKind::Interrupted => Step::Again,
            _ => Step::Failed,
        },
    }
}
