//! Why boards don't begin where they are to.

ghost use Rattle.std.specs.Prelude.{◌≡◌};
ghost use Rattle.given_start.specs.declared.fault.BeginFault.TheVariants.{Memory};
ghost use Rattle.given_start.specs.Begun.{of_table};

use schedule_csv::{RowFault, TableFault};
use std::alloc::AllocError;
use thiserror::Error;

/// Why boards don't begin where they are to. The first one of these is told.
#[derive(Clone, Copy, Debug, PartialEq, Eq, Error)]
pub enum BeginFault {
    /// A row of the table gives no game.
    #[error("{0}")]
    Row(RowFault),
    /// The last sheet of the text has no line whose first word is `round`.
    #[error("no line \"round R: H-A\"")]
    NoRound,
    /// The sheet gives no double round robin of the league's teams.
    #[error("no double round robin")]
    NotRoundRobin,
    /// A round is to be kept that the season doesn't have.
    #[error("a round to keep is none of the season")]
    RoundRange,
    /// A game is to be kept that isn't between two teams of the league.
    #[error("a game to keep is none of the league")]
    GameRange,
    /// Memory ran out.
    #[error("out of memory")]
    Memory,
}

impl From<AllocError> for BeginFault {
    ghost from_gives = { λ _ fault. fault ≡ Memory };

    fn from(_error: AllocError) -> Self {
        BeginFault::Memory
    }
}

impl From<TableFault> for BeginFault {
    ghost from_gives = { λ fault gives. gives ≡ of_table fault };

    fn from(fault: TableFault) -> Self {
        match fault {
            TableFault::Row(row) => BeginFault::Row(row),
            TableFault::Memory => BeginFault::Memory,
        }
    }
}
