//! Why a table gives no schedule.

ghost use Rattle.std.specs.Prelude.{◌≡◌};
ghost use Rattle.schedule_csv.specs.declared.fault.TableFault.TheVariants.{Memory, Row};

use std::alloc::AllocError;
use thiserror::Error;

/// A column that is read.
#[derive(Clone, Copy, Debug, PartialEq, Eq, Error)]
pub enum Column {
    #[error("round")]
    Round,
    #[error("home")]
    Home,
    #[error("away")]
    Away,
}

/// The fault of a cell.
#[derive(Clone, Copy, Debug, PartialEq, Eq, Error)]
pub enum CellFault {
    /// The row ends before it.
    #[error("is not there")]
    Absent,
    /// The round is no number.
    #[error("is no number")]
    NoNumber,
    /// It is neither a number nor the name of a team.
    #[error("is no team of the league")]
    NoTeam,
    /// It is a name that more than one team has.
    #[error("is the name of two teams")]
    TwoTeams,
}

/// A row that gives no game.
#[derive(Clone, Copy, Debug, PartialEq, Eq, Error)]
#[error("row on line {line}: \"{column}\" {why}")]
pub struct RowFault {
    /// The number of its line, from 1.
    pub line: u64,
    pub column: Column,
    pub why: CellFault,
}

/// Why a table gives no schedule.
#[derive(Clone, Copy, Debug, PartialEq, Eq, Error)]
pub enum TableFault {
    /// The first row that gives no game.
    #[error("{0}")]
    Row(RowFault),
    /// Memory ran out.
    #[error("out of memory")]
    Memory,
}

impl From<AllocError> for TableFault {
    ghost from_gives = { λ _ fault. fault ≡ Memory };

    fn from(_error: AllocError) -> TableFault {
        TableFault::Memory
    }
}

impl From<RowFault> for TableFault {
    ghost from_gives = { λ row fault. fault ≡ Row row };

    fn from(fault: RowFault) -> TableFault {
        TableFault::Row(fault)
    }
}
