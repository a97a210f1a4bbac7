//! Why a table of distances gives no league.

ghost use Rattle.std.specs.Prelude.{◌≡◌};
ghost use Rattle.league_csv.specs.declared.fault.DistanceFault.TheVariants.{Memory};

use std::alloc::{AllocError, AllocFailed};
use thiserror::Error;

/// The fault of a cell.
#[derive(Clone, Copy, Debug, PartialEq, Eq, Error)]
pub enum DistanceCellFault {
    /// The row ends before it.
    #[error("is not there")]
    Absent,
    /// The row should have ended before it.
    #[error("is one too many")]
    Surplus,
    /// It is neither a whole number nor a decimal.
    #[error("is no number")]
    NoNumber,
    /// It is over the longest distance.
    #[error("is over 1000000")]
    TooFar,
    /// It is the distance of a team to itself, and is neither empty nor 0.
    #[error("is neither empty nor 0")]
    NotZero,
    /// It is not UTF-8, or no name that a league takes.
    #[error("is no name of 1 to 40 bytes")]
    NoName,
    /// The first row has another name at this place.
    #[error("is not the name that the first row has here")]
    OtherName,
}

/// A cell that gives no name and no distance.
#[derive(Clone, Copy, Debug, PartialEq, Eq, Error)]
#[error("row on line {line}: column {column} {why}")]
pub struct PlaceFault {
    /// The number of its line, from 1.
    pub line: u64,
    /// The number of its column, from 1.
    pub column: u64,
    pub why: DistanceCellFault,
}

/// Two teams that are further apart one way than the other.
#[derive(Clone, Copy, Debug, PartialEq, Eq, Error)]
#[error("{from} to {to} is {there}, {to} to {from} is {back}; --symmetric mean or max takes it")]
pub struct Asymmetry {
    /// The numbers of the teams, from 1.
    pub from: u64,
    pub to: u64,
    pub there: u64,
    pub back: u64,
}

/// Why a table of distances gives no league.
#[derive(Clone, Copy, Debug, PartialEq, Eq, Error)]
pub enum DistanceFault {
    /// Each row is empty.
    #[error("table has no row")]
    NoRow,
    /// The first cell that gives no name and no distance.
    #[error("{0}")]
    Cell(PlaceFault),
    /// The first row names too few or too many teams, or an odd number of them.
    #[error("team count must be even, 4 to 40")]
    TeamCount,
    /// The rows end before this team's, by its number from 1.
    #[error("table ends before the row of team {0}")]
    RowsEnd(u64),
    /// Each team has a row above this line, by its number from 1.
    #[error("row on line {0} is one too many")]
    SurplusRow(u64),
    /// The first pair that is further apart one way.
    #[error("{0}")]
    Asymmetric(Asymmetry),
    /// Memory ran out.
    #[error("out of memory")]
    Memory,
}

impl From<AllocError> for DistanceFault {
    ghost from_gives = { λ _ fault. fault ≡ Memory };

    fn from(_error: AllocError) -> DistanceFault {
        DistanceFault::Memory
    }
}

impl<T: Drop> From<AllocFailed<T>> for DistanceFault {
    ghost from_gives = { λ _ fault. fault ≡ Memory };

    fn from(_: AllocFailed<T>) -> DistanceFault {
        DistanceFault::Memory
    }
}
