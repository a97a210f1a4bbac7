//! Why a command of the program fails.

ghost use Rattle.std.specs.Prelude.{◌≡◌};
ghost use Rattle.commands.specs.declared.fault.ProgramFault.TheVariants.{Write, Memory};
ghost use Rattle.commands.specs.Fault.{of_beginning, of_board, of_distances, of_improve, of_league, of_run, of_table};
ghost use Rattle.commands.specs.within.Fault.{of_reading, of_writing};

use byte_streams::{ReadFault, WriteFault};
use fixture_board::BoardFault;
use given_start::BeginFault;
use improvement::ImproveFault;
use league::LeagueFault;
use league_csv::DistanceFault;
use schedule_csv::{RowFault, TableFault};
use search::RunFault;
use std::alloc::AllocError;
use thiserror::Error;

/// Why a command fails. Each text stands behind `ttp: ` on standard error.
#[derive(Clone, Copy, Debug, PartialEq, Error)]
pub enum ProgramFault {
    /// A read failed, or the input took more reads than one input gets.
    #[error("input cannot be read")]
    Read,
    /// The input is longer than any that is read.
    #[error("input is over 4194304 bytes")]
    TooLong,
    /// The input is no league.
    #[error("{0}")]
    League(LeagueFault),
    /// The league doesn't begin at what was given.
    #[error("{0}")]
    Begin(BeginFault),
    /// A row of the table that a report reads gives no game.
    #[error("{0}")]
    Row(RowFault),
    /// The table of distances gives no league.
    #[error("{0}")]
    Distances(DistanceFault),
    /// The input of a report has no line `sheet`.
    #[error("input has no sheet")]
    NoSheet,
    /// The room is over that of any board.
    #[error("room is over 1048576")]
    Room,
    /// The number of workers is none that a search has.
    #[error("workers must be 1 to 16")]
    Workers,
    /// A worker couldn't be started.
    #[error("a worker cannot be started")]
    Spawn,
    /// The accepted proposals of the workers aren't the history's entries.
    #[error("receipts do not add up")]
    Receipts,
    /// A write failed, took no byte or was interrupted too often in a row.
    #[error("output cannot be written")]
    Write,
    /// Memory ran out.
    #[error("out of memory")]
    Memory,
}

impl From<ReadFault> for ProgramFault {
    ghost from_gives = { λ fault gives. gives ≡ of_reading fault };

    fn from(fault: ReadFault) -> ProgramFault {
        match fault {
            ReadFault::Read => ProgramFault::Read,
            ReadFault::TooLong => ProgramFault::TooLong,
            ReadFault::Memory => ProgramFault::Memory,
        }
    }
}

impl From<LeagueFault> for ProgramFault {
    ghost from_gives = { λ fault gives. gives ≡ of_league fault };

    fn from(fault: LeagueFault) -> ProgramFault {
        match fault {
            LeagueFault::Memory => ProgramFault::Memory,
            fault => ProgramFault::League(fault),
        }
    }
}

impl From<BeginFault> for ProgramFault {
    ghost from_gives = { λ fault gives. gives ≡ of_beginning fault };

    fn from(fault: BeginFault) -> ProgramFault {
        match fault {
            BeginFault::Memory => ProgramFault::Memory,
            fault => ProgramFault::Begin(fault),
        }
    }
}

impl From<TableFault> for ProgramFault {
    ghost from_gives = { λ fault gives. gives ≡ of_table fault };

    fn from(fault: TableFault) -> ProgramFault {
        match fault {
            TableFault::Row(row) => ProgramFault::Row(row),
            TableFault::Memory => ProgramFault::Memory,
        }
    }
}

impl From<DistanceFault> for ProgramFault {
    ghost from_gives = { λ fault gives. gives ≡ of_distances fault };

    fn from(fault: DistanceFault) -> ProgramFault {
        match fault {
            DistanceFault::Memory => ProgramFault::Memory,
            fault => ProgramFault::Distances(fault),
        }
    }
}

impl From<BoardFault> for ProgramFault {
    ghost from_gives = { λ fault gives. gives ≡ of_board fault };

    fn from(fault: BoardFault) -> ProgramFault {
        match fault {
            BoardFault::RoomRange => ProgramFault::Room,
            BoardFault::Memory => ProgramFault::Memory,
        }
    }
}

impl From<RunFault> for ProgramFault {
    ghost from_gives = { λ fault gives. gives ≡ of_run fault };

    fn from(fault: RunFault) -> ProgramFault {
        match fault {
            RunFault::Workers => ProgramFault::Workers,
            RunFault::Spawn => ProgramFault::Spawn,
            RunFault::Receipts => ProgramFault::Receipts,
            RunFault::Memory => ProgramFault::Memory,
        }
    }
}

impl From<ImproveFault> for ProgramFault {
    ghost from_gives = { λ fault gives. gives ≡ of_improve fault };

    fn from(fault: ImproveFault) -> ProgramFault {
        match fault {
            ImproveFault::Workers => ProgramFault::Workers,
            ImproveFault::Memory => ProgramFault::Memory,
            ImproveFault::Write => ProgramFault::Write,
        }
    }
}

impl From<WriteFault> for ProgramFault {
    ghost from_gives = { λ _ gives. gives ≡ Write };

    fn from(_fault: WriteFault) -> ProgramFault {
        ProgramFault::Write
    }
}

impl From<AllocError> for ProgramFault {
    ghost from_gives = { λ _ gives. gives ≡ Memory };

    fn from(_error: AllocError) -> ProgramFault {
        ProgramFault::Memory
    }
}

/// The result of a command whose text was to be written: this value, unless a write failed.
pub(crate) fn after_writing<T: Copy>(
    outcome: Result<(), WriteFault>,
    value: T,
) -> Result<T, ProgramFault>
    ensures { result ≡ of_writing outcome value }
{
    match outcome {
        Ok(()) => Ok(value),
        Err(fault) => Err(ProgramFault::from(fault)),
    }
}
