//! The most that may be asked for.

/// The greatest room of a board.
pub const MAX_ROOM: u32 = 1_048_576;

/// The most workers of a run.
pub const MAX_WORKERS: u32 = 16;
