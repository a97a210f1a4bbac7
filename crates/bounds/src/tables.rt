//! The memory in which a bound is found.

ghost use Rattle.std.specs.Prelude.{◌≡◌, vec_len};
ghost use Rattle.sets.specs.Limits.{max_teams};
ghost use Rattle.bounds.specs.within.Lengths.{table_length};

use crate::labels::Label;
use crate::limits::{ENTRIES, NO_WALK, ROW};
use std::alloc::{AllocError, Global};

/// What is written anew for each list of prices.
#[derive(Drop)]
pub(crate) struct Tables {
    /// The shortened legs, by where they lead and then by where they come from.
    pub(crate) legs: Vec<u64>,
    /// The labels of walks, by games and then by where they end.
    pub(crate) labels: Vec<Label>,
    /// The least length of a trip, by games.
    pub(crate) trips: Vec<u64>,
    /// That of trips with so many games together.
    pub(crate) tours: Vec<u64>,
    ghost legs_len: { vec_len legs ≡ table_length },
    ghost labels_len: { vec_len labels ≡ table_length },
    ghost trips_len: { vec_len trips ≡ max_teams },
    ghost tours_len: { vec_len tours ≡ max_teams },
}

impl Tables {
    pub(crate) fn new(alloc: Global) -> Result<Self, AllocError> {
        Ok(Tables {
            legs: vec![in alloc; 0; ENTRIES]?,
            labels: vec![in alloc; Label::blank(); ENTRIES]?,
            trips: vec![in alloc; NO_WALK; ROW]?,
            tours: vec![in alloc; NO_WALK; ROW]?,
        })
    }
}
