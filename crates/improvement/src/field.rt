//! The chains that go on from one wave to the next.

ghost use Rattle.std.specs.Prelude.{◌≡◌, [], take, slice_get, IfOk, OnOk};
ghost use Rattle.std.specs.List.{position_or_len};
ghost use Rattle.improvement.specs.within.Fields.{is_before, ranked};

use crate::standing::Standing;
use annealing::Chain;
use std::alloc::{AllocError, Global};
use std::collections::VecDeque;

/// A chain, and its number.
#[derive(Drop)]
pub(crate) struct Entrant {
    pub(crate) number: u64,
    pub(crate) chain: Chain,
}

/// Chains, the best one first.
#[derive(Drop)]
pub(crate) struct EntrantField {
    pub(crate) entrants: VecDeque<Entrant>,
}

impl EntrantField {
    pub(crate) fn new(alloc: Global) -> Self
        ensures { result.entrants.items ≡ [] }
    {
        EntrantField {
            entrants: VecDeque::new(alloc),
        }
    }

    /// Has a chain enter at its rank, and keeps so many of the best.
    pub(crate) fn enter(&mut self, entrant: Entrant, keep: u32) -> Result<(), AllocError>
        ensures { OnOk result (self.new.entrants.items ≡ take keep (ranked entrant self.old.entrants.items)) }
    {
        let rank = self.rank_of(&entrant);
        self.entrants.insert(rank, entrant)?;
        self.entrants.truncate(keep as usize);
        Ok(())
    }

    /// How many chains stand before the first one that this one is better than.
    fn rank_of(&self, entrant: &Entrant) -> usize
        ensures { result ≡ position_or_len (is_before entrant.now) self.now.entrants.items }
    {
        let standing = Standing::of(&entrant.chain.board);
        self.entrants
            .iter()
            .position(|other| standing.improves(Standing::of(&other.chain.board)))
            .unwrap_or(self.entrants.len())
    }

    /// A copy of the first chain, if there is one.
    pub(crate) fn copy_of_first(&self, alloc: Global) -> Result<Option<Entrant>, AllocError>
        ensures { IfOk result (λ copy. copy ≡ slice_get self.now.entrants.items 0) }
    {
        let Some(first) = self.entrants.front() else {
            return Ok(None);
        };
        let chain = Chain {
            board: first.chain.board.duplicate(alloc)?,
            weight: first.chain.weight,
        };
        let number = first.number;
        Ok(Some(Entrant { number, chain }))
    }
}
