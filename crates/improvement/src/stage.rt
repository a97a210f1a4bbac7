//! The present wave: its bouts, and the chains that come out of it.

ghost use Rattle.std.specs.Prelude.{◌≡◌, ◌<◌, nat_lt, if◌then◌else◌, [], Some, None, IfOk, OnOk};
ghost use Rattle.improvement.specs.within.Fields.{after_bout, at_best, beginning_of, chain_for, entering, passing, stage_data};

use crate::field::{Entrant, EntrantField};
use annealing::Chain;
use fixture_board::Board;
use policy::{LegSource, Wave};
use std::alloc::{AllocError, Global};
use std::marker::Model;
use std::mem;

/// The present wave.
#[derive(Drop)]
pub(crate) struct Stage {
    wave: Wave,
    /// How many of its bouts have begun or were passed over.
    begun: u32,
    /// The chains of the field before it that none of these had.
    before: EntrantField,
    /// The chains whose bouts have ended.
    field: EntrantField,
    /// How many chains there were in all.
    chains: u64,
}

impl Model for Stage {
    ghost use Rattle.improvement.specs.within.Fields.{StageData, stage_data};

    ghost Value = { StageData };

    ghost view = { λ s. stage_data s.wave s.begun s.before.entrants.items s.field.entrants.items s.chains };
}

/// With what a leg begins.
#[derive(Drop)]
pub(crate) struct LegBeginning {
    /// The number of its chain.
    pub(crate) chain: u64,
    /// The weight of the chain.
    pub(crate) weight: u64,
    /// The board of the chain. None stands for a new one, which is made only when the leg begins to run.
    pub(crate) board: Option<Board>,
}

impl LegBeginning {
    /// At the best version of a chain, or at its last one if none is feasible.
    pub(crate) fn at_best(entrant: Entrant) -> Self
        ensures { result ≡ at_best entrant }
    {
        let Entrant { number, chain } = entrant;
        let Chain { mut board, weight } = chain;
        board.rewind_to_best();
        LegBeginning {
            chain: number,
            weight,
            board: Some(board),
        }
    }
}

impl Stage {
    /// Before the first wave.
    pub(crate) fn none(alloc: Global) -> Self
        ensures before { result.before ≡ [] }
        ensures field { result.field ≡ [] }
    {
        let wave = Wave {
            source: LegSource::Start,
            bouts: 0,
            keep: 0,
        };
        Stage {
            wave,
            begun: 0,
            before: EntrantField::new(alloc),
            field: EntrantField::new(alloc),
            chains: 0,
        }
    }

    /// Goes on to the next wave.
    pub(crate) fn begin(&mut self, alloc: Global, wave: Wave)
        ensures { self.new ≡ stage_data wave 0 self.old.field [] self.old.chains }
    {
        self.wave = wave;
        self.begun = 0;
        self.before = mem::replace(&mut self.field, EntrantField::new(alloc));
    }

    /// The number of the next bout, if there is one.
    pub(crate) fn bout(&self) -> Option<u32>
        ensures { result ≡ (if nat_lt self.now.begun self.now.wave.bouts then Some self.now.begun else None) }
    {
        if self.begun < self.wave.bouts {
            Some(self.begun)
        } else {
            None
        }
    }

    /// Has the next bout begin. A new chain has this weight.
    pub(crate) fn begin_bout(
        &mut self,
        alloc: Global,
        weight: u64,
    ) -> Result<LegBeginning, AllocError>
        requires { self.old.begun < self.old.wave.bouts }
        ensures beginning { IfOk result (λ b. b ≡ beginning_of self.old weight (chain_for self.old.wave.source self.old.before)) }
        ensures stage { OnOk result (self.new ≡ after_bout self.old (chain_for self.old.wave.source self.old.before)) }
    {
        self.begun += 1;
        let chain = match self.wave.source {
            LegSource::Start => None,
            LegSource::Own => self.before.entrants.pop_front(),
            LegSource::Copies => self.before.copy_of_first(alloc)?,
        };
        if let Some(entrant) = chain {
            return Ok(LegBeginning::at_best(entrant));
        }
        self.chains = self.chains.wrapping_add(1);
        Ok(LegBeginning {
            chain: self.chains,
            weight,
            board: None,
        })
    }

    /// Passes over the next bout. A chain that is to go on does so as it is.
    pub(crate) fn pass_bout(&mut self) -> Result<(), AllocError>
        requires { self.old.begun < self.old.wave.bouts }
        ensures { OnOk result (self.new ≡ passing self.old (chain_for self.old.wave.source self.old.before)) }
    {
        prove!(self.begun < self.wave.bouts);
        self.begun += 1;
        if self.wave.source != LegSource::Own {
            return Ok(());
        }
        match self.before.entrants.pop_front() {
            Some(entrant) => self.field.enter(entrant, self.wave.keep),
            None => Ok(()),
        }
    }

    /// Takes in a chain whose bout has ended.
    pub(crate) fn end_bout(&mut self, entrant: Entrant) -> Result<(), AllocError>
        ensures { OnOk result (self.new ≡ entering entrant self.old) }
    {
        self.field.enter(entrant, self.wave.keep)
    }
}
