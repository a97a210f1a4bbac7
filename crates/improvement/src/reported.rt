//! The results of all legs that were reported.

ghost use Rattle.std.specs.Prelude.{◌≡◌, ◌+◌, ◌^◌, ◌<◌, if◌then◌else◌, [], Some, None, IfOk, OnOk, option_map};
ghost use Rattle.fixture_board.specs.Record.{book};
ghost use Rattle.improvement.specs.Chains.{offered, reached};
ghost use Rattle.improvement.specs.Legs.{least_in, lesser};
ghost use Rattle.improvement.specs.within.Legs.{lead_after};
ghost use Rattle.improvement.specs.within.UnderWay.{HasReported};
ghost use Rattle.improvement.specs.Watched.{takes_lead};

use crate::chains::Chains;
use crate::standing::Standing;
use fixture_board::Board;
use std::alloc::{AllocError, Global};

/// The results of the legs that were reported.
#[derive(Drop)]
pub(crate) struct Reported {
    /// A board with the history that leads.
    pub(crate) lead: Board,
    /// The least total of all legs.
    pub(crate) least: Option<u64>,
    /// How many there were.
    pub(crate) legs: u64,
    /// The best schedules of their chains.
    pub(crate) chains: Chains,
}

impl Reported {
    /// Before the first leg, on boards like this one.
    pub(crate) fn none(alloc: Global, start: &Board) -> Result<Self, AllocError>
        ensures { IfOk result (HasReported start.now []) }
    {
        Ok(Reported {
            lead: start.anew(alloc)?,
            least: None,
            legs: 0,
            chains: Chains::new(alloc),
        })
    }

    /// Takes in the history of one more leg of this chain, and tells whether it leads now.
    pub(crate) fn offer(
        &mut self,
        alloc: Global,
        chain: u64,
        board: &Board,
    ) -> Result<bool, AllocError>
        requires legs { self.old.legs + 1 < 2 ^ 64 }
        requires league { board.now.league ≡ self.old.lead.league }
        requires room { board.now.room ≡ self.old.lead.room }
        ensures lead { OnOk result (self.new.lead ≡ book self.old.lead.league self.old.lead.room
            (lead_after self.old.lead.league self.old.legs self.old.lead.history board.now.history)) }
        ensures least { OnOk result (self.new.least ≡
            lesser self.old.least (least_in self.old.lead.league board.now.history)) }
        ensures legs { OnOk result (self.new.legs ≡ self.old.legs + 1) }
        ensures chains { OnOk result (self.new.chains.bests.items ≡
            offered (reached chain self.old.lead.league board.now.history) self.old.chains.bests.items) }
        ensures improves { IfOk result (λ improves. improves ≡
            takes_lead self.old.lead.league self.old.legs self.old.lead.history board.now.history) }
    {
        let improves = lead_on(&mut self.lead, alloc, self.legs, board)?;
        self.chains.offer(alloc, chain, board)?;
        self.least = lesser(self.least, board.best().map(|best| best.total));
        self.legs += 1;
        Ok(improves)
    }

    /// The board with the history that leads, if it is wanted.
    pub(crate) fn lead_if(&self, wanted: bool) -> Option<&Board>
        ensures { option_map (λ board. board.now) result ≡ (if wanted then Some self.now.lead else None) }
    {
        if wanted { Some(&self.lead) } else { None }
    }
}

/// Has the history of one more leg lead, if it is better than the one that leads after so many legs. Tells whether it is.
fn lead_on(
    lead: &mut Board,
    alloc: Global,
    reported: u64,
    board: &Board,
) -> Result<bool, AllocError>
    requires league { board.now.league ≡ lead.old.league }
    requires room { board.now.room ≡ lead.old.room }
    ensures lead { OnOk result (lead.new ≡ book lead.old.league lead.old.room
        (lead_after lead.old.league reported lead.old.history board.now.history)) }
    ensures improves { IfOk result (λ improves. improves ≡
        takes_lead lead.old.league reported lead.old.history board.now.history) }
{
    if reported > 0 && !Standing::of(board).improves(Standing::of(lead)) {
        return Ok(false);
    }
    *lead = board.duplicate(alloc)?;
    lead.rewind_to_best();
    Ok(true)
}

/// The lesser of two totals, if there are any.
fn lesser(a: Option<u64>, b: Option<u64>) -> Option<u64>
    ensures { result ≡ lesser a b }
{
    match (a, b) {
        (Some(x), Some(y)) => Some(x.min(y)),
        (Some(x), None) => Some(x),
        (None, _) => b,
    }
}
