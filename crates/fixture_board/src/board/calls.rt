//! The calls of a board.

ghost use Rattle.std.specs.Prelude.{◌≡◌};
ghost use Rattle.costs.specs.Costs.{AreWeights};
ghost use Rattle.fixture_board.specs.History.{IsLegal};
ghost use Rattle.fixture_board.specs.Record.{book};
ghost use Rattle.fixture_board.specs.Replies.{next_of, reply_of};
ghost use Rattle.fixture_board.specs.Rewound.{rewound};
ghost use Rattle.fixture_board.specs.Trials.{trial_cost, trial_history};

use crate::ask::{Ask, Proposal};
use crate::board::Board;
use crate::change::{Change, Entry};
use crate::reply::Reply;
use crate::trial::Trial;
use costs::Cost;
use fixtures::Game;

impl Board {
    /// Makes the move if nothing speaks against it. Refused, in this order: Ahead, Full, BadMove, Meet, Pinned,
    /// WrongClaim, Worse. A proposal for an old version is judged as one for the version that there is, but for its
    /// claim, which is ignored.
    pub fn propose(&mut self, caller: u32, proposal: Proposal) -> Reply
        ensures reply { result ≡ reply_of self.old.league self.old.room self.old.history (Ask.Shift proposal) }
        ensures history { self.new ≡ book self.old.league self.old.room
            (next_of self.old.league self.old.room self.old.history caller (Ask.Shift proposal)) }
        ensures legal { IsLegal self.old.league self.old.room self.old.history }
    {
        self.answer(caller, Ask::Shift(proposal))
    }

    /// Tells what `propose` would answer. Nothing changes.
    pub fn would_answer(&mut self, proposal: Proposal) -> Reply
        ensures reply { result ≡ reply_of self.old.league self.old.room self.old.history (Ask.Shift proposal) }
        ensures same { self.new ≡ self.old }
    {
        let at = self.state.version();
        let cost = match self.state.would_shift(&self.league, proposal) {
            Ok(cost) => cost,
            Err(why) => return Reply::No { at, why },
        };
        Reply::Done { at: at + 1, cost }
    }

    /// Pins a game to its round. Refused, in this order: Ahead, Old, Full, BadGame, NotThere, AlreadyPinned.
    pub fn pin(&mut self, caller: u32, version: u64, game: Game) -> Reply
        ensures reply { result ≡ reply_of self.old.league self.old.room self.old.history (Ask.Pin version game) }
        ensures history { self.new ≡ book self.old.league self.old.room
            (next_of self.old.league self.old.room self.old.history caller (Ask.Pin version game)) }
        ensures legal { IsLegal self.old.league self.old.room self.old.history }
    {
        self.answer(caller, Ask::Pin { version, game })
    }

    /// Lets a pinned game get another round again. Refused, in this order: Ahead, Old, Full, BadGame, NotThere,
    /// NotPinned.
    pub fn unpin(&mut self, caller: u32, version: u64, game: Game) -> Reply
        ensures reply { result ≡ reply_of self.old.league self.old.room self.old.history (Ask.Unpin version game) }
        ensures history { self.new ≡ book self.old.league self.old.room
            (next_of self.old.league self.old.room self.old.history caller (Ask.Unpin version game)) }
        ensures legal { IsLegal self.old.league self.old.room self.old.history }
    {
        self.answer(caller, Ask::Unpin { version, game })
    }

    /// Drops the last change in effect, whoever made it. Refused, in this order: Ahead, Old, Full, NothingToUndo.
    pub fn undo(&mut self, caller: u32, version: u64) -> Reply
        ensures reply { result ≡ reply_of self.old.league self.old.room self.old.history (Ask.Undo version) }
        ensures history { self.new ≡ book self.old.league self.old.room
            (next_of self.old.league self.old.room self.old.history caller (Ask.Undo version)) }
        ensures legal { IsLegal self.old.league self.old.room self.old.history }
    {
        self.answer(caller, Ask::Undo { version })
    }

    /// Goes back to the best version, if there is one: the later entries are forgotten.
    pub fn rewind_to_best(&mut self)
        ensures { self.new ≡ book self.old.league self.old.room (rewound self.old.league self.old.history) }
    {
        self.state.rewind(&self.league);
    }

    /// Answers what is asked, as the call that it stands for.
    pub fn answer(&mut self, caller: u32, ask: Ask) -> Reply
        ensures reply { result ≡ reply_of self.old.league self.old.room self.old.history ask }
        ensures history { self.new ≡ book self.old.league self.old.room
            (next_of self.old.league self.old.room self.old.history caller ask) }
        ensures legal { IsLegal self.old.league self.old.room self.old.history }
    {
        let at = self.state.version();
        if let Err(why) = self.state.step(&self.league, ask) {
            return Reply::No { at, why };
        }
        let change = ask.change();
        self.state.enter(Entry { caller, change });
        Reply::Done {
            at: self.state.version(),
            cost: self.state.cost,
        }
    }

    /// Makes the move if there is room, nothing speaks against it, no pinned game gets another round, and the score by the trial's weights
    /// rises by no more than the trial lets it. Gives the cost after it, or None if it isn't made.
    pub fn try_move(&mut self, caller: u32, trial: Trial) -> Option<Cost>
        requires { AreWeights trial.weights }
        ensures cost { result ≡ trial_cost self.old.league self.old.room self.old.history trial }
        ensures history { self.new ≡ book self.old.league self.old.room
            (trial_history self.old.league self.old.room self.old.history caller trial) }
        ensures legal { IsLegal self.old.league self.old.room self.old.history }
    {
        let cost = self.state.try_move(&self.league, trial)?;
        let change = Change::Shift(trial.mv);
        self.state.enter(Entry { caller, change });
        Some(cost)
    }
}
