//! A door to a board of its own.

use crate::Door;
use fixture_board::{Board, Proposal, Reply, Seen};
use fixtures::Schedule;
use std::sync::Wait;

/// A door to a board that nobody else changes.
#[derive(Drop)]
pub struct OwnDoor {
    /// The board.
    pub board: Board,
    /// The number of the caller.
    pub caller: u32,
    /// How many of its proposals were granted.
    pub dones: u64,
}

impl Door for OwnDoor {
    ghost use Rattle.std.specs.Prelude.{◌≡◌, ◌+◌, ◌^◌, ◌<◌, length};
    ghost use Rattle.std.proofs.Common.{refl, sym, ◌∙◌};
    ghost use Rattle.fixture_board.specs.declared.ask.Ask.TheVariants.{Shift};
    ghost use Rattle.fixture_board.specs.History.{IsLegal, cost_at, games_of};
    ghost use Rattle.fixture_board.specs.Record.{book};
    ghost use Rattle.fixture_board.specs.Replies.{next_of, reply_of};
    ghost use Rattle.fixture_board.specs.Looks.{copied};
    ghost use Rattle.search.specs.Doors.{done_count};

    ghost stays = { λ d e. (d.caller ≡ e.caller) × (d.board.league ≡ e.board.league) × (d.board.room ≡ e.board.room) };

    ghost granted = { λ d. d.dones };

    ghost seen = { λ d. d.board.history };

    ghost may_have = { λ d league room. (league ≡ d.board.league) × (room ≡ d.board.room) };

    ghost caller = { λ d. d.caller };

    ghost stays_same = { λ d. (refl, refl, refl) };

    ghost stays_then = { λ a b c p q. (p.0 ∙ q.0, p.1 ∙ q.1, p.2 ∙ q.2) };

    ghost stays_caller = { λ a b p. p.0 };

    ghost stays_boards = { λ a b p league room. (λ h. (h.0 ∙ p.1, h.1 ∙ p.2), λ h. (h.0 ∙ sym p.1, h.1 ∙ sym p.2)) };

    fn look<R: Wait>(&mut self, _rt: &R, copy: &mut Schedule) -> Seen
        ensures version { result.version ≡ length self.old.board.history }
        ensures cost { result.cost ≡ cost_at self.old.board.league self.old.board.history }
        ensures copy { copy.new ≡ copied copy.old (games_of self.old.board.league self.old.board.history) }
        ensures same { self.new ≡ self.old }
        ensures legal { IsLegal self.old.board.league self.old.board.room self.old.board.history }
    {
        self.board.look(copy)
    }

    fn propose<R: Wait>(&mut self, _rt: &R, proposal: Proposal) -> Reply
        requires { self.old.dones < 2 ^ 63 }
        ensures reply { result ≡ reply_of self.old.board.league self.old.board.room self.old.board.history (Shift proposal) }
        ensures board { self.new.board ≡ book self.old.board.league self.old.board.room
            (next_of self.old.board.league self.old.board.room self.old.board.history self.old.caller (Shift proposal)) }
        ensures legal { IsLegal self.old.board.league self.old.board.room self.old.board.history }
        ensures caller { self.new.caller ≡ self.old.caller }
        ensures counted { self.new.dones ≡ self.old.dones + done_count result }
    {
        let reply = self.board.propose(self.caller, proposal);
        if let Reply::Done { .. } = reply {
            self.dones += 1;
        }
        reply
    }

    fn front<R: Wait>(&mut self, _rt: &R) -> u64
        ensures same { self.new ≡ self.old }
        ensures length { result ≡ length self.old.board.history }
    {
        self.board.version()
    }

    fn dones(&self) -> u64 {
        self.dones
    }
}
