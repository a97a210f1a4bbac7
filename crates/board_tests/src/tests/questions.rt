//! Questions to a board, in few words. Teams and rounds count from 1, if nothing else is said.

ghost use Rattle.std.specs.Prelude.{◌≡◌};

use fixture_board::{Ask, Board, Proposal, Reply};
use fixtures::Game;
use moves::Move;
use shared_board::{Seat, Shared};
use std::sync::Wait;

/// A game of a round and teams that count from 0.
pub(crate) const fn game_from_0(round: u8, home: u8, away: u8) -> Game {
    Game { round, home, away }
}

pub(crate) fn game(round: u8, home: u8, away: u8) -> Game {
    Game {
        round: round.saturating_sub(1),
        home: home.saturating_sub(1),
        away: away.saturating_sub(1),
    }
}

pub(crate) fn homes(i: u8, j: u8) -> Move {
    Move::Homes {
        i: i.saturating_sub(1),
        j: j.saturating_sub(1),
    }
}

pub(crate) fn rounds(k: u8, l: u8) -> Move {
    Move::Rounds {
        k: k.saturating_sub(1),
        l: l.saturating_sub(1),
    }
}

pub(crate) fn teams(i: u8, j: u8) -> Move {
    Move::Teams {
        i: i.saturating_sub(1),
        j: j.saturating_sub(1),
    }
}

/// To make the move at this version, without a claim, however much worse it is.
pub(crate) fn at_any_cost(version: u64, mv: Move) -> Ask {
    propose(version, mv, None, u64::MAX)
}

pub(crate) fn propose(version: u64, mv: Move, claim: Option<u64>, slack: u64) -> Ask {
    Ask::Shift(Proposal {
        version,
        mv,
        claim,
        slack,
    })
}

/// A question at a version. Teams and rounds count from 0.
#[derive(Clone, Copy)]
pub(crate) enum Asked {
    /// The version, the move, the claim and the slack.
    Shift(u64, Move, Option<u64>, u64),
    /// The version, and the round, home and away of the game.
    Pin(u64, u8, u8, u8),
    Unpin(u64, u8, u8, u8),
    Undo(u64),
}

impl Asked {
    pub(crate) fn ask(self) -> Ask {
        match self {
            Asked::Shift(version, mv, claim, slack) => propose(version, mv, claim, slack),
            Asked::Pin(version, round, home, away) => pin_from_0(version, round, home, away),
            Asked::Unpin(version, round, home, away) => unpin_from_0(version, round, home, away),
            Asked::Undo(version) => Ask::Undo { version },
        }
    }
}

/// To pin a game of a round and teams that count from 0.
pub(crate) fn pin_from_0(version: u64, round: u8, home: u8, away: u8) -> Ask {
    let game = game_from_0(round, home, away);
    Ask::Pin { version, game }
}

/// To unpin a game of a round and teams that count from 0.
pub(crate) fn unpin_from_0(version: u64, round: u8, home: u8, away: u8) -> Ask {
    let game = game_from_0(round, home, away);
    Ask::Unpin { version, game }
}

/// Asks by the call that it stands for.
pub(crate) fn ask_board(board: &mut Board, caller: u32, ask: Ask) -> Reply {
    match ask {
        Ask::Shift(proposal) => board.propose(caller, proposal),
        Ask::Pin { version, game } => board.pin(caller, version, game),
        Ask::Unpin { version, game } => board.unpin(caller, version, game),
        Ask::Undo { version } => board.undo(caller, version),
    }
}

/// Asks through a seat. A caller's proof knows no more of the seat after it than whose it is, which keeps that short.
pub(crate) fn ask_seat<R: Wait>(rt: &R, shared: &Shared, seat: &mut Seat, ask: Ask) -> Reply
    requires { seat.old.table ≡ shared.now }
    ensures { seat.new.table ≡ shared.now }
{
    match ask {
        Ask::Shift(proposal) => shared.propose(rt, seat, proposal),
        Ask::Pin { version, game } => shared.pin(rt, seat, version, game),
        Ask::Unpin { version, game } => shared.unpin(rt, seat, version, game),
        Ask::Undo { version } => shared.undo(rt, seat, version),
    }
}
