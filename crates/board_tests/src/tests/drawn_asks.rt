//! Questions to a board, drawn as `scripts/oracle starts` does.

use crate::tests::drawn_numbers::{among, drawn, drawn_move};
use crate::tests::questions::{pin_from_0, propose, unpin_from_0};
use fixture_board::{Ask, Board};
use fixtures::Schedule;

/// The round of the game of the pair, or 0 if it is none.
fn round_where(schedule: &Schedule, home: u8, away: u8) -> u8 {
    let teams = schedule.teams();
    if home < teams && away < teams && home != away {
        schedule.round_of(home, away)
    } else {
        0
    }
}

/// To make a move without slack, with some or whatever it costs.
fn drawn_shift(version: u64, state: &mut u64, teams: u8) -> Ask {
    let mv = drawn_move(state, teams);
    let slack = among(state, &[0, 200, u64::MAX]);
    propose(version, mv, None, slack)
}

/// An undo in one of sixteen cases, a pin or an unpin in three, and otherwise a move.
pub(crate) fn drawn_ask(board: &Board, state: &mut u64) -> Ask {
    let (version, schedule) = (board.version(), board.schedule());
    let (teams, rounds) = (schedule.teams(), schedule.rounds());
    let kind = drawn(state, 16);
    if kind == 0 {
        return Ask::Undo { version };
    }
    if kind > 3 {
        return drawn_shift(version, state, teams);
    }
    let (home, away) = (drawn(state, teams), drawn(state, teams));
    let round = if kind == 3 {
        drawn(state, rounds)
    } else {
        round_where(schedule, home, away)
    };
    if kind == 1 {
        pin_from_0(version, round, home, away)
    } else {
        unpin_from_0(version, round, home, away)
    }
}
