//! Answers and looks of boards, in few words.

use costs::Cost;
use fixture_board::{Best, Board, Reply, Seen, Why};
use fixtures::Schedule;
use std::process::Abort;
use tours::travel_of;

/// A cost without a breach of a rule.
pub(crate) fn cost(travel: u64, hard: u64, soft: u64) -> Cost {
    Cost {
        travel,
        hard,
        of_rules: 0,
        soft,
    }
}

/// The answer.
#[derive(Clone, Copy)]
pub(crate) enum Answer {
    /// The version, the travel and the hard breaches, none of a rule, with no soft cost.
    Done(u64, u64, u64),
    /// The version, and a cost that may be soft.
    Cost(u64, Cost),
    /// The version, the travel and the soft cost, with no breach.
    Soft(u64, u64, u64),
    /// The version.
    No(u64, Why),
}

impl Answer {
    pub(crate) fn reply(self) -> Reply {
        let (at, cost) = match self {
            Answer::Done(at, travel, hard) => (at, cost(travel, hard, 0)),
            Answer::Cost(at, cost) => (at, cost),
            Answer::Soft(at, travel, soft) => (at, cost(travel, 0, soft)),
            Answer::No(at, why) => return Reply::No { at, why },
        };
        Reply::Done { at, cost }
    }
}

pub(crate) fn best(at: u64, total: u64) -> Option<Best> {
    Some(Best { at, total })
}

/// A version that costs nothing but travel.
pub(crate) fn seen(version: u64, travel: u64) -> Seen {
    let cost = cost(travel, 0, 0);
    Seen { version, cost }
}

/// Whether the game of two teams, which count from 1, is pinned.
pub(crate) fn is_pinned(rt: &impl Abort, board: &Board, home: u8, away: u8) -> bool {
    let (home, away) = (home.saturating_sub(1), away.saturating_sub(1));
    let teams = board.league().teams();
    assert!(rt; home < teams && away < teams && home != away);
    board.is_pinned(home, away)
}

/// The round, from 1, of the game of two teams, which count from 1.
pub(crate) fn round_of(rt: &impl Abort, schedule: &Schedule, home: u8, away: u8) -> u8 {
    let (home, away) = (home.saturating_sub(1), away.saturating_sub(1));
    let teams = schedule.teams();
    assert!(rt; home < teams && away < teams && home != away);
    schedule.round_of(home, away) + 1
}

/// How far each of the four teams travels.
pub(crate) fn travels(rt: &impl Abort, board: &Board) -> [u64; 4] {
    let (schedule, league) = (board.schedule(), board.league());
    assert!(rt; schedule.teams() == 4 && league.teams() == 4);
    [
        travel_of(schedule, league, 0),
        travel_of(schedule, league, 1),
        travel_of(schedule, league, 2),
        travel_of(schedule, league, 3),
    ]
}
