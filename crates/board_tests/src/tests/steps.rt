//! Steps with a board and looks at it, one after the other, in tables. A table costs a proof nothing.

use crate::tests::answers::{Answer, best, cost};
use crate::tests::boards::{board_of, board_with};
use crate::tests::checks::{
    check_ask, check_best, check_best_round, check_cost, check_entry, check_no_best_schedule,
    check_pinned, check_round, check_same, check_travels, check_version,
};
use crate::tests::questions::{Asked, at_any_cost, game, homes, rounds, teams};
use fixture_board::{Ask, Board, Change};
use moves::Move;
use std::alloc::Global;
use std::process::Abort;

/// Something that is asked, and its answer.
///
/// If nothing else is said it is asked as caller 0, at the board's version and without a claim, whatever it costs, and teams
/// and rounds count from 1.
#[derive(Clone, Copy)]
pub(crate) enum Act {
    /// At a version.
    Ask(Asked, Answer),
    /// A question as this caller.
    AskBy(u32, Asked, Answer),
    /// A move, in numbers from 0.
    Shift(Move, Answer),
    /// Homes of these two teams exchanged.
    Homes(u8, u8, Answer),
    /// These two rounds exchanged.
    Rounds(u8, u8, Answer),
    /// These two teams exchanged.
    Teams(u8, u8, Answer),
    /// Round, home and away of a game.
    Pin((u8, u8, u8), Answer),
    Unpin((u8, u8, u8), Answer),
    Undo(Answer),
    RewindToBest,
}

/// A look at a board. Teams and rounds count from 1.
#[derive(Clone, Copy)]
pub(crate) enum Sight {
    Version(u64),
    /// Travel, hard breaches and the soft cost.
    Cost(u64, u64, u64),
    /// The version and the total of the best.
    Best(u64, u64),
    NoBest,
    NoBestSchedule,
    /// Home and away, and the round of their game in the best schedule.
    BestRound(u8, u8, u8),
    /// Its number from 0, its caller, and what was changed.
    Entry(u64, u32, Change),
    Room(u32),
    /// Home and away, and whether their game is pinned.
    Pinned(u8, u8, bool),
    /// Home and away, and the round of their game.
    Round(u8, u8, u8),
    /// How far each of the four teams travels.
    Travels([u64; 4]),
}

#[derive(Clone, Copy)]
pub(crate) enum Step {
    Do(Act),
    See(Sight),
}

impl Act {
    /// Caller, question and answer, if something is asked.
    fn question(self, version: u64) -> Option<(u32, Ask, Answer)> {
        Some(match self {
            Act::Ask(asked, answer) => (0, asked.ask(), answer),
            Act::AskBy(by, asked, answer) => (by, asked.ask(), answer),
            Act::Shift(mv, answer) => (0, at_any_cost(version, mv), answer),
            Act::Homes(i, j, answer) => (0, at_any_cost(version, homes(i, j)), answer),
            Act::Rounds(k, l, answer) => (0, at_any_cost(version, rounds(k, l)), answer),
            Act::Teams(i, j, answer) => (0, at_any_cost(version, teams(i, j)), answer),
            Act::Pin((round, home, away), answer) => {
                let game = game(round, home, away);
                (0, Ask::Pin { version, game }, answer)
            }
            Act::Unpin((round, home, away), answer) => {
                let game = game(round, home, away);
                (0, Ask::Unpin { version, game }, answer)
            }
            Act::Undo(answer) => (0, Ask::Undo { version }, answer),
            Act::RewindToBest => return None,
        })
    }
}

fn check_act(rt: &impl Abort, board: &mut Board, act: Act) {
    match act.question(board.version()) {
        Some((caller, ask, answer)) => check_ask(rt, board, caller, ask, answer.reply()),
        None => board.rewind_to_best(),
    }
}

fn check_sight(rt: &impl Abort, board: &Board, sight: Sight) {
    match sight {
        Sight::Version(version) => check_version(rt, board, version),
        Sight::Cost(travel, hard, soft) => check_cost(rt, board, cost(travel, hard, soft)),
        Sight::Best(at, total) => check_best(rt, board, best(at, total)),
        Sight::NoBest => check_best(rt, board, None),
        Sight::NoBestSchedule => check_no_best_schedule(rt, board),
        Sight::BestRound(home, away, round) => check_best_round(rt, board, home, away, round),
        Sight::Entry(i, caller, change) => check_entry(rt, board, i, caller, change),
        Sight::Room(room) => check_same(rt, &board.room(), &room),
        Sight::Pinned(home, away, is) => check_pinned(rt, board, home, away, is),
        Sight::Round(home, away, round) => check_round(rt, board.schedule(), home, away, round),
        Sight::Travels(tours) => check_travels(rt, board, tours),
    }
}

fn check_step(rt: &impl Abort, board: &mut Board, step: Step) {
    match step {
        Step::Do(act) => check_act(rt, board, act),
        Step::See(sight) => check_sight(rt, board, sight),
    }
}

pub(crate) fn check_steps(rt: &impl Abort, mut board: Board, steps: &[Step]) {
    for &step in steps {
        check_step(rt, &mut board, step);
    }
}

/// Steps on a new board of four teams with room for so many entries.
pub(crate) type Case = (u32, &'static [Step]);

fn check_case(rt: &impl Abort, alloc: Global, (room, steps): Case) {
    check_steps(rt, board_of(rt, alloc, 4, room), steps);
}

pub(crate) fn check_cases(rt: &impl Abort, alloc: Global, cases: &[Case]) {
    for &case in cases {
        check_case(rt, alloc, case);
    }
}

/// Steps on a new board by a league's text in this format with further members.
pub(crate) type LeagueCase = (u8, &'static str, &'static [Step]);

fn check_league_case(rt: &impl Abort, alloc: Global, (format, members, steps): LeagueCase) {
    check_steps(rt, board_with(rt, alloc, format, members), steps);
}

pub(crate) fn check_league_cases(rt: &impl Abort, alloc: Global, cases: &[LeagueCase]) {
    for &case in cases {
        check_league_case(rt, alloc, case);
    }
}
