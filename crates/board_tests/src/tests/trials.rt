//! Moves that are tried on boards, against the costs of whole schedules.

ghost use Rattle.costs.specs.Costs.{AreWeights};

use crate::tests::boards::{board_of, new_board};
use crate::tests::checks::check_same;
use crate::tests::drawn_asks::drawn_ask;
use crate::tests::drawn_leagues::drawn_league;
use crate::tests::drawn_numbers::{among, drawn, drawn_move};
use costs::{Cost, Weights, cost_of};
use fixture_board::{Best, Board, Trial};
use fixtures::Schedule;
use moves::{apply, check};
use std::alloc::Global;
use std::process::Abort;

const WEIGHTS: &[u64] = &[1, 2, 40, 1000, 1_000_000, 4_294_967_295];

const RULE_WEIGHTS: &[u64] = &[0, 0, 1, 30, 1_000_000, 4_294_967_295];

const RISES: &[u64] = &[0, 0, 1, 20, 400, 1_000_000, u64::MAX];

/// A trial of a drawn move, whose numbers may be just out of range.
fn drawn_trial(state: &mut u64, teams: u8) -> Trial
    ensures { AreWeights result.weights }
{
    let breach = among(state, WEIGHTS).clamp(1, 4_294_967_295);
    let rule = among(state, RULE_WEIGHTS).min(4_294_967_295 - breach);
    let weights = Weights {
        breach: breach as u32,
        rule: rule as u32,
    };
    Trial {
        mv: drawn_move(state, teams.saturating_add(1)),
        weights,
        rise: among(state, RISES),
    }
}

/// The score by weights: a breach of a rule has both.
fn score(cost: Cost, weights: Weights) -> u64 {
    let both = u64::from(weights.breach).saturating_add(u64::from(weights.rule));
    let others = cost.hard.saturating_sub(cost.of_rules);
    cost.travel
        .saturating_add(cost.soft)
        .saturating_add(u64::from(weights.breach).saturating_mul(others))
        .saturating_add(both.saturating_mul(cost.of_rules))
}

/// Whether a pinned game at home of the team has another round in the schedule.
fn is_pinned_moved_at_home(board: &Board, after: &Schedule, home: u8) -> bool {
    let (teams, schedule) = (board.league().teams(), board.schedule());
    if home >= teams || after.teams() != teams {
        return false;
    }
    for away in 0..teams {
        if away != home && board.is_pinned(home, away) {
            if schedule.round_of(home, away) != after.round_of(home, away) {
                return true;
            }
        }
    }
    false
}

fn is_pinned_moved(board: &Board, after: &Schedule) -> bool {
    for home in 0..board.league().teams() {
        if is_pinned_moved_at_home(board, after, home) {
            return true;
        }
    }
    false
}

/// The cost of the whole schedule after a trial, if the trial is to make its move. The copy gets the move if it can be made.
fn cost_after(board: &Board, copy: &mut Schedule, trial: Trial) -> Option<Cost> {
    let league = board.league();
    copy.copy_from(board.schedule());
    if board.version() == u64::from(board.room()) || check(copy, trial.mv).is_err() {
        return None;
    }
    let before = score(cost_of(copy, league), trial.weights);
    apply(copy, trial.mv);
    if copy.teams() != league.teams() || is_pinned_moved(board, copy) {
        return None;
    }
    let cost = cost_of(copy, league);
    let most = before.saturating_add(trial.rise);
    (score(cost, trial.weights) <= most).then_some(cost)
}

/// The best with a version of this cost.
fn best_with(best: Option<Best>, at: u64, cost: Cost) -> Option<Best> {
    let total = cost.travel.saturating_add(cost.soft);
    let least = best.map_or(u64::MAX, |best| best.total);
    if cost.hard == 0 && total < least {
        return Some(Best { at, total });
    }
    best
}

/// What a board shows: its version, its cost and its best.
type Shown = (u64, Cost, Option<Best>);

/// What the board has to show after a trial, by the costs of whole schedules. The copy becomes the schedule that it has to have then.
fn wanted(board: &Board, copy: &mut Schedule, trial: Trial) -> Shown {
    let (version, best) = (board.version(), board.best());
    let Some(cost) = cost_after(board, copy, trial) else {
        copy.copy_from(board.schedule());
        return (version, board.cost(), best);
    };
    let version = version.saturating_add(1);
    (version, cost, best_with(best, version, cost))
}

/// The board tries the move, and is then as it has to be. Tells whether the move was made.
fn check_trial(rt: &impl Abort, board: &mut Board, copy: &mut Schedule, trial: Trial) -> bool
    requires { AreWeights trial.weights }
{
    let wanted = wanted(board, copy, trial);
    let made = board.try_move(7, trial);
    check_same(rt, &made.unwrap_or(wanted.1), &wanted.1);
    check_shown(rt, board, copy, &wanted);
    made.is_some()
}

/// The board shows this, and has the schedule.
fn check_shown(rt: &impl Abort, board: &Board, schedule: &Schedule, wanted: &Shown) {
    check_same(rt, &(board.version(), board.cost(), board.best()), wanted);
    check_same(rt, &board.schedule().is_same(schedule), &true);
}

/// A pin, an unpin, an undo or another move in one of eight cases.
fn ask_sometimes(board: &mut Board, state: &mut u64) {
    if drawn(state, 8) == 0 {
        let ask = drawn_ask(board, state);
        board.answer(3, ask);
    }
}

/// Tries so many drawn moves. Tells how many were made.
fn try_drawn(
    rt: &impl Abort,
    board: &mut Board,
    copy: &mut Schedule,
    state: &mut u64,
    count: u64,
) -> u64 {
    let mut made: u64 = 0;
    for _ in 0..count {
        ask_sometimes(board, state);
        let trial = drawn_trial(state, board.league().teams());
        made = made.saturating_add(u64::from(check_trial(rt, board, copy, trial)));
    }
    made
}

/// Tries so many drawn moves on a board. Tells how many were made, and the version in the end.
fn tried(
    rt: &impl Abort,
    alloc: Global,
    mut board: Board,
    state: &mut u64,
    count: u64,
) -> (u64, u64) {
    let mut copy = board.schedule().duplicate(alloc).expect(rt, "a copy");
    let made = try_drawn(rt, &mut board, &mut copy, state, count);
    (made, board.version())
}

/// Of so many drawn moves on a new board of a drawn league some are made and some aren't.
fn check_league(rt: &impl Abort, alloc: Global, state: &mut u64, (teams, count): (u8, u64)) {
    let league = drawn_league(rt, alloc, state, teams);
    let board = new_board(rt, alloc, league, 4096);
    let (made, _) = tried(rt, alloc, board, state, count);
    check_same(rt, &(teams, made > 0, made < count), &(teams, true, true));
}

/// Numbers of teams, and of trials on a board of so many.
const SIZES: &[(u8, u64)] = &[(4, 300), (6, 200), (8, 200), (10, 150), (20, 80), (40, 20)];

#[test]
fn drawn_trials_are_those_of_whole_schedules(rt: HostRuntime) {
    let mut state = 3;
    for &size in SIZES {
        check_league(&rt, rt.alloc(), &mut state, size);
    }
}

/// Trials fill the board's room.
fn check_room(rt: &impl Abort, alloc: Global, state: &mut u64, room: u32) {
    let (_, version) = tried(rt, alloc, board_of(rt, alloc, 6, room), state, 300);
    check_same(rt, &version, &u64::from(room));
}

#[test]
fn drawn_trials_until_there_is_no_room(rt: HostRuntime) {
    let mut state = 4;
    for room in [0, 1, 9, 40] {
        check_room(&rt, rt.alloc(), &mut state, room);
    }
}
