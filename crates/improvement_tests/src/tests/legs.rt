//! The results of legs, and the history that leads to the best.

ghost use Rattle.std.specs.Prelude.{◌≡◌, []};

use super::{Improved, asked, check_same, circle, counted, improvement_of};
use board_texts::play_script;
use byte_streams::MemorySink;
use fixture_board::{Board, MAX_ROOM};
use improvement::{ImprovePlan, LegEnded};
use league::League;
use policy::MoveSet;
use std::alloc::Global;
use std::process::Abort;
use std::sync::Wait;
use std::thread::Threads;
use text_lines::split_at_line;

/// The first leg of 1600 steps on a league.
fn first_leg<T: Threads + Wait + Sync + Abort>(rt: &T, alloc: Global, league: League) -> LegEnded {
    let counter = counted(rt, alloc, league, asked(1, 1600), 0, 0);
    counter.kept.expect(rt, "a leg")
}

/// Six teams in a circle have the mean distance 9/5, so a rigid leg cools from 18/5 to 9/10. A sixteenth of 1600 steps is for the first
/// chain, of which such a leg has seven tenths.
#[test]
fn first_leg_is_reported_in_distances(rt: HostRuntime) {
    let leg = first_leg(&rt, rt.alloc(), circle(&rt, rt.alloc(), 6));
    check_same(
        &rt,
        &(leg.moves, leg.from, leg.to, leg.steps),
        &(MoveSet::Rigid, 3600, 900, 70),
    );
}

/// A given start isn't melted by the first leg, which cools from 27/50 to 27/100.
#[test]
fn first_leg_goes_on_from_a_given_start(rt: HostRuntime) {
    let mut league = circle(&rt, rt.alloc(), 6);
    let start = league.start(rt.alloc()).expect(&rt, "memory");
    league.begin_at(start);
    let leg = first_leg(&rt, rt.alloc(), league);
    check_same(
        &rt,
        &(leg.moves, leg.from, leg.to, leg.steps),
        &(MoveSet::Full, 540, 270, 100),
    );
}

/// So many workers write what one writes.
fn check_workers<T: Threads + Wait + Sync + Abort>(
    rt: &T,
    alloc: Global,
    (teams, effort): (u8, u64),
    workers: u32,
    alone: &Improved,
) {
    let league = circle(rt, alloc, teams);
    let found = improvement_of(rt, alloc, league, asked(workers, effort));
    check_same(rt, &(workers, found == *alone), &(workers, true));
}

fn check_alone<T: Threads + Wait + Sync + Abort>(rt: &T, alloc: Global, plan: (u8, u64)) {
    let (teams, effort) = plan;
    let league = circle(rt, alloc, teams);
    let alone = improvement_of(rt, alloc, league, asked(1, effort));
    check_same(
        rt,
        &(alone.ended.is_ok(), alone.text.is_empty()),
        &(true, false),
    );
    for workers in [2, 4, 16] {
        check_workers(rt, alloc, plan, workers, &alone);
    }
}

#[test]
fn workers_change_nothing(rt: HostRuntime) {
    check_alone(&rt, rt.alloc(), (6, 60_000));
    check_alone(&rt, rt.alloc(), (8, 200_000));
}

/// A new board of six teams in a circle, with the greatest room.
fn new_board(rt: &impl Abort, alloc: Global) -> Board
    ensures { result.history ≡ [] }
{
    let league = circle(rt, alloc, 6);
    Board::new(alloc, league, MAX_ROOM)
        .ok()
        .expect(rt, "a board")
}

/// The least total of a board on which the history of a text was played.
fn least_played(rt: &impl Abort, alloc: Global, text: &[u8]) -> Option<u64> {
    let (script, _) = split_at_line(text, b"end");
    let mut buffer = vec![in alloc; 0; 1_000_000].expect(rt, "memory");
    let mut sink = MemorySink::new(&mut buffer);
    let mut board = new_board(rt, alloc);
    play_script(&mut board, script, &mut sink).expect(rt, "a text");
    match board.best() {
        Some(best) => Some(best.total),
        None => None,
    }
}

/// The lines before the history and its head are bad ones of a script, and change nothing.
#[test]
fn history_leads_to_the_least_total(rt: HostRuntime) {
    let league = circle(&rt, rt.alloc(), 6);
    let plan = ImprovePlan {
        history: true,
        ..asked(1, 50_000)
    };
    let found = improvement_of(&rt, rt.alloc(), league, plan);
    let least = match found.ended {
        Ok(Some(best)) => Some(best.total),
        _ => None,
    };
    check_same(&rt, &least.is_some(), &true);
    check_same(&rt, &least_played(&rt, rt.alloc(), &found.text), &least);
}
