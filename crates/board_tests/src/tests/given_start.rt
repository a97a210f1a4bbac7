//! Four teams in a circle on a given start, with figures that were worked out by hand.

use crate::tests::answers::Answer::{Done, No, Soft};
use crate::tests::boards::new_board;
use crate::tests::drawn_leagues::begin_at;
use crate::tests::steps::Act::{Homes, Pin, Rounds, Teams, Undo, Unpin};
use crate::tests::steps::Sight::{Best, Cost, Pinned, Round};
use crate::tests::steps::Step::{self, Do, See};
use crate::tests::steps::check_steps;
use fixture_board::Why;
use fixtures::{Schedule, berger};
use league::{League, TeamSet, circular};
use std::alloc::Global;
use std::process::Abort;

/// The Berger table with rounds 5 and 6 exchanged.
fn exchanged(rt: &impl Abort, alloc: Global) -> Schedule {
    let mut start = berger(alloc, 4).expect(rt, "a table");
    start.exchange_rounds(4, 5, TeamSet::below(4));
    start
}

/// The league begins there. Its games 1-4 and 2-3 of round 1 are kept, and a game that has left its round costs 10.
fn given_league(rt: &impl Abort, alloc: Global) -> League {
    let mut league = circular(alloc, 4).expect(rt, "a league");
    begin_at(rt, &mut league, exchanged(rt, alloc));
    league.keep_round(0);
    league.set_near(10);
    league
}

/// Steps on a new board of that league.
fn check_given(rt: &impl Abort, alloc: Global, steps: &[Step]) {
    let league = given_league(rt, alloc);
    check_steps(rt, new_board(rt, alloc, league, 12), steps);
}

/// Kept games begin pinned.
const KEPT: &[Step] = &[
    See(Cost(28, 0, 0)),
    See(Best(0, 28)),
    See(Pinned(1, 4, true)),
    See(Pinned(2, 3, true)),
    See(Pinned(4, 1, false)),
    Do(Undo(No(0, Why::NothingToUndo))),
    Do(Rounds(1, 2, No(0, Why::Pinned))),
    Do(Homes(1, 4, No(0, Why::Pinned))),
    Do(Teams(1, 2, No(0, Why::Pinned))),
    Do(Pin((1, 1, 4), No(0, Why::AlreadyPinned))),
    See(Round(1, 4, 1)),
];

/// Games away from their rounds cost their price: all four games of rounds 5 and 6 leave their rounds, and then 1-2 and 2-1 besides, of which one had left its own.
const AWAY: &[Step] = &[
    Do(Rounds(5, 6, Soft(1, 30, 40))),
    See(Best(0, 28)),
    Do(Homes(1, 2, Soft(2, 26, 50))),
    See(Best(0, 28)),
    Do(Undo(Soft(3, 30, 40))),
    Do(Undo(Done(4, 28, 0))),
    Do(Undo(No(4, Why::NothingToUndo))),
    See(Pinned(1, 4, true)),
];

/// A kept game is unpinned, moved and pinned again.
const UNPINNED: &[Step] = &[
    Do(Unpin((1, 1, 4), Done(1, 28, 0))),
    See(Pinned(1, 4, false)),
    Do(Rounds(1, 2, No(1, Why::Pinned))),
    Do(Homes(1, 4, Soft(2, 28, 20))),
    See(Round(1, 4, 4)),
    Do(Pin((4, 1, 4), Soft(3, 28, 20))),
    Do(Homes(1, 4, No(3, Why::Pinned))),
    Do(Undo(Soft(4, 28, 20))),
    Do(Undo(Done(5, 28, 0))),
    Do(Undo(Done(6, 28, 0))),
    See(Pinned(1, 4, true)),
    Do(Homes(1, 4, No(6, Why::Pinned))),
    Do(Undo(No(6, Why::NothingToUndo))),
];

#[test]
fn games_of_a_given_start(rt: HostRuntime) {
    for steps in [KEPT, AWAY, UNPINNED] {
        check_given(&rt, rt.alloc(), steps);
    }
}
