//! A board goes back to its best version. The figures were worked out by hand.

use crate::tests::answers::Answer::{Done, No};
use crate::tests::steps::Act::{Homes, Pin, RewindToBest, Rounds, Undo, Unpin};
use crate::tests::steps::Sight::{
    Best, BestRound, Cost, Entry, NoBest, Pinned, Round, Travels, Version,
};
use crate::tests::steps::Step::{self, Do, See};
use crate::tests::steps::{Case, LeagueCase, check_cases, check_league_cases};
use fixture_board::{Change, Why};
use moves::Move;

const HOMES: Move = Move::Homes { i: 0, j: 1 };

/// The best version comes back: a pin, the best version, and more changes behind it.
const REWOUND: &[Step] = &[
    Do(Pin((1, 1, 4), Done(1, 30, 0))),
    Do(Undo(Done(2, 30, 0))),
    Do(Pin((1, 1, 4), Done(3, 30, 0))),
    Do(Homes(1, 2, Done(4, 26, 0))),
    Do(Unpin((1, 1, 4), Done(5, 26, 0))),
    Do(Pin((2, 2, 1), Done(6, 26, 0))),
    Do(Undo(Done(7, 26, 0))),
    Do(RewindToBest),
    See(Version(4)),
    See(Cost(26, 0, 0)),
    See(Best(4, 26)),
    See(Travels([4, 6, 8, 8])),
    See(Round(2, 1, 2)),
    See(Round(1, 2, 5)),
    See(BestRound(2, 1, 2)),
    See(Pinned(1, 4, true)),
    See(Pinned(2, 1, false)),
    See(Entry(1, 0, Change::Undo)),
    See(Entry(3, 0, Change::Shift(HOMES))),
    Do(Rounds(1, 2, No(4, Why::Pinned))),
    Do(RewindToBest),
    See(Version(4)),
    Do(Undo(Done(5, 30, 0))),
    Do(Undo(Done(6, 30, 0))),
    See(Pinned(1, 4, false)),
    See(Best(4, 26)),
    Do(Undo(No(6, Why::NothingToUndo))),
];

/// The start comes back where it is best.
const START_IS_BEST: &[Step] = &[
    Do(Rounds(2, 4, Done(1, 30, 4))),
    Do(RewindToBest),
    See(Version(0)),
    See(Cost(30, 0, 0)),
    See(Best(0, 30)),
    See(Round(1, 2, 2)),
];

/// Without a best version all stays.
const WITHOUT_BEST: &[Step] = &[
    Do(Pin((1, 1, 4), Done(1, 30, 2))),
    Do(RewindToBest),
    See(Version(1)),
    See(Cost(30, 2, 0)),
    See(NoBest),
    See(Pinned(1, 4, true)),
];

const CASES: &[Case] = &[(8, REWOUND), (8, START_IS_BEST)];

const LEAGUE_CASES: &[LeagueCase] = &[(1, "\"at_most\":2", WITHOUT_BEST)];

#[test]
fn boards_go_back_to_their_best(rt: HostRuntime) {
    check_cases(&rt, rt.alloc(), CASES);
    check_league_cases(&rt, rt.alloc(), LEAGUE_CASES);
}
