//! Changes of one thread's board, one after the other.

use crate::tests::answers::Answer::{Done, No};
use crate::tests::questions::Asked;
use crate::tests::steps::Act::{Ask, AskBy, Homes, Rounds, Shift, Teams, Undo};
use crate::tests::steps::Sight::{Best, BestRound, Cost, Entry, Round, Travels, Version};
use crate::tests::steps::Step::{self, Do, See};
use crate::tests::steps::{Case, check_cases};
use fixture_board::{Change, Why};
use moves::Move;

/// Undo restores the travel and leaves the best.
const HOMES_UNDONE: &[Step] = &[
    See(Cost(30, 0, 0)),
    See(Best(0, 30)),
    Do(Homes(1, 2, Done(1, 26, 0))),
    See(Round(2, 1, 2)),
    See(Round(1, 2, 5)),
    Do(Undo(Done(2, 30, 0))),
    See(Round(1, 2, 2)),
    See(Best(1, 26)),
    See(BestRound(2, 1, 2)),
    See(Version(2)),
    See(Entry(0, 0, Change::Shift(Move::Homes { i: 0, j: 1 }))),
    See(Entry(1, 0, Change::Undo)),
];

const ROUNDS: Move = Move::Rounds { k: 1, l: 3 };

/// Slack bounds the score and not the travel: two rounds exchanged within a slack, as caller 7.
const WITHIN: &[Step] = &[
    Do(AskBy(7, Asked::Shift(0, ROUNDS, None, 0), No(0, Why::Worse))),
    Do(AskBy(7, Asked::Shift(0, ROUNDS, None, 399), No(0, Why::Worse))),
    See(Version(0)),
    See(Round(1, 2, 2)),
    Do(AskBy(7, Asked::Shift(0, ROUNDS, None, 400), Done(1, 30, 4))),
    See(Best(0, 30)),
    See(Version(1)),
    See(Entry(0, 7, Change::Shift(ROUNDS))),
];

/// Moves of whole rounds and teams, and of parts of them. Each team travels its own tour.
const FIRST_MOVES: &[Case] = &[
    (8, &[Do(Rounds(1, 3, Done(1, 32, 2)))]),
    (
        8,
        &[Do(Rounds(5, 6, Done(1, 28, 0))), See(Travels([6, 6, 8, 8]))],
    ),
    (
        8,
        &[Do(Teams(1, 2, Done(1, 26, 0))), See(Travels([6, 6, 6, 8]))],
    ),
    (
        8,
        &[Do(Homes(1, 2, Done(1, 26, 0))), See(Travels([4, 6, 8, 8]))],
    ),
    (8, &[Do(Homes(1, 4, Done(1, 30, 0)))]),
    (8, &[Do(Homes(1, 1, No(0, Why::BadMove)))]),
    (8, &[Do(Rounds(1, 7, No(0, Why::BadMove)))]),
    (
        8,
        &[Do(Shift(Move::PartRounds { i: 0, k: 0, l: 3 }, Done(1, 30, 0)))],
    ),
    (
        8,
        &[Do(Shift(Move::PartTeams { i: 0, j: 2, k: 0 }, Done(1, 28, 4)))],
    ),
    (
        8,
        &[Do(Shift(Move::PartTeams { i: 0, j: 2, k: 2 }, No(0, Why::Meet)))],
    ),
];

/// Teams 1 and 2 exchanged.
const TEAMS: Move = Move::Teams { i: 0, j: 1 };

/// A claim has to be the score.
const RIGHT_CLAIM: &[Step] = &[Do(Ask(Asked::Shift(0, TEAMS, Some(26), 0), Done(1, 26, 0)))];

/// A claim that is not the score is refused.
const WRONG_CLAIM: &[Step] = &[
    Do(Ask(Asked::Shift(0, TEAMS, Some(25), 0), No(0, Why::WrongClaim))),
    Do(Ask(Asked::Shift(0, TEAMS, Some(27), 0), No(0, Why::WrongClaim))),
    Do(Ask(
        Asked::Shift(0, ROUNDS, Some(429), 0),
        No(0, Why::WrongClaim),
    )),
    Do(Ask(
        Asked::Shift(0, ROUNDS, Some(431), 0),
        No(0, Why::WrongClaim),
    )),
    Do(Ask(Asked::Shift(0, ROUNDS, Some(430), 399), No(0, Why::Worse))),
    See(Cost(30, 0, 0)),
    See(Round(1, 2, 2)),
    Do(Ask(Asked::Shift(1, TEAMS, Some(26), 0), No(0, Why::Ahead))),
];

/// A claim at an old version is ignored.
const OLD_CLAIM: &[Step] = &[
    Do(Homes(1, 2, Done(1, 26, 0))),
    Do(Ask(Asked::Shift(0, TEAMS, Some(999), 0), Done(2, 26, 0))),
    See(Travels([8, 4, 6, 8])),
];

/// The best stays at its first version.
const SAME_TOTAL_TWICE: &[Step] = &[
    Do(Homes(1, 2, Done(1, 26, 0))),
    Do(Undo(Done(2, 30, 0))),
    Do(Teams(1, 2, Done(3, 26, 0))),
    See(Best(1, 26)),
];

const CASES: &[Case] = &[
    (1024, HOMES_UNDONE),
    (1024, WITHIN),
    (8, RIGHT_CLAIM),
    (8, WRONG_CLAIM),
    (8, OLD_CLAIM),
    (1024, SAME_TOTAL_TWICE),
];

#[test]
fn changes_of_one_board(rt: HostRuntime) {
    check_cases(&rt, rt.alloc(), FIRST_MOVES);
    check_cases(&rt, rt.alloc(), CASES);
}
