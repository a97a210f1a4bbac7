//! Questions of callers that are out of range, of another version or past the room: each is refused, first reason first. The
//! answers were worked out by hand.

use crate::tests::answers::Answer::{self, Done, No};
use crate::tests::questions::Asked::{Pin, Shift, Undo, Unpin};
use crate::tests::steps::Act::Ask;
use crate::tests::steps::Step::{self, Do};
use crate::tests::steps::{Case, check_cases};
use fixture_board::Why;
use moves::Move;

const ROUNDS: Move = Move::Rounds { k: 1, l: 3 };

const SAME: Move = Move::Homes { i: 0, j: 0 };

const FIRST_REASONS: &[Step] = &[
    Do(Ask(Pin(0, 0, 0, 3), Done(1, 30, 0))),
    Do(Ask(
        Shift(1, Move::Rounds { k: 0, l: 1 }, Some(0), 0),
        No(1, Why::Pinned),
    )),
    Do(Ask(Shift(1, ROUNDS, Some(0), 0), No(1, Why::WrongClaim))),
    Do(Ask(Shift(1, ROUNDS, Some(430), 399), No(1, Why::Worse))),
    Do(Ask(Shift(1, ROUNDS, Some(430), 400), Done(2, 30, 4))),
    Do(Ask(Undo(1), No(2, Why::Old))),
    Do(Ask(Shift(u64::MAX, SAME, None, 0), No(2, Why::Ahead))),
    Do(Ask(Pin(2, 6, 0, 3), No(2, Why::BadGame))),
    Do(Ask(Pin(2, 0, 0, 0), No(2, Why::BadGame))),
];

const WITHOUT_ROOM: &[Step] = &[
    Do(Ask(Shift(1, SAME, None, 0), No(0, Why::Ahead))),
    Do(Ask(Shift(0, SAME, None, 0), No(0, Why::Full))),
    Do(Ask(Pin(1, 0, 0, 0), No(0, Why::Ahead))),
    Do(Ask(Pin(0, 0, 0, 0), No(0, Why::Full))),
    Do(Ask(Unpin(1, 0, 0, 0), No(0, Why::Ahead))),
    Do(Ask(Unpin(0, 0, 0, 0), No(0, Why::Full))),
    Do(Ask(Undo(1), No(0, Why::Ahead))),
    Do(Ask(Undo(0), No(0, Why::Full))),
];

const GREATEST_VERSION: &[Step] = &[
    Do(Ask(
        Shift(u64::MAX, Move::Homes { i: 0, j: 1 }, Some(26), u64::MAX),
        No(0, Why::Ahead),
    )),
    Do(Ask(Pin(u64::MAX, 0, 0, 3), No(0, Why::Ahead))),
    Do(Ask(Unpin(u64::MAX, 0, 0, 3), No(0, Why::Ahead))),
    Do(Ask(Undo(u64::MAX), No(0, Why::Ahead))),
];

const GREATEST_SLACK_AND_CLAIM: &[Step] = &[
    Do(Ask(
        Shift(0, ROUNDS, Some(u64::MAX), u64::MAX),
        No(0, Why::WrongClaim),
    )),
    Do(Ask(Shift(0, ROUNDS, Some(430), 0), No(0, Why::Worse))),
    Do(Ask(Shift(0, ROUNDS, Some(430), u64::MAX), Done(1, 30, 4))),
    Do(Ask(Shift(1, ROUNDS, None, u64::MAX), Done(2, 30, 0))),
    Do(Ask(Shift(1, ROUNDS, Some(u64::MAX), u64::MAX), Done(3, 30, 4))),
];

// the greatest number of each field of each change

const MOST: u8 = u8::MAX;

const BAD_MOVE: Answer = No(0, Why::BadMove);

const NO_MOVES: &[Step] = &[
    Do(Ask(Shift(0, Move::Homes { i: MOST, j: 0 }, None, 0), BAD_MOVE)),
    Do(Ask(Shift(0, Move::Homes { i: 0, j: MOST }, None, 0), BAD_MOVE)),
    Do(Ask(Shift(0, Move::Rounds { k: MOST, l: 0 }, None, 0), BAD_MOVE)),
    Do(Ask(Shift(0, Move::Teams { i: 0, j: MOST }, None, 0), BAD_MOVE)),
    Do(Ask(
        Shift(
            0,
            Move::PartRounds {
                i: MOST,
                k: 0,
                l: 1,
            },
            None,
            0,
        ),
        BAD_MOVE,
    )),
    Do(Ask(
        Shift(
            0,
            Move::PartRounds {
                i: 0,
                k: 0,
                l: MOST,
            },
            None,
            0,
        ),
        BAD_MOVE,
    )),
    Do(Ask(
        Shift(
            0,
            Move::PartTeams {
                i: 0,
                j: 1,
                k: MOST,
            },
            None,
            0,
        ),
        BAD_MOVE,
    )),
];

const NO_GAMES: &[Step] = &[
    Do(Ask(Pin(0, MOST, 0, 3), No(0, Why::BadGame))),
    Do(Ask(Pin(0, 0, MOST, 3), No(0, Why::BadGame))),
    Do(Ask(Pin(0, 0, 0, MOST), No(0, Why::BadGame))),
    Do(Ask(Unpin(0, MOST, 0, 3), No(0, Why::BadGame))),
    Do(Ask(Unpin(0, 0, MOST, MOST), No(0, Why::BadGame))),
    Do(Ask(Undo(0), No(0, Why::NothingToUndo))),
];

const CASES: &[Case] = &[
    (8, FIRST_REASONS),
    (0, WITHOUT_ROOM),
    (8, GREATEST_VERSION),
    (8, GREATEST_SLACK_AND_CLAIM),
    (8, NO_MOVES),
    (8, NO_GAMES),
];

#[test]
fn a_board_answers_the_first_reason(rt: HostRuntime) {
    check_cases(&rt, rt.alloc(), CASES);
}
