//! Games that are pinned to their rounds.

use crate::tests::answers::Answer::{Done, No};
use crate::tests::questions::Asked;
use crate::tests::steps::Act::{Ask, Homes, Pin, Rounds, Teams, Undo, Unpin};
use crate::tests::steps::Sight::{Best, Pinned};
use crate::tests::steps::Step::{self, Do, See};
use crate::tests::steps::{Case, check_cases};
use fixture_board::Why;

/// Pinned games keep their rounds.
const ROUNDS_KEPT: &[Step] = &[
    Do(Pin((1, 1, 4), Done(1, 30, 0))),
    See(Pinned(1, 4, true)),
    See(Pinned(4, 1, false)),
    Do(Rounds(1, 2, No(1, Why::Pinned))),
    Do(Teams(1, 2, No(1, Why::Pinned))),
    Do(Homes(2, 3, Done(2, 30, 0))),
    Do(Pin((1, 1, 4), No(2, Why::AlreadyPinned))),
    Do(Unpin((1, 4, 1), No(2, Why::NotThere))),
    Do(Unpin((4, 4, 1), No(2, Why::NotPinned))),
    Do(Pin((7, 1, 4), No(2, Why::BadGame))),
    Do(Unpin((1, 4, 4), No(2, Why::BadGame))),
    See(Best(0, 30)),
    Do(Unpin((1, 1, 4), Done(3, 30, 0))),
    See(Pinned(1, 4, false)),
];

/// A pin is for the version that there is.
const OTHER_VERSIONS: &[Step] = &[
    Do(Ask(Asked::Pin(1, 0, 0, 3), No(0, Why::Ahead))),
    Do(Ask(Asked::Unpin(1, 0, 0, 3), No(0, Why::Ahead))),
    Do(Ask(Asked::Pin(0, 0, 0, 3), Done(1, 30, 0))),
    Do(Ask(Asked::Pin(0, 0, 0, 3), No(1, Why::Old))),
    Do(Ask(Asked::Unpin(0, 0, 0, 3), No(1, Why::Old))),
    Do(Ask(Asked::Unpin(2, 0, 0, 3), No(1, Why::Ahead))),
    See(Pinned(1, 4, true)),
];

/// Undo drops a pin.
const PIN_UNDONE: &[Step] = &[
    Do(Undo(No(0, Why::NothingToUndo))),
    Do(Pin((1, 1, 4), Done(1, 30, 0))),
    Do(Undo(Done(2, 30, 0))),
    Do(Rounds(1, 2, Done(3, 28, 0))),
    See(Best(3, 28)),
    Do(Ask(Asked::Undo(2), No(3, Why::Old))),
    Do(Ask(Asked::Undo(4), No(3, Why::Ahead))),
];

/// Undo takes a pin back that was dropped.
const UNPIN_UNDONE: &[Step] = &[
    Do(Pin((1, 1, 4), Done(1, 30, 0))),
    Do(Unpin((1, 1, 4), Done(2, 30, 0))),
    Do(Undo(Done(3, 30, 0))),
    See(Pinned(1, 4, true)),
    Do(Rounds(1, 2, No(3, Why::Pinned))),
];

const CASES: &[Case] = &[
    (1024, ROUNDS_KEPT),
    (8, OTHER_VERSIONS),
    (1024, PIN_UNDONE),
    (1024, UNPIN_UNDONE),
];

#[test]
fn games_pinned_and_unpinned(rt: HostRuntime) {
    check_cases(&rt, rt.alloc(), CASES);
}
