//! Four teams in a circle. With rounds 1 and 5 exchanged the pairs 1-2 and 3-4 meet in rounds 1 and 2, the pairs 1-4 and 2-3 in
//! rounds 4 and 5: four repeats. The teams travel 6, 8, 6 and 8.

use crate::tests::answers::Answer::{Done, No};
use crate::tests::questions::Asked;
use crate::tests::steps::Act::{Ask, Rounds, Undo};
use crate::tests::steps::Sight::{Best, Cost};
use crate::tests::steps::Step::{self, Do, See};
use crate::tests::steps::{LeagueCase, check_league_cases};
use fixture_board::Why;
use moves::Move;

/// A repeat is no breach where repeats are free.
const FREE: &[Step] = &[
    See(Cost(30, 0, 0)),
    Do(Rounds(1, 5, Done(1, 28, 0))),
    See(Best(1, 28)),
    Do(Undo(Done(2, 30, 0))),
];

/// A repeat is a breach elsewhere. First without slack.
const FORBIDDEN: &[Step] = &[
    Do(Ask(
        Asked::Shift(0, Move::Rounds { k: 0, l: 4 }, None, 0),
        No(0, Why::Worse),
    )),
    Do(Rounds(1, 5, Done(1, 28, 4))),
    See(Best(0, 30)),
    Do(Undo(Done(2, 30, 0))),
];

const CASES: &[LeagueCase] = &[
    (3, "\"repeats\":\"free\"", FREE),
    (1, "\"repeats\":\"free\"", FORBIDDEN),
    (2, "\"repeats\":\"free\"", FORBIDDEN),
    (3, "\"repeats\":\"forbidden\"", FORBIDDEN),
    (3, "\"phased\":false", FORBIDDEN),
];

#[test]
fn repeats_that_are_free_and_forbidden(rt: HostRuntime) {
    check_league_cases(&rt, rt.alloc(), CASES);
}
