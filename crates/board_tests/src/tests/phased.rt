//! Of four teams in a circle the season's halves are rounds 1 to 3 and 4 to 6.

use crate::tests::answers::Answer::{Done, No};
use crate::tests::questions::Asked;
use crate::tests::steps::Act::{Ask, Rounds, Undo};
use crate::tests::steps::Sight::{Best, Cost};
use crate::tests::steps::Step::{self, Do, See};
use crate::tests::steps::{LeagueCase, check_league_cases};
use fixture_board::Why;
use moves::Move;

const PHASED: &str = "\"phased\":true";

/// Starts are phased.
const START: &[Step] = &[See(Cost(30, 0, 0))];

/// Rounds of one half may be exchanged.
const WITHIN_A_HALF: &[Step] = &[Do(Rounds(1, 2, Done(1, 28, 0)))];

/// Each pair with both games in one half is a breach: rounds 3 and 4 exchanged, first without slack.
const ACROSS_THE_HALVES: &[Step] = &[
    Do(Ask(
        Asked::Shift(0, Move::Rounds { k: 2, l: 3 }, None, 0),
        No(0, Why::Worse),
    )),
    Do(Rounds(3, 4, Done(1, 26, 4))),
    Do(Undo(Done(2, 30, 0))),
    See(Best(0, 30)),
];

/// A league that is not phased has no halves.
const WITHOUT_HALVES: &[Step] = &[Do(Rounds(3, 4, Done(1, 26, 0))), See(Best(1, 26))];

const CASES: &[LeagueCase] = &[
    (2, PHASED, START),
    (2, "\"start\":\"fide\",\"phased\":true", START),
    (2, PHASED, WITHIN_A_HALF),
    (2, PHASED, ACROSS_THE_HALVES),
    (2, "\"phased\":false", WITHOUT_HALVES),
];

#[test]
fn halves_of_seasons(rt: HostRuntime) {
    check_league_cases(&rt, rt.alloc(), CASES);
}
