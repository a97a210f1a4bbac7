//! Making moves and taking them back.

use crate::kind::Kind;
use fixtures::Schedule;
use moves::{Move, apply, check};

/// The results of the moves.
#[derive(Clone, Copy, Debug, Default, PartialEq, Eq)]
pub struct Count {
    /// Made, and taken back.
    pub made: u32,
    pub refused: u32,
}

/// Makes so many moves of one kind, each if it can be made, and takes each back. What they do depends on the index, so a
/// compiler can't make one of them for all.
pub fn measure(schedule: &mut Schedule, kind: Kind, moves: u32) -> Count {
    let teams = schedule.teams();
    let rounds = schedule.rounds();
    let mut made = 0;
    for index in 0..moves {
        let mv = kind.nth(index, teams, rounds);
        // a move is its own inverse
        if make(schedule, mv) && make(schedule, mv) {
            made += 1;
        }
    }
    Count {
        made,
        refused: moves - made,
    }
}

/// Makes the move, if it can be made.
fn make(schedule: &mut Schedule, mv: Move) -> bool {
    if check(schedule, mv).is_err() {
        return false;
    }
    apply(schedule, mv);
    true
}
