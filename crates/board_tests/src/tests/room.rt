//! How many entries and teams a board takes, and why there is none.

use crate::tests::answers::Answer::{Done, No};
use crate::tests::boards::board_of;
use crate::tests::checks::check_same;
use crate::tests::steps::Act::{Homes, Pin, Undo, Unpin};
use crate::tests::steps::Sight::{Best, Room};
use crate::tests::steps::Step::{self, Do, See};
use crate::tests::steps::{Case, check_cases, check_steps};
use fixture_board::{BoardFault, MAX_ROOM, Why};
use std::alloc::Global;
use std::process::Abort;

const WITHOUT_ROOM: &[Step] = &[
    Do(Homes(1, 2, No(0, Why::Full))),
    Do(Pin((1, 1, 4), No(0, Why::Full))),
    Do(Unpin((1, 1, 4), No(0, Why::Full))),
    Do(Undo(No(0, Why::Full))),
    See(Best(0, 30)),
];

const ROOM_FOR_ONE: &[Step] = &[
    Do(Homes(1, 2, Done(1, 26, 0))),
    Do(Homes(1, 2, No(1, Why::Full))),
    Do(Undo(No(1, Why::Full))),
    See(Room(1)),
];

const CASES: &[Case] = &[(0, WITHOUT_ROOM), (1, ROOM_FOR_ONE)];

#[test]
fn no_entry_beyond_the_room(rt: HostRuntime) {
    check_cases(&rt, rt.alloc(), CASES);
}

/// A board of so many teams on a circle has the room.
fn check_size(rt: &impl Abort, alloc: Global, teams: u8, room: u32) {
    check_steps(rt, board_of(rt, alloc, teams, room), &[See(Room(room))]);
}

#[test]
fn boards_of_each_number_of_teams_and_of_the_greatest_room(rt: HostRuntime) {
    for half in 2..21 {
        check_size(&rt, rt.alloc(), 2 * half, 8);
    }
    check_size(&rt, rt.alloc(), 40, MAX_ROOM);
}

/// The fault in words.
fn check_words(rt: &impl Abort, alloc: Global, fault: BoardFault, words: &str) {
    let told = format!(in alloc; "{fault}").expect(rt, "a text");
    check_same(rt, &told.as_str(), &words);
}

const WORDS: &[(BoardFault, &str)] = &[
    (BoardFault::RoomRange, "the room is over 1048576"),
    (BoardFault::Memory, "out of memory"),
];

#[test]
fn the_faults_in_words(rt: HostRuntime) {
    for &(fault, words) in WORDS {
        check_words(&rt, rt.alloc(), fault, words);
    }
}
