//! Searches on a league that begins at a schedule of its own.

use crate::tests::checks::check_same;
use crate::tests::told::Text::{self, Excerpt};
use board_texts::write_found;
use byte_streams::{BufferedSink, MemorySink};
use fixture_board::{Ask, Board, Change};
use league::circular;
use moves::Move;
use std::alloc::Global;
use std::process::Abort;
use std::test::Fail;

/// Four teams in a circle. The schedule that they are given is the one that they begin at by themselves.
fn given_board(alloc: Global) -> Result<Board, Fail> {
    let mut league = circular(alloc, 4)?;
    let start = league.start(alloc)?;
    if start.teams() == league.teams() {
        league.begin_at(start);
    }
    Ok(Board::new(alloc, league, 2)?)
}

/// The second breaks hard limits, and three more games leave their rounds by it.
const MOVES: [Move; 2] = [Move::Homes { i: 0, j: 1 }, Move::Rounds { k: 1, l: 3 }];

const FOUND: Text<'_> = Excerpt(
    "history 2\nhomes 1 2\nrounds 2 4\nend\nleague 4 teams 6 rounds\n",
    &["round 2: 2-1 4-3\n", "round 5: 1-2 3-4\n"],
    "round 6: 1-3 4-2\nmoved 2\nbest 26 at 1\n",
);

fn check_found(rt: &impl Abort, board: &mut Board) -> Result<(), Fail> {
    for mv in MOVES {
        let ask = Ask::of(Change::Shift(mv), board.version(), u64::MAX);
        board.answer(0, ask);
    }
    let mut buffer = [0; 1000];
    let mut sink = MemorySink::new(&mut buffer);
    let mut out = BufferedSink::new(&mut sink);
    write_found(&mut out, board)?;
    out.flush()?;
    check_same(rt, &FOUND.is_told(sink.held()), &true);
    Ok(())
}

#[test]
fn moved_games_are_those_of_the_best_schedule(rt: HostRuntime) -> Result<(), Fail> {
    let mut board = given_board(rt.alloc())?;
    check_found(&rt, &mut board)
}
