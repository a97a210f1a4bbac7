//! Boards of four teams on a circle, and others. What owns a board or a league has no way out but to end the test, since each `?` drops all
//! that is held, and its proof with it.

ghost use Rattle.std.specs.Prelude.{◌≡◌, []};

use fixture_board::Board;
use league::{League, circular};
use league_json::read_league;
use shared_board::{Seat, Shared};
use std::alloc::Global;
use std::process::Abort;

const CIRCLE: &str =
    r#""teams":["T1","T2","T3","T4"],"distances":[[0,1,2,1],[1,0,1,2],[2,1,0,1],[1,2,1,0]]"#;

/// A new board of the league.
pub(crate) fn new_board(rt: &impl Abort, alloc: Global, league: League, room: u32) -> Board
    ensures { result.history ≡ [] }
{
    Board::new(alloc, league, room).expect(rt, "a board")
}

/// A new board of a league of so many teams on a circle.
pub(crate) fn board_of(rt: &impl Abort, alloc: Global, teams: u8, room: u32) -> Board
    ensures { result.history ≡ [] }
{
    let league = circular(alloc, teams).expect(rt, "a league");
    new_board(rt, alloc, league, room)
}

/// A board with room for eight entries, by a league's text in this format with further members.
pub(crate) fn board_with(rt: &impl Abort, alloc: Global, format: u8, members: &str) -> Board
    ensures { result.history ≡ [] }
{
    let text = format!(in alloc; "{{\"format\":{format},{CIRCLE},{members}}}");
    let text = text.expect(rt, "a text");
    let league = read_league(alloc, text.as_bytes()).expect(rt, "a league");
    new_board(rt, alloc, league, 8)
}

/// The board, shared, and its first seat.
pub(crate) fn shared(rt: &impl Abort, alloc: Global, board: Board) -> (Shared, Seat)
    requires { board.history ≡ [] }
    ensures { result.1.table ≡ result.0 }
{
    Shared::new(alloc, board).expect(rt, "a shared board")
}
