//! Boards whose leagues have a start, kept games and a price for leaving the start, against a program written apart that makes the
//! same draws.

ghost use Rattle.std.specs.Prelude.{◌<◌, IfSome};

use crate::tests::boards::new_board;
use crate::tests::checks::check_same;
use crate::tests::drawn_asks::drawn_ask;
use crate::tests::drawn_leagues::drawn_league;
use fixture_board::{Board, Reply, Why};
use league::League;
use std::alloc::Global;
use std::process::Abort;

/// The teams, the price, the kept games; what came of 300 asked changes by `column`; travel, hard and soft in the end; the best total
/// and its version; and the sums of travel, hard and soft after each change.
type Row = [u64; 21];

/// The output of `scripts/oracle starts 12 1`.
const ROWS: &[Row] = &[
    [
        4, 1000000, 3, 36, 39, 11, 145, 13, 16, 21, 6, 11, 2, 2333, 6, 5000023, 0, 0, 680574, 1732,
        1024006966,
    ],
    [
        6, 100, 3, 85, 20, 6, 134, 20, 4, 9, 3, 19, 0, 4839, 1, 2316, 5745, 10, 1486386, 484,
        551109,
    ],
    [
        8, 100, 2, 82, 26, 6, 134, 22, 6, 12, 1, 11, 0, 9328, 12, 4550, 0, 0, 3001675, 5752, 976798,
    ],
    [
        10, 100, 12, 76, 22, 5, 146, 24, 2, 14, 0, 11, 0, 16149, 35, 3608, 0, 0, 5144661, 8289,
        694724,
    ],
    [
        12, 1, 3, 95, 13, 2, 131, 19, 3, 16, 0, 20, 1, 20610, 5, 109, 21633, 34, 6468572, 703,
        24101,
    ],
    [
        14, 100, 17, 68, 13, 4, 139, 36, 5, 17, 1, 17, 0, 27711, 10, 8994, 32457, 3, 8618977, 2464,
        1760022,
    ],
    [
        16, 1, 11, 82, 13, 5, 104, 62, 3, 15, 1, 15, 0, 39076, 75, 187, 48050, 0, 12802499, 18357,
        39261,
    ],
    [
        20,
        1000000,
        13,
        75,
        3,
        0,
        95,
        84,
        3,
        22,
        0,
        18,
        0,
        59224,
        22,
        244000142,
        0,
        0,
        18486767,
        6492,
        44228036912,
    ],
    [
        24, 1, 15, 108, 10, 3, 117, 32, 0, 18, 1, 11, 0, 80912, 67, 424, 102155, 4, 25845184,
        14206, 94902,
    ],
    [
        30, 7, 3, 139, 4, 1, 61, 46, 6, 23, 1, 19, 0, 123691, 457, 5651, 0, 0, 39868479, 114329,
        1427543,
    ],
    [
        34, 1, 37, 134, 5, 2, 101, 19, 1, 24, 0, 14, 0, 170060, 286, 1129, 219365, 0, 54115642,
        87584, 254011,
    ],
    [
        40, 100, 43, 88, 4, 2, 105, 66, 2, 19, 0, 14, 0, 264961, 310, 63500, 0, 0, 81186767, 66697,
        11108689,
    ],
];

/// The column that counts such answers, if there is one.
fn column(reply: Reply) -> Option<usize>
    ensures { IfSome result (λ at. at < 13) }
{
    let Reply::No { why, .. } = reply else {
        return Some(3);
    };
    match why {
        Why::BadMove => Some(4),
        Why::Meet => Some(5),
        Why::Pinned => Some(6),
        Why::Worse => Some(7),
        Why::BadGame => Some(8),
        Why::NotThere => Some(9),
        Why::AlreadyPinned => Some(10),
        Why::NotPinned => Some(11),
        Why::NothingToUndo => Some(12),
        Why::Ahead | Why::Old | Why::Full | Why::WrongClaim => None,
    }
}

/// Adds to a number of the row.
fn add(row: &mut Row, at: usize, amount: u64)
    requires { at < 21 }
{
    row[at] = row[at].saturating_add(amount);
}

/// Asks for a drawn change, and adds to the row what is answered and what the schedule costs then.
fn ask(rt: &impl Abort, board: &mut Board, state: &mut u64, row: &mut Row) {
    let drawn = drawn_ask(board, state);
    let reply = board.answer(0, drawn);
    let Some(at) = column(reply) else {
        panic!(rt; "{drawn:?} has the answer {reply:?}");
    };
    add(row, at, 1);
    let cost = board.cost();
    add(row, 18, cost.travel);
    add(row, 19, cost.hard);
    add(row, 20, cost.soft);
}

/// How many games in which the team is at home are kept.
fn kept_at_home(league: &League, home: u8) -> u64 {
    let mut count: u64 = 0;
    for away in 0..league.teams() {
        if home < league.teams() && home != away && league.keeps(home, away) {
            count = count.saturating_add(1);
        }
    }
    count
}

fn kept_games(league: &League) -> u64 {
    let mut count: u64 = 0;
    for home in 0..league.teams() {
        count = count.saturating_add(kept_at_home(league, home));
    }
    count
}

/// Adds what the league says, and what the board shows in the end.
fn add_end(board: &Board, row: &mut Row) {
    let (league, cost) = (board.league(), board.cost());
    add(row, 0, u64::from(league.teams()));
    add(row, 1, u64::from(league.near()));
    add(row, 2, kept_games(league));
    add(row, 13, cost.travel);
    add(row, 14, cost.hard);
    add(row, 15, cost.soft);
    if let Some(best) = board.best() {
        add(row, 16, best.total);
        add(row, 17, best.at);
    }
}

/// The row of a board after 300 drawn questions.
fn asked(rt: &impl Abort, board: &mut Board, state: &mut u64) -> Row {
    let mut row = [0; 21];
    for _ in 0..300 {
        ask(rt, board, state, &mut row);
    }
    add_end(board, &mut row);
    row
}

/// The row of a drawn board of so many teams.
fn row_of(rt: &impl Abort, alloc: Global, mut state: u64, teams: u8) -> Row {
    let league = drawn_league(rt, alloc, &mut state, teams);
    asked(rt, &mut new_board(rt, alloc, league, 4096), &mut state)
}

#[test]
fn drawn_boards_cost_what_a_program_written_apart_counts(rt: HostRuntime) {
    for (number, wanted) in ROWS.iter().enumerate() {
        let found = row_of(&rt, rt.alloc(), 1000 + number as u64, wanted[0] as u8);
        check_same(&rt, &(number, found), &(number, *wanted));
    }
}
