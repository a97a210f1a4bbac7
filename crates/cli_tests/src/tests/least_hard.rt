//! The lines about a board without a feasible schedule, where an improvement ends with it.

use crate::tests::checks::check_holds;
use crate::tests::told::Text::{self, Excerpt};
use board_texts::write_improved;
use byte_streams::{BufferedSink, MemorySink};
use fixture_board::{Ask, Board, Change};
use league_json::read_league;
use moves::Move;
use std::alloc::Global;
use std::process::Abort;
use std::test::Fail;

/// Two games in a row at home, or away, are too many. The first rule is soft, and the third is kept.
const STRICT: &str = r#"{
    "format": 2,
    "teams": ["A", "B", "C", "D"],
    "distances": [[0, 1, 1, 1], [1, 0, 1, 1], [1, 1, 0, 1], [1, 1, 1, 0]],
    "at_most": 1,
    "phased": true,
    "rules": [
        {"class": "CA1", "kind": "soft", "weight": 5, "teams": [2], "mode": "H", "max": 0},
        {"class": "BR2", "kind": "hard", "teams": [1, 2, 3, 4], "intp": 1},
        {"class": "GA1", "kind": "hard", "games": [[1, 2]], "slots": [2], "min": 1, "max": 1},
        {"class": "SE1", "kind": "hard", "teams": [1, 3], "min": 3}
    ]
}"#;

/// The league with free repeats.
const FREE: &str = r#"{
    "format": 3,
    "teams": ["A", "B", "C", "D"],
    "distances": [[0, 1, 1, 1], [1, 0, 1, 1], [1, 1, 0, 1], [1, 1, 1, 0]],
    "at_most": 1,
    "phased": true,
    "repeats": "free",
    "rules": [
        {"class": "CA1", "kind": "soft", "weight": 5, "teams": ["B"], "mode": "H", "max": 0},
        {"class": "BR2", "kind": "hard", "teams": [1, 2, 3, 4], "intp": 1},
        {"class": "GA1", "kind": "hard", "games": [["A", 2]], "slots": [2], "min": 1, "max": 1},
        {"class": "SE1", "kind": "hard", "teams": ["A", "C"], "min": 3}
    ]
}"#;

/// The games of the first and the fifth round are exchanged.
const CHANGE: Change = Change::Shift(Move::Rounds { k: 0, l: 4 });

/// By hand: teams 1 and 3 are twice in a row at home, and twice away. The pairs 1-2 and 3-4 meet in rounds 1 and 2, and the pairs
/// 1-4 and 2-3 in rounds 4 and 5. The four breaks are three over the one that is allowed. Two rounds stand between the games of
/// teams 1 and 3.
const FOUND: Text<'_> = Excerpt(
    "history 1\nrounds 1 5\nend\nleague 4 teams 6 rounds\n",
    &["team 1 AHAAHH A\n", "team 3 HAHHAA C\n"],
    "round 6: 1-3 4-2\nleast hard 16: runs 4, repeats 4, halves 4, rule 2 BR2 3, rule 4 SE1 1\nbest none\n",
);

const WITHOUT_HISTORY: Text<'_> = Excerpt(
    "league 4 teams 6 rounds\nteam 1 AHAAHH A\n",
    &["team 3 HAHHAA C\n"],
    "round 6: 1-3 4-2\nleast hard 16: runs 4, repeats 4, halves 4, rule 2 BR2 3, rule 4 SE1 1\nbest none\n",
);

/// Without the four repeats.
const FOUND_IF_FREE: Text<'_> = Excerpt(
    "history 1\nrounds 1 5\nend\nleague 4 teams 6 rounds\n",
    &["team 1 AHAAHH A\n", "team 3 HAHHAA C\n"],
    "round 6: 1-3 4-2\nleast hard 12: runs 4, halves 4, rule 2 BR2 3, rule 4 SE1 1\nbest none\n",
);

/// Leagues, whether the history is wanted, and what an improvement ends with.
const ENDS: [(&str, bool, Text<'_>); 3] = [
    (STRICT, true, FOUND),
    (STRICT, false, WITHOUT_HISTORY),
    (FREE, true, FOUND_IF_FREE),
];

fn strict_board(alloc: Global, league: &str) -> Result<Board, Fail> {
    let league = read_league(alloc, league.as_bytes())?;
    let mut board = Board::new(alloc, league, 1)?;
    let ask = Ask::of(CHANGE, board.version(), u64::MAX);
    board.answer(0, ask);
    Ok(board)
}

fn check_improved(
    rt: &impl Abort,
    board: &Board,
    history: bool,
    wanted: Text<'_>,
) -> Result<(), Fail> {
    let mut buffer = [0; 1000];
    let mut sink = MemorySink::new(&mut buffer);
    let mut out = BufferedSink::new(&mut sink);
    write_improved(&mut out, board, history)?;
    out.flush()?;
    check_holds(rt, &history, wanted.is_told(sink.held()));
    Ok(())
}

#[test]
fn parts_that_are_broken_are_told_with_their_numbers(rt: HostRuntime) -> Result<(), Fail> {
    for (league, history, found) in ENDS {
        let board = strict_board(rt.alloc(), league)?;
        check_improved(&rt, &board, history, found)?;
    }
    Ok(())
}
