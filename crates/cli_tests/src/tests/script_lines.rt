//! The meaning of a script's lines, and how an input is cut.

use crate::tests::checks::{check_same, check_same_of};
use board_texts::{ScriptLine, parse_line};
use fixture_board::Change;
use fixtures::Game;
use moves::Move;
use text_lines::{next_line, split_input};

const GAME: Game = Game {
    round: 0,
    home: 0,
    away: 3,
};

/// Lines, and what they say.
const LINES: &[(&[u8], ScriptLine)] = &[
    // no command
    (b"", ScriptLine::Skip),
    (b" \t ", ScriptLine::Skip),
    (b"# homes 1 2", ScriptLine::Skip),
    (b"#", ScriptLine::Skip),
    // moves
    (
        b"homes 1 2",
        ScriptLine::Asks(Change::Shift(Move::Homes { i: 0, j: 1 })),
    ),
    (
        b"\thomes  1\t2 ",
        ScriptLine::Asks(Change::Shift(Move::Homes { i: 0, j: 1 })),
    ),
    (
        b"rounds 2 40",
        ScriptLine::Asks(Change::Shift(Move::Rounds { k: 1, l: 39 })),
    ),
    (
        b"teams 3 1",
        ScriptLine::Asks(Change::Shift(Move::Teams { i: 2, j: 0 })),
    ),
    (
        b"part-rounds 1 2 3",
        ScriptLine::Asks(Change::Shift(Move::PartRounds { i: 0, k: 1, l: 2 })),
    ),
    (
        b"part-teams 1 2 3",
        ScriptLine::Asks(Change::Shift(Move::PartTeams { i: 0, j: 1, k: 2 })),
    ),
    // pins and undos
    (b"pin 1 1 4", ScriptLine::Asks(Change::Pin(GAME))),
    (b"unpin 1 1 4", ScriptLine::Asks(Change::Unpin(GAME))),
    (b"undo", ScriptLine::Asks(Change::Undo)),
    // moves that are tried
    (
        b"try homes 1 2",
        ScriptLine::Tries(Move::Homes { i: 0, j: 1 }),
    ),
    (
        b"\ttry  part-teams 1 2 256 ",
        ScriptLine::Tries(Move::PartTeams { i: 0, j: 1, k: 255 }),
    ),
    // slack
    (b"slack 0", ScriptLine::Slack(0)),
    (
        b"slack 18446744073709551615",
        ScriptLine::Slack(18446744073709551615),
    ),
    (b"slack 00000000000000000007", ScriptLine::Slack(7)),
    // numbers that are no place are handed on as 255
    (
        b"homes 1 0",
        ScriptLine::Asks(Change::Shift(Move::Homes { i: 0, j: 255 })),
    ),
    (
        b"homes 1 256",
        ScriptLine::Asks(Change::Shift(Move::Homes { i: 0, j: 255 })),
    ),
    (
        b"homes 1 255",
        ScriptLine::Asks(Change::Shift(Move::Homes { i: 0, j: 254 })),
    ),
    (
        b"homes 1 18446744073709551615",
        ScriptLine::Asks(Change::Shift(Move::Homes { i: 0, j: 255 })),
    ),
    // bad lines
    (b"homes 1 18446744073709551616", ScriptLine::Bad),
    (b"homes 1 99999999999999999999", ScriptLine::Bad),
    (b"slack 000000000000000000007", ScriptLine::Bad),
    (b"HOMES 1 2", ScriptLine::Bad),
    (b"\xff", ScriptLine::Bad),
    (b"script", ScriptLine::Bad),
    (b"homes 1", ScriptLine::Bad),
    (b"homes 1 2 3", ScriptLine::Bad),
    (b"homes 1 2 3 4", ScriptLine::Bad),
    (b"homes 1 +2", ScriptLine::Bad),
    (b"homes 1 -2", ScriptLine::Bad),
    (b"homes 1 2\r", ScriptLine::Bad),
    (b"undo 1", ScriptLine::Bad),
    (b"slack", ScriptLine::Bad),
    (b"pin 1 1", ScriptLine::Bad),
    (b"try", ScriptLine::Bad),
    (b"try undo", ScriptLine::Bad),
    (b"try slack 0", ScriptLine::Bad),
    (b"try pin 1 1 4", ScriptLine::Bad),
    (b"try try homes 1 2", ScriptLine::Bad),
    (b"try homes 1", ScriptLine::Bad),
    (b"try # homes 1 2", ScriptLine::Bad),
    (b"tryhomes 1 2", ScriptLine::Bad),
];

#[test]
fn lines_are_read(rt: HostRuntime) {
    for (line, read) in LINES {
        check_same_of(&rt, line, &parse_line(line), read);
    }
}

/// Inputs with their leagues and scripts.
const INPUTS: &[(&[u8], (&[u8], &[u8]))] = &[
    (b"", (b"", b"")),
    (b"{}", (b"{}", b"")),
    (b"{}\n", (b"{}\n", b"")),
    (b"{}\nscript\nundo\n", (b"{}\n", b"undo\n")),
    (b"{}\r\nscript\r\nundo", (b"{}\r\n", b"undo")),
    (b"{}\nscript", (b"{}\n", b"")),
    (b"script\nscript\n", (b"", b"script\n")),
    (b"{}\nscript \nundo\n", (b"{}\nscript \nundo\n", b"")),
    (b"{}\nscript\r", (b"{}\nscript\r", b"")),
    (b"{}\n\nscript\r\r\n", (b"{}\n\nscript\r\r\n", b"")),
];

#[test]
fn an_input_is_a_league_and_a_script(rt: HostRuntime) {
    for (input, parts) in INPUTS {
        check_same_of(&rt, input, &split_input(input), parts);
    }
}

/// The lines of a text, and what is taken off it behind the last one.
const ENDED: [Option<&[u8]>; 6] = [
    Some(b"a"),
    Some(b""),
    Some(b""),
    Some(b"b\r"),
    Some(b"c\r"),
    None,
];

#[test]
fn lines_lose_their_ends(rt: HostRuntime) {
    let mut text = b"a\r\n\r\n\nb\r\r\nc\r".as_slice();
    for line in ENDED {
        check_same(&rt, &next_line(&mut text), &line);
    }
}
