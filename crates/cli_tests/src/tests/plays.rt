//! Known play texts.

use crate::tests::checks::check_same;
use crate::tests::circle::{CIRCLE, SHEET};
use crate::tests::samples::{self, SCRIPT};
use crate::tests::told::Text::Excerpt;
use crate::tests::told::{Case, Command, NOTHING, PLAY_OF_1024, Text, WRITTEN, check_cases, tell};
use commands::ProgramFault;
use league::LeagueFault;
use std::test::Fail;

const NO_JSON: ProgramFault = ProgramFault::League(LeagueFault::NotJson);

const TOO_MUCH: Command = Command::Play { room: 1_048_577 };

/// The answers where no line follows the line `script`, and where one exchanges homes.
const NO_LINES: &str = "start travel 30 hard 0 soft 0\nhistory 0\n";

const ONE_LINE: &str = "start travel 30 hard 0 soft 0\ndone 1 travel 26 hard 0 soft 0\nhistory 1\n";

const CASES: &[Case<'_>] = &[
    samples::PLAY,
    // the first fault
    (TOO_MUCH, &[""], Err(NO_JSON), NOTHING),
    (TOO_MUCH, &[CIRCLE], Err(ProgramFault::Room), NOTHING),
    // the line `script` ends in a carriage return and a line feed, in a line feed, or with the input
    (
        PLAY_OF_1024,
        &[CIRCLE, "\nscript\nhomes 1 2\n"],
        WRITTEN,
        Excerpt(ONE_LINE, &[], ""),
    ),
    (
        PLAY_OF_1024,
        &[CIRCLE, "\nscript\r\nhomes 1 2\r\n"],
        WRITTEN,
        Excerpt(ONE_LINE, &[], ""),
    ),
    (
        PLAY_OF_1024,
        &[CIRCLE, "\r\nscript\r\nhomes 1 2"],
        WRITTEN,
        Excerpt(ONE_LINE, &[], ""),
    ),
    (
        PLAY_OF_1024,
        &[CIRCLE, "\nscript"],
        WRITTEN,
        Excerpt(NO_LINES, &[], ""),
    ),
    (
        PLAY_OF_1024,
        &[CIRCLE, "\nscript\r\n"],
        WRITTEN,
        Excerpt(NO_LINES, &[], ""),
    ),
    // none of these is the line `script`, so that it belongs to the league's text
    (
        PLAY_OF_1024,
        &[CIRCLE, "\nscript \nundo\n"],
        Err(NO_JSON),
        NOTHING,
    ),
    (
        PLAY_OF_1024,
        &[CIRCLE, "\n script\nundo\n"],
        Err(NO_JSON),
        NOTHING,
    ),
    (
        PLAY_OF_1024,
        &[CIRCLE, "\nscript\t\nundo\n"],
        Err(NO_JSON),
        NOTHING,
    ),
    (
        PLAY_OF_1024,
        &[CIRCLE, "\nScript\nundo\n"],
        Err(NO_JSON),
        NOTHING,
    ),
    (
        PLAY_OF_1024,
        &[CIRCLE, "\nscripts\nundo\n"],
        Err(NO_JSON),
        NOTHING,
    ),
    (
        PLAY_OF_1024,
        &[CIRCLE, "\nscript\r\r\nundo\n"],
        Err(NO_JSON),
        NOTHING,
    ),
    (
        PLAY_OF_1024,
        &[CIRCLE, "\nscript\0\nundo\n"],
        Err(NO_JSON),
        NOTHING,
    ),
];

#[test]
fn plays_have_their_texts_and_faults(rt: HostRuntime) -> Result<(), Fail> {
    check_cases(&rt, rt.alloc(), CASES)
}

const HOSTILE: &[u8] =
    b"homes 1 0\nhomes 1 256\npin 0 1 4\npin 1 1 1\nhomes 1 18446744073709551616\n  homes 1 2 \t\r\n\
    HOMES 1 2\n\xff\nscript\n";

const TOLD_OF_HOSTILE: Text<'_> = Excerpt(
    "start travel 30 hard 0 soft 0\nno 0 bad move\nno 0 bad move\nno 0 bad game\nno 0 bad game\n\
        bad line 5\ndone 1 travel 26 hard 0 soft 0\nbad line 7\nbad line 8\nbad line 9\n\
        history 1\nhomes 1 2\nend\n",
    &[],
    "best 26 at 1\n",
);

#[test]
fn hostile_lines_are_told_and_change_nothing(rt: HostRuntime) -> Result<(), Fail> {
    let parts = [CIRCLE.as_bytes(), SCRIPT.as_bytes(), HOSTILE];
    let told = tell(rt.alloc(), PLAY_OF_1024, &parts.concat(rt.alloc())?)?;
    check_same(&rt, &TOLD_OF_HOSTILE.is_told(&told.text), &true);
    Ok(())
}

/// Moves that can be made, one of them far above the slack, and some that can't. Then lines that try no move.
const TRIES: &str = "try homes 1 2\nslack 0\ntry rounds 2 4\nhomes 1 2\npin 1 1 4\ntry rounds 1 2\n\
    try part-teams 1 2 2\ntry homes 1 1\ntry undo\ntry\ntry pin 2 2 1\ntry try homes 1 2\ntry homes 1\n";

const TOLD_OF_TRIES: &str =
    "start travel 30 hard 0 soft 0\nwould travel 26 hard 0 soft 0\nslack 0\n\
    would travel 30 hard 4 soft 0\ndone 1 travel 26 hard 0 soft 0\ndone 2 travel 26 hard 0 soft 0\n\
    no 2 pinned\nno 2 meet\nno 2 bad move\nbad line 9\nbad line 10\nbad line 11\nbad line 12\nbad line 13\n\
    history 2\nhomes 1 2\npin 1 1 4\nend\n";

const FULL: &str = "start travel 30 hard 0 soft 0\nno 0 full\nhistory 0\nend\n";

const TRIED: &[Case<'_>] = &[
    (
        PLAY_OF_1024,
        &[CIRCLE, SCRIPT, TRIES],
        WRITTEN,
        Excerpt(TOLD_OF_TRIES, &["round 2: 2-1 4-3\n"], "best 26 at 1\n"),
    ),
    (
        Command::Play { room: 0 },
        &[CIRCLE, SCRIPT, "try homes 1 2\n"],
        WRITTEN,
        Excerpt(FULL, &[SHEET], "best 30 at 0\n"),
    ),
];

#[test]
fn tries_are_told_and_change_nothing(rt: HostRuntime) -> Result<(), Fail> {
    check_cases(&rt, rt.alloc(), TRIED)
}
