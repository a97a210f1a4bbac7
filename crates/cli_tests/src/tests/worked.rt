//! Scripts whose answers are known from elsewhere, and their histories played again. The costs of six and ten teams are those
//! of `scripts/oracle play`.

use crate::tests::checks::check_same_of;
use crate::tests::circle::{CIRCLE, FIRST, FOUR, SHEET};
use crate::tests::closings::{closing, script};
use crate::tests::samples::SCRIPT;
use crate::tests::told::Text::Excerpt;
use crate::tests::told::{Case, Command, PLAY_OF_1024, Told, WRITTEN, check_cases, tell};
use std::alloc::{AllocError, Global};
use std::process::Abort;
use std::test::Fail;

/// The ends of leagues with four teams.
const AT_MOST_TWO: &str = r#","at_most":2}"#;

const SOFT_RULES: &str = r#","rules":[
    {"class":"BR2","kind":"soft","weight":10,"teams":[1,2,3,4],"intp":4},
    {"class":"CA3","kind":"soft","weight":10,"teams1":[3],"mode":"H","intp":3,"max":2},
    {"class":"SE1","kind":"soft","weight":10,"teams":[1,4],"min":3},
    {"class":"CA2","kind":"soft","weight":10,"teams1":[1],"mode":"A","teams2":[3,4],"slots":[3,4],"max":0},
    {"class":"GA1","kind":"soft","weight":10,"games":[[1,2]],"slots":[2],"min":1,"max":1}]}"#;

const FAR: &str =
    r#"{"format":1,"teams":["T1","T2","T3","T4"],"distances":[[0,1000000,1000000,1000000],
    [1000000,0,1000000,1000000],[1000000,1000000,0,1000000],[1000000,1000000,1000000,0]]}"#;

const SIX: &str =
    r#"{"format":1,"teams":["T1","T2","T3","T4","T5","T6"],"distances":[[0,1,2,3,2,1],[1,0,1,2,3,2],
    [2,1,0,1,2,3],[3,2,1,0,1,2],[2,3,2,1,0,1],[1,2,3,2,1,0]]}"#;

const TEN: &str =
    r#"{"format":1,"teams":["T1","T2","T3","T4","T5","T6","T7","T8","T9","T10"],"distances":[
    [0,1,2,3,4,5,4,3,2,1],[1,0,1,2,3,4,5,4,3,2],[2,1,0,1,2,3,4,5,4,3],[3,2,1,0,1,2,3,4,5,4],
    [4,3,2,1,0,1,2,3,4,5],[5,4,3,2,1,0,1,2,3,4],[4,5,4,3,2,1,0,1,2,3],[3,4,5,4,3,2,1,0,1,2],
    [2,3,4,5,4,3,2,1,0,1],[1,2,3,4,5,4,3,2,1,0]]}"#;

/// Leagues, each with a script of moves.
const MOVES: &[Case<'_>] = &[
    (
        PLAY_OF_1024,
        &[CIRCLE, SCRIPT, "homes 1 2\n"],
        WRITTEN,
        Excerpt(
            "start travel 30 hard 0 soft 0\ndone 1 travel 26 hard 0 soft 0\nhistory 1\nhomes 1 2\nend\n",
            &["round 2: 2-1 4-3\n", "round 5: 1-2 3-4\n"],
            "best 26 at 1\n",
        ),
    ),
    (
        PLAY_OF_1024,
        &[CIRCLE, SCRIPT, "slack 0\nrounds 2 4\n"],
        WRITTEN,
        Excerpt(
            "start travel 30 hard 0 soft 0\nslack 0\nno 0 worse\nhistory 0\nend\n",
            &[SHEET],
            "best 30 at 0\n",
        ),
    ),
    (
        PLAY_OF_1024,
        &[CIRCLE, SCRIPT, "rounds 2 4\n"],
        WRITTEN,
        Excerpt(
            "start travel 30 hard 0 soft 0\ndone 1 travel 30 hard 4 soft 0\nhistory 1\n",
            &["round 2: 3-2 4-1\n", "round 4: 1-2 4-3\n"],
            "best 30 at 0\n",
        ),
    ),
    (
        PLAY_OF_1024,
        &[CIRCLE, SCRIPT, "rounds 1 3\n"],
        WRITTEN,
        Excerpt(
            "start travel 30 hard 0 soft 0\ndone 1 travel 32 hard 2 soft 0\n",
            &["round 1: 2-4 3-1\n", "round 3: 1-4 2-3\n"],
            "best 30 at 0\n",
        ),
    ),
    (
        PLAY_OF_1024,
        &[CIRCLE, SCRIPT, "teams 1 2\n"],
        WRITTEN,
        Excerpt(
            "start travel 30 hard 0 soft 0\ndone 1 travel 26 hard 0 soft 0\n",
            &[
                "round 1: 1-3 2-4\nround 2: 1-2 4-3\nround 3: 1-4 3-2\nround 4: 3-1 4-2\nround 5: 2-1 3-4\nround 6: 2-3 4-1\n",
            ],
            "best 26 at 1\n",
        ),
    ),
    (
        PLAY_OF_1024,
        &[CIRCLE, SCRIPT, "part-rounds 1 1 4\n"],
        WRITTEN,
        Excerpt(
            "start travel 30 hard 0 soft 0\ndone 1 travel 30 hard 0 soft 0\n",
            &["round 1: 2-3 4-1\n", "round 4: 1-4 3-2\n"],
            "best 30 at 0\n",
        ),
    ),
    (
        PLAY_OF_1024,
        &[CIRCLE, SCRIPT, "part-teams 1 3 1\npart-teams 1 3 3\n"],
        WRITTEN,
        Excerpt(
            "start travel 30 hard 0 soft 0\ndone 1 travel 28 hard 4 soft 0\nno 1 meet\n",
            &["history 1\npart-teams 1 3 1\nend\n"],
            "best 30 at 0\n",
        ),
    ),
    (
        PLAY_OF_1024,
        &[CIRCLE, SCRIPT, "part-teams 1 3 3\n"],
        WRITTEN,
        Excerpt(
            "start travel 30 hard 0 soft 0\nno 0 meet\nhistory 0\nend\n",
            &[SHEET],
            "best 30 at 0\n",
        ),
    ),
    (
        PLAY_OF_1024,
        &[CIRCLE, SCRIPT, "rounds 5 6\n"],
        WRITTEN,
        Excerpt(
            "start travel 30 hard 0 soft 0\ndone 1 travel 28 hard 0 soft 0\n",
            &["round 5: 1-3 4-2\n", "round 6: 2-1 3-4\n"],
            "best 28 at 1\n",
        ),
    ),
    (
        PLAY_OF_1024,
        &[CIRCLE, SCRIPT, "homes 1 2\nteams 1 2\n"],
        WRITTEN,
        Excerpt(
            "start travel 30 hard 0 soft 0\ndone 1 travel 26 hard 0 soft 0\ndone 2 travel 26 hard 0 soft 0\n",
            &["history 2\nhomes 1 2\nteams 1 2\nend\n"],
            "best 26 at 1\n",
        ),
    ),
    (
        PLAY_OF_1024,
        &[SIX, SCRIPT, "part-teams 1 4 1"],
        WRITTEN,
        Excerpt(
            "start travel 102 hard 0 soft 0\ndone 1 travel 96 hard 2 soft 0\n",
            &[
                "round 1: 2-5 3-1 4-6\n",
                "round 3: 1-5 2-6 3-4\n",
                "round 7: 1-6 2-4 3-5\n",
                "round 10: 2-1 4-5 6-3\n",
                "history 1\npart-teams 1 4 1\nend\n",
            ],
            "best 102 at 0\n",
        ),
    ),
    (
        PLAY_OF_1024,
        &[TEN, SCRIPT, "part-rounds 1 1 4"],
        WRITTEN,
        Excerpt(
            "start travel 480 hard 0 soft 0\ndone 1 travel 470 hard 0 soft 0\n",
            &[
                "round 1: 1-4 2-9 3-8 5-6 10-7\n",
                "round 4: 1-10 2-3 4-7 8-6 9-5\n",
                "history 1\npart-rounds 1 1 4\nend\n",
            ],
            "best 470 at 1\n",
        ),
    ),
];

/// Pins, undos, limits, rules and full boards.
const BOARDS: &[Case<'_>] = &[
    (
        PLAY_OF_1024,
        &[
            CIRCLE,
            SCRIPT,
            "pin 1 1 4\nrounds 1 2\nteams 1 2\nhomes 2 3\npin 1 1 4\nunpin 1 4 1\nunpin 4 4 1\n",
        ],
        WRITTEN,
        Excerpt(
            "start travel 30 hard 0 soft 0\ndone 1 travel 30 hard 0 soft 0\nno 1 pinned\nno 1 pinned\n\
        done 2 travel 30 hard 0 soft 0\nno 2 already pinned\nno 2 not there\nno 2 not pinned\n",
            &[
                "history 2\npin 1 1 4\nhomes 2 3\nend\n",
                "round 1: 1-4 3-2\n",
            ],
            "best 30 at 0\n",
        ),
    ),
    (
        PLAY_OF_1024,
        &[CIRCLE, SCRIPT, "pin 1 1 4\nundo\nrounds 1 2\n"],
        WRITTEN,
        Excerpt(
            "start travel 30 hard 0 soft 0\ndone 1 travel 30 hard 0 soft 0\n\
        done 2 travel 30 hard 0 soft 0\ndone 3 travel 28 hard 0 soft 0\n",
            &[
                "history 3\npin 1 1 4\nundo\nrounds 1 2\nend\n",
                "round 1: 1-2 4-3\n",
            ],
            "best 28 at 3\n",
        ),
    ),
    (
        PLAY_OF_1024,
        &[CIRCLE, SCRIPT, "homes 1 2\nundo\nteams 1 2\n"],
        WRITTEN,
        Excerpt(
            "start travel 30 hard 0 soft 0\ndone 1 travel 26 hard 0 soft 0\n\
        done 2 travel 30 hard 0 soft 0\ndone 3 travel 26 hard 0 soft 0\n",
            &["history 3\nhomes 1 2\nundo\nteams 1 2\nend\n"],
            "best 26 at 1\n",
        ),
    ),
    (
        PLAY_OF_1024,
        &[CIRCLE, SCRIPT, "\n# note\nhomes 1\nhomes 1 1\nundo"],
        WRITTEN,
        Excerpt(
            "start travel 30 hard 0 soft 0\nbad line 3\nno 0 bad move\nno 0 nothing to undo\nhistory 0\nend\n",
            &[SHEET],
            "best 30 at 0\n",
        ),
    ),
    (
        PLAY_OF_1024,
        &[FIRST, FOUR, AT_MOST_TWO, SCRIPT, "rounds 5 6\nundo\n"],
        WRITTEN,
        Excerpt(
            "start travel 30 hard 2 soft 0\ndone 1 travel 28 hard 0 soft 0\ndone 2 travel 30 hard 2 soft 0\n",
            &[SHEET],
            "best 28 at 1\n",
        ),
    ),
    (
        PLAY_OF_1024,
        &[FIRST, FOUR, AT_MOST_TWO, SCRIPT, ""],
        WRITTEN,
        Excerpt(
            "start travel 30 hard 2 soft 0\nhistory 0\nend\n",
            &[SHEET],
            "best none\n",
        ),
    ),
    (
        PLAY_OF_1024,
        &[FIRST, FOUR, SOFT_RULES, SCRIPT, "homes 1 2\n"],
        WRITTEN,
        Excerpt(
            "start travel 30 hard 0 soft 60\ndone 1 travel 26 hard 0 soft 110\n",
            &["history 1\nhomes 1 2\nend\n"],
            "best 90 at 0\n",
        ),
    ),
    (
        Command::Play { room: 0 },
        &[FAR, SCRIPT, "homes 1 2\n"],
        WRITTEN,
        Excerpt(
            "start travel 21000000 hard 0 soft 0\nno 0 full\nhistory 0\nend\n",
            &[SHEET],
            "best 21000000 at 0\n",
        ),
    ),
    (
        Command::Play { room: 0 },
        &[CIRCLE, SCRIPT, "homes 1 2\n"],
        WRITTEN,
        Excerpt(
            "start travel 30 hard 0 soft 0\nno 0 full\nhistory 0\nend\n",
            &[SHEET],
            "best 30 at 0\n",
        ),
    ),
    (
        Command::Play { room: 1 },
        &[CIRCLE, SCRIPT, "homes 1 2\nhomes 1 2\nundo\n"],
        WRITTEN,
        Excerpt(
            "start travel 30 hard 0 soft 0\ndone 1 travel 26 hard 0 soft 0\nno 1 full\nno 1 full\n",
            &["history 1\nhomes 1 2\nend\n"],
            "best 26 at 1\n",
        ),
    ),
];

#[test]
fn scripts_have_known_answers(rt: HostRuntime) -> Result<(), Fail> {
    check_cases(&rt, rt.alloc(), MOVES)?;
    check_cases(&rt, rt.alloc(), BOARDS)
}

/// The text of the case's command for its league and a script.
fn replayed(alloc: Global, case: &Case<'_>, script: &str) -> Result<Told, AllocError> {
    let (command, parts, _, _) = *case;
    let mut input = String::new(alloc);
    // the league stands before the script
    for part in parts {
        input.push_str(part)?;
        if *part == SCRIPT {
            break;
        }
    }
    input.push_str(script)?;
    tell(alloc, command, input.as_bytes())
}

/// The script's history, played as a script, leads to the same end of the text.
fn check_played_again(rt: &impl Abort, alloc: Global, case: &Case<'_>) -> Result<(), Fail> {
    let (command, parts, _, _) = *case;
    let input = parts.concat(alloc)?;
    let first = tell(alloc, command, input.as_bytes())?;
    let Some((history, board)) = closing(&first.text) else {
        return Err(Fail::new("no history"));
    };
    let again = replayed(alloc, case, script(history))?;
    check_same_of(rt, &parts, &closing(&again.text), &Some((history, board)));
    Ok(())
}

#[test]
fn histories_played_again_lead_to_the_same_board(rt: HostRuntime) -> Result<(), Fail> {
    for cases in [MOVES, BOARDS] {
        for case in cases {
            check_played_again(&rt, rt.alloc(), case)?;
        }
    }
    Ok(())
}
