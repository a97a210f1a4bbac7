//! The largest league that can be read: 40 teams, the greatest distances and names, and 256 rules of the greatest
//! deviation and weight. The numbers are those that `scripts/oracle play` prints, which shares no code with the crates.

use crate::tests::checks::{check_holds, check_same};
use crate::tests::closings::{closing, script};
use crate::tests::samples::SCRIPT;
use crate::tests::searches::found;
use crate::tests::told::Text::Excerpt;
use crate::tests::told::{Command, PLAY_OF_1024, Text, WRITTEN, check_case, tell};
use commands::SearchPlan;
use std::alloc::{AllocError, Global};
use std::process::Abort;
use std::test::Fail;

const NAME: &str = "\"0123456789012345678901234567890123456789\"";

const TEAMS: &str = "1,2,3,4,5,6,7,8,9,10,11,12,13,14,15,16,17,18,19,20,\
    21,22,23,24,25,26,27,28,29,30,31,32,33,34,35,36,37,38,39,40";

/// So many of the item, with commas between.
fn times(alloc: Global, count: usize, item: &str) -> Result<String, AllocError> {
    let mut text = String::from_str(alloc, item)?;
    for _ in 1..count {
        text.push_str(",")?;
        text.push_str(item)?;
    }
    Ok(text)
}

/// The numbers of 40 rows, of which the outermost brackets are left out.
fn distances(alloc: Global) -> Result<String, AllocError> {
    let mut text = String::from_str(alloc, "0")?;
    for place in 1..1600 {
        text.push_str(if place % 40 == 0 { "],[" } else { "," })?;
        text.push_str(if place % 41 == 0 { "0" } else { "1000000" })?;
    }
    Ok(text)
}

/// The league whose rules are hard or soft.
fn largest(alloc: Global, kind: &str, at_most: u8) -> Result<String, AllocError> {
    let rule = format!(in alloc;
        "{{\"class\":\"SE1\",\"kind\":\"{kind}\",\"weight\":1000000,\"teams\":[{TEAMS}],\"min\":10000}}"
    )?;
    let (names, rules) = (times(alloc, 40, NAME)?, times(alloc, 256, rule.as_str())?);
    let distances = distances(alloc)?;
    format!(in alloc;
        "{{\"format\":1,\"teams\":[{names}],\"distances\":[[{distances}]],\"at_most\":{at_most},\
        \"hard_weight\":1000000,\"rules\":[{rules}]}}"
    )
}

const LINES: &str =
    "pin 1 10 31\nunpin 1 10 31\nrounds 1 78\nhomes 1 40\nteams 1 40\npart-rounds 3 5 9\n\
    part-teams 1 2 3\nundo\nslack 0\nrounds 40 41\n";

const SOFT: &str = "start travel 3063000000 hard 0 soft 1989212160000000\n\
    done 1 travel 3063000000 hard 0 soft 1989212160000000\n\
    done 2 travel 3063000000 hard 0 soft 1989212160000000\n\
    done 3 travel 3061000000 hard 0 soft 1989222400000000\n\
    done 4 travel 3061000000 hard 0 soft 1989222400000000\n\
    done 5 travel 3061000000 hard 0 soft 1989222400000000\n\
    done 6 travel 3055000000 hard 0 soft 1989222400000000\n\
    no 6 meet\n\
    done 7 travel 3061000000 hard 0 soft 1989222400000000\n";

const HARD: &str = "start travel 3063000000 hard 1989212274 soft 0\n\
    done 1 travel 3063000000 hard 1989212274 soft 0\n\
    done 2 travel 3063000000 hard 1989212274 soft 0\n\
    done 3 travel 3061000000 hard 1989222518 soft 0\n\
    done 4 travel 3061000000 hard 1989222518 soft 0\n\
    done 5 travel 3061000000 hard 1989222518 soft 0\n\
    done 6 travel 3055000000 hard 1989222530 soft 0\n\
    no 6 meet\n\
    done 7 travel 3061000000 hard 1989222518 soft 0\n";

/// The lines that follow in both plays.
const REST: &str =
    "slack 0\nno 7 worse\nhistory 7\npin 1 10 31\nunpin 1 10 31\nrounds 1 78\nhomes 1 40\nteams 1 40\n\
    part-rounds 3 5 9\nundo\nend\n";

/// Where the rules are soft, and where they are hard: how many rounds in a row are allowed, how the play text of the script begins
/// before the rest and how it ends, and a part of the text of a search.
const LEAGUES: [(&str, u8, &str, &str, &str); 2] = [
    (
        "soft",
        78,
        SOFT,
        "best 1989215223000000 at 0\n",
        "\nbest 19892",
    ),
    ("hard", 1, HARD, "best none\n", "\nbest none\n"),
];

/// The script's play text begins so, with the rest behind, and ends so.
fn check_costs(
    rt: &impl Abort,
    alloc: Global,
    league: &str,
    begins: &str,
    ends: &str,
) -> Result<(), Fail> {
    let input = [league, SCRIPT, LINES].concat(alloc)?;
    let played = tell(alloc, PLAY_OF_1024, input.as_bytes())?;
    check_same(rt, &played.answer, &WRITTEN);
    let front = [begins, REST].concat(alloc)?;
    let does_begin = played.text.as_slice().starts_with(front.as_bytes());
    check_holds(rt, &begins, does_begin);
    check_holds(rt, &ends, played.text.as_slice().ends_with(ends.as_bytes()));
    Ok(())
}

#[test]
fn the_largest_leagues_have_exact_costs(rt: HostRuntime) -> Result<(), Fail> {
    for (kind, at_most, begins, ends, _) in LEAGUES {
        let league = largest(rt.alloc(), kind, at_most)?;
        check_costs(&rt, rt.alloc(), league.as_str(), begins, ends)?;
    }
    Ok(())
}

/// Lines of its sheet.
const SHEET: Text<'_> = Excerpt(
    "league 40 teams 78 rounds\n",
    &[
        "team 40 AHAHAHAHAHAHAHAHAHAHAHAHAHAHAHAHAHAHAHAHAHAHAHAHAHAHAHAHAHAHAHAHAHAHAHAHAHAHAH \
    0123456789012345678901234567890123456789\n",
        "\nround 1: 1-40 2-39 3-38 4-37 5-36 6-35 7-34 8-33 9-32 10-31 11-30 12-29 13-28 14-27 15-26 16-25 17-24 18-23 \
    19-22 20-21\n",
        "\nround 78: 1-39 2-38 3-37 4-36 5-35 6-34 7-33 8-32 9-31 10-30 11-29 12-28 13-27 14-26 15-25 16-24 17-23 18-22 \
    19-21 40-20\n",
    ],
    "",
);

#[test]
fn the_largest_league_has_a_start(rt: HostRuntime) -> Result<(), Fail> {
    let league = largest(rt.alloc(), "hard", 1)?;
    let input = [league.as_str()];
    let case = (Command::Start, input.as_slice(), WRITTEN, SHEET);
    check_case(&rt, rt.alloc(), &case)
}

/// A search of six steps by one worker.
const SIX_STEPS: SearchPlan = SearchPlan {
    workers: 1,
    seed: 1,
    steps: 6,
    slack: u64::MAX,
};

/// The history, played as a script, leads to the same history.
fn check_played_again(
    rt: &impl Abort,
    alloc: Global,
    league: &str,
    history: &str,
) -> Result<(), Fail> {
    let input = [league, SCRIPT, script(history)].concat(alloc)?;
    let played = tell(alloc, Command::Play { room: 64 }, input.as_bytes())?;
    let Some((again, _)) = closing(&played.text) else {
        return Err(Fail::new("no history"));
    };
    check_same(rt, &again, &history);
    Ok(())
}

/// A worker's claims are the board's scores, so that each of its proposals is accepted, and is again when its history is
/// played.
fn check_search(
    rt: &impl Abort,
    alloc: Global,
    league: &str,
    found: &[u8],
    best: &str,
) -> Result<(), Fail> {
    let text = Excerpt("", &[" refused 0\n", best], "");
    check_holds(rt, &best, text.is_told(found));
    let Some((history, _)) = closing(found) else {
        return Err(Fail::new("no history"));
    };
    check_holds(rt, &history, history != "0");
    check_played_again(rt, alloc, league, history)
}

#[test]
fn the_largest_leagues_are_searched(rt: HostRuntime) -> Result<(), Fail> {
    for (kind, at_most, _, _, best) in LEAGUES {
        let league = largest(rt.alloc(), kind, at_most)?;
        let told = found(&rt, rt.alloc(), league.as_str(), 64, SIX_STEPS)?;
        check_search(&rt, rt.alloc(), league.as_str(), &told.text, best)?;
    }
    Ok(())
}
