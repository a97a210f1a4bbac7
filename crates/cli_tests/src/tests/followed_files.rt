//! The files that follow an improvement: the best schedule so far, and a line for each leg, on a disk on which each call fails in turn.

use crate::tests::checks::check_same_of;
use crate::tests::memory_disk::Disk;
use byte_streams::{BufferedSink, MemorySink};
use cli::Follower;
use commands::{ImprovePlan, LegEnded, MoveSet, Watcher, Written};
use fixture_board::{Ask, Board, Change};
use league::{League, circular};
use moves::Move;
use options::FileWords;
use std::alloc::{AllocError, Global};
use std::io::Eprint;
use std::process::Abort;
use std::rt::Files;
use std::snapshot::Snapshot;
use std::test::Fail;
use std::time::Clock;

/// A leg that found no schedule that keeps all hard limits, and one that did.
const FIRST: LegEnded = LegEnded {
    number: 1,
    chain: 1,
    moves: MoveSet::Rigid,
    from: 2_666,
    to: 666,
    steps: 43_750,
    accepted: 18_000,
    hard: 3,
    best: None,
    least: None,
};

const SECOND: LegEnded = LegEnded {
    number: 2,
    chain: 7,
    moves: MoveSet::Partial,
    from: 900,
    to: 12_070,
    steps: 700,
    accepted: 0,
    hard: 0,
    best: Some(1_235),
    least: Some(1_234),
};

/// Four teams in a circle at their start, and after an exchange.
const START: &str = "league 4 teams 6 rounds\n\
    team 1 HHAAAH T1\nteam 2 HAHAHA T2\nteam 3 AAHHHA T3\nteam 4 AHAHAH T4\n\
    round 1: 1-4 2-3\nround 2: 1-2 4-3\nround 3: 2-4 3-1\n\
    round 4: 3-2 4-1\nround 5: 2-1 3-4\nround 6: 1-3 4-2\nbest 30\n";

const EXCHANGED: &str = "league 4 teams 6 rounds\n\
    team 1 HAAAHH T1\nteam 2 HHHAAA T2\nteam 3 AAHHHA T3\nteam 4 AHAHAH T4\n\
    round 1: 1-4 2-3\nround 2: 2-1 4-3\nround 3: 2-4 3-1\n\
    round 4: 3-2 4-1\nround 5: 1-2 3-4\nround 6: 1-3 4-2\nbest 26\n";

/// With its history.
const WITH_HISTORY: &str = "history 1\nhomes 1 2\nend\nleague 4 teams 6 rounds\n\
    team 1 HAAAHH T1\nteam 2 HHHAAA T2\nteam 3 AAHHHA T3\nteam 4 AHAHAH T4\n\
    round 1: 1-4 2-3\nround 2: 2-1 4-3\nround 3: 2-4 3-1\n\
    round 4: 3-2 4-1\nround 5: 1-2 3-4\nround 6: 1-3 4-2\nbest 26 at 1\n";

/// The words `--output best.txt` or `--log legs.txt`.
fn words(alloc: Global, output: bool) -> Result<FileWords, AllocError> {
    let name = if output { "best.txt" } else { "legs.txt" };
    let name = Some(String::from_str(alloc, name)?);
    let (output, log) = if output { (name, None) } else { (None, name) };
    Ok(FileWords {
        league: None,
        second: None,
        from: None,
        output,
        log,
    })
}

const PLAN: ImprovePlan = ImprovePlan {
    workers: 1,
    seed: 1,
    effort: 1_000_000,
    first: None,
    history: false,
};

/// A leg ends. A follower doesn't ask what was written by then: nothing here.
fn end_leg<R: Files + Clock + Eprint>(
    follower: &mut Follower<'_, R>,
    leg: LegEnded,
    better: Option<&Board>,
    league: &League,
) {
    let mut buffer = [0; 1];
    let mut sink = MemorySink::new(&mut buffer);
    let out = BufferedSink::new(&mut sink);
    let lent = Snapshot::of(&out);
    let written = Written {
        league,
        plan: PLAN,
        lent: &lent,
        now: Snapshot::of(&out),
    };
    follower.leg_ended(leg, better, written);
}

/// Three legs end. The first one's history leads, the second one's isn't better, and the third one's is.
fn end_legs<R: Files + Clock + Eprint>(follower: &mut Follower<'_, R>, board: &mut Board) {
    end_leg(follower, FIRST, Some(board), board.league());
    end_leg(follower, SECOND, None, board.league());
    let homes = Change::Shift(Move::Homes { i: 0, j: 1 });
    board.answer(0, Ask::of(homes, 0, u64::MAX));
    end_leg(follower, SECOND, Some(board), board.league());
}

/// The legs end. Tells whether a file ever couldn't be written, or nothing if it was refused at once.
fn follow<'a, R: Files + Clock + Eprint>(
    disk: &'a R,
    alloc: Global,
    words: &'a FileWords,
    history: bool,
    board: &mut Board,
) -> Option<bool> {
    match Follower::new(disk, alloc, words, history) {
        Ok(mut follower) => {
            end_legs(&mut follower, board);
            Some(follower.has_failed())
        }
        Err(_) => None,
    }
}

/// The legs end with the words `--output best.txt` or `--log legs.txt`.
fn followed(disk: &Disk, alloc: Global, output: bool, history: bool) -> Result<Option<bool>, Fail> {
    let words = words(alloc, output)?;
    let mut board = Board::new(alloc, circular(alloc, 4)?, 2)?;
    Ok(follow(disk, alloc, &words, history, &mut board))
}

/// Before the first leg it is looked up, as what it is and as a link.
const LOOKED_UP: u64 = 2;

/// One beside it is made and removed then. With a text one is made, takes it in four writes of at most 64 bytes, is synchronized and
/// renamed.
const TRIED: u64 = LOOKED_UP + 2;

const PUT: u64 = 7;

const ALL: u64 = TRIED + 2 * PUT;

const MESSAGE: &str = "ttp: best.txt: cannot be written\n";

/// The answer, what stands in the file and what was said.
type Found<'a> = (Option<bool>, Option<&'a str>, Option<&'a str>);

const REFUSED: Found<'_> = (None, None, None);

const WHOLE: Found<'_> = (Some(false), Some(EXCHANGED), None);

const NOT_THE_FIRST: Found<'_> = (Some(true), Some(EXCHANGED), Some(MESSAGE));

const NOT_THE_SECOND: Found<'_> = (Some(true), Some(START), Some(MESSAGE));

const NEITHER: Found<'_> = (Some(true), None, Some(MESSAGE));

/// Whether the machine stops where a call fails, after how many calls, from and below, that is, and what is found then.
const FOUND: [(bool, u64, u64, Found<'_>); 9] = [
    (true, 0, TRIED, REFUSED),
    (true, TRIED, TRIED + PUT, NEITHER),
    (true, TRIED + PUT, ALL, NOT_THE_SECOND),
    (true, ALL, ALL + 1, WHOLE),
    // a file that can't be looked up may still be written
    (false, 0, LOOKED_UP, WHOLE),
    (false, LOOKED_UP, TRIED, REFUSED),
    (false, TRIED, TRIED + PUT, NOT_THE_FIRST),
    (false, TRIED + PUT, ALL, NOT_THE_SECOND),
    (false, ALL, ALL + 1, WHOLE),
];

fn text(bytes: &Option<Vec<u8>>) -> Option<&str> {
    match bytes {
        Some(bytes) => str::from_utf8(bytes).ok(),
        None => None,
    }
}

/// On the disk is what has to be found after the legs.
fn check_found(
    rt: &impl Abort,
    alloc: Global,
    (good, stops): (u64, bool),
    wanted: &Found<'_>,
) -> Result<(), Fail> {
    let disk = Disk::new(alloc, good, stops)?;
    let answer = followed(&disk, alloc, true, false)?;
    let (file, said) = (disk.found("best.txt")?, disk.said()?);
    let found = (answer, text(&file), text(&said));
    check_same_of(rt, &(stops, good), &found, wanted);
    Ok(())
}

#[test]
fn best_schedule_is_whole_whichever_call_fails(rt: HostRuntime) -> Result<(), Fail> {
    for (stops, from, below, wanted) in FOUND {
        for good in from..below {
            check_found(&rt, rt.alloc(), (good, stops), &wanted)?;
        }
    }
    Ok(())
}

const LINES: &str = "\
    {\"leg\":1,\"chain\":1,\"moves\":[\"homes\",\"teams\"],\"from\":2.666,\"to\":0.666,\
    \"seconds\":0.250,\"steps\":43750,\"accepted\":18000,\"hard\":3,\"best\":null,\"least\":null}\n\
    {\"leg\":2,\"chain\":7,\"moves\":[\"homes\",\"part-rounds\",\"part-rounds\",\"part-teams\",\"part-teams\"],\"from\":0.900,\"to\":12.070,\
    \"seconds\":0.500,\"steps\":700,\"accepted\":0,\"hard\":0,\"best\":1235,\"least\":1234}\n\
    {\"leg\":2,\"chain\":7,\"moves\":[\"homes\",\"part-rounds\",\"part-rounds\",\"part-teams\",\"part-teams\"],\"from\":0.900,\"to\":12.070,\
    \"seconds\":0.750,\"steps\":700,\"accepted\":0,\"hard\":0,\"best\":1235,\"least\":1234}\n";

/// The first line was torn off after 64 bytes.
const TORN: &str = "\
    {\"leg\":1,\"chain\":1,\"moves\":[\"homes\",\"teams\"],\"from\":2.666,\"to\":0\n\
    {\"leg\":2,\"chain\":7,\"moves\":[\"homes\",\"part-rounds\",\"part-rounds\",\"part-teams\",\"part-teams\"],\"from\":0.900,\"to\":12.070,\
    \"seconds\":0.500,\"steps\":700,\"accepted\":0,\"hard\":0,\"best\":1235,\"least\":1234}\n\
    {\"leg\":2,\"chain\":7,\"moves\":[\"homes\",\"part-rounds\",\"part-rounds\",\"part-teams\",\"part-teams\"],\"from\":0.900,\"to\":12.070,\
    \"seconds\":0.750,\"steps\":700,\"accepted\":0,\"hard\":0,\"best\":1235,\"least\":1234}\n";

/// Whether the best schedule is to be written or the log, and with a history, how many calls don't fail before one that does, what stands in
/// the file, and whether it ever couldn't be written.
const FILES: [(bool, bool, u64, &str, bool); 3] = [
    (true, true, ALL, WITH_HISTORY, false),
    // the log is looked up and made, and each line takes three writes
    (false, false, 11, LINES, false),
    (false, false, 3, TORN, true),
];

fn check_file(
    rt: &impl Abort,
    alloc: Global,
    (output, history, good, lines, fails): (bool, bool, u64, &str, bool),
) -> Result<(), Fail> {
    let disk = Disk::new(alloc, good, false)?;
    let answer = followed(&disk, alloc, output, history)?;
    let file = disk.found(if output { "best.txt" } else { "legs.txt" })?;
    let found = (answer, text(&file));
    check_same_of(rt, &good, &found, &(Some(fails), Some(lines)));
    Ok(())
}

#[test]
fn each_leg_has_a_line_in_the_log_and_a_history_stands_where_it_is_wanted(
    rt: HostRuntime,
) -> Result<(), Fail> {
    for file in FILES {
        check_file(&rt, rt.alloc(), file)?;
    }
    Ok(())
}
