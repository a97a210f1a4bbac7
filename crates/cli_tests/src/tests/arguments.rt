//! The command line: what words ask for, and which of them are refused. `cases/` has the texts of help and of mistakes.

use crate::tests::checks::{check_holds, check_same_of};
use clap::error::ErrorKind::{self, ArgumentConflict, InvalidValue, UnknownArgument};
use options::{CsvForm, Format, Job, Request, SearchPlan, Separator, Symmetry, args};
use std::alloc::{AllocError, Global};
use std::test::Fail;

/// Owned words, as the system gives them.
pub(crate) fn words(alloc: Global, given: &[&str]) -> Result<Vec<String>, AllocError> {
    let mut words = Vec::new(alloc);
    for word in given {
        words.push(String::from_str(alloc, word)?)?;
    }
    Ok(words)
}

/// The text that these words are answered with.
pub(crate) fn told(alloc: Global, given: &[&str]) -> Result<String, Fail> {
    let words = words(alloc, given)?;
    match args(alloc, &words) {
        Ok(_) => Err(Fail::new("the words pass")),
        Err(error) => Ok(format!(in alloc; "{error}")?),
    }
}

/// The job that the words ask for, or the kind of the error that they are answered with.
fn asked(alloc: Global, given: &[&str]) -> Result<Result<Job, ErrorKind>, AllocError> {
    let words = words(alloc, given)?;
    match args(alloc, &words) {
        Ok(request) => Ok(Ok(request.job)),
        Err(error) => Ok(Err(error.kind())),
    }
}

/// The plan where no option is given.
const PLAIN: SearchPlan = SearchPlan {
    workers: 2,
    seed: 1,
    steps: 1000,
    slack: 0,
};

const COMMAS: Job = Job::Report(Format::Csv(CsvForm {
    separator: Separator::Comma,
    has_mark: false,
}));

const SEMICOLONS: Job = Job::Report(Format::Csv(CsvForm {
    separator: Separator::Semicolon,
    has_mark: false,
}));

const MARKED_TABS: Job = Job::Report(Format::Csv(CsvForm {
    separator: Separator::Tab,
    has_mark: true,
}));

/// Words, and the job that they ask for.
const JOBS: &[(&[&str], Job)] = &[
    (&["ttp", "start"], Job::Start),
    (&["ttp", "play"], Job::Play { room: 1024 }),
    (
        &["ttp", "play", "--room=1048576"],
        Job::Play { room: 1_048_576 },
    ),
    (
        &["ttp", "improve"],
        Job::Improve {
            workers: 2,
            seed: 1,
            effort: 10_000_000,
            seconds: None,
            history: false,
        },
    ),
    (
        &["ttp", "improve", "--history", "--effort=0.001"],
        Job::Improve {
            workers: 2,
            seed: 1,
            effort: 1_000,
            seconds: None,
            history: true,
        },
    ),
    (
        &["ttp", "improve", "--effort", "12.50"],
        Job::Improve {
            workers: 2,
            seed: 1,
            effort: 12_500_000,
            seconds: None,
            history: false,
        },
    ),
    (
        &[
            "ttp",
            "improve",
            "--workers",
            "4",
            "--seed=7",
            "--effort",
            "1000000",
            "--seconds=28800",
        ],
        Job::Improve {
            workers: 4,
            seed: 7,
            effort: 1_000_000_000_000,
            seconds: Some(28800),
            history: false,
        },
    ),
    (
        &["ttp", "search"],
        Job::Find {
            room: 1024,
            plan: PLAIN,
        },
    ),
    (
        &[
            "ttp",
            "search",
            "--slack=18446744073709551615",
            "--steps=1000000",
            "--seed=0",
            "--workers=16",
            "--room=8",
        ],
        Job::Find {
            room: 8,
            plan: SearchPlan {
                workers: 16,
                seed: 0,
                steps: 1_000_000,
                slack: u64::MAX,
            },
        },
    ),
    (&["ttp", "report"], Job::Report(Format::Text)),
    (&["ttp", "report", "--format", "csv"], COMMAS),
    (
        &["ttp", "report", "--separator=;", "--format=csv"],
        SEMICOLONS,
    ),
    (
        &[
            "ttp",
            "report",
            "--bom",
            "--format=csv",
            "--separator",
            "tab",
        ],
        MARKED_TABS,
    ),
    (
        &["ttp", "report", "--format=html"],
        Job::Report(Format::Html),
    ),
    (
        &["ttp", "report", "--format=names"],
        Job::Report(Format::Names),
    ),
    (
        &["ttp", "report", "--format=json"],
        Job::Report(Format::Json),
    ),
    (
        &["ttp", "league"],
        Job::League {
            choice: None,
            at_most: None,
            hard_weight: None,
        },
    ),
    (
        &["ttp", "league", "--symmetric", "mean", "--at-most=78"],
        Job::League {
            choice: Some(Symmetry::Mean),
            at_most: Some(78),
            hard_weight: None,
        },
    ),
    (
        &["ttp", "league", "--hard-weight", "7", "--symmetric=max"],
        Job::League {
            choice: Some(Symmetry::Max),
            at_most: None,
            hard_weight: Some(7),
        },
    ),
];

#[test]
fn words_ask_for_jobs(rt: HostRuntime) -> Result<(), Fail> {
    for (given, wanted) in JOBS {
        let found = asked(rt.alloc(), given)?;
        check_same_of(&rt, given, &found, &Ok(*wanted));
    }
    Ok(())
}

fn is_name(found: &Option<String>, wanted: Option<&str>) -> bool {
    match (found, wanted) {
        (Some(found), Some(wanted)) => found.as_str() == wanted,
        (None, None) => true,
        _ => false,
    }
}

/// The league's file, the second one, that of the start, the best schedule's, that of the legs, and what a league is called.
type Names<'a> = [Option<&'a str>; 6];

const NO_NAMES: Names<'_> = [None; 6];

/// Words, and the names in them.
const NAMES: &[(&[&str], Names<'_>)] = &[
    (&["ttp", "play"], NO_NAMES),
    (
        &["ttp", "report", "--from=c", "a", "--format=csv", "-"],
        [Some("a"), Some("-"), Some("c"), None, None, None],
    ),
    (
        &["ttp", "improve", "-ob", "--", "--from"],
        [Some("--from"), None, None, Some("b"), None, None],
    ),
    (
        &["ttp", "improve", "--log=b", "--from=c", "--output", "c"],
        [None, None, Some("c"), Some("c"), Some("b"), None],
    ),
    (
        &["ttp", "league", "--name=Valley \"Cup\"", "a.csv"],
        [
            Some("a.csv"),
            None,
            None,
            None,
            None,
            Some("Valley \"Cup\""),
        ],
    ),
];

fn are_names(found: &Request, wanted: &Names<'_>) -> bool {
    let [league, second, from, output, log, title] = *wanted;
    is_name(&found.files.league, league)
        && is_name(&found.files.second, second)
        && is_name(&found.files.from, from)
        && is_name(&found.files.output, output)
        && is_name(&found.files.log, log)
        && is_name(&found.title, title)
}

/// The rounds and games that are kept, and what a moved game costs.
type Kept<'a> = (&'a [u8], &'a [(u8, u8)], u32);

const NOTHING_KEPT: Kept<'_> = (&[], &[], 0);

/// Words, and what they keep.
const KEPT: &[(&[&str], Kept<'_>)] = &[
    (&["ttp", "improve"], NOTHING_KEPT),
    (
        &["ttp", "improve", "--keep", "1-3,5"],
        (&[0, 1, 2, 4], &[], 0),
    ),
    (
        &["ttp", "search", "--keep-game", "7-5", "--keep-game=1-40"],
        (&[], &[(6, 4), (0, 39)], 0),
    ),
    (
        &["ttp", "play", "--near=1000000", "--keep=77-78"],
        (&[76, 77], &[], 1_000_000),
    ),
];

fn is_kept(found: &Request, wanted: &Kept<'_>) -> bool {
    let (rounds, games, near) = *wanted;
    let mut count = 0;
    for round in found.beginning.rounds {
        if rounds.get(count) != Some(&round) {
            return false;
        }
        count += 1;
    }
    count == rounds.len()
        && found.beginning.games.as_slice() == games
        && found.beginning.near == near
}

/// What words name and keep, if they are taken.
fn holds(
    alloc: Global,
    given: &[&str],
    names: &Names<'_>,
    kept: &Kept<'_>,
) -> Result<bool, AllocError> {
    let words = words(alloc, given)?;
    match args(alloc, &words) {
        Ok(request) => Ok(are_names(&request, names) && is_kept(&request, kept)),
        Err(_) => Ok(false),
    }
}

/// Words that are refused, beside those of `cases/misuse*`.
const REFUSED: &[(&[&str], ErrorKind)] = &[
    (
        &["ttp", "play", "--room", "7", "--room=8"],
        ArgumentConflict,
    ),
    (&["ttp", "search", "--keep=1", "--keep=2"], ArgumentConflict),
    (&["ttp", "search", "-V"], UnknownArgument),
    (&["ttp", "start", "--keep=1"], UnknownArgument),
    (&["ttp", "report", "--keep-game=1-2"], UnknownArgument),
    (&["ttp", "league", "--name=a\tb"], InvalidValue),
    (&["ttp", "search", "--from="], InvalidValue),
    (&["ttp", "report", "a", "-", "--from", "-"], InvalidValue),
    (&["ttp", "improve", "--keep="], InvalidValue),
    (&["ttp", "improve", "--keep=0"], InvalidValue),
    (&["ttp", "improve", "--keep=79"], InvalidValue),
    (&["ttp", "improve", "--keep=1,,2"], InvalidValue),
    (&["ttp", "improve", "--keep=1-2-3"], InvalidValue),
    (&["ttp", "improve", "--keep-game=7"], InvalidValue),
    (&["ttp", "improve", "--keep-game=1-41"], InvalidValue),
    (&["ttp", "improve", "--keep-game=1-2,3-4"], InvalidValue),
];

#[test]
fn words_that_ask_for_nothing_are_refused(rt: HostRuntime) -> Result<(), Fail> {
    for (given, wanted) in REFUSED {
        let found = asked(rt.alloc(), given)?;
        check_same_of(&rt, given, &found, &Err(*wanted));
    }
    Ok(())
}
