//! The files that the words of a command name.

ghost use Rattle.std.specs.Prelude.{◌≡◌, IfOk, None, option_map, string_bytes};
ghost use Rattle.clap.specs.Words.{found_of, rows_of};
ghost use Rattle.options.specs.Files.{files_in, files_of, has_second, is_input, is_same, miswrites, reads_input, reads_twice};
ghost use Rattle.options.specs.within.Files.{written};

use clap::ArgMatches;
use std::alloc::{AllocError, Global};

/// The names of files, where `-` is standard input. Without a name for the league it stands on standard input, and what is
/// read beside it behind it. With one for the league alone, that is read from standard input.
#[derive(Drop)]
pub struct FileWords {
    /// The league's file.
    pub league: Option<String>,
    /// The file of the script that is played, or of the schedule that is reported on.
    pub second: Option<String>,
    /// The file of the schedule at which boards begin.
    pub from: Option<String>,
    /// The file that is to have the best schedule so far.
    pub output: Option<String>,
    /// The file that is to have a line for each leg.
    pub log: Option<String>,
}

/// The files that were given.
pub(crate) fn files_in(alloc: Global, values: &ArgMatches) -> Result<FileWords, AllocError>
    ensures { IfOk result (λ files. files_of files ≡ files_in (rows_of (found_of values.now))) }
{
    let league = owned(alloc, values.get_str("league"))?;
    let second = owned(alloc, values.get_str("second"))?;
    let from = owned(alloc, values.get_str("from"))?;
    let output = owned(alloc, values.get_str("output"))?;
    let log = owned(alloc, values.get_str("log"))?;
    Ok(FileWords {
        league,
        second,
        from,
        output,
        log,
    })
}

/// The word, if there is one.
pub(crate) fn owned(alloc: Global, word: Option<&str>) -> Result<Option<String>, AllocError>
    ensures { IfOk result (λ owned. option_map string_bytes owned ≡ written word.entry) }
{
    match word {
        Some(word) => Ok(Some(String::from_str(alloc, word)?)),
        None => Ok(None),
    }
}

/// Whether the command would read standard input twice.
pub(crate) fn reads_twice(command: &str, values: &ArgMatches) -> bool
    ensures { result ≡ reads_twice command.now (files_in (rows_of (found_of values.now))) }
{
    let league = values.get_str("league");
    let second = values.get_str("second");
    let from = values.get_str("from");
    are_read_twice(command, league, second, from)
}

fn are_read_twice(
    command: &str,
    league: Option<&str>,
    second: Option<&str>,
    from: Option<&str>,
) -> bool
    ensures { result ≡ reads_twice command.now (record { league = written league.entry; second = written second.entry; from = written from.entry; output = None; log = None }) }
{
    is_input(league) && is_input(second) || is_input(from) && reads_input(command, league, second)
}

fn reads_input(command: &str, league: Option<&str>, second: Option<&str>) -> bool
    ensures { result ≡ reads_input command.now (record { league = written league.entry; second = written second.entry; from = None; output = None; log = None }) }
{
    !league.is_some()
        || is_input(league)
        || is_input(second)
        || has_second(command) && !second.is_some()
}

fn has_second(command: &str) -> bool
    ensures { result ≡ has_second command.now }
{
    command == "play" || command == "report"
}

/// Whether a file that is to be written is standard input, the other one or one that is read. A schedule that boards begin at may give way
/// to the best one.
pub(crate) fn miswrites(values: &ArgMatches) -> bool
    ensures { result ≡ miswrites (files_in (rows_of (found_of values.now))) }
{
    let league = values.get_str("league");
    let from = values.get_str("from");
    let output = values.get_str("output");
    let log = values.get_str("log");
    are_miswritten(league, from, output, log)
}

fn are_miswritten(
    league: Option<&str>,
    from: Option<&str>,
    output: Option<&str>,
    log: Option<&str>,
) -> bool
    ensures { result ≡ miswrites (record { league = written league.entry; second = None; from = written from.entry; output = written output.entry; log = written log.entry }) }
{
    is_input(output)
        || is_input(log)
        || is_same(output, league)
        || is_same(log, league)
        || is_same(log, from)
        || is_same(log, output)
}

pub(crate) fn is_same(word: Option<&str>, other: Option<&str>) -> bool
    ensures { result ≡ is_same (written word.entry) (written other.entry) }
{
    match (word, other) {
        (Some(word), Some(other)) => word == other,
        _ => false,
    }
}

pub(crate) fn is_input(word: Option<&str>) -> bool
    ensures { result ≡ is_input (written word.entry) }
{
    match word {
        Some(word) => word == "-",
        None => false,
    }
}
