//! Words that name one file.

ghost use Rattle.std.specs.Prelude.{◌≡◌, IfOk, None, Some, string_bytes};
ghost use Rattle.clap.specs.Words.{found_of, rows_of};
ghost use Rattle.options.specs.FileClash.{role_word, same_file_words};
ghost use Rattle.options.specs.Files.{files_in};
ghost use Rattle.options.specs.within.Files.{input_words, output_words, same_words, written};

use crate::files::{is_input, is_same};
use clap::ArgMatches;
use std::alloc::{AllocError, Global};
use std::fmt;

/// What a word names a file as.
#[derive(Clone, Copy, Debug, PartialEq, Eq)]
pub enum FileRole {
    League,
    From,
    Output,
    Log,
}

/// Writes the word, as `--from`.
impl fmt::Display for FileRole {
    ghost output = { λ role. Some (role_word role) };

    fn fmt<W: fmt::Write>(&self, f: &mut fmt::Formatter<W>) -> fmt::Result {
        f.write_str(match self {
            FileRole::League => "LEAGUE",
            FileRole::From => "--from",
            FileRole::Output => "-o",
            FileRole::Log => "--log",
        })
    }
}

/// A file that is to be written, and the one that it is too, each by its word and its name.
#[derive(Clone, Copy)]
pub struct SameFile<'a> {
    pub role: FileRole,
    pub name: &'a str,
    pub other: FileRole,
    pub other_name: &'a str,
}

/// Writes it as `-o ./season.json is the same file as LEAGUE season.json`.
impl fmt::Display for SameFile<'_> {
    ghost output = { λ same. Some (same_file_words same) };

    fn fmt<W: fmt::Write>(&self, f: &mut fmt::Formatter<W>) -> fmt::Result {
        let SameFile {
            role,
            name,
            other,
            other_name,
        } = *self;
        write!(f, "{role} {name} is the same file as {other} {other_name}")
    }
}

/// Why the words for files to be written are refused.
pub(crate) fn output_message(alloc: Global, values: &ArgMatches) -> Result<String, AllocError>
    ensures { IfOk result (λ text. string_bytes text ≡ output_words (files_in (rows_of (found_of values.now)))) }
{
    let league = values.get_str("league");
    let from = values.get_str("from");
    let output = values.get_str("output");
    let log = values.get_str("log");
    message_on(alloc, league, from, output, log)
}

fn message_on(
    alloc: Global,
    league: Option<&str>,
    from: Option<&str>,
    output: Option<&str>,
    log: Option<&str>,
) -> Result<String, AllocError>
    ensures { IfOk result (λ text. string_bytes text ≡ output_words (record { league = written league.entry; second = None; from = written from.entry; output = written output.entry; log = written log.entry })) }
{
    if is_input(output) {
        input_message(alloc, FileRole::Output)
    } else if is_input(log) {
        input_message(alloc, FileRole::Log)
    } else if is_same(output, league) {
        same_message(alloc, FileRole::Output, FileRole::League, output)
    } else if is_same(log, league) {
        same_message(alloc, FileRole::Log, FileRole::League, log)
    } else if is_same(log, from) {
        same_message(alloc, FileRole::Log, FileRole::From, log)
    } else {
        same_message(alloc, FileRole::Log, FileRole::Output, log)
    }
}

fn input_message(alloc: Global, role: FileRole) -> Result<String, AllocError>
    ensures { IfOk result (λ text. string_bytes text ≡ input_words role) }
{
    format!(in alloc; "{role} names a file to be written, and - is standard input")
}

fn same_message(
    alloc: Global,
    role: FileRole,
    other: FileRole,
    word: Option<&str>,
) -> Result<String, AllocError>
    ensures { IfOk result (λ text. string_bytes text ≡ same_words role other (written word.entry)) }
{
    let name = word.unwrap_or("");
    let same = SameFile {
        role,
        name,
        other,
        other_name: name,
    };
    format!(in alloc; "{same}")
}
