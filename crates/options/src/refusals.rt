//! Words that clap takes and the program doesn't, and the errors that tell so in clap's form.

ghost use Rattle.std.specs.Prelude.{◌≡◌, [], ◌∷◌, IfOk, map};
ghost use Rattle.clap.specs.Words.{found_of, kind_of, rows_of};
ghost use Rattle.clap.specs.Kinds.{HasKind};
ghost use Rattle.options.specs.within.Refusals.{first_wrong, wrong_game};

use crate::beginning::game_of_text;
use crate::commands::command_named;
use crate::file_clash::output_message;
use crate::league_args::SYMMETRIES;
use crate::number_args::NEAR_NUMBER;
use crate::number_options::NumberOption;
use crate::report_args::{FORMATS, SEPARATORS, format_named};
use crate::wrong_number::{WrongNumber, cause_of};
use choices::Format;
use clap::error::ErrorKind;
use clap::{ArgMatches, Command, Error};
use league::limits::MAX_TITLE;
use sets::limits::{MAX_ROUNDS, MAX_TEAMS};
use std::alloc::{AllocError, Global};

/// Why words are refused that clap takes, or that memory ran out.
#[derive(Clone, Copy)]
pub(crate) enum Refusal {
    /// No way to make distances symmetric has the name, no format has it, no separator has it, or what is CSV's is asked for another format.
    Format,
    /// The text of `--effort` is wrong.
    Effort,
    /// Standard input would be read twice.
    Input,
    /// A file would be written that has to be another one.
    Output,
    /// No league can be called as `--name` has it.
    Name,
    /// The text of `--keep` is wrong.
    Keep,
    /// A text of `--keep-game` is wrong.
    KeepGame,
    /// The text of `--near` is wrong.
    Near,
    Memory,
}

/// The error of a refusal.
pub(crate) fn refused(alloc: Global, matches: &ArgMatches, refusal: Refusal) -> Error
    ensures kind { HasKind (ErrorKind.InvalidValue ∷ []) result }
    ensures memory { refusal ≡ Refusal.Memory → kind_of result ≡ ErrorKind.OutOfMemory }
{
    match (refusal, matches.subcommand()) {
        (Refusal::Memory, _) | (_, None) => Error::from(AllocError),
        (_, Some((name, values))) => match told(alloc, name, values, refusal) {
            Ok(error) => error,
            Err(error) => Error::from(error),
        },
    }
}

fn told(
    alloc: Global,
    name: &str,
    values: &ArgMatches,
    refusal: Refusal,
) -> Result<Error, AllocError>
    ensures { IfOk result (λ error. kind_of error ≡ ErrorKind.InvalidValue) }
{
    let message = message(alloc, values, refusal)?;
    error_of(alloc, name, ErrorKind::InvalidValue, message.as_str())
}

/// clap's error or, if clap refuses the words for a number, one of that kind that says which number is wanted.
pub(crate) fn with_wanted(alloc: Global, words: &[String], error: Error) -> Error
    ensures { HasKind (kind_of error ∷ []) result }
{
    let kind = error.kind();
    let Some(command) = words.get(1) else {
        return error;
    };
    match cause_of(kind, command.as_str(), words) {
        Some(wrong) => match wanted(alloc, command.as_str(), kind, wrong) {
            Ok(wanted) => wanted,
            Err(memory) => Error::from(memory),
        },
        None => error,
    }
}

fn wanted(
    alloc: Global,
    name: &str,
    kind: ErrorKind,
    wrong: WrongNumber<'_>,
) -> Result<Error, AllocError>
    ensures { IfOk result (λ error. kind_of error ≡ kind) }
{
    let message = format!(in alloc; "{wrong}")?;
    error_of(alloc, name, kind, message.as_str())
}

/// The error of a command, in clap's form.
fn error_of(alloc: Global, name: &str, kind: ErrorKind, message: &str) -> Result<Error, AllocError>
    ensures { IfOk result (λ error. kind_of error ≡ kind) }
{
    let full_name = format!(in alloc; "ttp {name}")?;
    error_as(alloc, name, full_name.as_str(), kind, message)
}

/// That of a command with its full name.
fn error_as(
    alloc: Global,
    name: &str,
    full_name: &str,
    kind: ErrorKind,
    message: &str,
) -> Result<Error, AllocError>
    ensures { IfOk result (λ error. kind_of error ≡ kind) }
{
    let mut command = command_called(alloc, name, full_name)?;
    command.error(kind, message)
}

fn command_called<'a>(
    alloc: Global,
    name: &str,
    full_name: &str,
) -> Result<Command<'a>, AllocError> {
    command_named(alloc, name)?.bin_name(full_name)
}

fn message(alloc: Global, values: &ArgMatches, refusal: Refusal) -> Result<String, AllocError> {
    match refusal {
        Refusal::Format => name_message(alloc, values),
        Refusal::Effort => number_message(alloc, values, NumberOption::Effort),
        Refusal::Name => title_message(alloc, values),
        Refusal::Keep => rounds_message(alloc, values),
        Refusal::KeepGame => game_message(alloc, values),
        Refusal::Near => number_message(alloc, values, NumberOption::Whole(NEAR_NUMBER)),
        Refusal::Output => output_message(alloc, values),
        _ => String::from_str(
            alloc,
            "standard input would be read twice: one text alone can come from there",
        ),
    }
}

fn title_message(alloc: Global, values: &ArgMatches) -> Result<String, AllocError> {
    let text = values.get_str("name").unwrap_or("");
    format!(in alloc;
        "invalid value '{text}' for '--name <TEXT>': 1 to {MAX_TITLE} bytes without control bytes are wanted"
    )
}

fn rounds_message(alloc: Global, values: &ArgMatches) -> Result<String, AllocError> {
    let text = values.get_str("keep").unwrap_or("");
    format!(in alloc;
        "invalid value '{text}' for '--keep <ROUNDS>': rounds from 1 to {MAX_ROUNDS} as in 1-8,12 are wanted"
    )
}

fn game_message(alloc: Global, values: &ArgMatches) -> Result<String, AllocError> {
    let text = wrong_game(values);
    format!(in alloc;
        "invalid value '{text}' for '--keep-game <GAME>': two different teams from 1 to {MAX_TEAMS} as in 7-5 are wanted"
    )
}

fn number_message(
    alloc: Global,
    values: &ArgMatches,
    option: NumberOption,
) -> Result<String, AllocError> {
    let word = values.get_str(option.name()).unwrap_or("");
    let wrong = WrongNumber { option, word };
    format!(in alloc; "{wrong}")
}

/// Which names there are.
fn name_message(alloc: Global, values: &ArgMatches) -> Result<String, AllocError> {
    match values.get_str("symmetric") {
        Some(name) => format!(in alloc;
            "invalid value '{name}' for '--symmetric <BY>'\n  [possible values: {SYMMETRIES}]"
        ),
        None => format_message(alloc, values),
    }
}

fn format_message(alloc: Global, values: &ArgMatches) -> Result<String, AllocError> {
    let name = values.get_str("format").unwrap_or("");
    let separator = values.get_str("separator").unwrap_or(",");
    match format_named(name, None, false) {
        Some(Format::Csv(_)) => format!(in alloc;
            "invalid value '{separator}' for '--separator <SEPARATOR>'\n  [possible values: {SEPARATORS}]"
        ),
        Some(_) => String::from_str(alloc, "--separator and --bom want --format csv"),
        None => format!(in alloc;
            "invalid value '{name}' for '--format <FORMAT>'\n  [possible values: {FORMATS}]"
        ),
    }
}

/// The first text that is no game.
fn wrong_game<'a>(values: &ArgMatches<'a>) -> &'a str
    ensures { result.now ≡ wrong_game (rows_of (found_of values.now)) }
{
    match values.get_raw("keep-game") {
        Some(texts) => first_wrong(texts),
        None => "",
    }
}

fn first_wrong<'a>(texts: &[&'a str]) -> &'a str
    ensures { result.now ≡ first_wrong (map (λ text. text.now) texts.now) }
{
    for text in texts {
        if game_of_text(text).is_none() {
            return text;
        }
    }
    ""
}
