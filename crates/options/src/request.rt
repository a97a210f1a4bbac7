//! The request that the words make: a job, files, a league's name, and what is kept of a start.

ghost use Rattle.std.specs.Prelude.{◌≡◌, ◌⊎◌, ◌&&◌, None, Some, IfErr, IfOk, IsTrue, false, is_some, option_and_then, option_map, string_bytes};
ghost use Rattle.clap.specs.Words.{found_of, rows_of, subcommand_rows_of};
ghost use Rattle.options.specs.Beginnings.{beginning_in, beginning_of};
ghost use Rattle.options.specs.CommandLine.{IsInRange, asks_for_all, beginning_of_command, job_of_command, title_of_command};
ghost use Rattle.options.specs.within.CommandLine.{NamesACommand};
ghost use Rattle.options.specs.within.Refusals.{beginning_refusal, job_refusal, refusal_of, values_refusal};
ghost use Rattle.options.specs.Files.{files_of, files_of_command};
ghost use Rattle.league.specs.Labels.{is_title};

use crate::beginning::{BeginningWords, games_in, near_in, rounds_in};
use crate::files::{FileWords, files_in, miswrites, reads_twice};
use crate::job::{Job, job_of};
use crate::league_args::{has_title, title_in};
use crate::refusals::Refusal;
use clap::ArgMatches;
use std::alloc::Global;

/// The job that the program is asked to do, with which files, what a league that is made is to be called, and where boards begin.
#[derive(Drop)]
pub struct Request {
    pub job: Job,
    pub files: FileWords,
    pub title: Option<String>,
    pub beginning: BeginningWords,
}

/// Reads what a command and its values ask for, or why they ask for nothing.
pub(crate) fn request_of(alloc: Global, matches: &ArgMatches) -> Result<Request, Refusal>
    requires { NamesACommand (subcommand_rows_of matches.now) }
    ensures job { IfOk result (λ request. option_and_then job_of_command (subcommand_rows_of matches.now) ≡ Some request.job) }
    ensures files { IfOk result (λ request. option_and_then files_of_command (subcommand_rows_of matches.now)
        ≡ Some (files_of request.files)) }
    ensures beginning { IfOk result (λ request. option_and_then beginning_of_command (subcommand_rows_of matches.now)
        ≡ Some (beginning_of request.beginning)) }
    ensures title { IfOk result (λ request. option_and_then title_of_command (subcommand_rows_of matches.now)
        ≡ Some (option_map string_bytes request.title)) }
    ensures callable { IfOk result (λ request. IsTrue (is_title (option_map string_bytes request.title))) }
    ensures in_range { IfOk result (λ request. IsInRange request.job) }
    ensures refused { IfErr result (λ refusal. (refusal ≡ Refusal.Memory)
        ⊎ (asks_for_all (subcommand_rows_of matches.now) ≡ false)) }
    ensures why { IfErr result (λ refusal. (refusal ≡ Refusal.Memory)
        ⊎ (option_and_then refusal_of (subcommand_rows_of matches.now) ≡ Some refusal)) }
{
    let Some((name, values)) = matches.subcommand() else {
        return Err(Refusal::Format);
    };
    match job_of(name, values) {
        Some(job) => request_with(alloc, job, name, values),
        None => Err(job_refusal(name)),
    }
}

/// Why a command names no job.
fn job_refusal(command: &str) -> Refusal
    ensures { result ≡ job_refusal command.now }
{
    match command {
        "improve" => Refusal::Effort,
        _ => Refusal::Format,
    }
}

/// The job with the files, the league's name and the beginning of the command's values.
fn request_with(
    alloc: Global,
    job: Job,
    name: &str,
    values: &ArgMatches,
) -> Result<Request, Refusal>
    ensures job { IfOk result (λ request. request.job ≡ job) }
    ensures files { IfOk result (λ request. files_of_command (name.now, rows_of (found_of values.now)) ≡ Some (files_of request.files)) }
    ensures beginning { IfOk result (λ request. beginning_in (rows_of (found_of values.now)) ≡ Some (beginning_of request.beginning)) }
    ensures title { IfOk result (λ request. title_of_command (name.now, rows_of (found_of values.now))
        ≡ Some (option_map string_bytes request.title)) }
    ensures callable { IfOk result (λ request. IsTrue (is_title (option_map string_bytes request.title))) }
    ensures refused { IfErr result (λ refusal. (refusal ≡ Refusal.Memory)
        ⊎ ((is_some (files_of_command (name.now, rows_of (found_of values.now)))
        && (is_some (title_of_command (name.now, rows_of (found_of values.now)))
        && is_some (beginning_in (rows_of (found_of values.now))))) ≡ false)) }
    ensures why { IfErr result (λ refusal. (refusal ≡ Refusal.Memory)
        ⊎ (values_refusal (name.now, rows_of (found_of values.now)) ≡ Some refusal)) }
{
    if reads_twice(name, values) {
        return Err(Refusal::Input);
    }
    if miswrites(values) {
        return Err(Refusal::Output);
    }
    if !has_title(values) {
        return Err(Refusal::Name);
    }
    let beginning = match beginning_in(alloc, values) {
        Ok(beginning) => beginning,
        Err(refusal) => return Err(refusal),
    };
    let Ok(title) = title_in(alloc, values) else {
        return Err(Refusal::Memory);
    };
    match files_in(alloc, values) {
        Ok(files) => Ok(Request {
            job,
            files,
            title,
            beginning,
        }),
        Err(_) => Err(Refusal::Memory),
    }
}

fn beginning_in(alloc: Global, values: &ArgMatches) -> Result<BeginningWords, Refusal>
    ensures some { IfOk result (λ beginning. beginning_in (rows_of (found_of values.now)) ≡ Some (beginning_of beginning)) }
    ensures refused { IfErr result (λ refusal. (refusal ≡ Refusal.Memory) ⊎ (beginning_in (rows_of (found_of values.now)) ≡ None)) }
    ensures why { IfErr result (λ refusal. (refusal ≡ Refusal.Memory)
        ⊎ (beginning_refusal (rows_of (found_of values.now)) ≡ Some refusal)) }
{
    let Some(rounds) = rounds_in(values) else {
        return Err(Refusal::Keep);
    };
    let Some(near) = near_in(values) else {
        return Err(Refusal::Near);
    };
    match games_in(alloc, values) {
        Ok(Some(games)) => Ok(BeginningWords {
            rounds,
            games,
            near,
        }),
        Ok(None) => Err(Refusal::KeepGame),
        Err(_) => Err(Refusal::Memory),
    }
}
