//! The program's command line.

ghost use Rattle.std.specs.Prelude.{◌≡◌, Some, IfOk, IfSome, IsTrue, map, option_map, string_bytes};
ghost use Rattle.clap.specs.Words.{found_of, rows_of, FailsBy};
ghost use Rattle.options.specs.CommandLine.{IsInRange, IsPlanInRange, commands, find_from, job_of_command, job_of_words, number_in};
ghost use Rattle.options.specs.CommandLine.{plan_in, play_command, room_option, search_command, words_fault};
ghost use Rattle.options.specs.CommandLine.{beginning_of_words, files_of_words, title_of_words};
ghost use Rattle.options.specs.Beginnings.{beginning_of};
ghost use Rattle.options.specs.Files.{files_of};
ghost use Rattle.options.specs.within.CommandLine.{HasValues, NamesOneOf};
ghost use Rattle.league.specs.Labels.{is_title};

use crate::commands::program;
use crate::improve_args::improve_of;
use crate::league_args::league_of;
use crate::number_args::{ROOM, SEED, SLACK, STEPS, WORKERS};
use crate::refusals::{refused, with_wanted};
use crate::report_args::report_of;
use crate::request::{Request, request_of};
use choices::{Format, SearchPlan, Symmetry};
use clap::{ArgMatches, Error};
use std::alloc::Global;

/// The job that the program is asked to do.
#[derive(Clone, Copy, Debug, PartialEq, Eq)]
pub enum Job {
    /// Write the sheet of the start of the league.
    Start,
    /// Play the script, on a board with room for so many changes.
    Play {
        room: u32,
    },
    /// Anneal the schedule of the league. The effort is in steps of all workers together. If there are seconds it is that of the first of
    /// several improvements, that follow each other until these are over.
    Improve {
        workers: u32,
        seed: u64,
        effort: u64,
        seconds: Option<u32>,
        /// Whether the history that leads to the best schedule is written too.
        history: bool,
    },
    /// Search for a cheaper schedule of the league, on a board with room for so many changes.
    Find {
        room: u32,
        plan: SearchPlan,
    },
    /// Report, in the format, on a schedule of the league.
    Report(Format),
    /// Make a league of a table of distances, which stands where other jobs have their league.
    League {
        choice: Option<Symmetry>,
        /// How many games in a row it is to allow at home, or away.
        at_most: Option<u64>,
        /// The cost of each breach of a hard limit.
        hard_weight: Option<u64>,
    },
    /// Write what no schedule of the league travels less than.
    Bound,
}

/// Reads the program's words, the first of which is its name. The error is clap's, or in clap's form if clap takes a word that
/// names nothing here: its text, which for `--help` and `--version` is no fault, and its exit status.
pub fn args(alloc: Global, words: &[String]) -> Result<Request, Error>
    ensures fault { FailsBy (words_fault (map string_bytes words.now)) result }
    ensures job { IfOk result (λ request. job_of_words (map string_bytes words.now) ≡ Some request.job) }
    ensures files { IfOk result (λ request. files_of_words (map string_bytes words.now) ≡ Some (files_of request.files)) }
    ensures beginning { IfOk result (λ request. beginning_of_words (map string_bytes words.now) ≡ Some (beginning_of request.beginning)) }
    ensures title { IfOk result (λ request. title_of_words (map string_bytes words.now) ≡ Some (option_map string_bytes request.title)) }
    ensures in_range { IfOk result (λ request. IsInRange request.job) }
    ensures callable { IfOk result (λ request. IsTrue (is_title (option_map string_bytes request.title))) }
{
    let program = match program(alloc) {
        Ok(program) => program,
        Err(error) => return Err(Error::from(error)),
    };
    match program.try_get_matches_from(words) {
        Ok(matches) => match request_of(alloc, &matches) {
            Ok(request) => Ok(request),
            Err(refusal) => Err(refused(alloc, &matches, refusal)),
        },
        Err(error) => Err(with_wanted(alloc, words, error)),
    }
}

/// The job of a command and its values, unless one of them names nothing here.
pub(crate) fn job_of(name: &str, values: &ArgMatches) -> Option<Job>
    requires { NamesOneOf commands (name.now, rows_of (found_of values.now)) }
    ensures job { result ≡ job_of_command (name.now, rows_of (found_of values.now)) }
    ensures in_range { IfSome result IsInRange }
{
    match name {
        "start" => Some(Job::Start),
        "play" => Some(play_of(values)),
        "improve" => improve_of(values),
        "search" => Some(find_of(values)),
        "report" => report_of(values),
        "league" => league_of(values),
        "bound" => Some(Job::Bound),
        // a command is required, and `help` is answered as an error
        _ => None,
    }
}

fn play_of(values: &ArgMatches) -> Job
    requires { HasValues (rows_of (found_of values.now)) play_command.options }
    ensures job { option_map Job.Play (number_in room_option.name (rows_of (found_of values.now))) ≡ Some result }
    ensures in_range { IsInRange result }
{
    Job::Play {
        room: ROOM.number(values) as u32,
    }
}

fn find_of(values: &ArgMatches) -> Job
    requires { HasValues (rows_of (found_of values.now)) search_command.options }
    ensures job { find_from (number_in room_option.name (rows_of (found_of values.now))) (plan_in (rows_of (found_of values.now)))
        ≡ Some result }
    ensures in_range { IsInRange result }
{
    Job::Find {
        room: ROOM.number(values) as u32,
        plan: plan_of(values),
    }
}

fn plan_of(values: &ArgMatches) -> SearchPlan
    requires { HasValues (rows_of (found_of values.now)) search_command.options }
    ensures plan { plan_in (rows_of (found_of values.now)) ≡ Some result }
    ensures in_range { IsPlanInRange result }
{
    SearchPlan {
        workers: WORKERS.number(values) as u32,
        seed: SEED.number(values),
        steps: STEPS.number(values) as u32,
        slack: SLACK.number(values),
    }
}
