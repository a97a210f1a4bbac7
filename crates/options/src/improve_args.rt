//! What is asked for by `improve`.

ghost use Rattle.std.specs.Prelude.{◌≡◌, ◌≤◌, IfSome, Some};
ghost use Rattle.clap.specs.Words.{found_of, rows_of};
ghost use Rattle.options.specs.CommandLine.{IsInRange, history_option, improve_command, improve_from, improve_in, is_flagged};
ghost use Rattle.options.specs.CommandLine.{number_in, seconds_option, seed_option, workers_option};
ghost use Rattle.options.specs.Effort.{max_thousandths};
ghost use Rattle.options.specs.within.CommandLine.{HasValue, HasValues};

use crate::effort::thousandths_in;
use crate::flag_args::HISTORY;
use crate::job::Job;
use crate::number_args::{SECONDS, SEED, WORKERS};
use clap::ArgMatches;

/// How many steps a thousandth of `--effort` stands for.
const STEPS_OF_THOUSANDTH: u64 = 1_000;

/// The improvement that is asked for, unless its effort is no number.
pub(crate) fn improve_of(values: &ArgMatches) -> Option<Job>
    requires { HasValues (rows_of (found_of values.now)) improve_command.options }
    ensures job { result ≡ improve_in (rows_of (found_of values.now)) }
    ensures in_range { IfSome result IsInRange }
{
    match thousandths_in(values) {
        Some(thousandths) => Some(improve_with(values, thousandths)),
        None => None,
    }
}

/// The improvement with so many thousandths of a million steps.
fn improve_with(values: &ArgMatches, thousandths: u64) -> Job
    requires values { HasValues (rows_of (found_of values.now)) improve_command.options }
    requires least { 1 ≤ thousandths }
    requires most { thousandths ≤ max_thousandths }
    ensures job { improve_from (Some thousandths) (number_in workers_option.name (rows_of (found_of values.now)))
        (number_in seed_option.name (rows_of (found_of values.now))) (number_in seconds_option.name (rows_of (found_of values.now)))
        (is_flagged history_option.id (rows_of (found_of values.now))) ≡ Some result }
    ensures in_range { IsInRange result }
{
    Job::Improve {
        workers: WORKERS.number(values) as u32,
        seed: SEED.number(values),
        effort: thousandths * STEPS_OF_THOUSANDTH,
        seconds: seconds_of(values),
        history: HISTORY.is_given(values),
    }
}

/// For how many seconds improvements follow each other, if that is asked for.
fn seconds_of(values: &ArgMatches) -> Option<u32>
    requires { HasValue (rows_of (found_of values.now)) seconds_option }
    ensures number { number_in seconds_option.name (rows_of (found_of values.now)) ≡ result }
    ensures range { IfSome result (λ seconds. (1 ≤ seconds) × (seconds ≤ 1000000)) }
{
    match SECONDS.number_if_any(values) {
        Some(seconds) => Some(seconds as u32),
        None => None,
    }
}
