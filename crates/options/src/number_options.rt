//! The options that want a number, by their names.

ghost use Rattle.std.specs.Prelude.{◌≡◌, Some, option_map};
ghost use Rattle.options.specs.within.WrongNumbers.{improve_numbers, league_numbers, name_of, named, numbers_of, play_numbers};
ghost use Rattle.options.specs.within.WrongNumbers.{report_numbers, search_numbers, takes, value_name_of, wanted_words, wanting_of};

use crate::default_args::EFFORT;
use crate::effort::{MAX_MILLIONS, thousandths_of_text};
use crate::number_args::{
    AT_MOST, HARD_WEIGHT, NEAR_NUMBER, NumberArg, ROOM, SECONDS, SEED, SLACK, STEPS, WORKERS,
};
use std::fmt;

/// An option that wants a number.
#[derive(Clone, Copy)]
pub(crate) enum NumberOption {
    /// A whole number.
    Whole(NumberArg),
    /// That of millions of moves, which may have decimals.
    Effort,
}

impl NumberOption {
    pub(crate) fn name(&self) -> &'static str
        ensures { result.now ≡ name_of (wanting_of self.now) }
    {
        match self {
            NumberOption::Whole(arg) => arg.name,
            NumberOption::Effort => EFFORT.name,
        }
    }

    /// How help calls the number.
    pub(crate) fn value_name(&self) -> &'static str
        ensures { result.now ≡ value_name_of self.now }
    {
        match self {
            NumberOption::Whole(arg) => arg.value_name,
            NumberOption::Effort => EFFORT.value_name,
        }
    }

    /// Whether the word is such a number.
    pub(crate) fn takes(&self, word: &str) -> bool
        ensures { result ≡ takes (wanting_of self.now) word.now }
    {
        match self {
            NumberOption::Whole(arg) => arg.takes(word),
            NumberOption::Effort => thousandths_of_text(word).is_some(),
        }
    }
}

/// Writes what is wanted, as `a whole number from 1 to 16`.
impl fmt::Display for NumberOption {
    ghost output = { λ option. Some (wanted_words option) };

    fn fmt<W: fmt::Write>(&self, f: &mut fmt::Formatter<W>) -> fmt::Result {
        match self {
            NumberOption::Whole(NumberArg { least, most, .. }) => {
                write!(f, "a whole number from {least} to {most}")
            }
            NumberOption::Effort => write!(
                f,
                "a number from 0.001 to {MAX_MILLIONS} with at most three decimals"
            ),
        }
    }
}

/// The option of a command that has the name and wants a number.
pub(crate) fn number_named(command: &str, name: &str) -> Option<NumberOption>
    ensures { option_map wanting_of result ≡ named name.now (numbers_of command.now) }
{
    match command {
        "play" => play_number(name),
        "improve" => improve_number(name),
        "search" => search_number(name),
        "report" => report_number(name),
        "league" => league_number(name),
        _ => None,
    }
}

fn play_number(name: &str) -> Option<NumberOption>
    ensures { option_map wanting_of result ≡ named name.now play_numbers }
{
    match name {
        "room" => Some(NumberOption::Whole(ROOM)),
        "near" => Some(NumberOption::Whole(NEAR_NUMBER)),
        _ => None,
    }
}

fn improve_number(name: &str) -> Option<NumberOption>
    ensures { option_map wanting_of result ≡ named name.now improve_numbers }
{
    match name {
        "workers" => Some(NumberOption::Whole(WORKERS)),
        "seed" => Some(NumberOption::Whole(SEED)),
        "effort" => Some(NumberOption::Effort),
        "seconds" => Some(NumberOption::Whole(SECONDS)),
        "near" => Some(NumberOption::Whole(NEAR_NUMBER)),
        _ => None,
    }
}

fn search_number(name: &str) -> Option<NumberOption>
    ensures { option_map wanting_of result ≡ named name.now search_numbers }
{
    match name {
        "room" => Some(NumberOption::Whole(ROOM)),
        "workers" => Some(NumberOption::Whole(WORKERS)),
        "seed" => Some(NumberOption::Whole(SEED)),
        "steps" => Some(NumberOption::Whole(STEPS)),
        "slack" => Some(NumberOption::Whole(SLACK)),
        "near" => Some(NumberOption::Whole(NEAR_NUMBER)),
        _ => None,
    }
}

fn report_number(name: &str) -> Option<NumberOption>
    ensures { option_map wanting_of result ≡ named name.now report_numbers }
{
    match name {
        "near" => Some(NumberOption::Whole(NEAR_NUMBER)),
        _ => None,
    }
}

fn league_number(name: &str) -> Option<NumberOption>
    ensures { option_map wanting_of result ≡ named name.now league_numbers }
{
    match name {
        "at-most" => Some(NumberOption::Whole(AT_MOST)),
        "hard-weight" => Some(NumberOption::Whole(HARD_WEIGHT)),
        _ => None,
    }
}
