//! The options `--name N` of the commands, where N is a whole number.

ghost use Rattle.std.specs.Prelude.{◌≡◌, ◌≤◌, ◌↔◌, IfSome, IsTrue, Some, false, is_some, option_map, true};
ghost use Rattle.clap.specs.ValueTests.{accepts};
ghost use Rattle.clap.specs.Words.{IsUnsignedIn, found_of, rows_of, rule_of as rule_of_arg};
ghost use Rattle.options.specs.CommandLine.{number_in, rule_of};
ghost use Rattle.options.specs.within.CommandLine.{HasValue, form_of};

use crate::beginning::MAX_NEAR;
use crate::help::{
    AT_MOST_HELP, HARD_WEIGHT_HELP, NEAR_HELP, ROOM_HELP, SECONDS_HELP, SEED_HELP, SLACK_HELP,
    STEPS_HELP, WORKERS_HELP,
};
use choices::{MAX_ROOM, MAX_WORKERS};
use clap::builder::ValueParser;
use clap::{Arg, ArgMatches};
use std::alloc::Global;

/// The most steps of each worker.
const MAX_STEPS: u64 = 1_000_000;

/// The most seconds of an improvement: eleven days and a half.
const MAX_SECONDS: u64 = 1_000_000;

/// The most games in a row at home, or away.
const MAX_AT_MOST: u64 = 78;

/// The largest weight of hard limits.
const MAX_HARD_WEIGHT: u64 = 1_000_000;

/// An option: the range of its number, and what stands for it if it isn't given, if anything does.
#[derive(Clone, Copy)]
pub(crate) struct NumberArg {
    pub(crate) name: &'static str,
    pub(crate) value_name: &'static str,
    pub(crate) least: u64,
    pub(crate) most: u64,
    default: Option<&'static str>,
    help: &'static str,
}

pub(crate) const ROOM: NumberArg = NumberArg {
    name: "room",
    value_name: "N",
    least: 0,
    most: MAX_ROOM as u64,
    default: Some("1024"),
    help: ROOM_HELP,
};

pub(crate) const WORKERS: NumberArg = NumberArg {
    name: "workers",
    value_name: "W",
    least: 1,
    most: MAX_WORKERS as u64,
    default: Some("2"),
    help: WORKERS_HELP,
};

pub(crate) const SEED: NumberArg = NumberArg {
    name: "seed",
    value_name: "S",
    least: 0,
    most: u64::MAX,
    default: Some("1"),
    help: SEED_HELP,
};

pub(crate) const SECONDS: NumberArg = NumberArg {
    name: "seconds",
    value_name: "S",
    least: 1,
    most: MAX_SECONDS,
    default: None,
    help: SECONDS_HELP,
};

pub(crate) const STEPS: NumberArg = NumberArg {
    name: "steps",
    value_name: "T",
    least: 0,
    most: MAX_STEPS,
    default: Some("1000"),
    help: STEPS_HELP,
};

pub(crate) const SLACK: NumberArg = NumberArg {
    name: "slack",
    value_name: "X",
    least: 0,
    most: u64::MAX,
    default: Some("0"),
    help: SLACK_HELP,
};

pub(crate) const AT_MOST: NumberArg = NumberArg {
    name: "at-most",
    value_name: "N",
    least: 1,
    most: MAX_AT_MOST,
    default: None,
    help: AT_MOST_HELP,
};

pub(crate) const HARD_WEIGHT: NumberArg = NumberArg {
    name: "hard-weight",
    value_name: "N",
    least: 1,
    most: MAX_HARD_WEIGHT,
    default: None,
    help: HARD_WEIGHT_HELP,
};

/// The cost of a moved game. clap takes any text for it.
pub(crate) const NEAR_NUMBER: NumberArg = NumberArg {
    name: "near",
    value_name: "W",
    least: 0,
    most: MAX_NEAR,
    default: None,
    help: NEAR_HELP,
};

impl NumberArg {
    /// The option as clap has it.
    pub(crate) fn arg<'a>(&self, alloc: Global) -> Arg<'a>
        ensures rule { rule_of_arg result ≡ rule_of (form_of self.now) }
        ensures local { result.global ≡ false }
    {
        let arg = Arg::new(alloc, self.name)
            .long(self.name)
            .value_name(self.value_name)
            .value_parser(ValueParser::unsigned(self.least, self.most))
            .help(self.help);
        match self.default {
            Some(default) => arg.default_value(default),
            None => arg,
        }
    }

    /// The number that was given, or that stands for it.
    pub(crate) fn number(&self, values: &ArgMatches) -> u64
        requires has_default { is_some (form_of self.now).default ≡ true }
        requires value { HasValue (rows_of (found_of values.now)) (form_of self.now) }
        ensures number { number_in (form_of self.now).name (rows_of (found_of values.now)) ≡ Some result }
        ensures least { self.now.least ≤ result }
        ensures most { result ≤ self.now.most }
    {
        match self.number_if_any(values) {
            Some(number) => number,
            None => unreachable!(),
        }
    }

    /// The number that was given, or that stands for it, if any.
    pub(crate) fn number_if_any(&self, values: &ArgMatches) -> Option<u64>
        requires { HasValue (rows_of (found_of values.now)) (form_of self.now) }
        ensures number { number_in (form_of self.now).name (rows_of (found_of values.now)) ≡ result }
        ensures has_default { is_some (form_of self.now).default ≡ true → is_some result ≡ true }
        ensures range { IfSome result (λ number. (self.now.least ≤ number) × (number ≤ self.now.most)) }
    {
        values.get_one::<u64>(self.name)
    }

    /// Whether clap takes the word for the number.
    pub(crate) fn takes(&self, word: &str) -> bool
        ensures { result ≡ accepts false (form_of self.now).parser word.now }
    {
        is_number_in(word, self.least, self.most)
    }
}

fn is_number_in(word: &str, least: u64, most: u64) -> bool
    ensures { IsTrue result ↔ IsUnsignedIn least most word.now }
{
    match word.parse::<u64>() {
        Ok(number) => least <= number && number <= most,
        Err(_) => false,
    }
}
