//! Words and options that may be left out, and then have no value.

ghost use Rattle.std.specs.Prelude.{◌≡◌, false};
ghost use Rattle.clap.specs.Words.{rule_of as rule_of_arg};
ghost use Rattle.options.specs.CommandLine.{lettered, repeated, text_option, word};

use crate::help::{
    DISTANCES_HELP, FROM_HELP, KEEP_GAME_HELP, KEEP_HELP, LEAGUE_HELP, LOG_HELP, NAME_HELP,
    NEAR_HELP, OUTPUT_HELP, SCHEDULE_HELP, SCRIPT_HELP, SEPARATOR_HELP, SYMMETRIC_HELP,
};
use clap::builder::ValueParser;
use clap::{Arg, ArgAction};
use std::alloc::Global;

/// A word or an option with a text.
#[derive(Clone, Copy)]
pub(crate) struct TextArg {
    name: &'static str,
    value_name: &'static str,
    help: &'static str,
}

pub(crate) const LEAGUE: TextArg = TextArg {
    name: "league",
    value_name: "LEAGUE",
    help: LEAGUE_HELP,
};

/// The table of distances, which stands where other commands have their league.
pub(crate) const DISTANCES: TextArg = TextArg {
    name: "league",
    value_name: "DISTANCES",
    help: DISTANCES_HELP,
};

pub(crate) const SYMMETRIC: TextArg = TextArg {
    name: "symmetric",
    value_name: "BY",
    help: SYMMETRIC_HELP,
};

/// The name of a league that is made.
pub(crate) const NAME: TextArg = TextArg {
    name: "name",
    value_name: "TEXT",
    help: NAME_HELP,
};

pub(crate) const SCRIPT: TextArg = TextArg {
    name: "second",
    value_name: "SCRIPT",
    help: SCRIPT_HELP,
};

pub(crate) const SCHEDULE: TextArg = TextArg {
    name: "second",
    value_name: "SCHEDULE",
    help: SCHEDULE_HELP,
};

pub(crate) const FROM: TextArg = TextArg {
    name: "from",
    value_name: "SCHEDULE",
    help: FROM_HELP,
};

pub(crate) const NEAR: TextArg = TextArg {
    name: "near",
    value_name: "W",
    help: NEAR_HELP,
};

pub(crate) const SEPARATOR: TextArg = TextArg {
    name: "separator",
    value_name: "SEPARATOR",
    help: SEPARATOR_HELP,
};

pub(crate) const OUTPUT: TextArg = TextArg {
    name: "output",
    value_name: "FILE",
    help: OUTPUT_HELP,
};

pub(crate) const LOG: TextArg = TextArg {
    name: "log",
    value_name: "FILE",
    help: LOG_HELP,
};

pub(crate) const KEEP: TextArg = TextArg {
    name: "keep",
    value_name: "ROUNDS",
    help: KEEP_HELP,
};

pub(crate) const KEEP_GAME: TextArg = TextArg {
    name: "keep-game",
    value_name: "GAME",
    help: KEEP_GAME_HELP,
};

impl TextArg {
    /// A word as clap has it.
    pub(crate) fn word<'a>(&self, alloc: Global) -> Arg<'a>
        ensures rule { rule_of_arg result ≡ word self.now.name.now }
        ensures local { result.global ≡ false }
    {
        Arg::new(alloc, self.name)
            .value_name(self.value_name)
            .value_parser(ValueParser::NonEmptyString)
            .help(self.help)
    }

    /// An option `--name TEXT` as clap has it.
    pub(crate) fn option<'a>(&self, alloc: Global) -> Arg<'a>
        ensures rule { rule_of_arg result ≡ text_option self.now.name.now }
        ensures local { result.global ≡ false }
    {
        self.word(alloc).long(self.name)
    }

    /// An option `-s TEXT` or `--name TEXT` as clap has it.
    pub(crate) fn lettered<'a>(&self, alloc: Global, letter: char) -> Arg<'a>
        ensures rule { rule_of_arg result ≡ lettered letter (text_option self.now.name.now) }
        ensures local { result.global ≡ false }
    {
        self.option(alloc).short(letter)
    }

    /// An option that can be given several times.
    pub(crate) fn repeated<'a>(&self, alloc: Global) -> Arg<'a>
        ensures rule { rule_of_arg result ≡ repeated (text_option self.now.name.now) }
        ensures local { result.global ≡ false }
    {
        self.option(alloc).action(ArgAction::Append)
    }
}
