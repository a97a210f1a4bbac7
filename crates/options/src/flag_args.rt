//! Options without a value.

ghost use Rattle.std.specs.Prelude.{◌≡◌, false};
ghost use Rattle.clap.specs.Words.{found_of, rows_of, rule_of as rule_of_arg};
ghost use Rattle.options.specs.CommandLine.{flag, is_flagged};

use crate::help::{BOM_HELP, HISTORY_HELP};
use clap::{Arg, ArgAction, ArgMatches};
use std::alloc::Global;

/// An option `--name`.
#[derive(Clone, Copy)]
pub(crate) struct FlagArg {
    name: &'static str,
    help: &'static str,
}

pub(crate) const BOM: FlagArg = FlagArg {
    name: "bom",
    help: BOM_HELP,
};

pub(crate) const HISTORY: FlagArg = FlagArg {
    name: "history",
    help: HISTORY_HELP,
};

impl FlagArg {
    /// The option as clap has it.
    pub(crate) fn arg<'a>(&self, alloc: Global) -> Arg<'a>
        ensures rule { rule_of_arg result ≡ flag self.now.name.now }
        ensures local { result.global ≡ false }
    {
        Arg::new(alloc, self.name)
            .long(self.name)
            .action(ArgAction::SetTrue)
            .help(self.help)
    }

    /// Whether it is given.
    pub(crate) fn is_given(&self, values: &ArgMatches) -> bool
        ensures { result ≡ is_flagged self.now.name.now (rows_of (found_of values.now)) }
    {
        // `get_flag` has no clause for a text that is no `bool`
        match values.get_str(self.name) {
            Some(text) => text == "true",
            None => false,
        }
    }
}
