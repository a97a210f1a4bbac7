//! Options for which a text stands if they aren't given. clap takes any text for them, and a wrong one is refused apart.

ghost use Rattle.std.specs.Prelude.{◌≡◌, false};
ghost use Rattle.clap.specs.Words.{rule_of as rule_of_arg};
ghost use Rattle.options.specs.CommandLine.{rule_of};
ghost use Rattle.options.specs.within.CommandLine.{form_of_default};

use crate::help::{EFFORT_HELP, FORMAT_HELP};
use crate::report_args::TEXT;
use clap::Arg;
use clap::builder::ValueParser;
use std::alloc::Global;

/// An option `--name TEXT`, and what stands for the text.
#[derive(Clone, Copy)]
pub(crate) struct DefaultArg {
    pub(crate) name: &'static str,
    pub(crate) value_name: &'static str,
    default: &'static str,
    help: &'static str,
}

pub(crate) const EFFORT: DefaultArg = DefaultArg {
    name: "effort",
    value_name: "E",
    default: "10",
    help: EFFORT_HELP,
};

pub(crate) const FORMAT: DefaultArg = DefaultArg {
    name: "format",
    value_name: "FORMAT",
    default: TEXT,
    help: FORMAT_HELP,
};

impl DefaultArg {
    /// The option as clap has it.
    pub(crate) fn arg<'a>(&self, alloc: Global) -> Arg<'a>
        ensures rule { rule_of_arg result ≡ rule_of (form_of_default self.now) }
        ensures local { result.global ≡ false }
    {
        Arg::new(alloc, self.name)
            .long(self.name)
            .value_name(self.value_name)
            .value_parser(ValueParser::string())
            .default_value(self.default)
            .help(self.help)
    }
}
