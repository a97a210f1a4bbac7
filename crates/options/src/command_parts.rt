//! The parts of a command: its words, its options and the texts of its help.

ghost use Rattle.std.specs.Prelude.{◌≡◌, IfOk, false, fold, map};
ghost use Rattle.clap.specs.Words.{app_of, rule_of as rule_of_arg, with_rule};
ghost use Rattle.options.specs.within.CommandLine.{app_of_parts, rule_of_part};

use crate::default_args::DefaultArg;
use crate::flag_args::FlagArg;
use crate::number_args::NumberArg;
use crate::text_args::TextArg;
use clap::{Arg, Command};
use std::alloc::{AllocError, Global};

/// A word or an option of a command.
#[derive(Clone, Copy)]
pub(crate) enum CommandArg {
    /// A word.
    Word(TextArg),
    /// An option with a text.
    Text(TextArg),
    /// One that has a letter too.
    Lettered(TextArg, char),
    /// One that can be given several times.
    Repeated(TextArg),
    /// An option with a text, or what stands for it.
    Default(DefaultArg),
    /// An option with a number.
    Number(NumberArg),
    /// An option without a value.
    Flag(FlagArg),
}

impl CommandArg {
    /// The word or the option as clap has it.
    fn arg<'a>(&self, alloc: Global) -> Arg<'a>
        ensures rule { rule_of_arg result ≡ rule_of_part self.now }
        ensures local { result.global ≡ false }
    {
        match self {
            CommandArg::Word(text) => text.word(alloc),
            CommandArg::Text(text) => text.option(alloc),
            CommandArg::Lettered(text, letter) => text.lettered(alloc, *letter),
            CommandArg::Repeated(text) => text.repeated(alloc),
            CommandArg::Default(text) => text.arg(alloc),
            CommandArg::Number(number) => number.arg(alloc),
            CommandArg::Flag(flag) => flag.arg(alloc),
        }
    }
}

/// A command: its name, the texts of its help, and its words and options.
#[derive(Clone, Copy)]
pub(crate) struct CommandParts {
    pub(crate) name: &'static str,
    pub(crate) about: &'static str,
    pub(crate) after_help: &'static str,
    pub(crate) args: &'static [CommandArg],
}

impl CommandParts {
    /// The command as clap has it.
    pub(crate) fn command<'a>(&self, alloc: Global) -> Result<Command<'a>, AllocError>
        ensures { IfOk result (λ c. app_of c ≡ app_of_parts self.now) }
    {
        let command = Command::new(alloc, self.name)
            .about(self.about)
            .after_help(self.after_help);
        with_args(alloc, command, self.args)
    }
}

/// The command with these words and options too.
fn with_args<'a>(
    alloc: Global,
    command: Command<'a>,
    args: &[CommandArg],
) -> Result<Command<'a>, AllocError>
    ensures { IfOk result (λ c. app_of c ≡ fold with_rule (app_of command.entry) (map rule_of_part args.now)) }
{
    let mut command = command;
    for arg in args {
        command = command.arg(arg.arg(alloc))?;
    }
    Ok(command)
}
