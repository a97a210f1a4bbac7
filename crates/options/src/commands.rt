//! The commands of the program.

ghost use Rattle.std.specs.Prelude.{◌≡◌, IfOk, fold, map};
ghost use Rattle.clap.specs.Words.{app_of};
ghost use Rattle.options.specs.CommandLine.{app_of_command, program};
ghost use Rattle.options.specs.within.CommandLine.{app_of_parts, form_named, with_named};

use crate::command_parts::{CommandArg, CommandParts};
use crate::default_args::{EFFORT, FORMAT};
use crate::flag_args::{BOM, HISTORY};
use crate::help::{
    BOUND_ABOUT, BOUND_EXAMPLE, IMPROVE_ABOUT, IMPROVE_EXAMPLE, LEAGUE_ABOUT, LEAGUE_EXAMPLE,
    PLAY_ABOUT, PLAY_LINES, PROGRAM_ABOUT, PROGRAM_EXAMPLE, REPORT_ABOUT, REPORT_LINES,
    SEARCH_ABOUT, SEARCH_EXAMPLE, START_ABOUT, START_EXAMPLE, VERSION,
};
use crate::number_args::{AT_MOST, HARD_WEIGHT, ROOM, SECONDS, SEED, SLACK, STEPS, WORKERS};
use crate::text_args::{
    DISTANCES, FROM, KEEP, KEEP_GAME, LEAGUE, LOG, NAME, NEAR, OUTPUT, SCHEDULE, SCRIPT, SEPARATOR,
    SYMMETRIC,
};
use clap::Command;
use std::alloc::{AllocError, Global};

static START: CommandParts = CommandParts {
    name: "start",
    about: START_ABOUT,
    after_help: START_EXAMPLE,
    args: &[CommandArg::Word(LEAGUE), CommandArg::Text(FROM)],
};

static PLAY: CommandParts = CommandParts {
    name: "play",
    about: PLAY_ABOUT,
    after_help: PLAY_LINES,
    args: &[
        CommandArg::Word(LEAGUE),
        CommandArg::Word(SCRIPT),
        CommandArg::Number(ROOM),
        CommandArg::Text(FROM),
        CommandArg::Text(KEEP),
        CommandArg::Repeated(KEEP_GAME),
        CommandArg::Text(NEAR),
    ],
};

static IMPROVE: CommandParts = CommandParts {
    name: "improve",
    about: IMPROVE_ABOUT,
    after_help: IMPROVE_EXAMPLE,
    args: &[
        CommandArg::Word(LEAGUE),
        CommandArg::Number(WORKERS),
        CommandArg::Number(SEED),
        CommandArg::Default(EFFORT),
        CommandArg::Number(SECONDS),
        CommandArg::Flag(HISTORY),
        CommandArg::Lettered(OUTPUT, 'o'),
        CommandArg::Text(LOG),
        CommandArg::Text(FROM),
        CommandArg::Text(KEEP),
        CommandArg::Repeated(KEEP_GAME),
        CommandArg::Text(NEAR),
    ],
};

static SEARCH: CommandParts = CommandParts {
    name: "search",
    about: SEARCH_ABOUT,
    after_help: SEARCH_EXAMPLE,
    args: &[
        CommandArg::Word(LEAGUE),
        CommandArg::Number(ROOM),
        CommandArg::Number(WORKERS),
        CommandArg::Number(SEED),
        CommandArg::Number(STEPS),
        CommandArg::Number(SLACK),
        CommandArg::Text(FROM),
        CommandArg::Text(KEEP),
        CommandArg::Repeated(KEEP_GAME),
        CommandArg::Text(NEAR),
    ],
};

static REPORT: CommandParts = CommandParts {
    name: "report",
    about: REPORT_ABOUT,
    after_help: REPORT_LINES,
    args: &[
        CommandArg::Word(LEAGUE),
        CommandArg::Word(SCHEDULE),
        CommandArg::Default(FORMAT),
        CommandArg::Text(FROM),
        CommandArg::Text(NEAR),
        CommandArg::Text(SEPARATOR),
        CommandArg::Flag(BOM),
    ],
};

static LEAGUE_OF_TABLE: CommandParts = CommandParts {
    name: "league",
    about: LEAGUE_ABOUT,
    after_help: LEAGUE_EXAMPLE,
    args: &[
        CommandArg::Word(DISTANCES),
        CommandArg::Number(AT_MOST),
        CommandArg::Number(HARD_WEIGHT),
        CommandArg::Text(SYMMETRIC),
        CommandArg::Text(NAME),
    ],
};

static BOUND: CommandParts = CommandParts {
    name: "bound",
    about: BOUND_ABOUT,
    after_help: BOUND_EXAMPLE,
    args: &[CommandArg::Word(LEAGUE)],
};

const NAMES: [&str; 7] = [
    "start", "play", "improve", "search", "report", "league", "bound",
];

/// The program's command line.
pub(crate) fn program<'a>(alloc: Global) -> Result<Command<'a>, AllocError>
    ensures { IfOk result (λ c. app_of c ≡ program) }
{
    let bare = Command::new(alloc, "ttp")
        .version(VERSION)
        .about(PROGRAM_ABOUT)
        .after_help(PROGRAM_EXAMPLE)
        .subcommand_required(true);
    let whole = with_commands(alloc, bare, &NAMES)?;
    whole.bin_name("ttp")
}

/// The program with these commands too.
fn with_commands<'a>(
    alloc: Global,
    program: Command<'a>,
    names: &[&str],
) -> Result<Command<'a>, AllocError>
    ensures { IfOk result (λ c. app_of c ≡ fold with_named (app_of program.entry) (map (λ name. name.now) names.now)) }
{
    let mut program = program;
    for name in names {
        program = with_command(alloc, program, name)?;
    }
    Ok(program)
}

fn with_command<'a>(
    alloc: Global,
    program: Command<'a>,
    name: &str,
) -> Result<Command<'a>, AllocError>
    ensures { IfOk result (λ c. app_of c ≡ with_named (app_of program.entry) name.now) }
{
    let command = command_named(alloc, name)?;
    program.subcommand(command)
}

/// The command of this name, and `start` for any other.
pub(crate) fn command_named<'a>(alloc: Global, name: &str) -> Result<Command<'a>, AllocError>
    ensures { IfOk result (λ c. app_of c ≡ app_of_command (form_named name.now)) }
{
    parts_named(name).command(alloc)
}

fn parts_named(name: &str) -> &'static CommandParts
    ensures { app_of_parts result.now ≡ app_of_command (form_named name.now) }
{
    match name {
        "play" => &PLAY,
        "improve" => &IMPROVE,
        "search" => &SEARCH,
        "report" => &REPORT,
        "league" => &LEAGUE_OF_TABLE,
        "bound" => &BOUND,
        _ => &START,
    }
}
