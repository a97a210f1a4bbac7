//! What is asked for by `league`. clap takes any text for what stands for two distances that differ and for what a league is called,
//! and a name that none has, or that no league can have, is refused here.

ghost use Rattle.std.specs.Prelude.{◌≡◌, ◌≤◌, IfOk, IfSome, option_map, string_bytes};
ghost use Rattle.clap.specs.Words.{found_of, rows_of};
ghost use Rattle.options.specs.CommandLine.{at_most_option, choice_of, hard_weight_option, league_command, league_in};
ghost use Rattle.options.specs.CommandLine.{number_in, symmetry_named, title_in, IsInRange};
ghost use Rattle.options.specs.within.CommandLine.{HasValue, HasValues};
ghost use Rattle.league.specs.Labels.{is_title};
ghost use Rattle.sets.specs.Limits.{max_rounds};
ghost use Rattle.options.specs.within.Files.{written};

use crate::files::owned;
use crate::job::Job;
use crate::names::Names;
use crate::number_args::{AT_MOST, HARD_WEIGHT};
use choices::Symmetry;
use clap::ArgMatches;
use league::is_text_within;
use league::limits::MAX_TITLE;
use std::alloc::{AllocError, Global};

/// The league of a table with what was asked for it, unless that names what nothing has.
pub(crate) fn league_of(values: &ArgMatches) -> Option<Job>
    requires { HasValues (rows_of (found_of values.now)) league_command.options }
    ensures job { result ≡ league_in (rows_of (found_of values.now)) }
    ensures in_range { IfSome result IsInRange }
{
    match choice_of(values.get_str("symmetric")) {
        Some(choice) => Some(Job::League {
            choice,
            at_most: at_most_of(values),
            hard_weight: hard_weight_of(values),
        }),
        None => None,
    }
}

fn at_most_of(values: &ArgMatches) -> Option<u64>
    requires { HasValue (rows_of (found_of values.now)) at_most_option }
    ensures number { number_in at_most_option.name (rows_of (found_of values.now)) ≡ result }
    ensures range { IfSome result (λ most. (1 ≤ most) × (most ≤ max_rounds)) }
{
    AT_MOST.number_if_any(values)
}

fn hard_weight_of(values: &ArgMatches) -> Option<u64>
    requires { HasValue (rows_of (found_of values.now)) hard_weight_option }
    ensures number { number_in hard_weight_option.name (rows_of (found_of values.now)) ≡ result }
    ensures range { IfSome result (λ weight. (1 ≤ weight) × (weight ≤ 1000000)) }
{
    HARD_WEIGHT.number_if_any(values)
}

/// Whether a league can be called as the words have it, if they do.
pub(crate) fn has_title(values: &ArgMatches) -> bool
    ensures { result ≡ is_title (title_in (rows_of (found_of values.now))) }
{
    let title = values.get_str("name");
    can_be_called(title)
}

fn can_be_called(title: Option<&str>) -> bool
    ensures { result ≡ is_title (written title.entry) }
{
    match title {
        Some(title) => is_text_within(title.as_bytes(), MAX_TITLE),
        None => true,
    }
}

/// The name that the league is to have.
pub(crate) fn title_in(alloc: Global, values: &ArgMatches) -> Result<Option<String>, AllocError>
    ensures { IfOk result (λ title. option_map string_bytes title ≡ title_in (rows_of (found_of values.now))) }
{
    owned(alloc, values.get_str("name"))
}

/// Nothing, if no name is given.
fn choice_of(name: Option<&str>) -> Option<Option<Symmetry>>
    ensures { result ≡ choice_of (written name.entry) }
{
    match name {
        Some(name) => symmetry_named(name).map(Some),
        None => Some(None),
    }
}

const MEAN: &str = "mean";

const MAX: &str = "max";

/// What `--symmetric` takes.
pub(crate) const SYMMETRIES: Names = Names { all: &[MEAN, MAX] };

fn symmetry_named(name: &str) -> Option<Symmetry>
    ensures { result ≡ symmetry_named name.now }
{
    match name {
        MEAN => Some(Symmetry::Mean),
        MAX => Some(Symmetry::Max),
        _ => None,
    }
}
