//! What is asked for by `report`. clap takes any text for a format and a separator, and a name that none has is refused here.

ghost use Rattle.std.specs.Prelude.{◌≡◌, IfSome, option_map};
ghost use Rattle.clap.specs.Words.{found_of, rows_of};
ghost use Rattle.options.specs.CommandLine.{IsInRange, format_in, format_named, separator_named, separator_of};
ghost use Rattle.options.specs.within.Files.{written};

use crate::flag_args::BOM;
use crate::job::Job;
use crate::names::Names;
use choices::{CsvForm, Format, Separator};
use clap::ArgMatches;

/// The report that is asked for, unless it names what nothing has.
pub(crate) fn report_of(values: &ArgMatches) -> Option<Job>
    ensures job { result ≡ option_map Job.Report (format_in (rows_of (found_of values.now))) }
    ensures in_range { IfSome result IsInRange }
{
    match format_of(values) {
        Some(format) => Some(Job::Report(format)),
        None => None,
    }
}

/// The format that was named, or that stands for it, with what is asked for CSV, if there is one of that name.
fn format_of(values: &ArgMatches) -> Option<Format>
    ensures { result ≡ format_in (rows_of (found_of values.now)) }
{
    let separator = values.get_str("separator");
    let has_mark = BOM.is_given(values);
    match values.get_str("format") {
        Some(name) => format_named(name, separator, has_mark),
        None => None,
    }
}

pub(crate) const TEXT: &str = "text";

const CSV: &str = "csv";

const HTML: &str = "html";

const NAMES: &str = "names";

const JSON: &str = "json";

/// What `--format` takes.
pub(crate) const FORMATS: Names = Names {
    all: &[TEXT, CSV, HTML, NAMES, JSON],
};

pub(crate) fn format_named(name: &str, separator: Option<&str>, has_mark: bool) -> Option<Format>
    ensures { result ≡ format_named name.now (written separator.entry) has_mark }
{
    match name {
        CSV => {
            let separator = separator_of(separator)?;
            Some(Format::Csv(CsvForm {
                separator,
                has_mark,
            }))
        }
        _ if separator.is_some() || has_mark => None,
        TEXT => Some(Format::Text),
        HTML => Some(Format::Html),
        NAMES => Some(Format::Names),
        JSON => Some(Format::Json),
        _ => None,
    }
}

/// A comma, if no separator is named.
pub(crate) fn separator_of(name: Option<&str>) -> Option<Separator>
    ensures { result ≡ separator_of (written name.entry) }
{
    match name {
        Some(name) => separator_named(name),
        None => Some(Separator::Comma),
    }
}

const COMMA: &str = ",";

const SEMICOLON: &str = ";";

const TAB: &str = "tab";

/// What `--separator` takes.
pub(crate) const SEPARATORS: Names = Names {
    all: &[COMMA, SEMICOLON, TAB],
};

fn separator_named(name: &str) -> Option<Separator>
    ensures { result ≡ separator_named name.now }
{
    match name {
        COMMA => Some(Separator::Comma),
        SEMICOLON => Some(Separator::Semicolon),
        TAB => Some(Separator::Tab),
        _ => None,
    }
}
