//! The text of a league that is made of a table.

ghost use Rattle.std.specs.Prelude.{◌≡◌, ◌++◌, codes, decimal, option_map, IfOk, IfSome, OnOk, false};
ghost use Rattle.std.specs.Str.{IsUtf8};
ghost use Rattle.json.specs.Print.{quoted};
ghost use Rattle.league.specs.Views.{texts};
ghost use Rattle.league_csv.specs.LeagueText.{league_text, names_text, numbers_text, row_text, rows_text, said_by, setting_text, title_text};
ghost use Rattle.league_csv.specs.within.Views.{number_rows};

use serde_json::Value;
use std::alloc::{AllocError, Global};

/// The settings of a league beside its teams and distances, if anything is to be said.
#[derive(Clone, Copy, Debug, Default, PartialEq, Eq)]
pub struct Settings<'a> {
    /// The name of the league: 1 to 80 bytes, none of them a control byte.
    pub title: Option<&'a str>,
    /// How many rounds in a row a team may play at home, or away: 1 to 78.
    pub at_most: Option<u64>,
    /// The weight of each breach of a hard limit in a score: 1 to 1000000.
    pub hard_weight: Option<u64>,
}

/// The text, with a row of distances a line.
#[tactic(auto, unfolding(crate::specs::LeagueText::league_text))]
pub(crate) fn league_text(
    alloc: Global,
    names: &[String],
    distances: &[Vec<u64>],
    settings: Settings<'_>,
) -> Result<Vec<u8>, AllocError>
    ensures text { IfOk result (λ text. text.items ≡ league_text (texts names.now) (number_rows distances.now) (said_by settings.entry)) }
    ensures utf8 { IfOk result (λ _. IfSome (said_by settings.entry).title IsUtf8) }
{
    let mut text = Vec::new(alloc);
    text.extend_from_slice(b"{\n  \"format\": 3")?;
    push_title(alloc, &mut text, settings.title)?;
    text.extend_from_slice(b",\n  \"teams\": [")?;
    push_names(alloc, &mut text, names)?;
    text.extend_from_slice(b"],\n  \"distances\": [")?;
    push_rows(&mut text, distances)?;
    text.extend_from_slice(b"\n  ]")?;
    push_setting(&mut text, b",\n  \"at_most\": ", settings.at_most)?;
    push_setting(&mut text, b",\n  \"hard_weight\": ", settings.hard_weight)?;
    text.extend_from_slice(b"\n}\n")?;
    Ok(text)
}

/// Adds the member of the league's name, if it has one.
fn push_title(alloc: Global, text: &mut Vec<u8>, title: Option<&str>) -> Result<(), AllocError>
    ensures text { OnOk result (text.new.items ≡ text.old.items ++ title_text (option_map (λ title. title.now) title.entry)) }
    ensures utf8 { OnOk result (IfSome (option_map (λ title. title.now) title.entry) IsUtf8) }
{
    if let Some(title) = title {
        text.extend_from_slice(b",\n  \"name\": ")?;
        push_name(alloc, text, title)?;
    }
    Ok(())
}

fn push_names(alloc: Global, text: &mut Vec<u8>, names: &[String]) -> Result<(), AllocError>
    ensures { OnOk result (text.new.items ≡ text.old.items ++ names_text false (texts names.now)) }
{
    let mut rest = names;
    let mut later = false;
    while let [name, more @ ..] = rest {
        if later {
            text.extend_from_slice(b", ")?;
        }
        push_name(alloc, text, name.as_str())?;
        later = true;
        rest = more;
    }
    Ok(())
}

/// Adds a name as a string of JSON.
fn push_name(alloc: Global, text: &mut Vec<u8>, name: &str) -> Result<(), AllocError>
    ensures text { OnOk result (text.new.items ≡ text.old.items ++ quoted name.now) }
    ensures utf8 { IsUtf8 name.now }
{
    let quoted = Value::try_from_str(alloc, name)?.to_vec(alloc)?;
    text.extend_from_slice(&quoted)
}

fn push_rows(text: &mut Vec<u8>, rows: &[Vec<u64>]) -> Result<(), AllocError>
    ensures { OnOk result (text.new.items ≡ text.old.items ++ rows_text false (number_rows rows.now)) }
{
    let mut rest = rows;
    let mut later = false;
    while let [row, more @ ..] = rest {
        if later {
            text.extend_from_slice(b",")?;
        }
        push_row(text, row)?;
        later = true;
        rest = more;
    }
    Ok(())
}

fn push_row(text: &mut Vec<u8>, row: &[u64]) -> Result<(), AllocError>
    ensures { OnOk result (text.new.items ≡ text.old.items ++ row_text row.now) }
{
    text.extend_from_slice(b"\n    [")?;
    push_numbers(text, row)?;
    text.extend_from_slice(b"]")
}

fn push_numbers(text: &mut Vec<u8>, numbers: &[u64]) -> Result<(), AllocError>
    ensures { OnOk result (text.new.items ≡ text.old.items ++ numbers_text false numbers.now) }
{
    let mut rest = numbers;
    let mut later = false;
    while let [number, more @ ..] = rest {
        if later {
            text.extend_from_slice(b", ")?;
        }
        push_number(text, *number)?;
        later = true;
        rest = more;
    }
    Ok(())
}

fn push_number(text: &mut Vec<u8>, number: u64) -> Result<(), AllocError>
    ensures { OnOk result (text.new.items ≡ text.old.items ++ decimal number) }
{
    let mut digits = itoa::Buffer::new();
    text.extend_from_slice(digits.format(number).as_bytes())
}

/// Adds a member that may be absent.
fn push_setting(text: &mut Vec<u8>, name: &[u8], number: Option<u64>) -> Result<(), AllocError>
    ensures { OnOk result (text.new.items ≡ text.old.items ++ setting_text name.now number) }
{
    if let Some(number) = number {
        text.extend_from_slice(name)?;
        push_number(text, number)?;
    }
    Ok(())
}
