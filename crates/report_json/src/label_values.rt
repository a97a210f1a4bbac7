//! The names that a league gives itself, its teams in short, and its rounds.

ghost use Rattle.std.specs.Prelude.{◌≡◌, ◌++◌, option_map, IfOk, OnOk};
ghost use Rattle.serde_json.specs.View.{view};
ghost use Rattle.report_json.specs.within.Parts.{seen};
ghost use Rattle.report_json.specs.Labels.{round_texts_data, short_names_data, text_at, title_data};

use crate::parts::push_value;
use league::League;
use league::limits::round_count;
use serde_json::Value;
use std::alloc::{AllocError, Global};

pub(crate) fn title_value(alloc: Global, league: &League) -> Result<Value, AllocError>
    ensures { IfOk result (λ value. view value ≡ title_data league.now.labels.title) }
{
    match league.title() {
        Some(title) => Value::try_from_str(alloc, title),
        None => Ok(Value::Null),
    }
}

/// The short names of the teams, if the league has any.
pub(crate) fn short_names_value(alloc: Global, league: &League) -> Result<Value, AllocError>
    ensures { IfOk result (λ value. view value ≡ short_names_data league.now) }
{
    let mut names = Vec::new(alloc);
    for team in 0..league.teams() {
        push_text(alloc, &mut names, league.short_name(team))?;
    }
    Ok(Value::from(names))
}

/// The texts of the rounds, if the league has any.
pub(crate) fn round_texts_value(alloc: Global, league: &League) -> Result<Value, AllocError>
    ensures { IfOk result (λ value. view value ≡ round_texts_data league.now) }
{
    let mut texts = Vec::new(alloc);
    for round in 0..round_count(league.teams()) {
        push_text(alloc, &mut texts, league.round_text(round))?;
    }
    Ok(Value::from(texts))
}

/// Adds the text, if there is one.
fn push_text(alloc: Global, texts: &mut Vec<Value>, text: Option<&str>) -> Result<(), AllocError>
    ensures { OnOk result (seen texts.new.items ≡ seen texts.old.items ++ text_at (option_map (λ t. t.now) text.entry)) }
{
    match text {
        Some(text) => push_value(texts, Value::try_from_str(alloc, text)?),
        None => Ok(()),
    }
}
