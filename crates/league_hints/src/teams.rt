//! Which team's name is wrong.

ghost use Rattle.std.specs.Prelude.{◌≡◌, ◌+◌, ◌^◌, ◌<◌};
ghost use Rattle.serde_json.specs.View.{view};
ghost use Rattle.league_hints.specs.Teams.{wrong_text, wrong_name, team_hint, teams_hint};

use crate::forms::item_count;
use crate::hint::{Hint, Seen};
use crate::place::Place;
use crate::wanted::Wanted;
use league::is_text_within;
use league::limits::MAX_NAME;
use league_forms::{Form, Quote};
use serde_json::Value;

/// The first of the teams whose name is none, and why.
#[tactic(auto, using(crate::proofs::Firsts::found_below))]
pub(crate) fn teams_hint(teams: &Value) -> Option<Hint>
    ensures { result ≡ teams_hint (view teams.now) }
{
    for team in 0..item_count(teams) {
        if let Some(hint) = team_hint(teams, team) {
            return Some(hint);
        }
    }
    None
}

fn team_hint(teams: &Value, team: usize) -> Option<Hint>
    requires { team + 1 < 2 ^ 64 }
    ensures { result ≡ team_hint (view teams.now) team }
{
    let wrong = wrong_name(teams.get(team)?)?;
    Some(Hint::Value(Place::Team(team + 1), wrong, Wanted::Name))
}

/// The form that is seen in place of a name.
fn wrong_name(value: &Value) -> Option<Seen>
    ensures { result ≡ wrong_name (view value.now) }
{
    match value.as_str() {
        Some(name) => wrong_text(name),
        None => Some(Seen::Value(Form::of(value))),
    }
}

fn wrong_text(name: &str) -> Option<Seen>
    ensures { result ≡ wrong_text name.now }
{
    if is_text_within(name.as_bytes(), MAX_NAME) {
        None
    } else if (1..=MAX_NAME).contains(&name.len()) {
        Some(Seen::ControlByte(Quote::of(name)))
    } else {
        Some(Seen::Bytes(Quote::of(name), name.len()))
    }
}
