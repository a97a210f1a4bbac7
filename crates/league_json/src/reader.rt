//! A league's JSON text as a whole.

ghost use Rattle.std.specs.Prelude.{◌≡◌, [], IfOk};
ghost use Rattle.serde_json.specs.View.{view};
ghost use Rattle.league_json.specs.Json.{json_of};
ghost use Rattle.league.specs.Reading.{Gives, or_fault};
ghost use Rattle.league_json.specs.League.{league_of_data, league_of};
ghost use Rattle.league.specs.League.{IsLeague};
ghost use Rattle.league.specs.declared.fault.LeagueFault.TheVariants.{NotJson};

use crate::forms::item_count;
use crate::label_members::labels_of;
use crate::league_members::{
    at_most_of, distances_of, format_of, free_repeats_of, hard_weight_of, order_of, phased_of,
    rules_of, teams_of,
};
use crate::rosters::Roster;
use crate::rule_classes::read_rules;
use league::{Field, League, LeagueFault, Terms, check};
use serde_json::{Category, Value};
use std::alloc::Global;

fn json_of(alloc: Global, bytes: &[u8]) -> Result<Value, LeagueFault>
    ensures exact { Gives view result (or_fault NotJson (json_of bytes.now)) }
    ensures empty { bytes.now ≡ [] → result ≡ Err LeagueFault.NotJson }
{
    match Value::from_slice(alloc, bytes) {
        Ok(value) => Ok(value),
        Err(error) => match error.classify() {
            Category::Memory => Err(LeagueFault::Memory),
            _ => Err(LeagueFault::NotJson),
        },
    }
}

#[tactic(auto, unfolding(crate::specs::League::league_of_data))]
fn league_of_data(alloc: Global, value: &Value) -> Result<League, LeagueFault>
    ensures exact { Gives (λ l. l) result (league_of_data (view value.now)) }
    ensures limits { IfOk result IsLeague }
{
    if !value.is_object() {
        return Err(LeagueFault::WrongKind(Field::Whole));
    }
    let format = format_of(value)?;
    let names = teams_of(alloc, value)?;
    let distances = distances_of(alloc, value)?;
    let at_most = at_most_of(value)?;
    let hard_weight = hard_weight_of(value)?;
    let items = rules_of(value)?;
    let start = order_of(value, format)?;
    let phased = phased_of(value, format)?;
    let labels = labels_of(alloc, value, format, &names)?;
    let free_repeats = free_repeats_of(value, format)?;
    check(names.len(), &distances, item_count(items))?;
    let rules = read_rules(alloc, items, format, &Roster::new(format, &names))?;
    let terms = Terms {
        at_most,
        hard_weight,
        phased,
        free_repeats,
    };
    Ok(League::new(alloc, names, &distances, rules, start, terms, labels)?)
}

/// Reads a league from its JSON text, an object with these members:
///
/// - `format`: the whole number 1, 2 or 3;
/// - `teams`: an array of names, each of 1 to 40 bytes and none of them a control byte (0 to 31 and 127);
/// - `distances`: an array with a row for each team, of a whole number up to 1,000,000 for each team;
/// - `at_most`, or 3 if it is absent: a whole number from 1 to 78;
/// - `hard_weight`, or 100 if it is absent: a whole number from 1 to 1,000,000;
/// - `rules`, or none if it is absent: an array of at most 256 objects, each a rule;
/// - from format 2 on `start`, or `"plain"` if it is absent: `"plain"` or `"fide"`;
/// - from format 2 on `phased`, or false if it is absent: true or false;
/// - in format 3 `name`, a text of 1 to 80 bytes; `short`, an array with a text of 1 to 6 bytes for each team; `rounds`,
///   an array with a text of 1 to 20 bytes for each round: each may be absent, and has no control byte;
/// - in format 3 `repeats`, or `"forbidden"` if it is absent: `"forbidden"` or `"free"`.
///
/// A rule has the members `class`, `kind` (`"hard"`, or `"soft"` with a `weight` from 1 to 1,000,000) and those of its
/// class; docs/rules.md has them all. Teams and rounds count from 1 there, and format 3 has teams by name too.
///
/// A whole number fits 64 bits and has no fraction or exponent: `3.0` is none. Other members are ignored, and of a
/// member that is given twice the last counts.
///
/// The first fault is answered, in this order: NotJson; WrongKind if the text is no object; MissingField or
/// WrongKind for each member in the order above; then the others in the order of [`LeagueFault`] up to TooManyRules;
/// then, rule by rule, RuleClass or RuleValue. Memory may come in place of any answer, but for an empty input.
#[tactic(auto, unfolding(crate::specs::League::league_of))]
pub fn read_league(alloc: Global, bytes: &[u8]) -> Result<League, LeagueFault>
    ensures exact { Gives (λ l. l) result (league_of bytes.now) }
    ensures limits { IfOk result IsLeague }
    ensures empty { bytes.now ≡ [] → result ≡ Err LeagueFault.NotJson }
{
    let value = json_of(alloc, bytes)?;
    league_of_data(alloc, &value)
}
