//! Which member of a league is wrong, and what is wanted.

ghost use Rattle.std.specs.Prelude.{◌≡◌, ◌+◌, ◌^◌, ◌<◌};
ghost use Rattle.serde_json.specs.View.{view};
ghost use Rattle.league_hints.specs.Members.{field_hint, no_rule, no_rule_at, rules_hint, wanted_in, whole_hint};

use crate::forms::{LAST_FORMAT, item_count};
use crate::hint::{Hint, Seen};
use crate::place::Place;
use crate::seen::seen_of;
use crate::wanted::Wanted;
use league::Field;
use league::limits::{MAX_ROUNDS, MAX_WEIGHT};
use league_forms::Form;
use serde_json::Value;

/// A member of the league as a whole, and what it has to be.
pub(crate) fn field_hint(league: &Value, field: Field) -> Hint
    ensures { result ≡ field_hint field (view league.now) }
{
    let wanted = wanted_in(field);
    Hint::Value(
        Place::League(field),
        seen_of(league, field.name(), wanted),
        wanted,
    )
}

/// A text that is no object.
pub(crate) fn whole_hint(league: &Value) -> Hint
    ensures { result ≡ whole_hint (view league.now) }
{
    Hint::Value(Place::Whole, Seen::Value(Form::of(league)), Wanted::Object)
}

/// The first of the rules that is no object.
#[tactic(auto, using(crate::proofs::Firsts::found_below))]
pub(crate) fn rules_hint(rules: &Value) -> Option<Hint>
    ensures { result ≡ rules_hint (view rules.now) }
{
    for index in 0..item_count(rules) {
        if let Some(hint) = no_rule_at(rules, index) {
            return Some(hint);
        }
    }
    None
}

fn no_rule_at(rules: &Value, index: usize) -> Option<Hint>
    requires { index + 1 < 2 ^ 64 }
    ensures { result ≡ no_rule_at (view rules.now) index }
{
    no_rule(rules.get(index)?, index)
}

fn no_rule(rule: &Value, index: usize) -> Option<Hint>
    requires { index + 1 < 2 ^ 64 }
    ensures { result ≡ no_rule index (view rule.now) }
{
    let wrong = Hint::Value(
        Place::Rule(index + 1),
        Seen::Value(Form::of(rule)),
        Wanted::Object,
    );
    (!rule.is_object()).then_some(wrong)
}

fn wanted_in(field: Field) -> Wanted
    ensures { result ≡ wanted_in field }
{
    match field {
        Field::Whole => Wanted::Object,
        Field::Format => Wanted::Number(1, LAST_FORMAT),
        Field::Teams => Wanted::Names,
        Field::Distances => Wanted::Table,
        Field::AtMost => Wanted::Number(1, MAX_ROUNDS.into()),
        Field::HardWeight => Wanted::Number(1, MAX_WEIGHT.into()),
        Field::Rules => Wanted::Objects,
        Field::Start => Wanted::Order,
        Field::Phased => Wanted::Truth,
        Field::Name => Wanted::Title,
        Field::Short => Wanted::ShortNames,
        Field::Rounds => Wanted::RoundTexts,
        Field::Repeats => Wanted::Repeats,
    }
}
