//! The forms that stand in a text for a member.

ghost use Rattle.std.specs.Prelude.{◌≡◌, option_and_then, option_map};
ghost use Rattle.serde_json.specs.Find.{get};
ghost use Rattle.serde_json.specs.View.{view, items_view};
ghost use Rattle.league_hints.specs.Seen.{first_no_text, first_outside, length_of, rule_seen, seen, seen_in, seen_of, whole, wrong_item, wrong_listed};

use crate::forms::is_text_within;
use crate::hint::Seen;
use crate::rosters::Roster;
use crate::wanted::Wanted;
use league::limits::{MAX_ROUND_TEXT, MAX_SHORT_NAME};
use league_forms::Form;
use league_json::number_within;
use serde_json::Value;

/// The form that an object has for a member of this name, where this is wanted.
pub(crate) fn seen_of(object: &Value, name: &str, wanted: Wanted) -> Seen
    ensures { result ≡ seen_of name.now wanted (view object.now) }
{
    seen_in(object.get(name), wanted)
}

/// The form that there is, where this is wanted.
pub(crate) fn seen_in(found: Option<&Value>, wanted: Wanted) -> Seen
    ensures { result ≡ seen_in wanted (option_map (λ value. view value.now) found.entry) }
{
    match found {
        Some(value) => seen(value, wanted),
        None => Seen::Absent,
    }
}

fn seen(value: &Value, wanted: Wanted) -> Seen
    ensures { result ≡ seen wanted (view value.now) }
{
    match wrong_item(value, wanted) {
        Some(wrong) => Seen::Item(Form::of(wrong)),
        None => whole(value, wanted),
    }
}

/// A value of which no item is wrong.
fn whole(value: &Value, wanted: Wanted) -> Seen
    ensures { result ≡ whole wanted (view value.now) }
{
    match wanted {
        Wanted::ShortNames | Wanted::RoundTexts => length_of(value),
        _ => Seen::Value(Form::of(value)),
    }
}

#[tactic(auto, using(league_json::proofs::Items::items_len_same))]
fn length_of(value: &Value) -> Seen
    ensures { result ≡ length_of (view value.now) }
{
    match value.as_array() {
        Some(items) => Seen::Length(items.len()),
        None => Seen::Value(Form::of(value)),
    }
}

/// The first item of an array that isn't wanted in it.
fn wrong_item(value: &Value, wanted: Wanted) -> Option<&Value>
    ensures { option_map (λ item. view item.now) result ≡ wrong_item wanted (view value.now) }
{
    match wanted {
        Wanted::Rounds(most) => first_outside(value.as_array()?, most.into()),
        Wanted::ShortNames => first_no_text(value.as_array()?, MAX_SHORT_NAME),
        Wanted::RoundTexts => first_no_text(value.as_array()?, MAX_ROUND_TEXT),
        _ => None,
    }
}

/// The first item that is no number from 1 to `most`.
fn first_outside(items: &[Value], most: u64) -> Option<&Value>
    ensures { option_map (λ item. view item.now) result ≡ first_outside most (items_view items.now) }
{
    for item in items {
        if number_within(item, 1, most).is_none() {
            return Some(item);
        }
    }
    None
}

/// The first item that is no text of one byte to `most`.
fn first_no_text(items: &[Value], most: usize) -> Option<&Value>
    ensures { option_map (λ item. view item.now) result ≡ first_no_text most (items_view items.now) }
{
    for item in items {
        if !is_text_within(item, most) {
            return Some(item);
        }
    }
    None
}

/// The form that a rule has for a member of this name, where this is wanted. Lists of teams are looked at too.
pub(crate) fn rule_seen(rule: &Value, name: &str, wanted: Wanted, roster: &Roster<'_>) -> Seen
    ensures { result ≡ rule_seen roster.now name.now wanted (view rule.now) }
{
    match wrong_in_rule(rule, name, wanted, roster) {
        Some(wrong) => Seen::Item(Form::of(wrong)),
        None => seen_of(rule, name, wanted),
    }
}

fn wrong_in_rule<'a>(
    rule: &'a Value,
    name: &str,
    wanted: Wanted,
    roster: &Roster<'_>,
) -> Option<&'a Value>
    ensures { option_map (λ item. view item.now) result ≡ option_and_then (wrong_listed roster.now wanted) (get name.now (view rule.now)) }
{
    wrong_listed(rule.get(name)?, wanted, roster)
}

/// The first item of an array that lists no team, or is no game.
fn wrong_listed<'a>(value: &'a Value, wanted: Wanted, roster: &Roster<'_>) -> Option<&'a Value>
    ensures { option_map (λ item. view item.now) result ≡ wrong_listed roster.now wanted (view value.now) }
{
    match wanted {
        Wanted::Teams(_) | Wanted::Listed(_) => roster.first_unlisted(value.as_array()?),
        Wanted::Games(_) | Wanted::ListedGames(_) => roster.first_no_game(value.as_array()?),
        _ => None,
    }
}
