//! The forms of JSON values that a league asks for, as tests.

ghost use Rattle.std.specs.Prelude.{◌≡◌, is_some, option_map};
ghost use Rattle.serde_json.specs.View.{view, items_view};
ghost use Rattle.league_json.specs.Json.{all_items, array_of, number_within};
ghost use Rattle.league_json.specs.RuleMembers.{text_member, team_set, slot_set, pairing_from};
ghost use Rattle.league_json.specs.LeagueMembers.{text_within};
ghost use Rattle.league_json.specs.Rosters.{listed_team};
ghost use Rattle.league_hints.specs.Firsts.{item_count};
ghost use Rattle.league_hints.specs.Rosters.{is_third};

use crate::rosters::Roster;
use league_json::number_within;
use serde_json::Value;

/// The last format of a league's text.
pub(crate) const LAST_FORMAT: u64 = 3;

/// Whether the league is in the third format.
pub(crate) fn is_third(league: &Value) -> bool
    ensures { result ≡ is_third (view league.now) }
{
    match league.get("format") {
        Some(format) => number_within(format, 3, LAST_FORMAT).is_some(),
        None => false,
    }
}

/// How many items an array has; 0 if the value is no array.
#[tactic(auto, using(league_json::proofs::Items::items_len_same))]
pub(crate) fn item_count(value: &Value) -> usize
    ensures { result ≡ item_count (view value.now) }
{
    match value.as_array() {
        Some(items) => items.len(),
        None => 0,
    }
}

/// A member that is a string.
pub(crate) fn text_member<'a>(rule: &'a Value, name: &str) -> Option<&'a str>
    ensures { option_map (λ text. text.now) result ≡ text_member name.now (view rule.now) }
{
    rule.get(name).and_then(|member| member.as_str())
}

/// Whether the value is an array of numbers from 1 to `most`.
pub(crate) fn is_slot_set(value: &Value, most: u64) -> bool
    ensures { result ≡ is_some (slot_set most (view value.now)) }
{
    match value.as_array() {
        Some(items) => are_numbers(items, most),
        None => false,
    }
}

fn are_numbers(items: &[Value], most: u64) -> bool
    ensures { result ≡ is_some (all_items (number_within 1 most) (items_view items.now)) }
{
    for item in items {
        if number_within(item, 1, most).is_none() {
            return false;
        }
    }
    true
}

/// Whether the value is an array of teams.
pub(crate) fn is_team_set(value: &Value, roster: &Roster<'_>) -> bool
    ensures { result ≡ is_some (team_set roster.now (view value.now)) }
{
    match value.as_array() {
        Some(items) => are_teams(items, roster),
        None => false,
    }
}

fn are_teams(items: &[Value], roster: &Roster<'_>) -> bool
    ensures { result ≡ is_some (all_items (listed_team roster.now) (items_view items.now)) }
{
    for item in items {
        if roster.listed_team(item).is_none() {
            return false;
        }
    }
    true
}

/// Whether the value is an array of games.
pub(crate) fn is_game_array(value: &Value, roster: &Roster<'_>) -> bool
    ensures { result ≡ is_some (array_of (pairing_from roster.now) (view value.now)) }
{
    match value.as_array() {
        Some(items) => are_games(items, roster),
        None => false,
    }
}

fn are_games(items: &[Value], roster: &Roster<'_>) -> bool
    ensures { result ≡ is_some (all_items (pairing_from roster.now) (items_view items.now)) }
{
    for item in items {
        if !roster.is_game(item) {
            return false;
        }
    }
    true
}

/// Whether the value is a text of one byte to `most`, none of them a control byte.
pub(crate) fn is_text_within(value: &Value, most: usize) -> bool
    ensures { result ≡ is_some (text_within most (view value.now)) }
{
    match value.as_str() {
        Some(text) => league::is_text_within(text.as_bytes(), most),
        None => false,
    }
}
