//! The members of a league's text. One that has to be there is MissingField if it is absent, and each is
//! WrongKind if it is not of its form.

ghost use Rattle.std.specs.Prelude.{◌≡◌, ℕ, ◌≤◌, IsTrue, IfOk};
ghost use Rattle.std.specs.List.{list_all};
ghost use Rattle.serde_json.specs.View.{view, items_view};
ghost use Rattle.league.specs.Limits.{max_rounds, max_weight};
ghost use Rattle.league.specs.Reading.{Gives};
ghost use Rattle.league_json.specs.within.Reading.{seen};
ghost use Rattle.league.specs.Names.{is_team_name};
ghost use Rattle.league_json.specs.LeagueMembers.{format_of, teams_of, distances_of, at_most_of};
ghost use Rattle.league_json.specs.LeagueMembers.{hard_weight_of, rules_of, order_named, start_order, order_of, phased_of};
ghost use Rattle.league_json.specs.LeagueMembers.{are_free, free_repeats_of};
ghost use Rattle.league.specs.Origins.{IsStartFor};
ghost use Rattle.league.specs.Views.{texts};
ghost use Rattle.league.specs.Views.{rows};

use crate::formats::{FIRST_FORMAT, SECOND_FORMAT, THIRD_FORMAT};
use crate::forms::{distance_rows, number_within, objects, texts_within};
use league::limits::{DEFAULT_AT_MOST, DEFAULT_HARD_WEIGHT, MAX_AT_MOST, MAX_NAME, MAX_WEIGHT};
use league::{Field, LeagueFault, Start};
use serde_json::Value;
use std::alloc::Global;

pub fn format_of(object: &Value) -> Result<u64, LeagueFault>
    ensures { result ≡ format_of (view object.now) }
{
    let member = object
        .get("format")
        .ok_or(LeagueFault::MissingField(Field::Format))?;
    number_within(member, FIRST_FORMAT, THIRD_FORMAT).ok_or(LeagueFault::WrongKind(Field::Format))
}

pub fn teams_of(alloc: Global, object: &Value) -> Result<Vec<String>, LeagueFault>
    ensures value { Gives (λ names. texts names.items) result (teams_of (view object.now)) }
    ensures fit { IfOk result (λ names. IsTrue (list_all is_team_name (texts names.items))) }
{
    let member = object
        .get("teams")
        .ok_or(LeagueFault::MissingField(Field::Teams))?;
    texts_within(alloc, member, MAX_NAME)?.ok_or(LeagueFault::WrongKind(Field::Teams))
}

pub fn distances_of(alloc: Global, object: &Value) -> Result<Vec<Vec<u64>>, LeagueFault>
    ensures { Gives (λ table. rows table.items) result (distances_of (view object.now)) }
{
    let member = object
        .get("distances")
        .ok_or(LeagueFault::MissingField(Field::Distances))?;
    distance_rows(alloc, member)?.ok_or(LeagueFault::WrongKind(Field::Distances))
}

pub fn at_most_of(object: &Value) -> Result<u8, LeagueFault>
    ensures value { result ≡ at_most_of (view object.now) }
    ensures least { IfOk result (λ n. 1 ≤ n) }
    ensures most { IfOk result (λ n. n ≤ max_rounds) }
{
    let Some(member) = object.get("at_most") else {
        return Ok(DEFAULT_AT_MOST);
    };
    match number_within(member, 1, MAX_AT_MOST.into()) {
        Some(number) => Ok(number as u8),
        None => Err(LeagueFault::WrongKind(Field::AtMost)),
    }
}

pub fn hard_weight_of(object: &Value) -> Result<u32, LeagueFault>
    ensures value { result ≡ hard_weight_of (view object.now) }
    ensures least { IfOk result (λ n. 1 ≤ n) }
    ensures most { IfOk result (λ n. n ≤ max_weight) }
{
    let Some(member) = object.get("hard_weight") else {
        return Ok(DEFAULT_HARD_WEIGHT);
    };
    match number_within(member, 1, MAX_WEIGHT.into()) {
        Some(number) => Ok(number as u32),
        None => Err(LeagueFault::WrongKind(Field::HardWeight)),
    }
}

/// The rules, none if the member is absent.
pub fn rules_of(object: &Value) -> Result<&[Value], LeagueFault>
    ensures { seen (λ items. items_view items.now) result ≡ rules_of (view object.now) }
{
    let Some(member) = object.get("rules") else {
        return Ok(&[]);
    };
    objects(member).ok_or(LeagueFault::WrongKind(Field::Rules))
}

fn order_named(name: &str) -> Option<Start>
    ensures { result ≡ order_named name.now }
{
    match name {
        "plain" => Some(Start::Berger),
        "fide" => Some(Start::Fide),
        _ => None,
    }
}

fn start_order(value: &Value) -> Option<Start>
    ensures { result ≡ start_order (view value.now) }
{
    value.as_str().and_then(order_named)
}

/// The start: the Berger table, perhaps in FIDE's order.
pub fn order_of(object: &Value, format: u64) -> Result<Start, LeagueFault>
    ensures value { result ≡ order_of format (view object.now) }
    ensures fits { IfOk result (λ start. (n : ℕ) → IsStartFor n start) }
{
    match object.get("start") {
        Some(member) if format >= SECOND_FORMAT => {
            start_order(member).ok_or(LeagueFault::WrongKind(Field::Start))
        }
        _ => Ok(Start::Berger),
    }
}

/// Whether the two games of each pair of teams belong into different halves of the season.
pub fn phased_of(object: &Value, format: u64) -> Result<bool, LeagueFault>
    ensures { result ≡ phased_of format (view object.now) }
{
    match object.get("phased") {
        Some(member) if format >= SECOND_FORMAT => {
            member
                .as_bool()
                .ok_or(LeagueFault::WrongKind(Field::Phased))
        }
        _ => Ok(false),
    }
}

fn are_free(word: &str) -> Option<bool>
    ensures { result ≡ are_free word.now }
{
    match word {
        "free" => Some(true),
        "forbidden" => Some(false),
        _ => None,
    }
}

/// Whether the two games of a pair of teams may stand in rounds one after the other.
pub fn free_repeats_of(object: &Value, format: u64) -> Result<bool, LeagueFault>
    ensures { result ≡ free_repeats_of format (view object.now) }
{
    match object.get("repeats") {
        Some(member) if format >= THIRD_FORMAT => {
            member
                .as_str()
                .and_then(are_free)
                .ok_or(LeagueFault::WrongKind(Field::Repeats))
        }
        _ => Ok(false),
    }
}
