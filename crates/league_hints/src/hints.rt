//! A hint on a league's text that is refused.

ghost use Rattle.std.specs.Prelude.{◌≡◌, ◌≤◌, IfOk, IfSome, option_and_then, option_map};
ghost use Rattle.serde_json.specs.View.{view, items_view};
ghost use Rattle.league_hints.specs.Rosters.{names_in, names_of, team_names};
ghost use Rattle.league.specs.Limits.{max_teams};
ghost use Rattle.league_hints.specs.Hints.{kind_hint, part_hint, table_hint_of, rule_at, rule_count, team_count, within_most, roster_in, rule_hint_of, hint_of, IsHint};

use crate::distances::distances_hint;
use crate::forms::{is_third, item_count};
use crate::hint::Hint;
use crate::json::json_of;
use crate::members::{field_hint, rules_hint, whole_hint};
use crate::rosters::Roster;
use crate::rules::{class_hint, rule_hint};
use crate::teams::teams_hint;
use league::limits::MAX_TEAMS;
use league::{Field, LeagueFault};
use serde_json::Value;
use std::alloc::{AllocError, Global};

/// Where a league's text has this fault, which has to be the one that [`league_json::read_league`] answers, and what is wanted there.
///
/// Takes the memory of the text's JSON value.
pub fn hint_on(alloc: Global, text: &[u8], fault: LeagueFault) -> Result<Option<Hint>, AllocError>
    ensures { IfOk result (IsHint text.now fault) }
{
    match json_of(alloc, text)? {
        Ok(league) => Ok(hint_of(&league, fault)),
        Err(hint) => Ok(Some(hint)),
    }
}

fn hint_of(league: &Value, fault: LeagueFault) -> Option<Hint>
    ensures { result ≡ hint_of fault (view league.now) }
{
    match fault {
        LeagueFault::MissingField(field) => Some(field_hint(league, field)),
        LeagueFault::WrongKind(field) => Some(kind_hint(league, field)),
        LeagueFault::TeamCount => Some(Hint::TeamCount(team_count(league)?)),
        LeagueFault::TooManyRules => Some(Hint::RuleCount(rule_count(league)?)),
        LeagueFault::DistanceShape
        | LeagueFault::DistanceRange
        | LeagueFault::Diagonal
        | LeagueFault::Asymmetric => table_hint_of(league, fault),
        LeagueFault::RuleClass(index) => Some(class_hint(rule_at(league, index)?, index)),
        LeagueFault::RuleValue(index) => rule_hint_of(league, index),
        _ => None,
    }
}

/// Where the text, a member or a part of it isn't of its form.
fn kind_hint(league: &Value, field: Field) -> Hint
    ensures { result ≡ kind_hint field (view league.now) }
{
    if field == Field::Whole {
        return whole_hint(league);
    }
    match part_hint(league, field) {
        Some(hint) => hint,
        None => field_hint(league, field),
    }
}

/// The fault within a member, if that is an array.
fn part_hint(league: &Value, field: Field) -> Option<Hint>
    ensures { result ≡ part_hint field (view league.now) }
{
    match field {
        Field::Teams => teams_hint(league.get("teams")?),
        Field::Distances => table_hint_of(league, LeagueFault::WrongKind(Field::Distances)),
        Field::Rules => rules_hint(league.get("rules")?),
        _ => None,
    }
}

fn table_hint_of(league: &Value, fault: LeagueFault) -> Option<Hint>
    ensures { result ≡ table_hint_of fault (view league.now) }
{
    let teams = team_count(league)?;
    distances_hint(league.get("distances")?, teams, fault)
}

fn rule_hint_of(league: &Value, index: u8) -> Option<Hint>
    ensures { result ≡ rule_hint_of index (view league.now) }
{
    let rule = rule_at(league, index)?;
    rule_hint(rule, &roster_in(league)?, index)
}

/// The teams that rules can list.
fn roster_in(league: &Value) -> Option<Roster<'_>>
    ensures { result ≡ roster_in (view league.now) }
{
    let teams = few_teams(league)?;
    Some(Roster::new(teams, names_in(league)))
}

/// The rules that they can list by name: in the third format.
fn names_in(league: &Value) -> &[Value]
    ensures { names_of (items_view result.now) ≡ names_in (view league.now) }
{
    if is_third(league) {
        teams_in(league)
    } else {
        &[]
    }
}

fn teams_in(league: &Value) -> &[Value]
    ensures { names_of (items_view result.now) ≡ team_names (view league.now) }
{
    match league.get("teams").and_then(|teams| teams.as_array()) {
        Some(teams) => teams.as_slice(),
        None => &[],
    }
}

fn rule_at(league: &Value, index: u8) -> Option<&Value>
    ensures { option_map (λ rule. view rule.now) result ≡ rule_at index (view league.now) }
{
    league.get("rules")?.get(usize::from(index))
}

fn team_count(league: &Value) -> Option<usize>
    ensures { result ≡ team_count (view league.now) }
{
    Some(item_count(league.get("teams")?))
}

fn rule_count(league: &Value) -> Option<usize>
    ensures { result ≡ rule_count (view league.now) }
{
    Some(item_count(league.get("rules")?))
}

/// The number of teams, if it is from 1 to the most of a league.
fn few_teams(league: &Value) -> Option<u8>
    ensures value { result ≡ option_and_then within_most (team_count (view league.now)) }
    ensures least { IfSome result (λ teams. 1 ≤ teams) }
    ensures most { IfSome result (λ teams. teams ≤ max_teams) }
{
    let teams = team_count(league)?;
    if 1 <= teams && teams <= usize::from(MAX_TEAMS) {
        Some(teams as u8)
    } else {
        None
    }
}
