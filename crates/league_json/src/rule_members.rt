//! The members of a rule's text. Each answer is None if the member is absent or not of its form. Teams and rounds
//! count from 1 in the text, and from 0 in what is read.

ghost use Rattle.std.specs.Prelude.{◌≡◌, ◌≢◌, ◌≤◌, IfOk, IfSome, length, option_map};
ghost use Rattle.std.specs.List.{AllByRecursion};
ghost use Rattle.serde_json.specs.View.{view};
ghost use Rattle.league.specs.declared.rule.Side.TheVariants.{Any};
ghost use Rattle.league.specs.Games.{IsGameFor};
ghost use Rattle.league.specs.Limits.{round_count, max_teams, max_rounds, max_games};
ghost use Rattle.league.specs.RuleLimits.{IsCount, IsWeight};
ghost use Rattle.league_json.specs.RuleMembers.{text_member, team_set, slot_set, teams_member, opponents_member, slots_member};
ghost use Rattle.league_json.specs.RuleMembers.{count_member, window_member, one_side, one_side_member, any_side_member};
ghost use Rattle.league_json.specs.RuleMembers.{each_member, pairing_from, games_member, soft_weight, weight_of};
ghost use Rattle.league.specs.Sets.{IsBelow};

use crate::forms::number_within;
use crate::rosters::Roster;
use league::limits::{MAX_COUNT, MAX_TEAMS, MAX_WEIGHT};
use league::{GameList, Pairing, Side, SlotSet, TeamSet, Weight};
use serde_json::Value;
use std::alloc::{AllocError, Global};

/// A member that is a string.
pub fn text_member<'a>(rule: &'a Value, name: &str) -> Option<&'a str>
    ensures { option_map (λ text. text.now) result ≡ text_member name.now (view rule.now) }
{
    rule.get(name).and_then(|member| member.as_str())
}

// an array of teams
fn team_set(value: &Value, roster: &Roster<'_>) -> Option<TeamSet>
    ensures value { result ≡ team_set roster.now (view value.now) }
    ensures range { IfSome result (λ set. IsBelow roster.now.teams set) }
{
    prove!(roster.teams() <= MAX_TEAMS);
    let mut set = TeamSet::empty();
    for item in value.as_array()? {
        set = set.with(roster.listed_team(item)? - 1);
    }
    Some(set)
}

// an array of numbers from 1 to the number of rounds
fn slot_set(value: &Value, rounds: u8) -> Option<SlotSet>
    requires { rounds ≤ max_rounds }
    ensures value { result ≡ slot_set rounds (view value.now) }
    ensures range { IfSome result (λ set. IsBelow rounds set) }
{
    let mut set = SlotSet::empty();
    for item in value.as_array()? {
        let number = number_within(item, 1, rounds.into())?;
        set = set.with(number as u8 - 1);
    }
    Some(set)
}

/// A set of teams.
pub fn teams_member(rule: &Value, name: &str, roster: &Roster<'_>) -> Option<TeamSet>
    ensures value { result ≡ teams_member roster.now name.now (view rule.now) }
    ensures range { IfSome result (λ set. IsBelow roster.now.teams set) }
{
    team_set(rule.get(name)?, roster)
}

/// The opponents that count: all teams if the member is absent.
pub fn opponents_member(rule: &Value, roster: &Roster<'_>) -> Option<TeamSet>
    ensures value { result ≡ opponents_member roster.now (view rule.now) }
    ensures range { IfSome result (λ set. IsBelow roster.now.teams set) }
{
    match rule.get("teams2") {
        Some(member) => team_set(member, roster),
        None => Some(TeamSet::below(roster.teams())),
    }
}

/// The rounds that count: all rounds if the member is absent.
pub fn slots_member(rule: &Value, teams: u8) -> Option<SlotSet>
    requires { teams ≤ max_teams }
    ensures value { result ≡ slots_member teams (view rule.now) }
    ensures range { IfSome result (λ set. IsBelow (round_count teams) set) }
{
    let rounds = 2 * teams.saturating_sub(1);
    match rule.get("slots") {
        Some(member) => slot_set(member, rounds),
        None => Some(SlotSet::below(rounds)),
    }
}

/// A number from 0 to 10,000.
pub fn count_member(rule: &Value, name: &str) -> Option<u32>
    ensures value { result ≡ count_member name.now (view rule.now) }
    ensures range { IfSome result IsCount }
{
    let number = number_within(rule.get(name)?, 0, MAX_COUNT.into())?;
    Some(number as u32)
}

/// A number of rounds in a row, from 1 to all.
pub fn window_member(rule: &Value, teams: u8) -> Option<u32>
    requires { teams ≤ max_teams }
    ensures value { result ≡ window_member teams (view rule.now) }
    ensures least { IfSome result (λ window. 1 ≤ window) }
    ensures most { IfSome result (λ window. window ≤ round_count teams) }
{
    let rounds = 2 * teams.saturating_sub(1);
    let number = number_within(rule.get("intp")?, 1, rounds.into())?;
    Some(number as u32)
}

fn one_side(mode: &str) -> Option<Side>
    ensures value { result ≡ one_side mode.now }
    ensures one { IfSome result (λ side. side ≢ Any) }
{
    match mode {
        "H" => Some(Side::Home),
        "A" => Some(Side::Away),
        _ => None,
    }
}

/// Home or away.
pub fn one_side_member(rule: &Value) -> Option<Side>
    ensures value { result ≡ one_side_member (view rule.now) }
    ensures one { IfSome result (λ side. side ≢ Any) }
{
    one_side(text_member(rule, "mode")?)
}

/// Home, away or both.
pub fn any_side_member(rule: &Value) -> Option<Side>
    ensures { result ≡ any_side_member (view rule.now) }
{
    match text_member(rule, "mode")? {
        "HA" => Some(Side::Any),
        mode => one_side(mode),
    }
}

/// Whether each slot is limited, and not all of them together.
pub fn each_member(rule: &Value) -> Option<bool>
    ensures { result ≡ each_member (view rule.now) }
{
    match text_member(rule, "mode2")? {
        "EVERY" => Some(true),
        "GLOBAL" => Some(false),
        _ => None,
    }
}

// two distinct teams, the home team first
#[tactic(auto, using(crate::proofs::Items::game_of_items_none))]
fn pairing_from(value: &Value, roster: &Roster<'_>) -> Option<Pairing>
    ensures value { result ≡ pairing_from roster.now (view value.now) }
    ensures range { IfSome result (IsGameFor roster.now.teams) }
{
    let [home, away] = value.as_array()?.as_slice() else {
        return None;
    };
    let home = roster.listed_team(home)?;
    let away = roster.listed_team(away)?;
    if home == away {
        return None;
    }
    Some(Pairing {
        home: home - 1,
        away: away - 1,
    })
}

/// A list of games, each once.
pub fn games_member(
    alloc: Global,
    rule: &Value,
    roster: &Roster<'_>,
) -> Result<Option<GameList>, AllocError>
    ensures value { IfOk result (λ games. games ≡ games_member roster.now (view rule.now)) }
    ensures range { IfOk result (λ games. IfSome games (AllByRecursion (IsGameFor roster.now.teams))) }
    ensures most { IfOk result (λ games. IfSome games (λ list. length list ≤ max_games)) }
{
    prove!(roster.teams() <= MAX_TEAMS);
    let Some(list) = rule.get("games").and_then(|member| member.as_array()) else {
        return Ok(None);
    };
    let mut games = GameList::new(alloc);
    for item in list {
        let Some(game) = pairing_from(item, roster) else {
            return Ok(None);
        };
        games.add(game)?;
    }
    Ok(Some(games))
}

fn soft_weight(rule: &Value) -> Option<Weight>
    ensures value { result ≡ soft_weight (view rule.now) }
    ensures range { IfSome result IsWeight }
{
    let number = number_within(rule.get("weight")?, 1, MAX_WEIGHT.into())?;
    Some(Weight::Soft(number as u32))
}

/// The weight by the rule's kind, hard or soft.
pub fn weight_of(rule: &Value) -> Option<Weight>
    ensures value { result ≡ weight_of (view rule.now) }
    ensures range { IfSome result IsWeight }
{
    match text_member(rule, "kind")? {
        "hard" => Some(Weight::Hard),
        "soft" => soft_weight(rule),
        _ => None,
    }
}
