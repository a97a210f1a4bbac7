//! The needs of the classes of rules, of a rule's members.

ghost use Rattle.std.specs.Prelude.{◌≡◌, codes, is_some};
ghost use Rattle.serde_json.specs.Find.{get};
ghost use Rattle.serde_json.specs.View.{view};
ghost use Rattle.league_json.specs.RuleMembers.{text_member, teams_member, opponents_member, set_or_all, slot_set, count_member, one_side_member};
ghost use Rattle.league_json.specs.RuleMembers.{any_side_member, each_member, games_member, weight_of};
ghost use Rattle.league_hints.specs.Needs.{member_of, wanted_games, wanted_of, wanted_teams, is_kind, are_in_order, is_met};
ghost use Rattle.league_hints.specs.within.Needs.{number_member};

use crate::forms::{is_game_array, is_slot_set, is_team_set, text_member};
use crate::place::RuleMember;
use crate::rosters::Roster;
use crate::wanted::Wanted;
use league::limits::{MAX_COUNT, MAX_WEIGHT, round_count};
use league_json::number_within;
use serde_json::Value;

/// The need of a class, of a member.
#[derive(Clone, Copy)]
pub(crate) enum Need {
    /// `kind` is `"hard"` or `"soft"`.
    Kind,
    /// A soft rule has a `weight`.
    Weight,
    /// This member is numbers of teams.
    Teams(RuleMember),
    /// `teams2` are numbers of teams, if they are there.
    Opponents,
    /// `slots` are numbers of rounds, if they are there.
    Slots,
    /// `mode` is `"H"` or `"A"`.
    HomeOrAway,
    /// `mode` is `"H"`, `"A"` or `"HA"`.
    Side,
    /// `mode2` is `"EVERY"` or `"GLOBAL"`.
    SlotChoice,
    /// `games` are pairs of teams.
    Games,
    /// `intp` is a number of rounds.
    Window,
    /// This member is a count.
    Count(RuleMember),
    /// `max` isn't below `min`.
    MaxFromMin,
}

impl Need {
    /// The member that it is about.
    pub(crate) fn member(self) -> RuleMember
        ensures { result ≡ member_of self }
    {
        match self {
            Need::Teams(member) | Need::Count(member) => member,
            Need::Kind => RuleMember::Kind,
            Need::Weight => RuleMember::Weight,
            Need::Opponents => RuleMember::Teams2,
            Need::Slots => RuleMember::Slots,
            Need::HomeOrAway | Need::Side => RuleMember::Mode,
            Need::SlotChoice => RuleMember::Mode2,
            Need::Games => RuleMember::Games,
            Need::Window => RuleMember::Intp,
            Need::MaxFromMin => RuleMember::Max,
        }
    }

    /// The form that the member has to have, of a rule in a league of these teams.
    pub(crate) fn wanted(self, roster: &Roster<'_>) -> Wanted
        ensures { result ≡ wanted_of roster.now self }
    {
        let rounds = round_count(roster.teams());
        match self {
            Need::Kind => Wanted::Kind,
            Need::Weight => Wanted::Number(1, MAX_WEIGHT.into()),
            Need::Teams(_) | Need::Opponents => wanted_teams(roster),
            Need::Slots => Wanted::Rounds(rounds),
            Need::HomeOrAway => Wanted::HomeOrAway,
            Need::Side => Wanted::Side,
            Need::SlotChoice => Wanted::SlotChoice,
            Need::Games => wanted_games(roster),
            Need::Window => Wanted::Number(1, rounds.into()),
            Need::Count(_) => Wanted::Number(0, MAX_COUNT.into()),
            Need::MaxFromMin => Wanted::FromMin,
        }
    }

    /// Whether a rule of a league of these teams meets it.
    pub(crate) fn is_met(self, rule: &Value, roster: &Roster<'_>) -> bool
        ensures { result ≡ is_met roster.now (view rule.now) self }
    {
        let rounds = u64::from(round_count(roster.teams()));
        match self {
            Need::Kind => has_kind(rule),
            Need::Weight => has_weight(rule),
            Need::Teams(member) => has_teams(rule, member.name(), roster),
            Need::Opponents => has_opponents(rule, roster),
            Need::Slots => has_slots(rule, rounds),
            Need::HomeOrAway => has_home_or_away(rule),
            Need::Side => has_side(rule),
            Need::SlotChoice => has_slot_choice(rule),
            Need::Games => has_games(rule, roster),
            Need::Window => has_number(rule, "intp", 1, rounds),
            Need::Count(member) => has_number(rule, member.name(), 0, MAX_COUNT.into()),
            Need::MaxFromMin => has_max_from_min(rule),
        }
    }
}

fn wanted_teams(roster: &Roster<'_>) -> Wanted
    ensures { result ≡ wanted_teams roster.now }
{
    if roster.is_nameless() {
        Wanted::Teams(roster.teams())
    } else {
        Wanted::Listed(roster.teams())
    }
}

fn wanted_games(roster: &Roster<'_>) -> Wanted
    ensures { result ≡ wanted_games roster.now }
{
    if roster.is_nameless() {
        Wanted::Games(roster.teams())
    } else {
        Wanted::ListedGames(roster.teams())
    }
}

fn has_kind(rule: &Value) -> bool
    ensures { result ≡ is_kind (text_member (codes "kind") (view rule.now)) }
{
    match text_member(rule, "kind") {
        Some("hard") | Some("soft") => true,
        _ => false,
    }
}

/// Whether the rule is hard, or soft with a weight.
fn has_weight(rule: &Value) -> bool
    ensures { result ≡ is_some (weight_of (view rule.now)) }
{
    match text_member(rule, "kind") {
        Some("hard") => true,
        Some("soft") => has_number(rule, "weight", 1, MAX_WEIGHT.into()),
        _ => false,
    }
}

fn has_home_or_away(rule: &Value) -> bool
    ensures { result ≡ is_some (one_side_member (view rule.now)) }
{
    match text_member(rule, "mode") {
        Some("H") | Some("A") => true,
        _ => false,
    }
}

fn has_side(rule: &Value) -> bool
    ensures { result ≡ is_some (any_side_member (view rule.now)) }
{
    match text_member(rule, "mode") {
        Some("H") | Some("A") | Some("HA") => true,
        _ => false,
    }
}

fn has_slot_choice(rule: &Value) -> bool
    ensures { result ≡ is_some (each_member (view rule.now)) }
{
    match text_member(rule, "mode2") {
        Some("EVERY") | Some("GLOBAL") => true,
        _ => false,
    }
}

fn has_teams(rule: &Value, name: &str, roster: &Roster<'_>) -> bool
    ensures { result ≡ is_some (teams_member roster.now name.now (view rule.now)) }
{
    match rule.get(name) {
        Some(member) => is_team_set(member, roster),
        None => false,
    }
}

fn has_opponents(rule: &Value, roster: &Roster<'_>) -> bool
    ensures { result ≡ is_some (opponents_member roster.now (view rule.now)) }
{
    match rule.get("teams2") {
        Some(member) => is_team_set(member, roster),
        None => true,
    }
}

fn has_slots(rule: &Value, rounds: u64) -> bool
    ensures { result ≡ is_some (set_or_all rounds (slot_set rounds) (get (codes "slots") (view rule.now))) }
{
    match rule.get("slots") {
        Some(member) => is_slot_set(member, rounds),
        None => true,
    }
}

fn has_games(rule: &Value, roster: &Roster<'_>) -> bool
    ensures { result ≡ is_some (games_member roster.now (view rule.now)) }
{
    match rule.get("games") {
        Some(member) => is_game_array(member, roster),
        None => false,
    }
}

fn has_number(rule: &Value, name: &str, low: u64, high: u64) -> bool
    ensures { result ≡ is_some (number_member name.now low high (view rule.now)) }
{
    number_member(rule, name, low, high).is_some()
}

/// Whether `max` isn't below `min`, or one of the two is no count.
fn has_max_from_min(rule: &Value) -> bool
    ensures { result ≡ are_in_order (count_member (codes "min") (view rule.now)) (count_member (codes "max") (view rule.now)) }
{
    let min = number_member(rule, "min", 0, MAX_COUNT.into());
    let max = number_member(rule, "max", 0, MAX_COUNT.into());
    match (min, max) {
        (Some(min), Some(max)) => min <= max,
        _ => true,
    }
}

fn number_member(rule: &Value, name: &str, low: u64, high: u64) -> Option<u64>
    ensures { result ≡ number_member name.now low high (view rule.now) }
{
    number_within(rule.get(name)?, low, high)
}
