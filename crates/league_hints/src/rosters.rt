//! The teams that a league's text lets rules list.

ghost use Rattle.std.specs.Prelude.{◌≡◌, ◌≤◌, ◌==◌, [], is_some, length, option_and_then, option_map};
ghost use Rattle.std.specs.Option.{unwrap_or};
ghost use Rattle.std.specs.Str.{bytes_eq};
ghost use Rattle.serde_json.specs.Find.{as_array, as_str};
ghost use Rattle.serde_json.specs.View.{view, items_view};
ghost use Rattle.league.specs.Limits.{max_teams};
ghost use Rattle.league_json.specs.RuleMembers.{pairing_from};
ghost use Rattle.league_json.specs.Rosters.{roster_data, listed_team, number_named};
ghost use Rattle.league_hints.specs.Rosters.{first_no_game, first_unlisted, first_wrong_in_games, first_wrong_name, is_name, names_of};
ghost use Rattle.league_hints.specs.Rosters.{wrong_name};

use league_json::number_within;
use serde_json::Value;
use std::marker::Model;

/// So many teams, and those that rules can list by name, in the order of their numbers.
#[derive(Drop)]
pub(crate) struct Roster<'a> {
    teams: u8,
    names: &'a [Value],
}

impl<'a> Model for Roster<'a> {
    ghost use Rattle.std.specs.Prelude.{◌≤◌};
    ghost use Rattle.league.specs.Limits.{max_teams};
    ghost use Rattle.league_json.specs.Rosters.{RosterData, roster_data};
    ghost use Rattle.serde_json.specs.View.{items_view};
    ghost use Rattle.league_hints.specs.Rosters.{names_of};

    ghost Value = { RosterData };

    ghost view = { λ r. roster_data r.teams (names_of (items_view r.names.now)) };

    ghost invariant = { λ r. (1 ≤ r.teams) × (r.teams ≤ max_teams) };
}

impl<'a> Roster<'a> {
    pub(crate) fn new(teams: u8, names: &'a [Value]) -> Roster<'a>
        requires least { 1 ≤ teams }
        requires most { teams ≤ max_teams }
        ensures { result ≡ roster_data teams (names_of (items_view names.now)) }
    {
        Roster { teams, names }
    }

    /// How many teams there are.
    pub(crate) fn teams(&self) -> u8
        ensures value { result ≡ self.now.teams }
        ensures least { 1 ≤ result }
        ensures most { result ≤ max_teams }
    {
        self.teams
    }

    /// Whether rules can list none of the teams by name.
    #[tactic(auto, using(crate::proofs::Names::length_names))]
    pub(crate) fn is_nameless(&self) -> bool
        ensures { result ≡ (length self.now.names == 0) }
    {
        self.names.len() == 0
    }

    /// The number, from 1, of the team that a text lists.
    pub(crate) fn listed_team(&self, value: &Value) -> Option<u64>
        ensures { result ≡ listed_team self.now (view value.now) }
    {
        match value.as_str() {
            Some(name) => number_named(self.names, name),
            None => number_within(value, 1, self.teams.into()),
        }
    }

    /// Whether the value is an array of two distinct teams.
    #[tactic(auto, using(league_json::proofs::Items::game_of_items_none))]
    pub(crate) fn is_game(&self, value: &Value) -> bool
        ensures { result ≡ is_some (pairing_from self.now (view value.now)) }
    {
        let Some(items) = value.as_array() else {
            return false;
        };
        let [home, away] = items.as_slice() else {
            return false;
        };
        let (Some(home), Some(away)) = (self.listed_team(home), self.listed_team(away)) else {
            return false;
        };
        home != away
    }

    /// The first item that lists no team.
    pub(crate) fn first_unlisted<'b>(&self, items: &'b [Value]) -> Option<&'b Value>
        ensures { option_map (λ item. view item.now) result ≡ first_unlisted self.now (items_view items.now) }
    {
        for item in items {
            if self.listed_team(item).is_none() {
                return Some(item);
            }
        }
        None
    }

    /// The first item that is no game.
    pub(crate) fn first_no_game<'b>(&self, items: &'b [Value]) -> Option<&'b Value>
        ensures { option_map (λ item. view item.now) result ≡ first_no_game self.now (items_view items.now) }
    {
        for item in items {
            if !self.is_game(item) {
                return Some(item);
            }
        }
        None
    }

    /// A text that isn't the name of one team.
    fn wrong_name<'b>(&self, value: &'b Value) -> Option<&'b str>
        ensures { option_map (λ name. name.now) result ≡ wrong_name self.now (view value.now) }
    {
        let name = value.as_str()?;
        match number_named(self.names, name) {
            Some(_) => None,
            None => Some(name),
        }
    }

    /// The first such text among items.
    pub(crate) fn first_wrong_name<'b>(&self, items: &'b [Value]) -> Option<&'b str>
        ensures { option_map (λ name. name.now) result ≡ first_wrong_name self.now (items_view items.now) }
    {
        for item in items {
            if let Some(name) = self.wrong_name(item) {
                return Some(name);
            }
        }
        None
    }

    /// The first such text in a list of games.
    pub(crate) fn first_wrong_in_games<'b>(&self, items: &'b [Value]) -> Option<&'b str>
        ensures { option_map (λ name. name.now) result ≡ first_wrong_in_games self.now (items_view items.now) }
    {
        for item in items {
            if let Some(name) = self.wrong_in_game(item) {
                return Some(name);
            }
        }
        None
    }

    fn wrong_in_game<'b>(&self, game: &'b Value) -> Option<&'b str>
        ensures { option_map (λ name. name.now) result ≡ option_and_then (first_wrong_name self.now) (as_array (view game.now)) }
    {
        self.first_wrong_name(game.as_array()?)
    }

    /// Whether a team has this name.
    pub(crate) fn is_name(&self, name: &str) -> bool
        ensures { result ≡ is_name self.now.names name.now }
    {
        for other in self.names {
            if is_called(other, name) {
                return true;
            }
        }
        false
    }
}

fn is_called(team: &Value, name: &str) -> bool
    ensures { result ≡ bytes_eq (unwrap_or (as_str (view team.now)) []) name.now }
{
    match team.as_str() {
        Some(own) => own == name,
        None => name.is_empty(),
    }
}

/// The number, from 1, of the one team with this name.
fn number_named(names: &[Value], name: &str) -> Option<u64>
    ensures { result ≡ number_named name.now 1 (names_of (items_view names.now)) }
{
    let mut found = None;
    for (index, other) in names.iter().enumerate() {
        if is_called(other, name) {
            if found.is_some() {
                return None;
            }
            found = Some(index as u64 + 1);
        }
    }
    found
}
