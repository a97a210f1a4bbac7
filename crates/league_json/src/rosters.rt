//! The teams that rules can list.

ghost use Rattle.std.specs.Prelude.{◌≡◌, ◌≤◌, length, IfSome};
ghost use Rattle.serde_json.specs.View.{view};
ghost use Rattle.league.specs.Limits.{max_teams};
ghost use Rattle.league_json.specs.Rosters.{roster_of, number_named, listed_team};
ghost use Rattle.league.specs.Views.{texts};

use crate::formats::THIRD_FORMAT;
use crate::forms::number_within;
use serde_json::Value;
use std::marker::Model;

/// Teams that rules can list: each by its number, and by a name that no other has.
#[derive(Drop)]
pub struct Roster<'a> {
    teams: u8,
    names: &'a [String],
}

impl<'a> Model for Roster<'a> {
    ghost use Rattle.std.specs.Prelude.{◌≤◌, length};
    ghost use Rattle.league.specs.Limits.{max_teams};
    ghost use Rattle.league_json.specs.Rosters.{RosterData, roster_data};
    ghost use Rattle.league.specs.Views.{texts};

    ghost Value = { RosterData };

    ghost view = { λ r. roster_data r.teams (texts r.names.now) };

    ghost invariant = { λ r. (r.teams ≤ max_teams) × (length r.names.now ≤ r.teams) };
}

impl<'a> Roster<'a> {
    /// The teams with these names. Rules can list them by name from the third format on.
    pub fn new(format: u64, names: &'a [String]) -> Roster<'a>
        requires { length names.now ≤ max_teams }
        ensures { result ≡ roster_of format (texts names.now) }
    {
        Roster {
            teams: names.len() as u8,
            names: if format >= THIRD_FORMAT { names } else { &[] },
        }
    }

    /// How many teams there are.
    pub fn teams(&self) -> u8
        ensures value { result ≡ self.now.teams }
        ensures most { result ≤ max_teams }
    {
        self.teams
    }

    /// The number, from 1, of the team that a text lists.
    pub fn listed_team(&self, value: &Value) -> Option<u8>
        ensures value { result ≡ listed_team self.now (view value.now) }
        ensures least { IfSome result (λ number. 1 ≤ number) }
        ensures most { IfSome result (λ number. number ≤ self.now.teams) }
    {
        match value.as_str() {
            Some(name) => number_named(self.names, name),
            None => number_within(value, 1, self.teams.into()).map(|number| number as u8),
        }
    }
}

/// The number, from 1, of the one team with this name.
fn number_named(names: &[String], name: &str) -> Option<u8>
    requires { length names.now ≤ max_teams }
    ensures value { result ≡ number_named name.now 1 (texts names.now) }
    ensures least { IfSome result (λ number. 1 ≤ number) }
    ensures most { IfSome result (λ number. number ≤ length names.now) }
{
    let mut found = None;
    for (index, other) in names.iter().enumerate() {
        if other.as_str() == name {
            if found.is_some() {
                return None;
            }
            found = Some(index as u8 + 1);
        }
    }
    found
}
