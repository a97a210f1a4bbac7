//! A league in memory.

ghost use Rattle.std.specs.Prelude.{◌≡◌, ◌↔◌, ℕ, ◌<◌, ◌≤◌, ◌%◌, ◌++◌, Some, length, slice_get, slice_index, option_map, IfOk, IsTrue, OnOk};
ghost use Rattle.league.specs.Checks.{IsDistanceTable};
ghost use Rattle.league.specs.Limits.{min_teams, max_teams, max_rounds, max_distance, max_weight, max_rules};
ghost use Rattle.league.specs.Rows.{table_of};
ghost use Rattle.league.specs.within.Rows.{joined};
ghost use Rattle.league.specs.Views.{texts, rows};

mod beginnings;

use crate::labels::Labels;
use crate::origins::{Origin, Start};
use crate::rule::Rule;
use crate::text_lists::duplicate_texts;
use std::alloc::{AllocError, Global};
use std::marker::Model;

/// The settings of a league beside its teams, distances, rules and start.
#[derive(Clone, Copy, Debug, Drop, PartialEq, Eq)]
pub struct Terms {
    /// How many rounds in a row a team may play at home, and how many away.
    pub at_most: u8,
    /// The weight of each breach of a hard limit.
    pub hard_weight: u32,
    /// Whether the two games of each pair of teams belong into different halves of the season.
    pub phased: bool,
    /// Whether they may stand in rounds one after the other.
    pub free_repeats: bool,
}

/// Teams, the distances between their homes, the limits of a schedule and the rules on it. Teams are numbered from 0.
#[derive(Debug, Drop)]
pub struct League {
    names: Vec<String>,
    // the rows of the table, one after another
    distances: Vec<u32>,
    rules: Vec<Rule>,
    terms: Terms,
    origin: Origin,
    labels: Labels,
}

impl Model for League {
    ghost use Rattle.league.specs.League.{LeagueData, league_of_numbers, IsLeague};
    ghost use Rattle.league.specs.Views.{texts};

    ghost Value = { LeagueData };

    ghost view = { λ l. league_of_numbers (texts l.names.items) l.distances.items l.terms.at_most l.terms.hard_weight l.rules.items
        l.origin l.terms.phased l.terms.free_repeats l.labels };

    ghost invariant = { λ l. IsLeague (league_of_numbers (texts l.names.items) l.distances.items l.terms.at_most l.terms.hard_weight
        l.rules.items l.origin l.terms.phased l.terms.free_repeats l.labels) };
}

impl League {
    ghost use Rattle.league.specs.League.{league_data, teams, name_of, distance, IsLeague};
    ghost use Rattle.league.specs.within.League.{bare};
    ghost use Rattle.league.specs.Origins.{origin_at};
    ghost use Rattle.league.specs.RuleLimits.{IsRuleFor};

    /// The league of these teams, with a row of distances for each. Copies the distances, and keeps the rest as it is.
    pub fn new(
        alloc: Global,
        names: Vec<String>,
        distances: &[Vec<u64>],
        rules: Vec<Rule>,
        start: Start,
        terms: Terms,
        labels: Labels,
    ) -> Result<League, AllocError>
        requires { IsLeague (league_data (texts names.items)
            (rows distances.now) terms.at_most terms.hard_weight rules.items (origin_at start) terms.phased terms.free_repeats labels) }
        ensures { IfOk result (λ l. l ≡ league_data (texts names.items)
            (rows distances.now) terms.at_most terms.hard_weight rules.items (origin_at start) terms.phased terms.free_repeats labels) }
    {
        let distances = one_after_another(alloc, names.len(), distances)?;
        Ok(League {
            names,
            distances,
            rules,
            terms,
            origin: Origin::at(start),
            labels,
        })
    }

    /// How many teams there are: even, and from 4 to 40.
    pub fn teams(&self) -> u8
        ensures value { result ≡ teams self.now }
        ensures least { min_teams ≤ result }
        ensures most { result ≤ max_teams }
        ensures even { result % 2 ≡ 0 }
        ensures limits { IsLeague self.now }
    {
        self.names.len() as u8
    }

    /// The name of a team. Names may be equal.
    pub fn name(&self, team: u8) -> &str
        requires { team < teams self.now }
        ensures { result.now ≡ name_of self.now team }
    {
        self.names[usize::from(team)].as_str()
    }

    /// The distance between the homes of two teams: the same both ways, and 0 from a team to itself.
    pub fn distance(&self, a: u8, b: u8) -> u32
        requires a_in { a < teams self.now }
        requires b_in { b < teams self.now }
        ensures value { result ≡ distance self.now a b }
        ensures near { result ≤ max_distance }
    {
        self.distances[usize::from(a) * self.names.len() + usize::from(b)]
    }

    /// How many rounds in a row a team may play at home, and how many away.
    pub fn at_most(&self) -> u8
        ensures value { result ≡ self.now.at_most }
        ensures least { 1 ≤ result }
        ensures most { result ≤ max_rounds }
    {
        self.terms.at_most
    }

    /// The weight of each breach of a hard limit in a schedule's score.
    pub fn hard_weight(&self) -> u32
        ensures value { result ≡ self.now.hard_weight }
        ensures least { 1 ≤ result }
        ensures most { result ≤ max_weight }
    {
        self.terms.hard_weight
    }

    /// How many rules there are.
    pub fn rule_count(&self) -> usize
        ensures value { result ≡ length self.now.rules }
        ensures most { result ≤ max_rules }
    {
        self.rules.len()
    }

    /// The rule at an index from 0.
    pub fn rule(&self, i: usize) -> &Rule
        requires { i < length self.now.rules }
        ensures value { slice_get self.now.rules i ≡ Some result.now }
        ensures range { IsRuleFor (teams self.now) result.now }
    {
        &self.rules[i]
    }

    /// Whether the two games of each pair of teams belong into different halves of the season.
    pub fn phased(&self) -> bool
        ensures { result ≡ self.now.phased }
    {
        self.terms.phased
    }

    /// Whether the two games of a pair of teams may stand in rounds one after the other.
    pub fn free_repeats(&self) -> bool
        ensures { result ≡ self.now.free_repeats }
    {
        self.terms.free_repeats
    }

    /// The league's name, if it has one.
    pub fn title(&self) -> Option<&str>
        ensures { option_map (λ title. title.now) result ≡ self.now.labels.title }
    {
        self.labels.title()
    }

    /// A team's short name, if the league has short names.
    pub fn short_name(&self, team: u8) -> Option<&str>
        ensures { option_map (λ name. name.now) result ≡ slice_get self.now.labels.short_names team }
    {
        self.labels.short_name(team)
    }

    /// The name of a round, if the league gives one.
    pub fn round_text(&self, round: u8) -> Option<&str>
        ensures { option_map (λ text. text.now) result ≡ slice_get self.now.labels.round_texts round }
    {
        self.labels.round_text(round)
    }

    /// Whether the two leagues are equal in all that they say.
    pub fn is_same(&self, other: &League) -> bool
        ensures { IsTrue result ↔ (self.now ≡ other.now) }
    {
        self.is_same_bare(other)
            && self.origin.is_same(&other.origin)
            && self.labels.is_same(&other.labels)
    }

    /// Whether the two leagues are equal in all but where their boards begin and their labels.
    fn is_same_bare(&self, other: &League) -> bool
        ensures { IsTrue result ↔ (bare self.now ≡ bare other.now) }
    {
        self.terms == other.terms
            && self.names == other.names
            && self.numbers() == other.numbers()
            && self.rules == other.rules
    }

    // the numbers of the table, row by row
    fn numbers(&self) -> &[u32]
        ensures { result.now ≡ joined self.now.distances }
    {
        let teams = self.names.len();
        &self.distances[..teams * teams]
    }

    /// An equal league with memory of its own.
    pub fn duplicate(&self, alloc: Global) -> Result<League, AllocError>
        ensures { IfOk result (λ l. l ≡ self.now) }
    {
        let names = duplicate_texts(alloc, &self.names)?;
        let distances = Vec::from_slice(alloc, &self.distances)?;
        let rules = duplicate_rules(alloc, &self.rules)?;
        Ok(League {
            names,
            distances,
            rules,
            terms: self.terms,
            origin: self.origin.duplicate(alloc)?,
            labels: self.labels.duplicate(alloc)?,
        })
    }
}

// the numbers of a table, row by row
fn one_after_another(
    alloc: Global,
    teams: usize,
    table: &[Vec<u64>],
) -> Result<Vec<u32>, AllocError>
    requires { IsDistanceTable teams (rows table.now) }
    ensures { IfOk result (λ numbers. table_of teams numbers.items ≡ rows table.now) }
{
    let mut numbers = Vec::with_capacity(alloc, teams * teams)?;
    for row in table {
        push_row(&mut numbers, row)?;
    }
    Ok(numbers)
}

fn push_row(numbers: &mut Vec<u32>, row: &[u64]) -> Result<(), AllocError>
    requires { (b : ℕ) → slice_index row.now b ≤ max_distance }
    ensures { OnOk result (numbers.new.items ≡ numbers.old.items ++ row.now) }
{
    for distance in row {
        numbers.push(*distance as u32)?;
    }
    Ok(())
}

fn duplicate_rules(alloc: Global, rules: &[Rule]) -> Result<Vec<Rule>, AllocError>
    ensures { IfOk result (λ copy. copy.items ≡ rules.now) }
{
    let mut copy = Vec::with_capacity(alloc, rules.len())?;
    for rule in rules {
        copy.push(rule.clone()?)?;
    }
    Ok(copy)
}
