//! Sets of ordered pairs of teams.

ghost use Rattle.std.specs.Prelude.{◌≡◌, ◌≢◌, ◌<◌, ◌↔◌, ◌&&◌, ◌||◌, ◌==◌, ℕ, not, false, length, slice_set, IsTrue};
ghost use Rattle.sets.specs.Limits.{max_teams};
ghost use Rattle.sets.specs.Sets.{has};
ghost use Rattle.sets.specs.Pairs.{seconds_of, has_pair, no_pairs, with_pair};

use crate::TeamSet;
use crate::limits::MAX_TEAMS;
use std::marker::Model;

const ROWS: usize = MAX_TEAMS as usize;

/// A set of ordered pairs of teams, each team from 0 to 39. Contracts see for each first team the set of the second ones.
#[derive(Debug, Drop)]
pub struct PairSet {
    seconds: [TeamSet; ROWS],
    /// The teams that are first in some pair.
    firsts: TeamSet,
}

impl Model for PairSet {
    ghost use Rattle.std.specs.Prelude.{List, ℕ};
    ghost use Rattle.sets.specs.within.Pairs.{AreFirsts};

    ghost Value = { List ℕ };

    ghost view = { λ s. s.seconds };

    ghost invariant = { λ s. AreFirsts s.seconds s.firsts };
}

impl PairSet {
    /// The set of no pairs.
    pub fn empty() -> Self
        ensures value { result ≡ no_pairs }
        ensures members { (f s : ℕ) → has_pair result f s ≡ false }
    {
        PairSet {
            seconds: [TeamSet::empty(); ROWS],
            firsts: TeamSet::empty(),
        }
    }

    /// Whether there is no pair in the set.
    #[inline]
    pub fn is_empty(&self) -> bool
        ensures { IsTrue result ↔ (self.now ≡ no_pairs) }
    {
        self.firsts == TeamSet::empty()
    }

    /// Whether the set has this pair.
    pub fn has(&self, first: u8, second: u8) -> bool
        requires first { first < max_teams }
        requires second { second < max_teams }
        ensures value { result ≡ has_pair self.now first second }
        ensures rows { length self.now ≡ max_teams }
    {
        self.row(first).has(second)
    }

    /// Adds the pair.
    pub fn add(&mut self, first: u8, second: u8)
        requires first { first < max_teams }
        requires second { second < max_teams }
        ensures value { self.new ≡ with_pair self.old first second }
        ensures members { (f s : ℕ) → has_pair self.new f s ≡ ((f == first && s == second) || has_pair self.old f s) }
    {
        let row = self.row(first).with(second);
        self.write(first, row);
    }

    /// Takes the pair out.
    pub fn remove(&mut self, first: u8, second: u8)
        requires first { first < max_teams }
        requires second { second < max_teams }
        ensures { (f s : ℕ) → has_pair self.new f s ≡ (not (f == first && s == second) && has_pair self.old f s) }
    {
        let row = self.row(first).difference(TeamSet::empty().with(second));
        self.write(first, row);
    }

    /// A second set, equal to this one.
    pub fn duplicate(&self) -> Self
        ensures { result ≡ self.now }
    {
        PairSet {
            seconds: self.seconds,
            firsts: self.firsts,
        }
    }

    /// Whether both sets have the same pairs.
    pub fn is_same(&self, other: &PairSet) -> bool
        ensures { IsTrue result ↔ (self.now ≡ other.now) }
    {
        self.seconds == other.seconds
    }

    fn row(&self, first: u8) -> TeamSet
        requires { first < max_teams }
        ensures value { result ≡ seconds_of self.now first }
        ensures rows { length self.now ≡ max_teams }
    {
        self.seconds[usize::from(first)]
    }

    fn write(&mut self, first: u8, row: TeamSet)
        requires { first < max_teams }
        ensures { self.new ≡ slice_set self.old first row }
    {
        self.seconds[usize::from(first)] = row;
        self.firsts = with_or_without(self.firsts, first, row != TeamSet::empty());
    }
}

/// The set with the team in it, or without it.
fn with_or_without(teams: TeamSet, team: u8, is_in: bool) -> TeamSet
    requires { team < max_teams }
    ensures there { has result team ≡ is_in }
    ensures others { (t : ℕ) → t ≢ team → has result t ≡ has teams t }
{
    if is_in {
        teams.with(team)
    } else {
        teams.difference(TeamSet::empty().with(team))
    }
}
