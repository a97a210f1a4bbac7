//! Sets of teams, each in one word of bits.

ghost use Rattle.std.specs.Prelude.{◌≡◌, ℕ, ◌-◌, ◌<◌, ◌≤◌, ◌&&◌, ◌||◌, ◌==◌, nat_lt, not, false};
ghost use Rattle.std.specs.Iterator.{at_most};
ghost use Rattle.sets.specs.Limits.{max_teams};
ghost use Rattle.sets.specs.Sums.{count_where, any_below};
ghost use Rattle.sets.specs.Sets.{has, IsBelow, with_number, both, all_numbers};
ghost use Rattle.sets.specs.within.Sets.{TakesLowest};

use std::marker::Model;

/// A set of teams, each from 0 to 39. Contracts see it as the number of its bits.
#[derive(Clone, Copy, Debug, Drop, PartialEq, Eq)]
pub struct TeamSet {
    bits: u64,
}

impl Model for TeamSet {
    ghost Value = { ℕ };

    ghost view = { λ s. s.bits };

    ghost invariant = { λ s. IsBelow max_teams s.bits };

    ghost inverse = { λ bits. record { bits = bits } };
}

impl TeamSet {
    /// The set of no teams.
    pub fn empty() -> Self
        ensures value { result ≡ 0 }
        ensures members { (t : ℕ) → has result t ≡ false }
        ensures below { (m : ℕ) → IsBelow m result }
    {
        TeamSet { bits: 0 }
    }

    /// The set of the teams from 0 to `teams - 1`.
    #[tactic(auto, using(crate::proofs::SetWords::all_teams_below))]
    pub fn below(teams: u8) -> Self
        requires { teams ≤ max_teams }
        ensures value { result ≡ all_numbers teams }
        ensures members { (t : ℕ) → has result t ≡ nat_lt t teams }
        ensures below { IsBelow teams result }
    {
        TeamSet {
            bits: (1 << teams) - 1,
        }
    }

    /// The set with this team added.
    #[tactic(auto, using(crate::proofs::SetWords::teams_and_one))]
    pub fn with(self, team: u8) -> Self
        requires { team < max_teams }
        ensures value { result ≡ with_number self team }
        ensures members { (t : ℕ) → has result t ≡ (t == team || has self t) }
        ensures below { (m : ℕ) → IsBelow m self → team < m → IsBelow m result }
    {
        TeamSet {
            bits: self.bits | 1 << team,
        }
    }

    /// The set of these two teams.
    #[tactic(auto, using(crate::proofs::Bits::has_both))]
    pub fn two(i: u8, j: u8) -> Self
        requires i { i < max_teams }
        requires j { j < max_teams }
        ensures value { result ≡ both i j }
        ensures members { (t : ℕ) → has result t ≡ (t == i || t == j) }
    {
        TeamSet::empty().with(j).with(i)
    }

    /// Whether the set has this team.
    pub fn has(self, team: u8) -> bool
        requires { team < max_teams }
        ensures { result ≡ has self team }
    {
        self.bits >> team & 1 == 1
    }

    /// How many teams there are.
    #[inline]
    #[tactic(auto, using(crate::proofs::SetBits::ones_count, crate::proofs::SetWords::teams_len))]
    pub fn len(self) -> u32
        ensures value { result ≡ count_where max_teams (has self) }
        ensures among { (m : ℕ) → IsBelow m self → result ≡ count_where m (has self) }
        ensures most { result ≤ max_teams }
    {
        self.bits.count_ones()
    }

    /// The teams that are in one of the sets, or in both.
    #[tactic(auto, using(crate::proofs::SetWords::teams_of_either))]
    pub fn union(self, teams: TeamSet) -> Self
        ensures members { (t : ℕ) → has result t ≡ (has self t || has teams t) }
        ensures below { (m : ℕ) → IsBelow m self → IsBelow m teams → IsBelow m result }
    {
        TeamSet {
            bits: self.bits | teams.bits,
        }
    }

    /// The teams that are in both sets.
    #[tactic(auto, using(crate::proofs::SetBits::has_intersection))]
    pub fn intersection(self, teams: TeamSet) -> Self
        ensures members { (t : ℕ) → has result t ≡ (has self t && has teams t) }
        ensures below { (m : ℕ) → IsBelow m self → IsBelow m result }
    {
        TeamSet {
            bits: self.bits & teams.bits,
        }
    }

    /// The teams that are not in the other set.
    #[tactic(auto, using(crate::proofs::SetWords::teams_without))]
    pub fn difference(self, teams: TeamSet) -> Self
        ensures members { (t : ℕ) → has result t ≡ (has self t && not (has teams t)) }
        ensures below { (m : ℕ) → IsBelow m self → IsBelow m result }
    {
        TeamSet {
            bits: self.bits & !teams.bits,
        }
    }

    /// Whether some team is in both sets.
    #[tactic(auto, using(crate::proofs::SetWords::teams_meet))]
    pub fn intersects(self, teams: TeamSet) -> bool
        ensures { result ≡ any_below max_teams (λ t. has self t && has teams t) }
    {
        self.bits & teams.bits != 0
    }
}

impl IntoIterator for TeamSet {
    type Item = u8;

    type IntoIter = Teams;

    ghost into_iter_gives = { λ set iterator. iterator ≡ set };

    fn into_iter(self) -> Teams {
        Teams { left: self.bits }
    }
}

/// The teams of a set, the lowest first. Contracts see it as the set of those that are left.
#[derive(Debug, Drop)]
pub struct Teams {
    left: u64,
}

impl Model for Teams {
    ghost Value = { ℕ };

    ghost view = { λ s. s.left };

    ghost invariant = { λ s. IsBelow max_teams s.left };

    ghost inverse = { λ left. record { left = left } };
}

impl Iterator for Teams {
    type Item = u8;

    ghost next_gives = { TakesLowest };

    ghost remaining = { λ left. at_most left };

    fn next(&mut self) -> Option<u8> {
        if self.left == 0 {
            return None;
        }
        let lowest = self.left.trailing_zeros();
        self.left &= self.left - 1;
        Some(lowest as u8)
    }
}
