//! Sets of the rules of a league, each in two words of bits.

ghost use Rattle.std.specs.Prelude.{◌≡◌, ℕ, ◌+◌, ◌-◌, ◌*◌, ◌/◌, ◌%◌, ◌^◌, ◌<◌, ◌≤◌, ◌&&◌, ◌||◌, ◌==◌, false};
ghost use Rattle.std.specs.Iterator.{at_most};
ghost use Rattle.std.proofs.lemmas.Nat.{div-mul-add, mod-mul-add};
ghost use Rattle.sets.specs.Limits.{max_rules};
ghost use Rattle.sets.specs.Sets.{has, IsBelow, with_number};
ghost use Rattle.sets.specs.within.Sets.{TakesLowest};

use std::marker::Model;

/// The bits of one of the two words.
const HALF: usize = 128;

/// A set of a league's rules, each from 0 to 255. Contracts see it as the number of its bits.
#[derive(Clone, Copy, Debug, Drop, PartialEq, Eq)]
pub struct RuleSet {
    /// The rules below 128.
    low: u128,
    /// The rules from 128 on. Its bit 0 is the rule 128.
    high: u128,
}

impl Model for RuleSet {
    ghost Value = { ℕ };

    ghost view = { λ s. s.high * 2 ^ 128 + s.low };

    ghost invariant = { λ s. IsBelow 128 s.low × IsBelow 128 s.high };

    ghost inverse = { λ set. record { low = set % 2 ^ 128; high = set / 2 ^ 128 } };

    ghost inverse_ok = { λ s h i. record {
      low = mod-mul-add s.high (2 ^ 128) s.low h.0 i;
      high = div-mul-add s.high (2 ^ 128) s.low h.0 i;
    } };
}

impl RuleSet {
    /// The set of no rules.
    pub fn empty() -> Self
        ensures value { result ≡ 0 }
        ensures members { (r : ℕ) → has result r ≡ false }
        ensures below { (m : ℕ) → IsBelow m result }
    {
        RuleSet { low: 0, high: 0 }
    }

    /// The set with this rule added.
    pub fn with(self, rule: usize) -> Self
        requires { rule < max_rules }
        ensures value { result ≡ with_number self rule }
        ensures members { (r : ℕ) → has result r ≡ (r == rule || has self r) }
        ensures below { (m : ℕ) → IsBelow m self → rule < m → IsBelow m result }
    {
        if rule < HALF {
            return RuleSet {
                low: self.low | 1 << rule,
                high: self.high,
            };
        }
        RuleSet {
            low: self.low,
            high: self.high | 1 << (rule - HALF),
        }
    }

    /// The rules that are in one of the sets, or in both.
    pub fn union(self, rules: RuleSet) -> Self
        ensures members { (r : ℕ) → has result r ≡ (has self r || has rules r) }
        ensures below { (m : ℕ) → IsBelow m self → IsBelow m rules → IsBelow m result }
    {
        RuleSet {
            low: self.low | rules.low,
            high: self.high | rules.high,
        }
    }

    /// The rules that are in both sets.
    pub fn intersection(self, rules: RuleSet) -> Self
        ensures members { (r : ℕ) → has result r ≡ (has self r && has rules r) }
        ensures below { (m : ℕ) → IsBelow m self → IsBelow m result }
    {
        RuleSet {
            low: self.low & rules.low,
            high: self.high & rules.high,
        }
    }
}

impl IntoIterator for RuleSet {
    type Item = usize;

    type IntoIter = Rules;

    ghost into_iter_gives = { λ set iterator. iterator ≡ set };

    fn into_iter(self) -> Rules {
        Rules {
            low: self.low,
            high: self.high,
            base: 0,
        }
    }
}

/// The rules of a set, the lowest first. Contracts see it as the set of those that are left.
#[derive(Debug, Drop)]
pub struct Rules {
    /// The rules left of the half that is walked. Its bit 0 is the rule `base`, 0 or 128.
    low: u128,
    /// The rules from 128 on, until they are walked. Its bit 0 is the rule 128.
    high: u128,
    base: usize,
}

impl Model for Rules {
    ghost Value = { ℕ };

    ghost view = { λ s. (s.high * 2 ^ 128 + s.low) * 2 ^ s.base };

    ghost invariant = { λ s. (s.base ≤ 128) × (0 < s.high → s.base ≡ 0) };
}

impl Iterator for Rules {
    type Item = usize;

    ghost next_gives = { TakesLowest };

    ghost remaining = { λ left. at_most left };

    fn next(&mut self) -> Option<usize> {
        if self.low == 0 {
            if self.high == 0 {
                return None;
            }
            self.low = self.high;
            self.high = 0;
            self.base = HALF;
        }
        let lowest = self.low.trailing_zeros() as usize;
        self.low &= self.low - 1;
        Some(self.base + lowest)
    }
}
