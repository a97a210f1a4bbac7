//! The deviations that are kept while exchanges are judged on one schedule after another.

ghost use Rattle.std.specs.Prelude.{◌≡◌, ℕ, ◌<◌, ◌≤◌, ◌==◌, not, slice_index};
ghost use Rattle.league.specs.Limits.{max_rules};
ghost use Rattle.league.specs.Sets.{has};

use crate::scope::Scope;
use fixtures::Schedule;
use league::limits::MAX_RULES;
use league::{League, Rule, RuleSet};
use rules::{HomeCounts, deviation, deviation_part};

/// How many exchanges are judged while no deviation is known, before all are counted: about as many as cost the same.
const TRIES: u8 = 16;

/// How far a schedule is from each rule of a league, if that is known, and what FA2 counts.
#[derive(Drop)]
pub(crate) struct KeptDeviations {
    pub(crate) counts: HomeCounts,
    pub(crate) is_known: bool,
    /// The deviation from each rule, and the rules that are broken, if they are known.
    pub(crate) kept: [u32; MAX_RULES],
    pub(crate) broken: RuleSet,
    /// Before an exchange, of each broken rule that it can alter the deviation without the part that it can alter, and after it of each rule
    /// that it can alter the deviation then.
    pub(crate) next: [u32; MAX_RULES],
    /// How many exchanges are judged before the deviations are counted.
    tries: u8,
}

impl KeptDeviations {
    ghost use Rattle.std.specs.Prelude.{◌≡◌, ℕ, ◌<◌, ◌≤◌, ◌==◌, ◌&&◌, ◌||◌, not, if◌then◌else◌, length, slice_index, true, false};
    ghost use Rattle.league.specs.League.{teams};
    ghost use Rattle.league.specs.Limits.{deviation_limit, max_rules};
    ghost use Rattle.league.specs.RuleLimits.{IsBodyFor};
    ghost use Rattle.league.specs.Sets.{has, IsBelow};
    ghost use Rattle.rules.specs.Deviations.{deviation};
    ghost use Rattle.rules.specs.Parts.{deviation_part};
    ghost use Rattle.costs.specs.within.KeptDeviations.{AreKeptDeviations, IsKeptOf, rest_at};

    /// Nothing counted yet.
    pub(crate) fn new() -> KeptDeviations
        ensures unknown { result.is_known ≡ false }
        ensures kept_length { length result.kept ≡ max_rules }
        ensures next_length { length result.next ≡ max_rules }
    {
        KeptDeviations {
            counts: HomeCounts::new(),
            is_known: false,
            kept: [0; MAX_RULES],
            broken: RuleSet::empty(),
            next: [0; MAX_RULES],
            tries: TRIES,
        }
    }

    /// Forgets the deviations.
    pub(crate) fn forget(&mut self)
        ensures unknown { self.new.is_known ≡ false }
        ensures kept { self.new.kept ≡ self.old.kept }
        ensures next { self.new.next ≡ self.old.next }
    {
        self.is_known = false;
        self.tries = TRIES;
    }

    /// Counts the deviations if they aren't known, and enough exchanges were judged without them.
    pub(crate) fn learn(&mut self, schedule: &Schedule, league: &League)
        requires same_size { teams league.now ≡ schedule.now.teams }
        requires deviations { AreKeptDeviations league.now.rules schedule.now self.old }
        ensures { AreKeptDeviations league.now.rules schedule.now self.new }
    {
        prove_eq!(league.teams(), schedule.teams());
        if self.is_known {
            return;
        }
        if self.tries > 0 {
            self.tries -= 1;
            return;
        }
        for i in 0..league.rule_count() {
            self.kept[i] = deviation(schedule, league.rule(i)) as u32;
        }
        self.broken = broken_rules(&self.kept, league.rule_count());
        self.is_known = true;
    }

    /// What is put down of a rule's deviation, of one that isn't broken nothing.
    pub(crate) fn rest(&self, i: usize) -> u32
        requires kept { i < length self.now.kept }
        requires next { i < length self.now.next }
        ensures { result ≡ rest_at self.now.kept self.now.next i }
    {
        if self.kept[i] == 0 { 0 } else { self.next[i] }
    }

    /// Keeps the deviations after the exchange of the rules that it can alter, of so many rules.
    pub(crate) fn keep(&mut self, rules: RuleSet, count: usize)
        requires kept_length { length self.old.kept ≡ max_rules }
        requires next_length { length self.old.next ≡ max_rules }
        requires rules { IsBelow max_rules rules }
        requires count { count ≤ max_rules }
        ensures known { self.new.is_known ≡ self.old.is_known }
        ensures kept_length { length self.new.kept ≡ max_rules }
        ensures next { self.new.next ≡ self.old.next }
        ensures kept { (i : ℕ) → slice_index self.new.kept i ≡
            (if has rules i then slice_index self.old.next i else slice_index self.old.kept i) }
        ensures broken { (i : ℕ) → i < count → has self.new.broken i ≡ not (slice_index self.new.kept i == 0) }
    {
        for i in rules {
            self.kept[i] = self.next[i];
        }
        self.broken = broken_rules(&self.kept, count);
    }
}

/// Of so many rules those whose deviation isn't 0.
fn broken_rules(deviations: &[u32; MAX_RULES], count: usize) -> RuleSet
    requires { count ≤ max_rules }
    ensures { (i : ℕ) → i < count → has result i ≡ not (slice_index deviations.now i == 0) }
{
    let mut broken = RuleSet::empty();
    for i in 0..count {
        if deviations[i] > 0 {
            broken = broken.with(i);
        }
    }
    broken
}
