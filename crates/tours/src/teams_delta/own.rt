//! The own legs of two teams that are exchanged: they change at the edges of the set, and where a team flips.

ghost use Rattle.std.specs.Prelude.{◌≡◌, ℕ, ◌+◌, ◌*◌, ◌<◌, ◌≤◌, ◌==◌, not, true, if◌then◌else◌};
ghost use Rattle.league.specs.Limits.{max_rounds, max_distance};
ghost use Rattle.league.specs.Sets.{has, IsBelow};
ghost use Rattle.fixtures.specs.Games.{round_count};
ghost use Rattle.fixtures.specs.Edits.{exchanged};
ghost use Rattle.tours.specs.within.Walked.{part_of};
ghost use Rattle.tours.specs.within.Delta.{AreSums, AreFlips, IsFlip};

use super::exchange::TeamExchange;
use crate::delta::TravelDelta;
use crate::whole_travel::{distance, stop};
use fixtures::Schedule;
use league::SlotSet;

impl TeamExchange<'_> {
    ghost use Rattle.tours.specs.within.Exchanges.{leg_before, leg_after, flipped_after, stop_of, way_across};

    /// The own legs of `i` and `j` that change, of those that touch a round of the set.
    pub(super) fn own_legs(&self) -> TravelDelta
        ensures balance { (part_of (leg_after self.now) self.now.schedule.now (has self.now.rounds) self.now.j +
            part_of (leg_after self.now) self.now.schedule.now (has self.now.rounds) self.now.i) + result.before ≡
            (part_of (leg_before self.now) self.now.schedule.now (has self.now.rounds) self.now.j +
            part_of (leg_before self.now) self.now.schedule.now (has self.now.rounds) self.now.i) + result.after }
        ensures before_limit { result.before ≤ (4 * max_rounds + 2) * max_distance }
        ensures after_limit { result.after ≤ (4 * max_rounds + 2) * max_distance }
    {
        prove_eq!(self.league.teams(), self.schedule.teams());
        let inner = self.rounds.starts_within(2);
        let either = self.rounds.starts_meeting(2);
        let edges = either.difference(inner);
        let flips_i = flips(self.schedule, inner, self.i);
        let flips_j = flips(self.schedule, inner, self.j);
        let first = self.first_legs();
        let at_edges = self.legs_at_edges(edges);
        let of_i = self.flipped_legs(self.i, flips_i);
        let of_j = self.flipped_legs(self.j, flips_j);
        TravelDelta {
            before: first.before + (at_edges.before + (of_j.before + of_i.before)),
            after: first.after + (at_edges.after + (of_j.after + of_i.after)),
        }
    }

    /// The first legs of `i` and `j`, if the first round is in the set.
    fn first_legs(&self) -> TravelDelta
        ensures before { result.before ≡ (if has self.now.rounds 0
            then leg_before self.now self.now.j 0 + leg_before self.now self.now.i 0 else 0) }
        ensures after { result.after ≡ (if has self.now.rounds 0
            then leg_after self.now self.now.j 0 + leg_after self.now self.now.i 0 else 0) }
        ensures before_limit { result.before ≤ 2 * max_distance }
        ensures after_limit { result.after ≤ 2 * max_distance }
    {
        if self.rounds.has(0) {
            self.legs_across(1, 0)
        } else {
            TravelDelta {
                before: 0,
                after: 0,
            }
        }
    }

    /// The legs of `i` and `j` after these rounds, each with one end in the set.
    fn legs_at_edges(&self, edges: SlotSet) -> TravelDelta
        requires below { IsBelow (round_count self.now.schedule.now.teams) edges }
        requires edges { (s : ℕ) → has edges s ≡ true → has self.now.rounds (s + 1) ≡ not (has self.now.rounds s) }
        ensures { AreSums (round_count self.now.schedule.now.teams) edges (2 * max_distance) result.before result.after
            (λ s. leg_before self.now self.now.j (s + 1) + leg_before self.now self.now.i (s + 1))
            (λ s. leg_after self.now self.now.j (s + 1) + leg_after self.now self.now.i (s + 1)) }
    {
        let mut before = 0;
        let mut after = 0;
        for round in edges {
            let legs = self.legs_at_edge(round);
            before += legs.before;
            after += legs.after;
        }
        TravelDelta { before, after }
    }

    /// The legs of `i` and `j` after a round, if either it or the next one is in the set.
    fn legs_at_edge(&self, round: u8) -> TravelDelta
        requires round { round < round_count self.now.schedule.now.teams }
        requires edge { has self.now.rounds (round + 1) ≡ not (has self.now.rounds round) }
        ensures before { result.before ≡
            leg_before self.now self.now.j (round + 1) + leg_before self.now self.now.i (round + 1) }
        ensures after { result.after ≡
            leg_after self.now self.now.j (round + 1) + leg_after self.now self.now.i (round + 1) }
        ensures before_limit { result.before ≤ 2 * max_distance }
        ensures after_limit { result.after ≤ 2 * max_distance }
    {
        prove_eq!(self.league.teams(), self.schedule.teams());
        if self.rounds.has(round) {
            self.legs_across(round + 1, round + 2)
        } else {
            self.legs_across(round + 2, round + 1)
        }
    }

    /// The legs of `i` and `j` between their stops with two indices, as they are and with the two exchanged at the first.
    fn legs_across(&self, inside: u8, outside: u8) -> TravelDelta
        requires inside { inside ≤ round_count self.now.schedule.now.teams + 1 }
        requires outside { outside ≤ round_count self.now.schedule.now.teams + 1 }
        ensures before { result.before ≡
            way_across self.now self.now.j outside (stop_of self.now self.now.j inside) +
            way_across self.now self.now.i outside (stop_of self.now self.now.i inside) }
        ensures after { result.after ≡
            way_across self.now self.now.j outside (exchanged self.now.i self.now.j (stop_of self.now self.now.i inside)) +
            way_across self.now self.now.i outside (exchanged self.now.i self.now.j (stop_of self.now self.now.j inside)) }
        ensures before_limit { result.before ≤ 2 * max_distance }
        ensures after_limit { result.after ≤ 2 * max_distance }
    {
        let from_i = stop(self.schedule, self.i, outside);
        let from_j = stop(self.schedule, self.j, outside);
        let at_i = stop(self.schedule, self.i, inside);
        let at_j = stop(self.schedule, self.j, inside);
        TravelDelta {
            before: distance(self.league, from_j, at_j) + distance(self.league, from_i, at_i),
            after: distance(self.league, from_j, self.exchanged(at_i))
                + distance(self.league, from_i, self.exchanged(at_j)),
        }
    }

    /// The legs of a team after these rounds, with `i` and `j` exchanged among its places.
    fn flipped_legs(&self, team: u8, flips: SlotSet) -> TravelDelta
        requires team { team < self.now.schedule.now.teams }
        requires below { IsBelow (round_count self.now.schedule.now.teams) flips }
        requires flipping { (s : ℕ) → has flips s ≡ true → IsFlip self.now.schedule.now self.now.i self.now.j team s }
        ensures { AreSums (round_count self.now.schedule.now.teams) flips max_distance result.before result.after
            (λ s. leg_before self.now team (s + 1)) (λ s. flipped_after self.now team (s + 1)) }
    {
        let mut before = 0;
        let mut after = 0;
        for round in flips {
            let legs = self.flipped_leg(team, round);
            before += legs.before;
            after += legs.after;
        }
        TravelDelta { before, after }
    }

    /// The leg of a team after a round. One of its two places is the team's own home, in whose place the other's comes.
    fn flipped_leg(&self, team: u8, round: u8) -> TravelDelta
        requires team { team < self.now.schedule.now.teams }
        requires flip { IsFlip self.now.schedule.now self.now.i self.now.j team round }
        ensures before { result.before ≡ leg_before self.now team (round + 1) }
        ensures after { result.after ≡ flipped_after self.now team (round + 1) }
        ensures before_limit { result.before ≤ max_distance }
        ensures after_limit { result.after ≤ max_distance }
    {
        prove_eq!(self.league.teams(), self.schedule.teams());
        let from = stop(self.schedule, team, round + 1);
        let to = stop(self.schedule, team, round + 2);
        let away = away_of(team, from, to);
        let other = self.exchanged(team);
        TravelDelta {
            before: distance(self.league, team, away),
            after: distance(self.league, other, away),
        }
    }
}

/// The rounds of a set after which a team plays on the other side.
fn flips(schedule: &Schedule, inner: SlotSet, team: u8) -> SlotSet
    requires team { team < schedule.now.teams }
    requires below { IsBelow (round_count schedule.now.teams) inner }
    ensures members { AreFlips schedule.now inner team result }
    ensures below { IsBelow (round_count schedule.now.teams) result }
{
    let home = schedule.home_rounds(team);
    let like_next = home.like_next_below(schedule.rounds());
    inner.difference(like_next)
}

/// Which of two places of a team isn't its home.
fn away_of(team: u8, from: u8, to: u8) -> u8
    ensures value { result ≡ (if from == team then to else from) }
    ensures in_range { (n : ℕ) → from < n → to < n → result < n }
{
    if from == team { to } else { from }
}
