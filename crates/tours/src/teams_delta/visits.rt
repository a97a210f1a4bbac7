//! The legs of the guests of two teams that are exchanged.

ghost use Rattle.std.specs.Prelude.{◌≡◌, ℕ, ◌+◌, ◌*◌, ◌<◌, ◌≤◌, ◌&&◌, ◌==◌, true, if◌then◌else◌};
ghost use Rattle.league.specs.Limits.{max_rounds, max_distance};
ghost use Rattle.league.specs.Sets.{has, IsBelow};
ghost use Rattle.league.specs.Sums.{sum_where};
ghost use Rattle.fixtures.specs.Games.{round_count, is_home};
ghost use Rattle.fixtures.specs.within.Edits.{is_either};
ghost use Rattle.tours.specs.within.Delta.{AreSums, in_rounds};

use super::exchange::TeamExchange;
use crate::delta::TravelDelta;
use crate::whole_travel::{distance, stop};
use league::SlotSet;

impl TeamExchange<'_> {
    ghost use Rattle.tours.specs.within.Exchanges.{leg_before, leg_after, around_visit};

    /// The legs around the home games of the host, `i` or `j`, in the rounds of the set, as they are and after the two are
    /// exchanged there.
    pub(super) fn guests_legs(&self, host: u8) -> TravelDelta
        requires host { host < self.now.schedule.now.teams }
        requires is_host { is_either self.now.i self.now.j host ≡ true }
        ensures before { result.before ≡ sum_where (round_count self.now.schedule.now.teams)
            (λ r. has self.now.rounds r && is_home self.now.schedule.now host r)
            (around_visit self.now (leg_before self.now) host) }
        ensures after { result.after ≡ sum_where (round_count self.now.schedule.now.teams)
            (λ r. has self.now.rounds r && is_home self.now.schedule.now host r)
            (around_visit self.now (leg_after self.now) host) }
        ensures before_limit { result.before ≤ 2 * max_distance * max_rounds }
        ensures after_limit { result.after ≤ 2 * max_distance * max_rounds }
    {
        let home = self.schedule.home_rounds(host);
        let visits = home.intersection(self.rounds);
        self.legs_of_visits(host, visits)
    }

    fn legs_of_visits(&self, host: u8, visits: SlotSet) -> TravelDelta
        requires host { host < self.now.schedule.now.teams }
        requires is_host { is_either self.now.i self.now.j host ≡ true }
        requires below { IsBelow (round_count self.now.schedule.now.teams) visits }
        requires home { (r : ℕ) → has visits r ≡ true → is_home self.now.schedule.now host r ≡ true }
        requires in_set { (r : ℕ) → has visits r ≡ true → has self.now.rounds r ≡ true }
        ensures { AreSums (round_count self.now.schedule.now.teams) visits (2 * max_distance) result.before result.after
            (around_visit self.now (leg_before self.now) host) (around_visit self.now (leg_after self.now) host) }
    {
        let mut before = 0;
        let mut after = 0;
        for round in visits {
            let legs = self.legs_of_visit(host, round);
            before += legs.before;
            after += legs.after;
        }
        TravelDelta { before, after }
    }

    /// The legs around a game of the host's guest. The leg on from there is one of the next visit, if that follows.
    fn legs_of_visit(&self, host: u8, round: u8) -> TravelDelta
        requires host { host < self.now.schedule.now.teams }
        requires is_host { is_either self.now.i self.now.j host ≡ true }
        requires round { round < round_count self.now.schedule.now.teams }
        requires home { is_home self.now.schedule.now host round ≡ true }
        requires in_set { has self.now.rounds round ≡ true }
        ensures before { result.before ≡ around_visit self.now (leg_before self.now) host round }
        ensures after { result.after ≡ around_visit self.now (leg_after self.now) host round }
        ensures before_limit { result.before ≤ 2 * max_distance }
        ensures after_limit { result.after ≤ 2 * max_distance }
    {
        let other = self.exchanged(host);
        let guest = self.schedule.game_at(host, round).opponent;
        let from = stop(self.schedule, guest, round);
        let to = stop(self.schedule, guest, round + 2);
        let from_predicted = self.place_predicted(host, other, from, round);
        let before = distance(self.league, host, from);
        let after = distance(self.league, other, from_predicted);
        if self.is_visit(other, to, round + 2) {
            return TravelDelta { before, after };
        }
        TravelDelta {
            before: before + distance(self.league, host, to),
            after: after + distance(self.league, other, to),
        }
    }

    /// Where the host's guest is at a stop before or after its visit, once the host and the other are exchanged.
    fn place_predicted(&self, host: u8, other: u8, place: u8, index: u8) -> u8
        requires host { host < self.now.schedule.now.teams }
        requires place { place < self.now.schedule.now.teams }
        ensures value { result ≡
            (if place == other && in_rounds self.now.schedule.now (has self.now.rounds) index then host else place) }
        ensures in_range { result < self.now.schedule.now.teams }
    {
        if self.is_visit(other, place, index) {
            host
        } else {
            place
        }
    }
}
