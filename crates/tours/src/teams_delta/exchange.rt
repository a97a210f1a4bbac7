//! An exchange of two teams in the rounds of a set.

ghost use Rattle.std.specs.Prelude.{◌≡◌, ◌≢◌, ℕ, ◌<◌, ◌≤◌, ◌&&◌, ◌==◌, false};
ghost use Rattle.league.specs.League.{teams};
ghost use Rattle.league.specs.Limits.{max_rounds};
ghost use Rattle.league.specs.Sets.{has, IsBelow};
ghost use Rattle.fixtures.specs.Games.{round_count, round_of};
ghost use Rattle.fixtures.specs.Edits.{exchanged};
ghost use Rattle.tours.specs.within.Delta.{in_rounds};

use fixtures::Schedule;
use league::{League, SlotSet};

/// An exchange of teams `i` and `j` in the games of these rounds, by the schedule before it. In none of the rounds the two
/// meet.
#[derive(Clone, Copy)]
pub(super) struct TeamExchange<'a> {
    pub(super) schedule: &'a Schedule,
    pub(super) league: &'a League,
    pub(super) i: u8,
    pub(super) j: u8,
    pub(super) rounds: SlotSet,
    ghost same: { teams league.now ≡ schedule.now.teams },
    ghost season: { round_count schedule.now.teams ≤ max_rounds },
    ghost first: { i < schedule.now.teams },
    ghost second: { j < schedule.now.teams },
    ghost distinct: { i ≢ j },
    ghost below: { IsBelow (round_count schedule.now.teams) rounds },
    ghost first_out: { has rounds (round_of schedule.now i j) ≡ false },
    ghost second_out: { has rounds (round_of schedule.now j i) ≡ false },
}

impl TeamExchange<'_> {
    /// The place with `i` and `j` exchanged.
    pub(super) fn exchanged(&self, place: u8) -> u8
        ensures value { result ≡ exchanged self.now.i self.now.j place }
        ensures in_range { place < self.now.schedule.now.teams → result < self.now.schedule.now.teams }
    {
        if place == self.i {
            self.j
        } else if place == self.j {
            self.i
        } else {
            place
        }
    }

    /// Whether a team that goes to this place for the stop with the index plays there at the other of two teams in a round
    /// of the set.
    pub(super) fn is_visit(&self, other: u8, place: u8, index: u8) -> bool
        ensures { result ≡ (place == other && in_rounds self.now.schedule.now (has self.now.rounds) index) }
    {
        place == other && self.has_stop(index)
    }

    /// Whether the stop with this index is that of a round of the set.
    fn has_stop(&self, index: u8) -> bool
        ensures { result ≡ in_rounds self.now.schedule.now (has self.now.rounds) index }
    {
        index != 0 && (index - 1 < self.schedule.rounds() && self.rounds.has(index - 1))
    }
}
