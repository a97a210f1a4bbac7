//! A table of home games: how many each team has up to and with each round.

ghost use Rattle.std.specs.Prelude.{◌≡◌, ℕ, ◌*◌, ◌<◌, ◌≤◌, ◌&&◌, ◌||◌, nat_lt, true, false, slice_index};
ghost use Rattle.league.specs.Limits.{max_teams};
ghost use Rattle.league.specs.Sets.{has, IsBelow};
ghost use Rattle.league.specs.Sums.{sum_where};
ghost use Rattle.fixtures.specs.Games.{round_count, IsDoubleRoundRobin};
ghost use Rattle.rules.specs.Deviations.{over};
ghost use Rattle.rules.specs.Parts.{worst_gaps_with};
ghost use Rattle.rules.specs.within.HomeTables.{AreRowsOf, IsHomeTable, over_of_rows};
ghost use Rattle.rules.specs.within.Walked.{mask_in, row_of, worst_apart};

use crate::classes::fa2::Fairness;
use crate::home_rows::{HomeRow, ROW, TEAMS, flip, lower, raise, worst_apart};
use fixtures::Schedule;
use league::{SlotSet, TeamSet};

/// The rounds in which each team is at home, and a row of its home games.
#[derive(Drop)]
pub(crate) struct HomeTable {
    pub homes: [SlotSet; TEAMS],
    pub rows: [HomeRow; TEAMS],
}

impl HomeTable {
    /// The table of teams that are never at home.
    pub(crate) fn new() -> Self
        ensures { IsHomeTable result }
    {
        HomeTable {
            homes: [SlotSet::empty(); TEAMS],
            rows: [[0; ROW]; TEAMS],
        }
    }

    /// By how much the rule's teams are too far apart, of each two of which one is in the set, once their rows are the schedule's.
    pub(crate) fn gaps_with(
        &mut self,
        schedule: &Schedule,
        fairness: &Fairness,
        mask: &HomeRow,
        set: TeamSet,
    ) -> u64
        requires table { IsHomeTable self.old }
        requires round_robin { IsDoubleRoundRobin schedule.now }
        requires teams { IsBelow schedule.now.teams fairness.now.teams }
        requires slots { IsBelow (round_count schedule.now.teams) fairness.now.slots }
        requires mask { (r : ℕ) → slice_index mask.now r ≡ mask_in fairness.now.slots r }
        ensures table { IsHomeTable self.new }
        ensures value { result ≡
            worst_gaps_with schedule.now fairness.now.teams fairness.now.slots fairness.now.most set }
    {
        self.follow(schedule, fairness.teams);
        if self.spread(fairness.teams, mask) <= fairness.most {
            return 0;
        }
        self.over(fairness.teams, set, mask, fairness.most)
    }

    /// Makes the rows of the teams those of the schedule. Gives the teams whose rows it changes.
    pub(crate) fn follow(&mut self, schedule: &Schedule, teams: TeamSet) -> TeamSet
        requires table { IsHomeTable self.old }
        requires round_robin { IsDoubleRoundRobin schedule.now }
        requires teams { IsBelow schedule.now.teams teams }
        ensures table { IsHomeTable self.new }
        ensures rows { AreRowsOf schedule.now (has teams) self.new.rows }
        ensures others { (t : ℕ) → has result t ≡ false → row_of self.new.rows t ≡ row_of self.old.rows t }
    {
        let mut flipped = TeamSet::empty();
        for team in teams {
            let place = usize::from(team);
            let homes = schedule.home_rounds(team);
            let kept = self.homes[place];
            if kept != homes {
                let changed = kept.symmetric_difference(homes);
                flip(&mut self.rows[place], changed, homes);
                self.homes[place] = homes;
                flipped = flipped.with(team);
            }
        }
        flipped
    }

    /// By how much the highest and the lowest number of the teams' rows are apart in a round of the mask: no two of the teams are further apart.
    fn spread(&self, teams: TeamSet, mask: &HomeRow) -> u32
        ensures { (t o : ℕ) → has teams t ≡ true → has teams o ≡ true →
            worst_apart mask.now (row_of self.now.rows t) (row_of self.now.rows o) ≤ result }
    {
        let mut highest = [0; ROW];
        let mut lowest = [u8::MAX; ROW];
        for team in teams {
            let row = &self.rows[usize::from(team)];
            raise(&mut highest, row);
            lower(&mut lowest, row);
        }
        worst_apart(mask, &highest, &lowest).into()
    }

    /// Adds up by how much the rows are apart, over `most`, of each two of the teams of which one is in the set.
    fn over(&self, teams: TeamSet, set: TeamSet, mask: &HomeRow, most: u32) -> u64
        ensures { result ≡ sum_where max_teams (has teams) (over_of_rows self.now.rows mask.now teams set most) }
    {
        let mut total = 0;
        for team in teams {
            let others = lower_with(teams, set, team);
            total += self.over_with(others, mask, most, team);
        }
        total
    }

    /// Adds up by how much the rows of the team and of each other are apart, over `most`.
    fn over_with(&self, others: TeamSet, mask: &HomeRow, most: u32, team: u8) -> u64
        requires { team < max_teams }
        ensures value { result ≡ sum_where max_teams (has others)
            (λ o. over (worst_apart mask.now (row_of self.now.rows o) (row_of self.now.rows team)) most) }
        ensures limit { result ≤ max_teams * 255 }
    {
        // a copy, so that it is read once and not again for each other team
        let own = self.rows[usize::from(team)];
        let mut total = 0;
        for other in others {
            let apart: u32 = worst_apart(mask, &self.rows[usize::from(other)], &own).into();
            total += u64::from(apart.saturating_sub(most));
        }
        total
    }
}

/// Of the teams lower than this one those of which, or of which this one, is in the set.
pub(crate) fn lower_with(teams: TeamSet, set: TeamSet, team: u8) -> TeamSet
    requires { team < max_teams }
    ensures { (o : ℕ) → has result o ≡ ((has teams o && nat_lt o team) && (has set o || has set team)) }
{
    let lower = teams.intersection(TeamSet::below(team));
    if set.has(team) {
        lower
    } else {
        lower.intersection(set)
    }
}
