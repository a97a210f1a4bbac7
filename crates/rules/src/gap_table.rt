//! A table of gaps: by how much the home games of each two of some teams are apart.

ghost use Rattle.std.specs.Prelude.{◌≡◌, ℕ, ◌+◌, ◌*◌, ◌<◌, ◌≤◌, true, false, List, length};
ghost use Rattle.league.specs.Limits.{max_rounds, max_teams};
ghost use Rattle.league.specs.Sets.{has, with_number, IsBelow};
ghost use Rattle.league.specs.Sums.{sum_where};
ghost use Rattle.rules.specs.Deviations.{over};
ghost use Rattle.rules.specs.within.GapTables.{IsGapTable, gap_at, over_of_gaps};

use crate::home_rows::{HomeRow, ROW, TEAMS, mask_of, worst_apart};
use crate::home_table::lower_with;
use league::{SlotSet, TeamSet};

const GAPS: usize = TEAMS * TEAMS;

/// The largest number by which the home games of two teams are apart in its slots, for each two of its teams.
#[derive(Clone, Copy, Drop)]
pub(crate) struct GapTable {
    pub slots: SlotSet,
    pub mask: HomeRow,
    pub teams: TeamSet,
    /// At the index of the pair, of which the lower team comes first.
    gaps: [u8; GAPS],
}

impl GapTable {
    /// The table of no slots and no teams.
    pub(crate) fn empty() -> Self
        ensures { (rows : List (List ℕ)) → IsGapTable rows result }
    {
        GapTable {
            slots: SlotSet::empty(),
            mask: [0; ROW],
            teams: TeamSet::empty(),
            gaps: [0; GAPS],
        }
    }

    /// Makes it the table of these slots and of no teams.
    pub(crate) fn begin(&mut self, slots: SlotSet, rounds: u8)
        requires season { rounds ≤ max_rounds }
        requires slots { IsBelow rounds slots }
        requires len { length self.old.gaps ≡ max_teams * max_teams }
        ensures table { (rows : List (List ℕ)) → IsGapTable rows self.new }
        ensures slots { self.new.slots ≡ slots }
    {
        self.slots = slots;
        self.mask = mask_of(slots, rounds);
        self.teams = TeamSet::empty();
    }

    /// Adds those of the teams that it lacks, whose rows are given.
    pub(crate) fn add_teams(&mut self, rows: &[HomeRow; TEAMS], teams: TeamSet)
        requires { IsGapTable rows.now self.old }
        ensures table { IsGapTable rows.now self.new }
        ensures slots { self.new.slots ≡ self.old.slots }
        ensures teams { (t : ℕ) → has teams t ≡ true → has self.new.teams t ≡ true }
    {
        let missing = teams.difference(self.teams);
        for team in missing {
            self.add_team(rows, team);
        }
    }

    fn add_team(&mut self, rows: &[HomeRow; TEAMS], team: u8)
        requires table { IsGapTable rows.now self.old }
        requires team { team < max_teams }
        requires lacks { has self.old.teams team ≡ false }
        ensures table { IsGapTable rows.now self.new }
        ensures slots { self.new.slots ≡ self.old.slots }
        ensures teams { self.new.teams ≡ with_number self.old.teams team }
    {
        for other in self.teams {
            let low = other.min(team);
            let high = other.max(team);
            let (first, second) = (&rows[usize::from(low)], &rows[usize::from(high)]);
            self.gaps[gap_index(low, high)] = worst_apart(&self.mask, first, second);
        }
        self.teams = self.teams.with(team);
    }

    /// Adds up the gaps, over `most`, of each two of the teams of which one is in the set.
    pub(crate) fn over(&self, teams: TeamSet, set: TeamSet, most: u32) -> u64
        ensures { result ≡ sum_where max_teams (has teams) (over_of_gaps self.now.gaps teams set most) }
    {
        let mut total = 0;
        for team in teams {
            total += self.over_with(lower_with(teams, set, team), most, team);
        }
        total
    }

    /// Adds up the gaps, over `most`, of the team and of each of these lower ones.
    fn over_with(&self, lower: TeamSet, most: u32, team: u8) -> u64
        requires { team < max_teams }
        ensures value { result ≡ sum_where max_teams (has lower) (λ o. over (gap_at self.now.gaps o team) most) }
        ensures limit { result ≤ max_teams * 255 }
    {
        let mut total = 0;
        for other in lower {
            let gap = u32::from(self.gap(other, team));
            total += u64::from(gap.saturating_sub(most));
        }
        total
    }

    fn gap(&self, lower: u8, higher: u8) -> u8
        requires lower { lower < max_teams }
        requires higher { higher < max_teams }
        ensures { result ≡ gap_at self.now.gaps lower higher }
    {
        self.gaps[gap_index(lower, higher)]
    }
}

/// The index of a pair.
fn gap_index(lower: u8, higher: u8) -> usize
    ensures { result ≡ higher * max_teams + lower }
{
    usize::from(higher) * TEAMS + usize::from(lower)
}
