//! The gaps of the schedule whose deviations are known, in the slots of each rule.

ghost use Rattle.std.specs.Prelude.{◌≡◌, ℕ, ◌<◌, ◌≤◌, IfSome, slice_index_or};
ghost use Rattle.league.specs.Limits.{max_rounds};
ghost use Rattle.league.specs.Sets.{has, IsBelow};
ghost use Rattle.fixtures.specs.Games.{round_count, IsDoubleRoundRobin};
ghost use Rattle.rules.specs.Parts.{worst_gaps_with};
ghost use Rattle.rules.specs.declared.gap_table.GapTable.{GapTable};
ghost use Rattle.rules.specs.within.GapTables.{table_count, AreKnownGaps};
ghost use Rattle.rules.specs.within.HomeTables.{AreRowsOf};

use crate::classes::fa2::Fairness;
use crate::gap_table::GapTable;
use crate::home_table::HomeTable;
use fixtures::Schedule;
use league::{SlotSet, TeamSet};

/// How many tables are kept, one for all rules with the same slots. What rules with more other slots count is compared each time.
const TABLES: usize = 16;

/// The home games of a schedule and what two teams' are apart, kept so that only those of teams that have flipped are compared anew.
#[derive(Drop)]
pub(crate) struct KnownGaps {
    pub homes: HomeTable,
    pub tables: [GapTable; TABLES],
}

impl KnownGaps {
    /// Nothing compared yet.
    pub(crate) fn new() -> Self
        ensures { AreKnownGaps result }
    {
        KnownGaps {
            homes: HomeTable::new(),
            tables: [GapTable::empty(); TABLES],
        }
    }

    /// Where the table of the slots is, or can be begun. None if there are too many others.
    pub(crate) fn place_of(&self, slots: SlotSet) -> Option<usize>
        requires { AreKnownGaps self.now }
        ensures { IfSome result (λ place. place < table_count) }
    {
        for place in 0..TABLES {
            let own = self.tables[place].slots;
            if own == slots || own == SlotSet::empty() {
                return Some(place);
            }
        }
        None
    }

    /// Makes the table in its place that of the slots.
    pub(crate) fn begin(&mut self, place: usize, slots: SlotSet, rounds: u8)
        requires known { AreKnownGaps self.old }
        requires place { place < table_count }
        requires season { rounds ≤ max_rounds }
        requires slots { IsBelow rounds slots }
        ensures known { AreKnownGaps self.new }
        ensures slots { (d : GapTable) → (slice_index_or self.new.tables place d).slots ≡ slots }
    {
        if self.tables[place].slots != slots {
            self.tables[place].begin(slots, rounds);
        }
    }

    /// By how much the rule's teams are too far apart, of each two of which one is in the set, by the table of its slots.
    pub(crate) fn gaps_with(
        &mut self,
        place: usize,
        schedule: &Schedule,
        fairness: &Fairness,
        set: TeamSet,
    ) -> u64
        requires known { AreKnownGaps self.old }
        requires place { place < table_count }
        requires slots { (d : GapTable) → (slice_index_or self.old.tables place d).slots ≡ fairness.now.slots }
        requires round_robin { IsDoubleRoundRobin schedule.now }
        requires teams { IsBelow schedule.now.teams fairness.now.teams }
        requires below { IsBelow (round_count schedule.now.teams) fairness.now.slots }
        ensures known { AreKnownGaps self.new }
        ensures value { result ≡
            worst_gaps_with schedule.now fairness.now.teams fairness.now.slots fairness.now.most set }
    {
        self.follow(schedule, fairness.teams);
        let table = &mut self.tables[place];
        table.add_teams(&self.homes.rows, fairness.teams);
        table.over(fairness.teams, set, fairness.most)
    }

    /// Makes the rows of the teams those of the schedule, and takes from the tables those whose rows it changes.
    fn follow(&mut self, schedule: &Schedule, teams: TeamSet)
        requires known { AreKnownGaps self.old }
        requires round_robin { IsDoubleRoundRobin schedule.now }
        requires teams { IsBelow schedule.now.teams teams }
        ensures known { AreKnownGaps self.new }
        ensures rows { AreRowsOf schedule.now (has teams) self.new.homes.rows }
        ensures slots { (k : ℕ) (d : GapTable) →
            (slice_index_or self.new.tables k d).slots ≡ (slice_index_or self.old.tables k d).slots }
    {
        let flipped = self.homes.follow(schedule, teams);
        if flipped == TeamSet::empty() {
            return;
        }
        for place in 0..TABLES {
            let table = &mut self.tables[place];
            table.teams = table.teams.difference(flipped);
        }
    }
}
