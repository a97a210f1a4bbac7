//! What FA2 counts, kept from one schedule to the next.

ghost use Rattle.std.specs.Prelude.{◌≡◌};
ghost use Rattle.league.specs.Sets.{IsBelow};
ghost use Rattle.fixtures.specs.Games.{round_count, IsDoubleRoundRobin};
ghost use Rattle.rules.specs.Parts.{worst_gaps_with};

use crate::classes::fa2::Fairness;
use crate::home_rows::mask_of;
use crate::home_table::HomeTable;
use crate::known_gaps::KnownGaps;
use fixtures::Schedule;
use league::TeamSet;
use std::marker::Model;

/// The numbers of home games up to each round, kept so that only those of teams that have flipped are counted on the next schedule: those of
/// the schedule that a part was counted on last, and those of the last one whose deviation was known, with what they are apart. Whatever is
/// kept, a part is the same.
#[derive(Drop)]
pub struct HomeCounts {
    counted: HomeTable,
    known: KnownGaps,
}

impl Model for HomeCounts {
    ghost use Rattle.rules.specs.within.GapTables.{AreKnownGaps};
    ghost use Rattle.rules.specs.within.HomeTables.{IsHomeTable};

    ghost Value = { Unit };

    ghost view = { λ _. tt };

    ghost invariant = { λ kept. IsHomeTable kept.counted × AreKnownGaps kept.known };
}

impl HomeCounts {
    /// Nothing counted yet.
    pub fn new() -> Self {
        HomeCounts {
            counted: HomeTable::new(),
            known: KnownGaps::new(),
        }
    }

    /// By how much the rule's teams are too far apart, of each two of which one is in the set. If the schedule's deviation is known, it is
    /// likely to be asked for on it again.
    pub(crate) fn gaps_with(
        &mut self,
        schedule: &Schedule,
        fairness: &Fairness,
        set: TeamSet,
        is_known: bool,
    ) -> u64
        requires round_robin { IsDoubleRoundRobin schedule.now }
        requires teams { IsBelow schedule.now.teams fairness.now.teams }
        requires slots { IsBelow (round_count schedule.now.teams) fairness.now.slots }
        ensures { result ≡
            worst_gaps_with schedule.now fairness.now.teams fairness.now.slots fairness.now.most set }
    {
        let rounds = schedule.rounds();
        let Some(place) = self.known.place_of(fairness.slots) else {
            let mask = mask_of(fairness.slots, rounds);
            return self.counted.gaps_with(schedule, fairness, &mask, set);
        };
        self.known.begin(place, fairness.slots, rounds);
        if is_known {
            self.known.gaps_with(place, schedule, fairness, set)
        } else {
            let mask = self.known.tables[place].mask;
            self.counted.gaps_with(schedule, fairness, &mask, set)
        }
    }
}
