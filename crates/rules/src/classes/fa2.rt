//! FA2: the numbers of home games stay close to each other.

ghost use Rattle.std.specs.Prelude.{◌≡◌};
ghost use Rattle.league.specs.Sets.{IsBelow};
ghost use Rattle.league.specs.declared.rule.RuleBody.TheVariants as RuleBody;
ghost use Rattle.fixtures.specs.Games.{round_count, IsDoubleRoundRobin};
ghost use Rattle.rules.specs.Deviations.{deviation};

use crate::home_rows::mask_of;
use crate::home_table::HomeTable;
use fixtures::Schedule;
use league::{SlotSet, TeamSet};

/// In no slot do two of the teams have numbers of home games that are more than `most` apart.
#[derive(Clone, Copy, Drop)]
pub(crate) struct Fairness {
    pub teams: TeamSet,
    pub slots: SlotSet,
    pub most: u32,
}

impl Fairness {
    /// A rule of these teams and slots.
    pub(crate) fn new(teams: TeamSet, slots: SlotSet, most: u32) -> Self
        ensures { result ≡ record { teams = teams; slots = slots; most = most } }
    {
        Fairness { teams, slots, most }
    }
}

/// The worst gap of each pair of the teams.
pub(crate) fn fa2(schedule: &Schedule, fairness: &Fairness) -> u64
    requires round_robin { IsDoubleRoundRobin schedule.now }
    requires teams { IsBelow schedule.now.teams fairness.now.teams }
    requires slots { IsBelow (round_count schedule.now.teams) fairness.now.slots }
    ensures { result ≡
        deviation schedule.now (RuleBody.Fa2 fairness.now.teams fairness.now.slots fairness.now.most) }
{
    let mask = mask_of(fairness.slots, schedule.rounds());
    HomeTable::new().gaps_with(schedule, fairness, &mask, fairness.teams)
}
