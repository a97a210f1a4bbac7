//! Sets of teams and of rounds, clipped to a schedule.

ghost use Rattle.std.specs.Prelude.{◌≡◌, ℕ, ◌+◌, ◌-◌, ◌<◌, ◌≤◌, ◌||◌};
ghost use Rattle.league.specs.Limits.{max_rounds};
ghost use Rattle.league.specs.Sets.{has, IsBelow};
ghost use Rattle.fixtures.specs.Games.{round_count, IsDoubleRoundRobin};

use fixtures::Schedule;
use league::{SlotSet, TeamSet};

/// The teams of the set that play in the schedule.
pub(crate) fn teams_in(schedule: &Schedule, set: TeamSet) -> TeamSet
    ensures members { (t : ℕ) → t < schedule.now.teams → has result t ≡ has set t }
    ensures below { IsBelow schedule.now.teams result }
    ensures round_robin { IsDoubleRoundRobin schedule.now }
{
    let all = TeamSet::below(schedule.teams());
    all.intersection(set)
}

/// The rounds of the set that the schedule has.
pub(crate) fn rounds_in(schedule: &Schedule, set: SlotSet) -> SlotSet
    ensures members { (r : ℕ) → r < round_count schedule.now.teams → has result r ≡ has set r }
    ensures below { IsBelow (round_count schedule.now.teams) result }
{
    let all = SlotSet::below(schedule.rounds());
    all.intersection(set)
}

/// The rounds before the last one that are in the set, or whose next round is.
pub(crate) fn rounds_next_to(schedule: &Schedule, set: SlotSet) -> SlotSet
    ensures members { (r : ℕ) → r < round_count schedule.now.teams - 1 → has result r ≡ (has set r || has set (r + 1)) }
    ensures below { IsBelow (round_count schedule.now.teams - 1) result }
    ensures season { round_count schedule.now.teams ≤ max_rounds }
{
    let all = SlotSet::below(schedule.rounds() - 1);
    let starts = set.starts_meeting(2);
    all.intersection(starts)
}
