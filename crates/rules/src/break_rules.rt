//! Breaks, and the rules on them: at most so many rounds in which a team stays on its side.

ghost use Rattle.std.specs.Prelude.{◌≡◌, ℕ, ◌+◌, ◌-◌, ◌<◌, ◌≤◌, not};
ghost use Rattle.std.specs.Bool.{beq};
ghost use Rattle.league.specs.Limits.{max_rounds};
ghost use Rattle.league.specs.Sets.{has, IsBelow};
ghost use Rattle.fixtures.specs.Games.{round_count};
ghost use Rattle.rules.specs.Deviations.{breaks};

use crate::windows::before;
use fixtures::Schedule;
use league::limits::MAX_ROUNDS;
use league::{Side, SlotSet};

/// How many breaks the team has in the slots: rounds in which it is at home as in the round before, or away as
/// in the round before. `Side::Home` counts those at home, `Side::Away` those away, `Side::Any` both. A break
/// belongs to the later of its two rounds, so the first round has none.
pub fn breaks(schedule: &Schedule, team: u8, slots: SlotSet, side: Side) -> u32
    requires { team < schedule.now.teams }
    ensures value { result ≡ breaks schedule.now team (has slots) side }
    ensures most { result ≤ max_rounds }
{
    breaks_from(schedule, team, rounds_before(schedule, slots), side)
}

/// The rounds of the season after which one of the slots comes: with them the breaks in the slots begin.
pub(crate) fn rounds_before(schedule: &Schedule, slots: SlotSet) -> SlotSet
    ensures members { (r : ℕ) → r + 1 < round_count schedule.now.teams → has result r ≡ has slots (r + 1) }
    ensures below { IsBelow (round_count schedule.now.teams - 1) result }
    ensures season { round_count schedule.now.teams ≤ max_rounds }
{
    SlotSet::below(schedule.rounds() - 1).intersection(before(slots))
}

/// How many breaks the team has that begin with one of these rounds.
#[inline]
pub(crate) fn breaks_from(schedule: &Schedule, team: u8, firsts: SlotSet, side: Side) -> u32
    requires team { team < schedule.now.teams }
    requires firsts { IsBelow (round_count schedule.now.teams - 1) firsts }
    requires season { round_count schedule.now.teams ≤ max_rounds }
    ensures value { result ≡ breaks schedule.now team (λ r. has firsts (r - 1)) side }
    ensures most { result ≤ max_rounds }
{
    let home = schedule.home_rounds(team);
    let stays = firsts.difference(changes_of(home));
    match side {
        Side::Home => stays.intersection(home).len(),
        Side::Away => stays.difference(home).len(),
        Side::Any => stays.len(),
    }
}

/// The rounds after which a team changes sides that is at home in these rounds.
#[inline]
pub(crate) fn changes_of(home: SlotSet) -> SlotSet
    ensures { (r : ℕ) → r + 1 < max_rounds → not (has result r) ≡ beq (has home r) (has home (r + 1)) }
{
    SlotSet::below(MAX_ROUNDS - 1).difference(home.like_next_below(MAX_ROUNDS))
}
