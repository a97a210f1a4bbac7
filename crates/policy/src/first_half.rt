//! The chains of the first half, from the start.

ghost use Rattle.std.specs.Prelude.{◌≡◌, ◌+◌, ◌^◌, ◌<◌, ◌≤◌};
ghost use Rattle.policy.specs.Limits.{max_effort};
ghost use Rattle.policy.specs.Legs.{IsCourse};
ghost use Rattle.policy.specs.Bouts.{hot_for, rigid};

use crate::bouts::Bout;
use crate::legs::{Course, Leg, MoveSet};
use crate::numbers::{
    COOL, EARLY_PART, FEW_LOOSE_LEAST, FEW_TEAMS, FIELD_LIMIT, FIELD_SPANS, HOT, HOTTER,
    LEAST_GROUPS, LOOSE_LEAST, LOOSE_LIMIT, LOOSE_SPANS, MILD, MILD_TENTHS, RIGID_LIMIT,
    RIGID_SPANS, RULED_GROUPS, RULED_LEAST, TEPID, WARM,
};

/// More groups than any effort has.
const MAX_GROUPS: u64 = 10_000_000;

/// One chain, so that there is something good early, and then groups of chains: each of a rigid one and, where they
/// get long enough, two more.
#[derive(Clone, Copy)]
pub(crate) struct FirstHalf {
    /// Whether the first chain goes on from the start. Otherwise it is rigid.
    goes_on: bool,
    /// Whether rules' breaches weigh apart. All chains are rigid then, and hotter.
    apart: bool,
    /// The steps of the first chain.
    early: u64,
    groups: u32,
    /// The steps of the rigid chain of a group.
    rigid: u64,
    /// The steps of each of the two more, or 0 if there are none.
    loose: u64,
    /// Whether the last of these has all moves.
    few: bool,
    /// The steps of all chains.
    pub(crate) steps: u64,
    ghost some: { 1 ≤ early },
    ghost early_limit: { early ≤ max_effort },
    ghost rigid_limit: { rigid ≤ max_effort },
    ghost groups_least: { 1 ≤ groups },
    ghost groups_limit: { groups ≤ 10000000 },
}

impl FirstHalf {
    ghost use Rattle.policy.specs.FirstHalf.{bout_in_first_half, count_in};

    pub(crate) fn new(teams: u8, effort: u64, goes_on: bool, apart: bool) -> Self
        requires teams { 4 ≤ teams }
        requires effort { effort ≤ max_effort }
        ensures goes_on { result.goes_on ≡ goes_on }
        ensures apart { result.apart ≡ apart }
    {
        let rigid_limit = (RIGID_SPANS * span(teams)).min(RIGID_LIMIT);
        let loose_limit = (LOOSE_SPANS * span(teams)).min(LOOSE_LIMIT);
        let early = (effort / EARLY_PART).clamp(1, rigid_limit);
        let rest = (effort / 2).saturating_sub(early);
        let three = rigid_limit + 2 * loose_limit;
        let loose = rest * loose_limit / three;
        let few = teams <= FEW_TEAMS;
        let least = span(teams) * if few { FEW_LOOSE_LEAST } else { LOOSE_LEAST };
        let of_three = groups(rest, three).max(least_groups(few, least, loose));
        let loose = loose / u64::from(of_three);
        let (groups, loose) = if apart {
            (ruled_groups(rest, RULED_LEAST * span(teams)), 0)
        } else if least <= loose {
            (of_three, loose)
        } else {
            (groups(rest, rigid_limit), 0)
        };
        FirstHalf {
            goes_on,
            apart,
            early,
            groups,
            rigid: (rest / u64::from(groups)).saturating_sub(2 * loose),
            loose,
            few,
            steps: early + rest - rest % u64::from(groups),
        }
    }

    /// How many chains there are.
    pub(crate) fn bouts(self) -> u32
        ensures count { result ≡ count_in self }
        ensures least { 2 ≤ result }
    {
        1 + self.groups * if self.loose == 0 { 1 } else { 3 }
    }

    /// The bout of the chain of a number.
    pub(crate) fn bout(self, number: u32) -> Bout
        ensures value { result ≡ bout_in_first_half self number }
        ensures steps { number ≡ 0 → 1 ≤ result.first.steps }
        ensures fits { result.first.steps + result.second.steps < 2 ^ 64 }
        ensures first { IsCourse result.first.course }
        ensures second { IsCourse result.second.course }
    {
        let place = number % 6;
        if number == 0 && self.goes_on {
            Bout::single(MoveSet::Full, TEPID, self.early)
        } else if number == 0 {
            rigid(hot(self.apart), self.early)
        } else if self.loose == 0 || place <= 1 {
            rigid(hot(self.apart), self.rigid)
        } else if self.few && place % 2 == 1 {
            Bout::single(MoveSet::Full, COOL, self.loose)
        } else {
            Bout::single(MoveSet::Loose, WARM, self.loose)
        }
    }
}

/// How many chains go on to a second half of so many steps.
pub(crate) fn field_for(teams: u8, steps: u64) -> u32
    requires { 4 ≤ teams }
    ensures least { 1 ≤ result }
    ensures most { result ≤ 4 }
{
    (steps / (FIELD_SPANS * span(teams))).clamp(1, FIELD_LIMIT) as u32
}

/// A span of steps.
pub(crate) fn span(teams: u8) -> u64
    requires { 4 ≤ teams }
    ensures least { 16000 ≤ result }
    ensures most { result ≤ 65025000 }
{
    1000 * u64::from(teams) * u64::from(teams)
}

/// How many groups of at most so many steps share a rest of the effort: one at least.
fn groups(rest: u64, most: u64) -> u32
    requires { 1 ≤ most }
    ensures least { 1 ≤ result }
    ensures most { result ≤ 10000000 }
{
    rest.div_ceil(most).clamp(1, MAX_GROUPS) as u32
}

/// How many groups with loose chains there are at least, where each of the two has so many steps in all groups.
fn least_groups(few: bool, least: u64, loose: u64) -> u32
    ensures least { 1 ≤ result }
    ensures most { result ≤ 10000000 }
{
    if !few && least <= loose / u64::from(LEAST_GROUPS) {
        LEAST_GROUPS
    } else {
        1
    }
}

/// How many groups there are where rules' breaches weigh apart, if each is to have so many steps.
fn ruled_groups(rest: u64, least: u64) -> u32
    requires { 1 ≤ least }
    ensures least { 1 ≤ result }
    ensures most { result ≤ 10000000 }
{
    (rest / least).clamp(1, RULED_GROUPS) as u32
}

/// How a rigid chain cools first.
fn hot(apart: bool) -> Course
    ensures value { result ≡ hot_for apart }
    ensures course { IsCourse result }
{
    if apart { HOTTER } else { HOT }
}

/// A rigid chain, which in the end draws rounds too.
fn rigid(hot: Course, steps: u64) -> Bout
    requires course { IsCourse hot }
    requires steps { steps ≤ max_effort }
    ensures value { result ≡ rigid hot steps }
    ensures steps { 1 ≤ steps → 1 ≤ result.first.steps }
    ensures all { result.first.steps + result.second.steps ≡ steps }
    ensures first { IsCourse result.first.course }
    ensures second { IsCourse result.second.course }
{
    let mild = steps * MILD_TENTHS / 10;
    Bout {
        first: Leg {
            moves: MoveSet::Rigid,
            course: hot,
            steps: steps - mild,
        },
        second: Leg {
            moves: MoveSet::Loose,
            course: MILD,
            steps: mild,
        },
    }
}
