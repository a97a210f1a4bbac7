//! BR1: at most so many breaks of each team.

ghost use Rattle.std.specs.Prelude.{◌≡◌, IfSome};
ghost use Rattle.league.specs.Sets.{IsBelow};
ghost use Rattle.league.specs.declared.rule.RuleBody.TheVariants as RuleBody;
ghost use Rattle.fixtures.specs.Games.{IsDoubleRoundRobin};
ghost use Rattle.rules.specs.Deviations.{deviation};
ghost use Rattle.rules.specs.Parts.{changing_terms};

use crate::around::Around;
use crate::break_rules::{breaks_from, rounds_before};
use crate::counted_games::over;
use fixtures::Schedule;
use league::{Side, SlotSet, TeamSet};

/// The breaks of each team in the slots, over the most.
#[tactic(auto, unfolding(crate::specs::Deviations::deviation))]
pub(crate) fn br1(schedule: &Schedule, teams: TeamSet, side: Side, slots: SlotSet, most: u32) -> u64
    requires round_robin { IsDoubleRoundRobin schedule.now }
    requires teams { IsBelow schedule.now.teams teams }
    ensures { result ≡ deviation schedule.now (RuleBody.Br1 teams side slots most) }
{
    let firsts = rounds_before(schedule, slots);
    let mut total = 0;
    for team in teams {
        total += over(breaks_from(schedule, team, firsts, side), most);
    }
    total
}

/// The part of `br1` that the change can alter: all of it, if it is known and each of the teams may change its sides.
pub(crate) fn br1_part(
    schedule: &Schedule,
    teams: TeamSet,
    side: Side,
    slots: SlotSet,
    most: u32,
    change: &Around,
    known: Option<u64>,
) -> u64
    requires round_robin { IsDoubleRoundRobin schedule.now }
    requires teams { IsBelow schedule.now.teams teams }
    requires known { IfSome known (λ whole. whole ≡ deviation schedule.now (RuleBody.Br1 teams side slots most)) }
    ensures { result ≡ changing_terms schedule.now change.now.main change.now.rounds change.now.sides
        (RuleBody.Br1 teams side slots most) }
{
    let flipped = teams.intersection(change.sides);
    match known {
        Some(whole) if flipped == teams => whole,
        _ => br1(schedule, flipped, side, slots, most),
    }
}
