//! CA1 and CA2: for each team at most so many games of a side in some rounds, against all or some opponents.

ghost use Rattle.std.specs.Prelude.{◌≡◌, IfSome};
ghost use Rattle.league.specs.Sets.{IsBelow};
ghost use Rattle.league.specs.declared.rule.RuleBody.TheVariants as RuleBody;
ghost use Rattle.fixtures.specs.Games.{IsDoubleRoundRobin};
ghost use Rattle.rules.specs.Deviations.{deviation};
ghost use Rattle.rules.specs.Parts.{changing_terms};

use crate::around::Around;
use crate::counted_games::{CountedGames, games_of_team, games_otherwise, number_of, over};
use fixtures::Schedule;
use league::SlotSet;

/// The games of each team that count in the slots, over the most.
#[tactic(auto, unfolding(crate::specs::Deviations::deviation))]
pub(crate) fn ca2(schedule: &Schedule, games: &CountedGames, slots: SlotSet, most: u32) -> u64
    requires round_robin { IsDoubleRoundRobin schedule.now }
    requires teams { IsBelow schedule.now.teams games.now.teams }
    ensures { result ≡
        deviation schedule.now (RuleBody.Ca2 games.now.teams games.now.side games.now.opponents slots most) }
{
    let opponents = number_of(schedule, games.opponents);
    let mut total = 0;
    for team in games.teams {
        total += over(games_of_team(schedule, games, opponents, slots, team), most);
    }
    total
}

/// The part of `ca2` that the change can alter: all of it, if it is known and each of the teams may have other games.
pub(crate) fn ca2_part(
    schedule: &Schedule,
    games: &CountedGames,
    change: &Around,
    slots: SlotSet,
    most: u32,
    known: Option<u64>,
) -> u64
    requires round_robin { IsDoubleRoundRobin schedule.now }
    requires teams { IsBelow schedule.now.teams games.now.teams }
    requires known { IfSome known (λ whole. whole ≡
        deviation schedule.now (RuleBody.Ca2 games.now.teams games.now.side games.now.opponents slots most)) }
    ensures { result ≡ changing_terms schedule.now change.now.main change.now.rounds change.now.sides
        (RuleBody.Ca2 games.now.teams games.now.side games.now.opponents slots most) }
{
    let otherwise = games_otherwise(schedule, games, change);
    match known {
        Some(whole) if otherwise.teams == games.teams => whole,
        _ => ca2(schedule, &otherwise, slots, most),
    }
}
