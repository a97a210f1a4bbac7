//! The parts of deviations that a change can alter, for a cost that is kept over a change.

ghost use Rattle.std.specs.Prelude.{◌≡◌, ◌<◌, if◌then◌else◌, IfSome};
ghost use Rattle.league.specs.Limits.{deviation_limit};
ghost use Rattle.league.specs.RuleLimits.{IsBodyFor};
ghost use Rattle.fixtures.specs.Games.{IsDoubleRoundRobin};
ghost use Rattle.rules.specs.Deviations.{deviation};
ghost use Rattle.rules.specs.Parts.{can_alter, changing_terms, deviation_part};

use crate::around::Around;
use crate::classes::br1::br1_part;
use crate::classes::ca2::ca2_part;
use crate::classes::ca3::ca3_part;
use crate::classes::ca4::{Capacity, ca4_part};
use crate::classes::fa2::Fairness;
use crate::classes::ga1::has_moved_game;
use crate::classes::se1::se1_part;
use crate::counted_games::CountedGames;
use crate::deviations::deviation;
use crate::home_counts::HomeCounts;
use crate::touched_rules::can_alter;
use fixtures::{Schedule, Touched};
use league::{Rule, RuleBody, TeamSet};

/// The part of the rule's [`deviation`](crate::deviation) that a change can alter: `main` has the teams that get other
/// games and the rounds in which anything changes, and `sides` the teams that may change their sides. Other teams keep
/// their games, but that one may meet another main team than before. What the change adds to the part, it adds to the
/// deviation ([`deviations_balance`](crate::deviations_balance)). If the deviation is known, nothing is counted where the
/// part is all of it. What FA2 counts is kept in `counts`, for the next rule and schedule.
#[tactic(auto, unfolding(crate::specs::Parts::deviation_part))]
pub fn deviation_part(
    schedule: &Schedule,
    rule: &Rule,
    main: Touched,
    sides: TeamSet,
    known: Option<u64>,
    counts: &mut HomeCounts,
) -> u64
    requires body { IsBodyFor schedule.now.teams rule.now.body }
    requires known { IfSome known (λ whole. whole ≡ deviation schedule.now rule.now.body) }
    ensures value { result ≡ deviation_part schedule.now main.teams main.rounds sides rule.now.body }
    ensures below { result < deviation_limit }
{
    prove!(schedule.teams() > 0);
    if !can_alter(rule, main.rounds) {
        return 0;
    }
    let change = Around {
        main: main.teams,
        rounds: main.rounds,
        sides,
    };
    changing_terms(schedule, rule, &change, known, counts)
}

/// The part for a rule whose deviation a change in its rounds can alter.
#[tactic(auto, unfolding(crate::specs::Parts::changing_terms))]
fn changing_terms(
    schedule: &Schedule,
    rule: &Rule,
    change: &Around,
    known: Option<u64>,
    counts: &mut HomeCounts,
) -> u64
    requires body { IsBodyFor schedule.now.teams rule.now.body }
    requires round_robin { IsDoubleRoundRobin schedule.now }
    requires known { IfSome known (λ whole. whole ≡ deviation schedule.now rule.now.body) }
    ensures { result ≡ changing_terms schedule.now change.now.main change.now.rounds change.now.sides rule.now.body }
{
    match &rule.body {
        RuleBody::Ca1 { slots, max, .. } | RuleBody::Ca2 { slots, max, .. } => {
            let games = CountedGames::of(schedule, rule);
            ca2_part(schedule, &games, change, *slots, *max, known)
        }
        RuleBody::Ca3 { window, max, .. } => {
            let games = CountedGames::of(schedule, rule);
            ca3_part(schedule, &games, change, *window, *max, known)
        }
        RuleBody::Ca4 {
            slots,
            each,
            max,
            ..
        } => {
            let games = CountedGames::of(schedule, rule);
            let capacity = Capacity::new(*slots, *each, *max);
            ca4_part(schedule, &games, change, &capacity, known)
        }
        RuleBody::Ga1 { games, .. } => {
            deviation_if(
                has_moved_game(schedule, games, change),
                schedule,
                rule,
                known,
            )
        }
        RuleBody::Br1 {
            teams,
            side,
            slots,
            most,
        } => br1_part(schedule, *teams, *side, *slots, *most, change, known),
        RuleBody::Br2 { teams, .. } => {
            deviation_if(teams.intersects(change.sides), schedule, rule, known)
        }
        RuleBody::Se1 { teams, min } => se1_part(schedule, *teams, change, *min),
        RuleBody::Fa2 { teams, slots, most } => {
            let fairness = Fairness::new(*teams, *slots, *most);
            counts.gaps_with(schedule, &fairness, change.sides, known.is_some())
        }
    }
}

/// The whole deviation if a change can alter it.
fn deviation_if(can_alter: bool, schedule: &Schedule, rule: &Rule, known: Option<u64>) -> u64
    requires body { IsBodyFor schedule.now.teams rule.now.body }
    requires known { IfSome known (λ whole. whole ≡ deviation schedule.now rule.now.body) }
    ensures { result ≡ (if can_alter then deviation schedule.now rule.now.body else 0) }
{
    match known {
        _ if !can_alter => 0,
        Some(whole) => whole,
        None => deviation(schedule, rule),
    }
}
