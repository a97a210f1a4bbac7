//! The deviation of a schedule from a rule of any class.

ghost use Rattle.std.specs.Prelude.{◌≡◌, ◌<◌};
ghost use Rattle.league.specs.Limits.{deviation_limit};
ghost use Rattle.league.specs.RuleLimits.{IsBodyFor};
ghost use Rattle.rules.specs.Deviations.{deviation};

use crate::classes::br1::br1;
use crate::classes::br2::br2;
use crate::classes::ca2::ca2;
use crate::classes::ca3::ca3;
use crate::classes::ca4::{Capacity, ca4};
use crate::classes::fa2::{Fairness, fa2};
use crate::classes::ga1::ga1;
use crate::classes::se1::se1;
use crate::counted_games::CountedGames;
use fixtures::Schedule;
use league::{Rule, RuleBody};

/// By how much the schedule breaks the rule, whatever the rule's weight: 0 if it keeps it. What each class
/// counts stands in `specs/Deviations.antt`. The numbers of the rule have to be in range for the schedule's
/// teams, as those of each rule of a league are for the league's teams.
#[tactic(auto, using(crate::proofs::limits::Limits::deviation_below))]
pub fn deviation(schedule: &Schedule, rule: &Rule) -> u64
    requires { IsBodyFor schedule.now.teams rule.now.body }
    ensures value { result ≡ deviation schedule.now rule.now.body }
    ensures below { result < deviation_limit }
{
    let counted = CountedGames::of(schedule, rule);
    match &rule.body {
        RuleBody::Ca1 { slots, max, .. } | RuleBody::Ca2 { slots, max, .. } => {
            ca2(schedule, &counted, *slots, *max)
        }
        RuleBody::Ca3 { window, max, .. } => ca3(schedule, &counted, *window, *max),
        RuleBody::Ca4 {
            slots,
            each,
            max,
            ..
        } => ca4(schedule, &counted, &Capacity::new(*slots, *each, *max)),
        RuleBody::Ga1 {
            games,
            slots,
            min,
            max,
        } => ga1(schedule, games, *slots, *min, *max),
        RuleBody::Br1 {
            teams,
            side,
            slots,
            most,
        } => br1(schedule, *teams, *side, *slots, *most),
        RuleBody::Br2 { teams, slots, most } => br2(schedule, *teams, *slots, *most),
        RuleBody::Se1 { teams, min } => se1(schedule, *teams, *min),
        RuleBody::Fa2 { teams, slots, most } => {
            fa2(schedule, &Fairness::new(*teams, *slots, *most))
        }
    }
}
