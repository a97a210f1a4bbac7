//! BR2: at most so many breaks of all the teams together.

ghost use Rattle.std.specs.Prelude.{◌≡◌, ◌-◌, ◌≤◌};
ghost use Rattle.league.specs.Limits.{max_rounds};
ghost use Rattle.league.specs.Sets.{has, IsBelow};
ghost use Rattle.league.specs.Sums.{sum_below};
ghost use Rattle.league.specs.declared.rule.RuleBody.TheVariants as RuleBody;
ghost use Rattle.league.specs.declared.rule.Side.TheVariants.{Any};
ghost use Rattle.fixtures.specs.Games.{round_count, IsDoubleRoundRobin};
ghost use Rattle.rules.specs.Deviations.{deviation, breaks};
ghost use Rattle.rules.specs.within.Walked.{breaks_together};

use crate::break_rules::{breaks_from, changes_of, rounds_before};
use crate::counted_games::over;
use fixtures::Schedule;
use league::{Side, SlotSet, TeamSet};

/// The breaks of all the teams in the slots, over the most.
#[tactic(auto, unfolding(crate::specs::Deviations::deviation))]
pub(crate) fn br2(schedule: &Schedule, teams: TeamSet, slots: SlotSet, most: u32) -> u64
    requires round_robin { IsDoubleRoundRobin schedule.now }
    requires teams { IsBelow schedule.now.teams teams }
    ensures { result ≡ deviation schedule.now (RuleBody.Br2 teams slots most) }
{
    over(breaks_together(schedule, teams, slots), most)
}

/// How many breaks the teams have in the slots, all together.
fn breaks_together(schedule: &Schedule, teams: TeamSet, slots: SlotSet) -> u32
    requires teams { IsBelow schedule.now.teams teams }
    ensures { result ≡ breaks_together schedule.now teams slots }
{
    let firsts = rounds_before(schedule, slots);
    if teams == TeamSet::below(schedule.teams()) {
        return breaks_of_all(schedule, firsts);
    }
    let mut count = 0;
    for team in teams {
        count += breaks_from(schedule, team, firsts, Side::Any);
    }
    count
}

/// How many breaks all the teams have that begin with one of these rounds. Fewer instructions count the changes of sides.
#[tactic(auto, using(league::proofs::ForCallers::sums))]
fn breaks_of_all(schedule: &Schedule, firsts: SlotSet) -> u32
    requires firsts { IsBelow (round_count schedule.now.teams - 1) firsts }
    requires season { round_count schedule.now.teams ≤ max_rounds }
    ensures { result ≡
        sum_below schedule.now.teams (λ t. breaks schedule.now t (λ r. has firsts (r - 1)) Any) }
{
    let rounds = firsts.len();
    let mut count = 0;
    for team in 0..schedule.teams() {
        let changes = changes_of(schedule.home_rounds(team));
        count += rounds - firsts.intersection(changes).len();
    }
    count
}
