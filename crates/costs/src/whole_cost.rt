//! The cost of a schedule, counted over all its games.

ghost use Rattle.std.specs.Prelude.{◌≡◌, ◌*◌, ◌<◌, ◌≤◌};
ghost use Rattle.league.specs.League.{teams, IsLeague};
ghost use Rattle.league.specs.Limits.{max_rounds, max_teams, max_weight};
ghost use Rattle.tours.specs.Repeats.{repeats};
ghost use Rattle.costs.specs.Costs.{cost_of, near_cost, score_of, score_limit, unless_free};

use crate::cost::Cost;
use crate::rule_costs::costs_of_rules;
use fixtures::Schedule;
use league::League;
use tours::{moved_games, repeats, runs_over, travel, unphased};

/// Counts the cost of a schedule in a league over all its games. Takes no memory.
#[tactic(auto, unfolding(crate::specs::Costs::cost_of))]
pub fn cost_of(schedule: &Schedule, league: &League) -> Cost
    requires { teams league.now ≡ schedule.now.teams }
    ensures value { result ≡ cost_of league.now schedule.now }
    ensures small { score_of league.now result < score_limit }
    ensures limits { IsLeague league.now }
{
    prove_eq!(league.teams(), schedule.teams());
    let travel = travel(schedule, league);
    let runs = runs_over(schedule, league);
    let rules = costs_of_rules(schedule, league);
    let phases = if league.phased() {
        unphased(schedule)
    } else {
        0
    };
    Cost {
        travel,
        hard: runs + counted_repeats(schedule, league) + rules.hard + phases,
        of_rules: rules.hard,
        soft: rules.soft + near_cost(schedule, league),
    }
}

/// How many repeats there are. None is counted if they are free. Takes no memory.
pub fn counted_repeats(schedule: &Schedule, league: &League) -> u64
    ensures value { result ≡ unless_free league.now (repeats schedule.now) }
    ensures limit { result ≤ max_rounds * max_teams }
{
    if league.free_repeats() {
        0
    } else {
        repeats(schedule)
    }
}

/// The price of the games that have another round than at the start. None is counted if that has no price.
fn near_cost(schedule: &Schedule, league: &League) -> u64
    requires { teams league.now ≡ schedule.now.teams }
    ensures value { result ≡ near_cost league.now schedule.now }
    ensures limit { result ≤ max_weight * (max_teams * max_teams) }
{
    let near = u64::from(league.near());
    if near == 0 {
        0
    } else {
        near * moved_games(schedule, league)
    }
}
