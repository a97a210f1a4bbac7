//! SE1: at least so many rounds between the two games of a pair.

ghost use Rattle.std.specs.Prelude.{◌≡◌, ◌*◌, ◌<◌, ◌≤◌, ◌&&◌};
ghost use Rattle.league.specs.Limits.{max_teams, max_count};
ghost use Rattle.league.specs.Sets.{has, IsBelow};
ghost use Rattle.league.specs.Sums.{sum_where};
ghost use Rattle.league.specs.declared.rule.RuleBody.TheVariants as RuleBody;
ghost use Rattle.fixtures.specs.Games.{IsDoubleRoundRobin, IsPair};
ghost use Rattle.rules.specs.Deviations.{over, deviation, rounds_between};
ghost use Rattle.rules.specs.Parts.{changing_terms};
ghost use Rattle.rules.specs.within.Walked.{counts_pair};

use crate::around::{Around, opponents_in};
use crate::counted_games::over;
use fixtures::Schedule;
use league::TeamSet;

/// The rounds between the two games of each pair of the teams, under the least.
pub(crate) fn se1(schedule: &Schedule, teams: TeamSet, least: u32) -> u64
    requires round_robin { IsDoubleRoundRobin schedule.now }
    requires teams { IsBelow schedule.now.teams teams }
    requires least { least ≤ max_count }
    ensures { result ≡ deviation schedule.now (RuleBody.Se1 teams least) }
{
    let mut total = 0;
    for team in teams {
        total += short_with(schedule, teams, teams, least, team);
    }
    total
}

/// The breaches of each pair with a main team that meets in one of the rounds.
pub(crate) fn se1_part(schedule: &Schedule, teams: TeamSet, change: &Around, least: u32) -> u64
    requires round_robin { IsDoubleRoundRobin schedule.now }
    requires teams { IsBelow schedule.now.teams teams }
    requires least { least ≤ max_count }
    ensures { result ≡ changing_terms schedule.now change.now.main change.now.rounds change.now.sides
        (RuleBody.Se1 teams least) }
{
    let counting = teams.intersection(change.main);
    let mut total = 0;
    for team in counting {
        let met = opponents_in(schedule, change.rounds, team).intersection(teams);
        total += short_with(schedule, met, change.main, least, team);
    }
    total
}

/// The rounds between the two games of the main team and of each of these others, under the least: of main teams among
/// them the lower ones alone, so that no pair counts twice.
fn short_with(schedule: &Schedule, others: TeamSet, main: TeamSet, least: u32, team: u8) -> u64
    requires round_robin { IsDoubleRoundRobin schedule.now }
    requires team { team < schedule.now.teams }
    requires others { IsBelow schedule.now.teams others }
    requires least { least ≤ max_count }
    ensures value { result ≡ sum_where schedule.now.teams
        (λ t. has others t && counts_pair main team t)
        (λ t. over least (rounds_between schedule.now t team)) }
    ensures most { result ≤ max_teams * max_count }
{
    let mut total = 0;
    for other in others {
        if counts_pair(main, team, other) {
            total += over(least, rounds_between(schedule, other, team));
        }
    }
    total
}

/// Whether a main team counts its pair with the other: one of two main teams counts at the higher.
fn counts_pair(main: TeamSet, team: u8, other: u8) -> bool
    requires { other < max_teams }
    ensures { result ≡ counts_pair main team other }
{
    other < team || team < other && !main.has(other)
}

/// How many rounds lie strictly between the two games of the pair.
#[tactic(auto, unfolding(crate::specs::Deviations::rounds_between))]
fn rounds_between(schedule: &Schedule, i: u8, j: u8) -> u32
    requires { IsPair schedule.now.teams i j }
    ensures { result ≡ rounds_between schedule.now i j }
{
    let there = schedule.round_of(i, j);
    let back = schedule.round_of(j, i);
    (there.max(back) - there.min(back)).saturating_sub(1).into()
}
