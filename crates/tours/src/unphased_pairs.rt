//! Pairs of teams that play both their games in one half of the season.

ghost use Rattle.std.specs.Prelude.{◌≡◌, ℕ, ◌*◌, ◌<◌, ◌≤◌, ◌||◌, if◌then◌else◌};
ghost use Rattle.league.specs.Limits.{max_teams};
ghost use Rattle.league.specs.Sets.{has, IsBelow};
ghost use Rattle.league.specs.Sums.{sum_where};
ghost use Rattle.fixtures.specs.Games.{IsPair, IsDoubleRoundRobin};
ghost use Rattle.tours.specs.Phased.{is_unphased, unphased, unphased_part};

use fixtures::{Schedule, Touched};
use league::TeamSet;

/// How many pairs of teams play both their games in one half of the season.
pub fn unphased(schedule: &Schedule) -> u64
    ensures value { result ≡ unphased schedule.now }
    ensures limit { result ≤ max_teams * max_teams }
{
    let all = TeamSet::below(schedule.teams());
    unphased_with(schedule, all)
}

/// The pairs with a touched team, of these.
pub fn unphased_part(schedule: &Schedule, touched: Touched) -> u64
    ensures value { result ≡ unphased_part schedule.now (has touched.teams) }
    ensures limit { result ≤ max_teams * max_teams }
{
    unphased_with(schedule, touched.teams)
}

/// The pairs with one of these teams, each counted at its higher team.
#[tactic(auto, using(league::proofs::ForCallers::sums), unfolding(crate::specs::Phased::unphased_part))]
fn unphased_with(schedule: &Schedule, teams: TeamSet) -> u64
    ensures value { result ≡ unphased_part schedule.now (has teams) }
    ensures limit { result ≤ max_teams * max_teams }
{
    let mut total = 0;
    for team in 0..schedule.teams() {
        let lower = lower_partners(teams, team);
        total += unphased_of(schedule, lower, team);
    }
    total
}

/// The lower teams with which a team makes a pair that has one of these teams.
fn lower_partners(teams: TeamSet, team: u8) -> TeamSet
    requires { team < max_teams }
    ensures members { (low : ℕ) → low < team → has result low ≡ (has teams low || has teams team) }
    ensures below { IsBelow team result }
{
    let lower = TeamSet::below(team);
    if teams.has(team) {
        lower
    } else {
        lower.intersection(teams)
    }
}

/// How many of these lower teams have both their games with the team in one half.
fn unphased_of(schedule: &Schedule, lower: TeamSet, team: u8) -> u64
    requires round_robin { IsDoubleRoundRobin schedule.now }
    requires team { team < schedule.now.teams }
    requires lower { IsBelow team lower }
    ensures value { result ≡ sum_where team (has lower) (λ low. if is_unphased schedule.now low team then 1 else 0) }
    ensures limit { result ≤ max_teams }
{
    let mut total = 0;
    for low in lower {
        total += u64::from(is_unphased(schedule, low, team));
    }
    total
}

/// Whether two teams play both their games in one half of the season.
#[tactic(auto, unfolding(crate::specs::Phased::is_unphased))]
pub fn is_unphased(schedule: &Schedule, i: u8, j: u8) -> bool
    requires { IsPair schedule.now.teams i j }
    ensures { result ≡ is_unphased schedule.now i j }
{
    let half = schedule.teams() - 1;
    (schedule.round_of(i, j) < half) == (schedule.round_of(j, i) < half)
}
