//! Pairs of teams that meet twice in a row.

ghost use Rattle.std.specs.Prelude.{◌≡◌, ◌+◌, ◌-◌, ◌*◌, ◌<◌, ◌≤◌, ◌&&◌, if◌then◌else◌};
ghost use Rattle.league.specs.Limits.{max_teams, max_rounds};
ghost use Rattle.league.specs.Sets.{has, IsBelow};
ghost use Rattle.league.specs.Sums.{sum_below, sum_where};
ghost use Rattle.fixtures.specs.Games.{round_count, meets};
ghost use Rattle.tours.specs.Repeats.{repeats_after, repeats};
ghost use Rattle.tours.specs.Parts.{repeats_part};

use crate::clip::rounds_next_to;
use fixtures::{Schedule, Touched};
use league::SlotSet;

/// How many pairs of teams meet in a round and in the next, summed over the rounds. The middle of the season is
/// no exception.
pub fn repeats(schedule: &Schedule) -> u64
    ensures value { result ≡ repeats schedule.now }
    ensures limit { result ≤ max_rounds * max_teams }
{
    let firsts = SlotSet::below(schedule.rounds() - 1);
    repeats_from(schedule, firsts)
}

/// How many pairs of teams meet in a round and in the next.
#[tactic(auto, using(league::proofs::ForCallers::sums), unfolding(crate::specs::Repeats::repeats_after))]
fn repeats_after(schedule: &Schedule, round: u8) -> u64
    requires { round + 1 < round_count schedule.now.teams }
    ensures value { result ≡ repeats_after schedule.now round }
    ensures limit { result ≤ max_teams }
{
    let mut total = 0;
    for team in 0..schedule.teams() {
        total += repeats_of_higher(schedule, team, round);
    }
    total
}

/// 1 if a team meets the same lower team in a round and in the next, otherwise 0. So each pair is counted once.
fn repeats_of_higher(schedule: &Schedule, team: u8, round: u8) -> u64
    requires team { team < schedule.now.teams }
    requires next { round + 1 < round_count schedule.now.teams }
    requires season { round_count schedule.now.teams ≤ max_rounds }
    ensures value { result ≡
        sum_below team (λ low.
        if meets schedule.now team low round && meets schedule.now team low (round + 1) then 1 else 0) }
    ensures limit { result ≤ 1 }
{
    let opponent = schedule.game_at(team, round).opponent;
    let next = schedule.game_at(team, round + 1).opponent;
    u64::from(opponent < team && opponent == next)
}

/// The repeats of all pairs that have one of their two rounds touched.
pub fn repeats_part(schedule: &Schedule, touched: Touched) -> u64
    ensures value { result ≡ repeats_part schedule.now (has touched.rounds) }
    ensures limit { result ≤ max_rounds * max_teams }
{
    let firsts = rounds_next_to(schedule, touched.rounds);
    repeats_from(schedule, firsts)
}

/// The repeats whose first round is one of these.
fn repeats_from(schedule: &Schedule, firsts: SlotSet) -> u64
    requires season { round_count schedule.now.teams ≤ max_rounds }
    requires below { IsBelow (round_count schedule.now.teams - 1) firsts }
    ensures value { result ≡ sum_where (round_count schedule.now.teams - 1) (has firsts) (repeats_after schedule.now) }
    ensures limit { result ≤ max_rounds * max_teams }
{
    let mut total = 0;
    for round in firsts {
        total += repeats_after(schedule, round);
    }
    total
}
