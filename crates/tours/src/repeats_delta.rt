//! The change of the repeats by an exchange, predicted on the schedule before it.

ghost use Rattle.std.specs.Prelude.{◌≡◌, ◌≢◌, ◌+◌, ◌-◌, ◌*◌, ◌<◌, ◌≤◌, ◌==◌, false, if◌then◌else◌};
ghost use Rattle.league.specs.Limits.{max_teams, max_rounds};
ghost use Rattle.league.specs.Sets.{has, IsBelow};
ghost use Rattle.fixtures.specs.Games.{round_count, round_of, IsDoubleRoundRobin};
ghost use Rattle.fixtures.specs.Edits.{exchanged, rounds_exchanged, teams_exchanged};
ghost use Rattle.fixtures.specs.Closed.{IsClosed, plays_in, shares_opponent};
ghost use Rattle.tours.specs.Repeats.{repeats};
ghost use Rattle.tours.specs.within.Delta.{AreSums, met, meets_next, same_lower, repeats_around};

use crate::clip::teams_in;
use crate::delta::CountDelta;
use fixtures::Schedule;
use league::{SlotSet, TeamSet};

/// The repeats that change if rounds `k` and `l` are exchanged for the teams of the set, which has the opponents of its
/// teams in the two rounds.
pub(crate) fn repeats_of_rounds(schedule: &Schedule, k: u8, l: u8, among: TeamSet) -> CountDelta
    requires k { k < round_count schedule.now.teams }
    requires l { l < round_count schedule.now.teams }
    requires distinct { k ≢ l }
    requires closed { IsClosed (plays_in schedule.now k l) (has among) }
    ensures balance { repeats (rounds_exchanged schedule.now k l (has among)) + result.before ≡
        repeats schedule.now + result.after }
    ensures before_limit { result.before ≤ 4 * max_teams }
    ensures after_limit { result.after ≤ 4 * max_teams }
{
    let teams = teams_in(schedule, among);
    if k < l {
        repeats_of_ordered(schedule, k, l, teams)
    } else {
        repeats_of_ordered(schedule, l, k, teams)
    }
}

/// Counts these repeats team by team; `k` is the first of the two rounds.
fn repeats_of_ordered(schedule: &Schedule, k: u8, l: u8, among: TeamSet) -> CountDelta
    requires round_robin { IsDoubleRoundRobin schedule.now }
    requires below { IsBelow schedule.now.teams among }
    requires ordered { k < l }
    requires l { l < round_count schedule.now.teams }
    ensures { AreSums schedule.now.teams among 4 result.before result.after
        (λ t. repeats_around (met schedule.now t) (λ r. r) t k l)
        (λ t. repeats_around (met schedule.now t) (exchanged (k + 1) (l + 1)) t k l) }
{
    let mut before = 0;
    let mut after = 0;
    for team in among {
        let repeats = repeats_of_team(schedule, k, l, team);
        before += repeats.before;
        after += repeats.after;
    }
    CountDelta { before, after }
}

/// The repeats of a team with lower teams. If it meets the same team in both rounds, none changes.
fn repeats_of_team(schedule: &Schedule, k: u8, l: u8, team: u8) -> CountDelta
    requires team { team < schedule.now.teams }
    requires ordered { k < l }
    requires l { l < round_count schedule.now.teams }
    ensures before { result.before ≡ repeats_around (met schedule.now team) (λ r. r) team k l }
    ensures after { result.after ≡ repeats_around (met schedule.now team) (exchanged (k + 1) (l + 1)) team k l }
    ensures before_limit { result.before ≤ 4 }
    ensures after_limit { result.after ≤ 4 }
{
    let in_k = schedule.game_at(team, k).opponent;
    let in_l = schedule.game_at(team, l).opponent;
    if in_k == in_l {
        return CountDelta {
            before: 0,
            after: 0,
        };
    }
    if l == k + 1 {
        let from = met(schedule, team, k);
        let to = met(schedule, team, l + 2);
        return CountDelta {
            before: same_lower(team, in_k, from) + same_lower(team, in_l, to),
            after: same_lower(team, in_l, from) + same_lower(team, in_k, to),
        };
    }
    let of_k = repeats_beside(schedule, team, in_k, k, l);
    let of_l = repeats_beside(schedule, team, in_l, l, k);
    CountDelta {
        before: of_k.before + of_l.before,
        after: of_k.after + of_l.after,
    }
}

/// How often a team meets an opponent, if that is a lower team, in the rounds beside one round, and in those beside another.
fn repeats_beside(schedule: &Schedule, team: u8, opponent: u8, before: u8, after: u8) -> CountDelta
    requires team { team < schedule.now.teams }
    requires before { before < round_count schedule.now.teams }
    requires after { after < round_count schedule.now.teams }
    ensures before { result.before ≡
        same_lower team opponent (met schedule.now team before) +
        same_lower team opponent (met schedule.now team (before + 2)) }
    ensures after { result.after ≡
        same_lower team opponent (met schedule.now team after) +
        same_lower team opponent (met schedule.now team (after + 2)) }
    ensures before_limit { result.before ≤ 2 }
    ensures after_limit { result.after ≤ 2 }
{
    if team <= opponent {
        return CountDelta {
            before: 0,
            after: 0,
        };
    }
    CountDelta {
        before: times_beside(schedule, team, opponent, before),
        after: times_beside(schedule, team, opponent, after),
    }
}

/// How often a team meets an opponent in the rounds beside this one.
fn times_beside(schedule: &Schedule, team: u8, opponent: u8, round: u8) -> u64
    requires team { team < schedule.now.teams }
    requires round { round < round_count schedule.now.teams }
    ensures value { result ≡
        (if opponent == met schedule.now team round then 1 else 0) +
        (if opponent == met schedule.now team (round + 2) then 1 else 0) }
    ensures limit { result ≤ 2 }
{
    u64::from(opponent == met(schedule, team, round))
        + u64::from(opponent == met(schedule, team, round + 2))
}

/// 1 if the first opponent of a team is lower and the second is the same.
fn same_lower(team: u8, first: u8, second: u8) -> u64
    ensures value { result ≡ same_lower team first second }
    ensures limit { result ≤ 1 }
{
    u64::from(first < team && first == second)
}

/// Whom a team meets in the round before the index: itself before the first round and after the last.
fn met(schedule: &Schedule, team: u8, index: u8) -> u8
    requires team { team < schedule.now.teams }
    requires index { index ≤ round_count schedule.now.teams + 1 }
    ensures value { result ≡ met schedule.now team index }
    ensures season { round_count schedule.now.teams ≤ max_rounds }
{
    let rounds = schedule.rounds();
    if index == 0 || rounds < index {
        team
    } else {
        schedule.game_at(team, index - 1).opponent
    }
}

/// The repeats that change if teams `i` and `j` are exchanged in the games of the rounds of the set. In none of them the
/// two meet, and if one of them meets a team in a round of the set, so does the other.
pub(crate) fn repeats_of_teams(schedule: &Schedule, i: u8, j: u8, among: SlotSet) -> CountDelta
    requires i { i < schedule.now.teams }
    requires j { j < schedule.now.teams }
    requires distinct { i ≢ j }
    requires first_out { has among (round_of schedule.now i j) ≡ false }
    requires second_out { has among (round_of schedule.now j i) ≡ false }
    requires closed { IsClosed (shares_opponent schedule.now i j) (has among) }
    ensures balance { repeats (teams_exchanged schedule.now i j (has among)) + result.before ≡
        repeats schedule.now + result.after }
    ensures before_limit { result.before ≤ 2 * max_rounds }
    ensures after_limit { result.after ≤ 2 * max_rounds }
{
    prove!(4 <= schedule.teams());
    let rounds = schedule.rounds();
    let like_next = among.like_next_below(rounds);
    let edges = SlotSet::below(rounds - 1).difference(like_next);
    repeats_at_edges(schedule, i, j, edges)
}

/// The repeats after these rounds, at the edges of the set: it has one of their two rounds.
fn repeats_at_edges(schedule: &Schedule, i: u8, j: u8, edges: SlotSet) -> CountDelta
    requires i { i < schedule.now.teams }
    requires j { j < schedule.now.teams }
    requires season { round_count schedule.now.teams ≤ max_rounds }
    requires below { IsBelow (round_count schedule.now.teams - 1) edges }
    ensures { AreSums (round_count schedule.now.teams - 1) edges 2 result.before result.after
        (λ r. meets_next schedule.now j j r + meets_next schedule.now i i r)
        (λ r. meets_next schedule.now j i r + meets_next schedule.now i j r) }
{
    let mut before = 0;
    let mut after = 0;
    for round in edges {
        let repeats = repeats_at_edge(schedule, i, j, round);
        before += repeats.before;
        after += repeats.after;
    }
    CountDelta { before, after }
}

/// The repeats in a round and the next one, if `i` and `j` are exchanged in one of the two.
fn repeats_at_edge(schedule: &Schedule, i: u8, j: u8, round: u8) -> CountDelta
    requires i { i < schedule.now.teams }
    requires j { j < schedule.now.teams }
    requires season { round_count schedule.now.teams ≤ max_rounds }
    requires next { round + 1 < round_count schedule.now.teams }
    ensures before { result.before ≡ meets_next schedule.now j j round + meets_next schedule.now i i round }
    ensures after { result.after ≡ meets_next schedule.now j i round + meets_next schedule.now i j round }
    ensures before_limit { result.before ≤ 2 }
    ensures after_limit { result.after ≤ 2 }
{
    let of_i = schedule.game_at(i, round).opponent;
    let of_j = schedule.game_at(j, round).opponent;
    let next_i = schedule.game_at(i, round + 1).opponent;
    let next_j = schedule.game_at(j, round + 1).opponent;
    CountDelta {
        before: u64::from(of_j == next_j) + u64::from(of_i == next_i),
        after: u64::from(of_j == next_i) + u64::from(of_i == next_j),
    }
}
