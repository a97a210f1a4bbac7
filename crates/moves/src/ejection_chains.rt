//! The ejection chains of a partial move: the teams that exchange two rounds, and the rounds in which two teams are
//! exchanged. Each comes back to its start, and is walked once along.

ghost use Rattle.std.specs.Prelude.{◌≡◌, ◌≢◌, ℕ, ◌<◌, ◌≤◌, Ok};
ghost use Rattle.league.specs.Sets.{has};
ghost use Rattle.fixtures.specs.Games.{round_of, round_count, cell, cell_round, IsDoubleRoundRobin};
ghost use Rattle.fixtures.specs.Closed.{IsLeastClosed, plays_in, shares_opponent, member, moved_teams_of, moved_rounds_of};
ghost use Rattle.moves.specs.Moves.{fault_of};
ghost use Rattle.moves.specs.declared.moves.Move.TheVariants.{PartTeams};

use fixtures::Schedule;
use league::{SlotSet, TeamSet};

/// The teams that exchange rounds `k` and `l` with `i`: the least set that has `i`, and with a team its opponents in
/// rounds `k` and `l`. Takes no memory.
pub fn moved_teams(schedule: &Schedule, i: u8, k: u8, l: u8) -> TeamSet
    requires i { i < schedule.now.teams }
    requires k { k < round_count schedule.now.teams }
    requires l { l < round_count schedule.now.teams }
    ensures least { IsLeastClosed (plays_in schedule.now k l) i (has result) }
    ensures members { (t : ℕ) → has result t ≡ member (moved_teams_of schedule.now i k l) t }
{
    let mut found = TeamSet::empty();
    let mut team = i;
    loop {
        let middle = schedule.game_at(team, k).opponent;
        found = found.with(team).with(middle);
        team = schedule.game_at(middle, l).opponent;
        if team == i {
            return found;
        }
    }
}

/// The rounds in which `i` and `j` are exchanged with round `k`: the least set that has `k` and in whose rounds `i` and
/// `j` have the same opponents, at home and away. Takes no memory.
pub fn moved_rounds(schedule: &Schedule, i: u8, j: u8, k: u8) -> SlotSet
    requires checked { fault_of schedule.now (PartTeams i j k) ≡ Ok tt }
    ensures least { IsLeastClosed (shares_opponent schedule.now i j) k (has result) }
    ensures members { (r : ℕ) → has result r ≡ member (moved_rounds_of schedule.now i j k) r }
{
    let mut found = SlotSet::empty();
    let mut round = k;
    loop {
        let next = round_of_same_opponent(schedule, i, j, round);
        found = found.with(round);
        if next == k {
            return found;
        }
        round = next;
    }
}

/// The round in which `j` has the opponent that `i` has in `round`, at home or away as `i` is.
fn round_of_same_opponent(schedule: &Schedule, i: u8, j: u8, round: u8) -> u8
    requires i { i < schedule.now.teams }
    requires j { j < schedule.now.teams }
    requires round { round < round_count schedule.now.teams }
    requires first { round_of schedule.now i j ≢ round }
    requires second { round_of schedule.now j i ≢ round }
    ensures value { result ≡ cell_round (round_of schedule.now) j (cell schedule.now i round) }
    ensures round_robin { IsDoubleRoundRobin schedule.now }
{
    let cell = schedule.game_at(i, round);
    if cell.home {
        schedule.round_of(j, cell.opponent)
    } else {
        schedule.round_of(cell.opponent, j)
    }
}
