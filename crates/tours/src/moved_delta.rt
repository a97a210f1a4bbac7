//! The change by an exchange of the games that have another round than at the start, predicted on the schedule before it.

ghost use Rattle.std.specs.Prelude.{◌≡◌, ◌≢◌, ◌+◌, ◌*◌, ◌<◌, ◌≤◌, false};
ghost use Rattle.league.specs.League.{teams};
ghost use Rattle.league.specs.Limits.{max_teams, max_rounds};
ghost use Rattle.league.specs.Sets.{has};
ghost use Rattle.league.specs.Starts.{start_round};
ghost use Rattle.fixtures.specs.Games.{cell, round_count, round_of, IsPair};
ghost use Rattle.fixtures.specs.Edits.{rounds_exchanged, teams_exchanged};
ghost use Rattle.fixtures.specs.Closed.{IsClosed, plays_in, shares_opponent};
ghost use Rattle.tours.specs.Moved.{moved_games};
ghost use Rattle.tours.specs.within.Moved.{cell_moved, home_moved};

use crate::clip::{rounds_in, teams_in};
use crate::delta::MovedDelta;
use fixtures::{Cell, Schedule};
use league::{League, SlotSet, TeamSet};

/// How many of the games that change their rounds have another than at the start of the league, if rounds `k` and `l` are
/// exchanged for the teams of the set, which has the opponents of its teams in the two rounds.
pub(crate) fn moved_of_rounds(
    schedule: &Schedule,
    league: &League,
    k: u8,
    l: u8,
    among: TeamSet,
) -> MovedDelta
    requires same { teams league.now ≡ schedule.now.teams }
    requires k { k < round_count schedule.now.teams }
    requires l { l < round_count schedule.now.teams }
    requires distinct { k ≢ l }
    requires closed { IsClosed (plays_in schedule.now k l) (has among) }
    ensures balance { moved_games league.now (rounds_exchanged schedule.now k l (has among)) + result.before ≡
        moved_games league.now schedule.now + result.after }
    ensures before_limit { result.before ≤ 2 * max_teams }
    ensures after_limit { result.after ≤ 2 * max_teams }
{
    let teams = teams_in(schedule, among);
    let mut before = 0;
    let mut after = 0;
    for team in teams {
        let moved = moved_of_team(schedule, league, k, l, team);
        before += moved.before;
        after += moved.after;
    }
    MovedDelta { before, after }
}

/// The moved games that a team plays at home in the two rounds.
fn moved_of_team(schedule: &Schedule, league: &League, k: u8, l: u8, team: u8) -> MovedDelta
    requires same { teams league.now ≡ schedule.now.teams }
    requires k { k < round_count schedule.now.teams }
    requires l { l < round_count schedule.now.teams }
    requires team { team < schedule.now.teams }
    ensures before { result.before ≡
        home_moved (start_round league.now) team (cell schedule.now team l) l +
        home_moved (start_round league.now) team (cell schedule.now team k) k }
    ensures after { result.after ≡
        home_moved (start_round league.now) team (cell schedule.now team l) k +
        home_moved (start_round league.now) team (cell schedule.now team k) l }
    ensures before_limit { result.before ≤ 2 }
    ensures after_limit { result.after ≤ 2 }
{
    let in_k = moved_at_home(league, team, schedule.game_at(team, k), k, l);
    let in_l = moved_at_home(league, team, schedule.game_at(team, l), l, k);
    MovedDelta {
        before: in_l.before + in_k.before,
        after: in_l.after + in_k.after,
    }
}

/// Whether the start has a home game of a team in another round than before, and than after. A game away isn't counted.
fn moved_at_home(league: &League, team: u8, game: Cell, before: u8, after: u8) -> MovedDelta
    requires { IsPair (teams league.now) team game.opponent }
    ensures before { result.before ≡ home_moved (start_round league.now) team game before }
    ensures after { result.after ≡ home_moved (start_round league.now) team game after }
    ensures before_limit { result.before ≤ 1 }
    ensures after_limit { result.after ≤ 1 }
{
    if !game.home {
        return MovedDelta {
            before: 0,
            after: 0,
        };
    }
    let start = league.start_round(team, game.opponent);
    MovedDelta {
        before: u64::from(before != start),
        after: u64::from(after != start),
    }
}

/// How many of the games that change their rounds have another than at the start of the league, if teams `i` and `j` are
/// exchanged in the games of the rounds of the set. In none of them the two meet, and if one of them meets a team in a
/// round of the set, so does the other.
pub(crate) fn moved_of_teams(
    schedule: &Schedule,
    league: &League,
    i: u8,
    j: u8,
    among: SlotSet,
) -> MovedDelta
    requires same { teams league.now ≡ schedule.now.teams }
    requires i { i < schedule.now.teams }
    requires j { j < schedule.now.teams }
    requires distinct { i ≢ j }
    requires first_out { has among (round_of schedule.now i j) ≡ false }
    requires second_out { has among (round_of schedule.now j i) ≡ false }
    requires closed { IsClosed (shares_opponent schedule.now i j) (has among) }
    ensures balance { moved_games league.now (teams_exchanged schedule.now i j (has among)) + result.before ≡
        moved_games league.now schedule.now + result.after }
    ensures before_limit { result.before ≤ 2 * max_rounds }
    ensures after_limit { result.after ≤ 2 * max_rounds }
{
    prove!(4 <= schedule.teams());
    let rounds = rounds_in(schedule, among);
    let mut before = 0;
    let mut after = 0;
    for round in rounds {
        let moved = moved_of_two(schedule, league, i, j, round);
        before += moved.before;
        after += moved.after;
    }
    MovedDelta { before, after }
}

/// The moved games that the two play in a round, in which they don't meet.
fn moved_of_two(schedule: &Schedule, league: &League, i: u8, j: u8, round: u8) -> MovedDelta
    requires same { teams league.now ≡ schedule.now.teams }
    requires i { i < schedule.now.teams }
    requires j { j < schedule.now.teams }
    requires round { round < round_count schedule.now.teams }
    requires first_apart { (cell schedule.now i round).opponent ≢ j }
    requires second_apart { (cell schedule.now j round).opponent ≢ i }
    ensures before { result.before ≡
        cell_moved (start_round league.now) j (cell schedule.now j round) round +
        cell_moved (start_round league.now) i (cell schedule.now i round) round }
    ensures after { result.after ≡
        cell_moved (start_round league.now) j (cell schedule.now i round) round +
        cell_moved (start_round league.now) i (cell schedule.now j round) round }
    ensures before_limit { result.before ≤ 2 }
    ensures after_limit { result.after ≤ 2 }
{
    let of_i = schedule.game_at(i, round);
    let of_j = schedule.game_at(j, round);
    MovedDelta {
        before: moved_in(league, j, of_j, round) + moved_in(league, i, of_i, round),
        after: moved_in(league, j, of_i, round) + moved_in(league, i, of_j, round),
    }
}

/// 1 if the start has the game of a team with this opponent, at home or away, in another round than this, and else 0.
fn moved_in(league: &League, team: u8, game: Cell, round: u8) -> u64
    requires home { IsPair (teams league.now) team game.opponent }
    requires away { IsPair (teams league.now) game.opponent team }
    ensures value { result ≡ cell_moved (start_round league.now) team game round }
    ensures limit { result ≤ 1 }
{
    let start = if game.home {
        league.start_round(team, game.opponent)
    } else {
        league.start_round(game.opponent, team)
    };
    u64::from(round != start)
}
