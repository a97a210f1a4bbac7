//! The teams of which games count, a row for each round.

ghost use Rattle.std.specs.Prelude.{◌≡◌, ℕ, ◌+◌, ◌<◌, ◌≤◌, ◌&&◌, ◌||◌, ◌==◌, true, not, length, slice_index};
ghost use Rattle.league.specs.Limits.{max_rounds};
ghost use Rattle.league.specs.Sets.{has, IsBelow};
ghost use Rattle.fixtures.specs.Games.{round_count, cell, IsDoubleRoundRobin};
ghost use Rattle.rules.specs.Deviations.{is_on_side, is_counted};
ghost use Rattle.rules.specs.within.Walked.{IsRow};

use crate::counted_games::{CountedGames, is_on_side};
use fixtures::Schedule;
use league::limits::MAX_ROUNDS;
use league::{Side, SlotSet, TeamSet};

pub(crate) const ROUNDS: usize = MAX_ROUNDS as usize;

/// How many rows are made at once, which takes half as long as one after another.
const AT_ONCE: u8 = 4;

/// The rows of a round and of the next three.
type Four = (TeamSet, TeamSet, TeamSet, TeamSet);

/// Makes the row of each round less than a window away from one of these rounds, which has those of the teams whose games count in it. Rows
/// of other rounds may lack some.
pub(crate) fn make_rows_near(
    rows: &mut [TeamSet; ROUNDS],
    schedule: &Schedule,
    games: &CountedGames,
    rounds: SlotSet,
    window: u8,
)
    requires round_robin { IsDoubleRoundRobin schedule.now }
    requires teams { IsBelow schedule.now.teams games.now.teams }
    requires least { 1 ≤ window }
    requires window { window ≤ round_count schedule.now.teams }
    requires len { length rows.old ≡ max_rounds }
    ensures len { length rows.new ≡ max_rounds }
    ensures members { (r c : ℕ) → r < round_count schedule.now.teams → c < round_count schedule.now.teams → has rounds c ≡ true →
        r < c + window → c < r + window →
        IsRow schedule.now games.now.side games.now.opponents games.now.teams r (slice_index rows.new r) }
{
    let season = schedule.rounds();
    let in_season = SlotSet::below(season).intersection(rounds);
    if in_season.len() * (2 * u32::from(window) - 1) >= season.into() {
        add_rounds(rows, schedule, games, 0, season);
        return;
    }
    // of the rounds before this one those near the rounds to come are made
    let mut made = 0;
    for round in in_season {
        let from = (round + 1).saturating_sub(window).max(made);
        let past = (round + window).min(season);
        made = add_rounds(rows, schedule, games, from, past);
    }
}

/// Makes the rows of the rounds from one up to another, and maybe of some before and after these. Gives a round up to which all are made.
fn add_rounds(
    rows: &mut [TeamSet; ROUNDS],
    schedule: &Schedule,
    games: &CountedGames,
    from: u8,
    past: u8,
) -> u8
    requires round_robin { IsDoubleRoundRobin schedule.now }
    requires teams { IsBelow schedule.now.teams games.now.teams }
    requires past { past ≤ round_count schedule.now.teams }
    requires len { length rows.old ≡ max_rounds }
    ensures past { past ≤ result }
    ensures len { length rows.new ≡ max_rounds }
    ensures kept { (r : ℕ) → IsRow schedule.now games.now.side games.now.opponents games.now.teams r (slice_index rows.old r) →
        IsRow schedule.now games.now.side games.now.opponents games.now.teams r (slice_index rows.new r) }
    ensures added { (r : ℕ) → from ≤ r → r < result → r < round_count schedule.now.teams →
        IsRow schedule.now games.now.side games.now.opponents games.now.teams r (slice_index rows.new r) }
{
    match games.side {
        Side::Home => add_on_side(rows, schedule, games, Side::Home, from, past),
        Side::Away => add_on_side(rows, schedule, games, Side::Away, from, past),
        Side::Any => add_on_side(rows, schedule, games, Side::Any, from, past),
    }
}

/// The same on a side, which is no test in the loops where it is told: by the games of the teams if they are less than half as many as the
/// opponents, and else by those of the opponents, which take fewer instructions each.
#[inline(always)]
fn add_on_side(
    rows: &mut [TeamSet; ROUNDS],
    schedule: &Schedule,
    games: &CountedGames,
    side: Side,
    from: u8,
    past: u8,
) -> u8
    requires round_robin { IsDoubleRoundRobin schedule.now }
    requires teams { IsBelow schedule.now.teams games.now.teams }
    requires past { past ≤ round_count schedule.now.teams }
    requires len { length rows.old ≡ max_rounds }
    ensures past { past ≤ result }
    ensures len { length rows.new ≡ max_rounds }
    ensures kept { (r : ℕ) → IsRow schedule.now side games.now.opponents games.now.teams r (slice_index rows.old r) →
        IsRow schedule.now side games.now.opponents games.now.teams r (slice_index rows.new r) }
    ensures added { (r : ℕ) → from ≤ r → r < result → r < round_count schedule.now.teams →
        IsRow schedule.now side games.now.opponents games.now.teams r (slice_index rows.new r) }
{
    let last = schedule.rounds() - AT_ONCE;
    let opponents = TeamSet::below(schedule.teams()).intersection(games.opponents);
    let by_own = 2 * games.teams.len() < opponents.len();
    let blocks = past.saturating_sub(from).div_ceil(AT_ONCE);
    for block in 0..blocks {
        let round = (from + AT_ONCE * block).min(last);
        let (first, second, third, fourth) = if by_own {
            own_rows(schedule, games.teams, side, opponents, round)
        } else {
            guest_rows(schedule, side, opponents, round)
        };
        let place = usize::from(round);
        rows[place] = first;
        rows[place + 1] = second;
        rows[place + 2] = third;
        rows[place + 3] = fourth;
    }
    from + AT_ONCE * blocks
}

/// Four rows of the teams, found by their games.
#[inline(always)]
fn own_rows(schedule: &Schedule, teams: TeamSet, side: Side, opponents: TeamSet, round: u8) -> Four
    requires round_robin { IsDoubleRoundRobin schedule.now }
    requires teams { IsBelow schedule.now.teams teams }
    requires rounds { round + 4 ≤ round_count schedule.now.teams }
    ensures first { IsRow schedule.now side opponents teams round result.0 }
    ensures second { IsRow schedule.now side opponents teams (round + 1) result.1 }
    ensures third { IsRow schedule.now side opponents teams (round + 2) result.2 }
    ensures fourth { IsRow schedule.now side opponents teams (round + 3) result.3 }
{
    let mut first = TeamSet::empty();
    let mut second = TeamSet::empty();
    let mut third = TeamSet::empty();
    let mut fourth = TeamSet::empty();
    for team in teams {
        first = with_own(first, schedule, side, opponents, team, round);
        second = with_own(second, schedule, side, opponents, team, round + 1);
        third = with_own(third, schedule, side, opponents, team, round + 2);
        fourth = with_own(fourth, schedule, side, opponents, team, round + 3);
    }
    (first, second, third, fourth)
}

/// The row with the team, if its game in the round counts.
#[inline(always)]
#[tactic(auto, unfolding(crate::specs::Deviations::is_counted))]
fn with_own(
    row: TeamSet,
    schedule: &Schedule,
    side: Side,
    opponents: TeamSet,
    team: u8,
    round: u8,
) -> TeamSet
    requires round_robin { IsDoubleRoundRobin schedule.now }
    requires team { team < schedule.now.teams }
    requires round { round < round_count schedule.now.teams }
    ensures { (t : ℕ) → has result t ≡ (has row t || (t == team && is_counted schedule.now side (has opponents) team round)) }
{
    let game = schedule.game_at(team, round);
    let counts = is_on_side(side, game.home) && opponents.has(game.opponent);
    if counts { row.with(team) } else { row }
}

/// Four rows of all teams, found by the games of the opponents.
#[inline(always)]
fn guest_rows(schedule: &Schedule, side: Side, opponents: TeamSet, round: u8) -> Four
    requires round_robin { IsDoubleRoundRobin schedule.now }
    requires opponents { IsBelow schedule.now.teams opponents }
    requires rounds { round + 4 ≤ round_count schedule.now.teams }
    ensures first { (teams : ℕ) → IsBelow schedule.now.teams teams → IsRow schedule.now side opponents teams round result.0 }
    ensures second { (teams : ℕ) → IsBelow schedule.now.teams teams → IsRow schedule.now side opponents teams (round + 1) result.1 }
    ensures third { (teams : ℕ) → IsBelow schedule.now.teams teams → IsRow schedule.now side opponents teams (round + 2) result.2 }
    ensures fourth { (teams : ℕ) → IsBelow schedule.now.teams teams → IsRow schedule.now side opponents teams (round + 3) result.3 }
{
    let mut first = TeamSet::empty();
    let mut second = TeamSet::empty();
    let mut third = TeamSet::empty();
    let mut fourth = TeamSet::empty();
    for opponent in opponents {
        first = with_guest(first, schedule, side, opponent, round);
        second = with_guest(second, schedule, side, opponent, round + 1);
        third = with_guest(third, schedule, side, opponent, round + 2);
        fourth = with_guest(fourth, schedule, side, opponent, round + 3);
    }
    (first, second, third, fourth)
}

/// The row with the team that meets the opponent in the round, if its game is on this side.
#[inline(always)]
fn with_guest(row: TeamSet, schedule: &Schedule, side: Side, opponent: u8, round: u8) -> TeamSet
    requires round_robin { IsDoubleRoundRobin schedule.now }
    requires opponent { opponent < schedule.now.teams }
    requires round { round < round_count schedule.now.teams }
    ensures { (t : ℕ) → has result t ≡ (has row t ||
        (is_on_side side (not (cell schedule.now opponent round).home) && t == (cell schedule.now opponent round).opponent)) }
{
    let game = schedule.game_at(opponent, round);
    if is_on_side(side, !game.home) {
        row.with(game.opponent)
    } else {
        row
    }
}
