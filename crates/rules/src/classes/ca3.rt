//! CA3: for each team at most so many games of a side, against some opponents, in so many consecutive rounds.

ghost use Rattle.std.specs.Prelude.{◌≡◌, ◌+◌, ◌-◌, ◌*◌, ◌<◌, ◌≤◌, true, IfSome};
ghost use Rattle.league.specs.Limits.{max_rounds};
ghost use Rattle.league.specs.Sets.{has, IsBelow};
ghost use Rattle.league.specs.Sums.{sum_where};
ghost use Rattle.league.specs.declared.rule.RuleBody.TheVariants as RuleBody;
ghost use Rattle.fixtures.specs.Games.{round_count, IsDoubleRoundRobin};
ghost use Rattle.rules.specs.Deviations.{deviation};
ghost use Rattle.rules.specs.Parts.{changing_terms};
ghost use Rattle.rules.specs.within.Walked.{over_from_starts};

use crate::around::Around;
use crate::counted_games::{CountedGames, counted_rounds, games_otherwise};
use crate::counted_rows::{ROUNDS, make_rows_near};
use crate::team_windows::over_in_rows;
use crate::windows::over_in_windows_of;
use fixtures::Schedule;
use league::{SlotSet, TeamSet};

/// The games of each team that count in each window of consecutive rounds, over the most.
#[tactic(auto, unfolding(crate::specs::Deviations::deviation))]
pub(crate) fn ca3(schedule: &Schedule, games: &CountedGames, window: u32, most: u32) -> u64
    requires round_robin { IsDoubleRoundRobin schedule.now }
    requires teams { IsBelow schedule.now.teams games.now.teams }
    requires least { 1 ≤ window }
    requires window { window ≤ round_count schedule.now.teams }
    ensures { result ≡
        deviation schedule.now (RuleBody.Ca3 games.now.teams games.now.side games.now.opponents window most) }
{
    let length = window as u8;
    let windows = schedule.rounds() + 1 - length;
    over_by_teams(schedule, games, SlotSet::below(windows), length, most)
}

/// The part of `ca3` that the change can alter: all of it, if it is known, each window has one of the rounds and each of the teams may have
/// other games.
pub(crate) fn ca3_part(
    schedule: &Schedule,
    games: &CountedGames,
    change: &Around,
    window: u32,
    most: u32,
    known: Option<u64>,
) -> u64
    requires round_robin { IsDoubleRoundRobin schedule.now }
    requires teams { IsBelow schedule.now.teams games.now.teams }
    requires least { 1 ≤ window }
    requires window { window ≤ round_count schedule.now.teams }
    requires known { IfSome known (λ whole. whole ≡
        deviation schedule.now (RuleBody.Ca3 games.now.teams games.now.side games.now.opponents window most)) }
    ensures { result ≡ changing_terms schedule.now change.now.main change.now.rounds change.now.sides
        (RuleBody.Ca3 games.now.teams games.now.side games.now.opponents window most) }
{
    let length = window as u8;
    let windows = SlotSet::below(schedule.rounds() + 1 - length);
    let starts = windows.intersection(change.rounds.starts_meeting(length));
    let otherwise = games_otherwise(schedule, games, change);
    if let Some(whole) = known {
        if starts == windows && otherwise.teams == games.teams {
            return whole;
        }
    }
    if goes_by_rounds(schedule, &otherwise, change.rounds, starts, window, most) {
        let mut rows = [TeamSet::empty(); ROUNDS];
        make_rows_near(&mut rows, schedule, &otherwise, change.rounds, length);
        over_in_rows(&rows, otherwise.teams, starts, length, most)
    } else {
        over_by_teams(schedule, &otherwise, starts, length, most)
    }
}

/// Whether finding in each round the teams that count takes less than for each team the rounds that count: about as many times seven
/// instructions as stand here. With all teams as opponents it doesn't, since the sides tell enough.
fn goes_by_rounds(
    schedule: &Schedule,
    games: &CountedGames,
    changed: SlotSet,
    starts: SlotSet,
    window: u32,
    most: u32,
) -> bool
    requires least { 1 ≤ window }
    requires season { window ≤ max_rounds }
    ensures longer { result ≡ true → most < window }
    ensures told { result ≡ true → window ≤ most + 2 }
{
    let told = most < window && window - most <= 2;
    let some = games.opponents != TeamSet::below(schedule.teams());
    let near = (changed.len() * (2 * window - 1)).min(schedule.rounds().into());
    let by_rounds = near * games.teams.len().min(games.opponents.len()) + 5 * starts.len() + 20;
    let by_teams = games.teams.len() * (7 * games.opponents.len() + 16);
    told && some && by_rounds < by_teams
}

/// The games of each team that count in each window that begins with one of the starts, over the most.
fn over_by_teams(
    schedule: &Schedule,
    games: &CountedGames,
    starts: SlotSet,
    window: u8,
    most: u32,
) -> u64
    requires round_robin { IsDoubleRoundRobin schedule.now }
    requires teams { IsBelow schedule.now.teams games.now.teams }
    requires least { 1 ≤ window }
    requires window { window ≤ round_count schedule.now.teams }
    requires starts { IsBelow (round_count schedule.now.teams + 1 - window) starts }
    ensures { result ≡ sum_where schedule.now.teams (has games.now.teams)
        (over_from_starts schedule.now games.now.side games.now.opponents window most starts) }
{
    let mut total = 0;
    for team in games.teams {
        total += over_from_starts(schedule, games, starts, window, most, team);
    }
    total
}

/// The games of the team that count in each window that begins with one of the starts, over the most.
fn over_from_starts(
    schedule: &Schedule,
    games: &CountedGames,
    starts: SlotSet,
    window: u8,
    most: u32,
    team: u8,
) -> u64
    requires team { team < schedule.now.teams }
    requires least { 1 ≤ window }
    requires window { window ≤ round_count schedule.now.teams }
    requires starts { IsBelow (round_count schedule.now.teams + 1 - window) starts }
    ensures value { result ≡ over_from_starts schedule.now games.now.side games.now.opponents window most starts team }
    ensures most { result ≤ max_rounds * max_rounds }
{
    let season = SlotSet::below(schedule.rounds());
    let counted = counted_rounds(schedule, games, season, team);
    over_in_windows_of(counted, schedule.rounds(), starts, window, most)
}
