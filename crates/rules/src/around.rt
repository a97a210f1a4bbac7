//! The teams of which a change around some teams can alter the games that count.

ghost use Rattle.std.specs.Prelude.{◌≡◌, ℕ, ◌<◌, ◌≤◌, ◌&&◌, ◌||◌, ◌==◌};
ghost use Rattle.league.specs.Limits.{max_teams};
ghost use Rattle.league.specs.Sets.{has, IsBelow};
ghost use Rattle.fixtures.specs.Games.{round_count, round_of, cell, IsPair, IsDoubleRoundRobin};
ghost use Rattle.rules.specs.Parts.{is_guest, meet_in, counts_otherwise};

use crate::looked_past::takes_all_or_none;
use fixtures::Schedule;
use league::{SlotSet, TeamSet};

/// Of up to so many teams the own games are looked at, which takes fewer instructions there.
const FEW_TEAMS: u32 = 4;

/// A change around some teams: in the rounds the main teams get other games, and only side teams may change their sides.
#[derive(Clone, Copy, Drop)]
pub(crate) struct Around {
    pub main: TeamSet,
    pub rounds: SlotSet,
    pub sides: TeamSet,
}

/// The teams, of these, of which other games may count, against the opponents.
pub(crate) fn teams_otherwise(
    schedule: &Schedule,
    change: &Around,
    teams: TeamSet,
    opponents: TeamSet,
) -> TeamSet
    requires { IsBelow schedule.now.teams teams }
    ensures members { (t : ℕ) → has result t ≡ (has teams t &&
        counts_otherwise schedule.now change.now.main change.now.rounds change.now.sides opponents t) }
    ensures below { IsBelow schedule.now.teams result }
{
    if opponents == TeamSet::below(schedule.teams()) {
        teams.intersection(change.sides)
    } else if takes_all_or_none(change.main, opponents) {
        teams.intersection(change.main)
    } else {
        teams_around(schedule, change.main, change.rounds, teams)
    }
}

/// The teams, of these, that are main teams or guests.
fn teams_around(schedule: &Schedule, main: TeamSet, rounds: SlotSet, teams: TeamSet) -> TeamSet
    requires round_robin { IsDoubleRoundRobin schedule.now }
    requires teams { IsBelow schedule.now.teams teams }
    ensures members { (t : ℕ) → has result t ≡
        (has teams t && (has main t || is_guest schedule.now (has main) (has rounds) t)) }
    ensures below { IsBelow schedule.now.teams result }
{
    if teams.len() <= FEW_TEAMS {
        around_own(schedule, main, rounds, teams)
    } else {
        around_main(schedule, main, rounds, teams)
    }
}

/// They are found by their own games.
fn around_own(schedule: &Schedule, main: TeamSet, rounds: SlotSet, teams: TeamSet) -> TeamSet
    requires round_robin { IsDoubleRoundRobin schedule.now }
    requires teams { IsBelow schedule.now.teams teams }
    ensures members { (t : ℕ) → has result t ≡
        (has teams t && (has main t || is_guest schedule.now (has main) (has rounds) t)) }
    ensures below { IsBelow schedule.now.teams result }
{
    let others = teams.difference(main);
    let mut around = teams.intersection(main);
    for team in others {
        let guest = is_guest(schedule, main, rounds, team);
        around = with_if(around, team, guest);
    }
    around
}

/// Whether the team meets a main team in one of the rounds.
fn is_guest(schedule: &Schedule, main: TeamSet, rounds: SlotSet, team: u8) -> bool
    requires team { team < schedule.now.teams }
    requires round_robin { IsDoubleRoundRobin schedule.now }
    ensures { result ≡ is_guest schedule.now (has main) (has rounds) team }
{
    let in_season = SlotSet::below(schedule.rounds()).intersection(rounds);
    for round in in_season {
        if meets_one_of(schedule, main, team, round) {
            return true;
        }
    }
    false
}

/// The set with the team added, if it belongs there.
fn with_if(teams: TeamSet, team: u8, belongs: bool) -> TeamSet
    requires { team < max_teams }
    ensures members { (t : ℕ) → has result t ≡ ((t == team && belongs) || has teams t) }
    ensures below { (m : ℕ) → IsBelow m teams → team < m → IsBelow m result }
{
    if belongs { teams.with(team) } else { teams }
}

/// They are found by the games of the main teams.
fn around_main(schedule: &Schedule, main: TeamSet, rounds: SlotSet, teams: TeamSet) -> TeamSet
    requires round_robin { IsDoubleRoundRobin schedule.now }
    requires teams { IsBelow schedule.now.teams teams }
    ensures members { (t : ℕ) → has result t ≡
        (has teams t && (has main t || is_guest schedule.now (has main) (has rounds) t)) }
    ensures below { IsBelow schedule.now.teams result }
{
    let playing = TeamSet::below(schedule.teams()).intersection(main);
    let mut around = main;
    for team in playing {
        if teams.intersection(around) == teams {
            return teams;
        }
        around = around.union(opponents_in(schedule, rounds, team));
    }
    teams.intersection(around)
}

/// The teams that the team meets in one of the rounds. It looks at the rounds or at the others, whichever are fewer: each other team is met
/// twice in the season.
#[inline]
pub(crate) fn opponents_in(schedule: &Schedule, rounds: SlotSet, team: u8) -> TeamSet
    requires team { team < schedule.now.teams }
    requires round_robin { IsDoubleRoundRobin schedule.now }
    ensures members { (t : ℕ) → IsPair schedule.now.teams t team →
        has result t ≡ meet_in schedule.now (has rounds) t team }
    ensures below { IsBelow schedule.now.teams result }
{
    let season = SlotSet::below(schedule.rounds());
    let inside = season.intersection(rounds);
    let outside = season.difference(rounds);
    if inside.len() <= outside.len() {
        return met_in(schedule, inside, team);
    }
    TeamSet::below(schedule.teams()).difference(met_twice_in(schedule, outside, team))
}

/// The teams that the team meets in one of the rounds, by its games in them.
fn met_in(schedule: &Schedule, rounds: SlotSet, team: u8) -> TeamSet
    requires team { team < schedule.now.teams }
    requires round_robin { IsDoubleRoundRobin schedule.now }
    requires rounds { IsBelow (round_count schedule.now.teams) rounds }
    ensures members { (t : ℕ) → IsPair schedule.now.teams t team →
        has result t ≡ meet_in schedule.now (has rounds) t team }
    ensures below { IsBelow schedule.now.teams result }
{
    let mut met = TeamSet::empty();
    for round in rounds {
        met = met.with(schedule.game_at(team, round).opponent);
    }
    met
}

/// The teams of which both games with the team are in the rounds.
fn met_twice_in(schedule: &Schedule, rounds: SlotSet, team: u8) -> TeamSet
    requires team { team < schedule.now.teams }
    requires round_robin { IsDoubleRoundRobin schedule.now }
    requires rounds { IsBelow (round_count schedule.now.teams) rounds }
    ensures { (t : ℕ) → IsPair schedule.now.teams t team →
        has result t ≡ (has rounds (round_of schedule.now t team) && has rounds (round_of schedule.now team t)) }
{
    let mut once = TeamSet::empty();
    let mut twice = TeamSet::empty();
    for round in rounds {
        let opponent = schedule.game_at(team, round).opponent;
        if once.has(opponent) {
            twice = twice.with(opponent);
        } else {
            once = once.with(opponent);
        }
    }
    twice
}

/// Whether the team meets one of the teams in the round.
pub(crate) fn meets_one_of(schedule: &Schedule, teams: TeamSet, team: u8, round: u8) -> bool
    requires team { team < schedule.now.teams }
    requires most { schedule.now.teams ≤ max_teams }
    requires round { round < round_count schedule.now.teams }
    ensures { result ≡ has teams (cell schedule.now team round).opponent }
{
    teams.has(schedule.game_at(team, round).opponent)
}
