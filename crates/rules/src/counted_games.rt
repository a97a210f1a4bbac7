//! Which games count for a rule.

ghost use Rattle.std.specs.Prelude.{◌≡◌, ℕ, ◌<◌, ◌≤◌, ◌&&◌, ◌==◌, nat_lt};
ghost use Rattle.league.specs.Limits.{max_teams, max_rounds};
ghost use Rattle.league.specs.RuleLimits.{IsBodyFor};
ghost use Rattle.league.specs.Sets.{has, IsBelow};
ghost use Rattle.league.specs.Sums.{count_where};
ghost use Rattle.fixtures.specs.Games.{round_count, cell, is_home, IsDoubleRoundRobin};
ghost use Rattle.rules.specs.Deviations.{over, is_on_side, is_counted, games_of_team, games_in_round};
ghost use Rattle.rules.specs.Parts.{counts_otherwise};
ghost use Rattle.rules.specs.within.Walked.{season_games, counted_of};

use crate::around::{Around, meets_one_of, teams_otherwise};
use fixtures::Schedule;
use league::{Rule, RuleBody, Side, SlotSet, TeamSet};

/// The games that count for a rule: those of these teams, on this side, against these opponents.
#[derive(Clone, Copy, Drop)]
pub(crate) struct CountedGames {
    pub teams: TeamSet,
    pub side: Side,
    pub opponents: TeamSet,
}

impl CountedGames {
    pub(crate) fn new(teams: TeamSet, side: Side, opponents: TeamSet) -> Self
        ensures { result ≡ record { teams = teams; side = side; opponents = opponents } }
    {
        CountedGames {
            teams,
            side,
            opponents,
        }
    }

    /// The games that a capacity rule counts, and none for another rule.
    pub(crate) fn of(schedule: &Schedule, rule: &Rule) -> Self
        requires { IsBodyFor schedule.now.teams rule.now.body }
        ensures value { result ≡ counted_of schedule.now.teams rule.now.body }
        ensures below { IsBelow schedule.now.teams result.teams }
        ensures round_robin { IsDoubleRoundRobin schedule.now }
    {
        let all_teams = TeamSet::below(schedule.teams());
        match &rule.body {
            RuleBody::Ca1 { teams, side, .. } => CountedGames::new(*teams, *side, all_teams),
            RuleBody::Ca2 {
                teams1,
                side,
                teams2,
                ..
            }
            | RuleBody::Ca3 {
                teams1,
                side,
                teams2,
                ..
            }
            | RuleBody::Ca4 {
                teams1,
                side,
                teams2,
                ..
            } => CountedGames::new(*teams1, *side, *teams2),
            _ => CountedGames::new(TeamSet::empty(), Side::Any, all_teams),
        }
    }
}

/// Of the games that count those of teams of which other games may count.
pub(crate) fn games_otherwise(
    schedule: &Schedule,
    games: &CountedGames,
    change: &Around,
) -> CountedGames
    requires { IsBelow schedule.now.teams games.now.teams }
    ensures members { (t : ℕ) → has result.teams t ≡ (has games.now.teams t &&
        counts_otherwise schedule.now change.now.main change.now.rounds change.now.sides games.now.opponents t) }
    ensures side { result.side ≡ games.now.side }
    ensures opponents { result.opponents ≡ games.now.opponents }
    ensures below { IsBelow schedule.now.teams result.teams }
{
    let teams = teams_otherwise(schedule, change, games.teams, games.opponents);
    CountedGames::new(teams, games.side, games.opponents)
}

/// By how much a count is over the most.
pub(crate) fn over(count: u32, most: u32) -> u64
    ensures value { result ≡ over count most }
    ensures most { result ≤ count }
{
    count.saturating_sub(most).into()
}

/// The rounds in which the team is on this side.
#[inline]
pub(crate) fn rounds_on_side(schedule: &Schedule, side: Side, team: u8) -> SlotSet
    requires { team < schedule.now.teams }
    ensures members { (r : ℕ) → has result r ≡
        (nat_lt r (round_count schedule.now.teams) && is_on_side side (is_home schedule.now team r)) }
    ensures below { IsBelow (round_count schedule.now.teams) result }
{
    let home = schedule.home_rounds(team);
    let all = SlotSet::below(schedule.rounds());
    match side {
        Side::Home => home,
        Side::Away => all.difference(home),
        Side::Any => all,
    }
}

/// The rounds of the slots in which a team's game counts, if the team does.
#[inline]
pub(crate) fn counted_rounds(
    schedule: &Schedule,
    games: &CountedGames,
    slots: SlotSet,
    team: u8,
) -> SlotSet
    requires { team < schedule.now.teams }
    ensures members { (r : ℕ) → has result r ≡
        (nat_lt r (round_count schedule.now.teams) && (has slots r &&
        is_counted schedule.now games.now.side (has games.now.opponents) team r)) }
    ensures below { IsBelow (round_count schedule.now.teams) result }
{
    let all = TeamSet::below(schedule.teams());
    if games.opponents == all {
        return rounds_on_side(schedule, games.side, team).intersection(slots);
    }
    let opponents = all.intersection(games.opponents);
    rounds_against(schedule, games.side, opponents, team).intersection(slots)
}

/// The rounds in which the team meets one of the opponents on this side.
fn rounds_against(schedule: &Schedule, side: Side, opponents: TeamSet, team: u8) -> SlotSet
    requires team { team < schedule.now.teams }
    requires opponents { IsBelow schedule.now.teams opponents }
    requires round_robin { IsDoubleRoundRobin schedule.now }
    ensures members { (r : ℕ) → has result r ≡
        (nat_lt r (round_count schedule.now.teams) && is_counted schedule.now side (has opponents) team r) }
    ensures below { IsBelow (round_count schedule.now.teams) result }
{
    let mut against = SlotSet::empty();
    for opponent in opponents {
        against = against.union(rounds_with(schedule, side, opponent, team));
    }
    against
}

/// The rounds in which the team meets the opponent on this side: none if that is the team itself.
fn rounds_with(schedule: &Schedule, side: Side, opponent: u8, team: u8) -> SlotSet
    requires team { team < schedule.now.teams }
    requires opponent { opponent < schedule.now.teams }
    requires round_robin { IsDoubleRoundRobin schedule.now }
    ensures members { (r : ℕ) → has result r ≡ (nat_lt r (round_count schedule.now.teams) &&
        (is_on_side side (is_home schedule.now team r) && (cell schedule.now team r).opponent == opponent)) }
    ensures below { IsBelow (round_count schedule.now.teams) result }
{
    if team == opponent {
        return SlotSet::empty();
    }
    let at_home = SlotSet::empty().with(schedule.round_of(team, opponent));
    let away = SlotSet::empty().with(schedule.round_of(opponent, team));
    match side {
        Side::Home => at_home,
        Side::Away => away,
        Side::Any => at_home.union(away),
    }
}

/// How many teams there are in the set.
pub(crate) fn number_of(schedule: &Schedule, teams: TeamSet) -> u32
    ensures { result ≡ count_where schedule.now.teams (has teams) }
{
    TeamSet::below(schedule.teams()).intersection(teams).len()
}

/// In how many rounds of the slots the team's game counts, if there are so many opponents. It looks at the slots or at the
/// other rounds, whichever are fewer: how many games count in the whole season is known.
pub(crate) fn games_of_team(
    schedule: &Schedule,
    games: &CountedGames,
    opponents: u32,
    slots: SlotSet,
    team: u8,
) -> u32
    requires team { team < schedule.now.teams }
    requires opponents { opponents ≡ count_where schedule.now.teams (has games.now.opponents) }
    ensures value { result ≡ games_of_team schedule.now games.now.side (has games.now.opponents) (has slots) team }
    ensures most { result ≤ max_rounds }
{
    if games.opponents == TeamSet::below(schedule.teams()) {
        return games_on_side(schedule, games, slots, team);
    }
    let on_side = rounds_on_side(schedule, games.side, team);
    let within = on_side.intersection(slots);
    let outside = on_side.difference(slots);
    if within.len() <= outside.len() {
        return games_with(schedule, games.opponents, within, team);
    }
    let season = games_of_season(games.side, opponents, games.opponents.has(team));
    season - games_with(schedule, games.opponents, outside, team)
}

/// In how many rounds of the slots the team's game counts, if all teams are opponents.
#[inline]
pub(crate) fn games_on_side(
    schedule: &Schedule,
    games: &CountedGames,
    slots: SlotSet,
    team: u8,
) -> u32
    requires round_robin { IsDoubleRoundRobin schedule.now }
    requires team { team < schedule.now.teams }
    requires opponents { (t : ℕ) → has games.now.opponents t ≡ nat_lt t schedule.now.teams }
    ensures value { result ≡ games_of_team schedule.now games.now.side (has games.now.opponents) (has slots) team }
    ensures most { result ≤ max_rounds }
{
    rounds_on_side(schedule, games.side, team)
        .intersection(slots)
        .len()
}

/// In how many of the rounds the team meets one of the opponents.
fn games_with(schedule: &Schedule, opponents: TeamSet, rounds: SlotSet, team: u8) -> u32
    requires team { team < schedule.now.teams }
    requires most { schedule.now.teams ≤ max_teams }
    requires rounds { IsBelow (round_count schedule.now.teams) rounds }
    ensures value { result ≡ count_where (round_count schedule.now.teams)
        (λ r. has rounds r && has opponents (cell schedule.now team r).opponent) }
    ensures most { result ≤ max_rounds }
{
    let mut count = 0;
    for round in rounds {
        count += u32::from(meets_one_of(schedule, opponents, team, round));
    }
    count
}

/// How many games of a team count in a season on this side against so many opponents, if the team itself may be one.
fn games_of_season(side: Side, opponents: u32, own: bool) -> u32
    requires { opponents ≤ max_teams }
    ensures { result ≡ season_games side opponents own }
{
    let others = opponents.saturating_sub(own.into());
    match side {
        Side::Home => others,
        Side::Away => others,
        Side::Any => 2 * others,
    }
}

/// For how many of the teams the game in the round counts.
#[tactic(auto, unfolding(crate::specs::Deviations::games_in_round))]
pub(crate) fn games_in_round(schedule: &Schedule, games: &CountedGames, round: u8) -> u32
    requires teams { IsBelow schedule.now.teams games.now.teams }
    requires round { round < round_count schedule.now.teams }
    requires round_robin { IsDoubleRoundRobin schedule.now }
    ensures value { result ≡
        games_in_round schedule.now games.now.side (has games.now.teams) (has games.now.opponents) round }
    ensures most { result ≤ max_teams }
{
    let mut count = 0;
    for team in games.teams {
        count += u32::from(is_counted(schedule, games, team, round));
    }
    count
}

/// Whether the team's game in the round counts.
#[tactic(auto, unfolding(crate::specs::Deviations::is_counted))]
fn is_counted(schedule: &Schedule, games: &CountedGames, team: u8, round: u8) -> bool
    requires most { schedule.now.teams ≤ max_teams }
    requires team { team < schedule.now.teams }
    requires round { round < round_count schedule.now.teams }
    ensures { result ≡ is_counted schedule.now games.now.side (has games.now.opponents) team round }
{
    let cell = schedule.game_at(team, round);
    is_on_side(games.side, cell.home) && games.opponents.has(cell.opponent)
}

/// Whether a game counts on this side, for a team that is at home in it or not.
pub(crate) fn is_on_side(side: Side, home: bool) -> bool
    ensures { result ≡ is_on_side side home }
{
    match side {
        Side::Home => home,
        Side::Away => !home,
        Side::Any => true,
    }
}
