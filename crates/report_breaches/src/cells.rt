//! Which games a breach names.

ghost use Rattle.std.specs.Prelude.{◌≡◌, ◌<◌, ◌&&◌, ◌||◌, ◌==◌};
ghost use Rattle.std.specs.List.{AllByRecursion};
ghost use Rattle.league.specs.Games.{IsGameFor};
ghost use Rattle.league.specs.RuleLimits.{IsBodyFor};
ghost use Rattle.league.specs.Limits.{max_teams};
ghost use Rattle.league.specs.Sets.{has};
ghost use Rattle.fixtures.specs.Games.{round_count, round_of, cell, IsPair};
ghost use Rattle.rules.specs.Deviations.{is_on_side, is_break};
ghost use Rattle.report_breaches.specs.Cells.{are_these, is_at, is_listed, lacks_games, names_cell};

use crate::breach::Place;
use fixtures::{Cell, Schedule};
use league::{GameList, Pairing, RuleBody, Side, TeamSet};

/// Whether a breach of the rule at the place names the team's game in the round.
#[tactic(auto, unfolding(crate::specs::Cells::names_cell, rules::specs::Deviations::is_counted))]
pub fn names_cell(schedule: &Schedule, body: &RuleBody, place: Place, team: u8, round: u8) -> bool
    requires body { IsBodyFor schedule.now.teams body.now }
    requires team { team < schedule.now.teams }
    requires round { round < round_count schedule.now.teams }
    ensures { result ≡ names_cell schedule.now body.now place team round }
{
    let game = schedule.game_at(team, round);
    let is_there = is_at(place, team, game.opponent, round);
    match body {
        RuleBody::Ca1 { side, slots, .. } => {
            is_there && slots.has(round) && is_on_side(*side, game.home)
        }
        RuleBody::Ca2 {
            side,
            teams2,
            slots,
            ..
        } => is_there && slots.has(round) && is_counted(game, *side, *teams2),
        RuleBody::Ca3 { side, teams2, .. } => is_there && is_counted(game, *side, *teams2),
        RuleBody::Ca4 {
            teams1,
            side,
            teams2,
            slots,
            ..
        } => {
            let counts = teams1.has(team) && is_counted(game, *side, *teams2);
            is_there && slots.has(round) && counts
        }
        RuleBody::Ga1 { games, slots, .. } => {
            let wanted = lacks_games(place) || slots.has(round);
            is_listed(schedule, games, team, round) && wanted
        }
        RuleBody::Br1 { side, slots, .. } => {
            is_there && slots.has(round) && is_break(schedule, *side, team, round)
        }
        RuleBody::Br2 { teams, slots, .. } => {
            teams.has(team) && slots.has(round) && is_break(schedule, Side::Any, team, round)
        }
        RuleBody::Se1 { .. } => is_there,
        RuleBody::Fa2 { .. } => false,
    }
}

/// Whether games lack in the slots at the place.
fn lacks_games(place: Place) -> bool
    ensures { result ≡ lacks_games place }
{
    matches!(place, Place::GamesUnder)
}

/// Whether a team's game in a round, against this opponent, is at the place.
fn is_at(place: Place, team: u8, opponent: u8, round: u8) -> bool
    ensures { result ≡ is_at place team opponent round }
{
    match place {
        Place::GamesOf { team: of } | Place::BreaksOf { team: of } => team == of,
        Place::Window {
            team: of,
            first,
            last,
        } => team == of && first <= round && round <= last,
        Place::Round { round: in_round } => round == in_round,
        Place::Together | Place::GamesOver | Place::GamesUnder => true,
        Place::Pair { low, high } => are_these(low, high, team, opponent),
        Place::PairIn { .. } => false,
    }
}

/// Whether two teams are these, in either order.
fn are_these(low: u8, high: u8, team: u8, other: u8) -> bool
    ensures { result ≡ are_these low high team other }
{
    (team == low && other == high) || (team == high && other == low)
}

/// Whether a game counts on this side, for a team that is at home in it or not.
fn is_on_side(side: Side, home: bool) -> bool
    ensures { result ≡ is_on_side side home }
{
    match side {
        Side::Home => home,
        Side::Away => !home,
        Side::Any => true,
    }
}

/// Whether a team's game is on this side and against one of the opponents.
fn is_counted(game: Cell, side: Side, opponents: TeamSet) -> bool
    requires { game.opponent < max_teams }
    ensures { result ≡ (is_on_side side game.home && has opponents game.opponent) }
{
    is_on_side(side, game.home) && opponents.has(game.opponent)
}

/// Whether the team is on the same side as in the round before, and that side counts.
#[tactic(auto, unfolding(rules::specs::Deviations::is_break))]
fn is_break(schedule: &Schedule, side: Side, team: u8, round: u8) -> bool
    requires team { team < schedule.now.teams }
    requires round { round < round_count schedule.now.teams }
    ensures { result ≡ is_break schedule.now side team round }
{
    if round == 0 {
        return false;
    }
    let before = schedule.game_at(team, round - 1).home;
    let home = schedule.game_at(team, round).home;
    before == home && is_on_side(side, home)
}

/// Whether the team's game in the round is on the list.
#[tactic(auto, using(rules::proofs::ForCallers::IsPair_game))]
fn is_listed(schedule: &Schedule, games: &GameList, team: u8, round: u8) -> bool
    requires games { AllByRecursion (IsGameFor schedule.now.teams) games.now }
    requires team { team < schedule.now.teams }
    requires round { round < round_count schedule.now.teams }
    ensures { result ≡ is_listed schedule.now games.now team round }
{
    for i in 0..games.len() {
        if is_game(schedule, games.at(i), team, round) {
            return true;
        }
    }
    false
}

/// Whether the game is the team's game in the round.
fn is_game(schedule: &Schedule, game: Pairing, team: u8, round: u8) -> bool
    requires game { IsPair schedule.now.teams game.home game.away }
    requires team { team < schedule.now.teams }
    requires round { round < round_count schedule.now.teams }
    ensures { result ≡ (are_these game.home game.away team (cell schedule.now team round).opponent &&
        round_of schedule.now game.home game.away == round) }
{
    let opponent = schedule.game_at(team, round).opponent;
    are_these(game.home, game.away, team, opponent)
        && schedule.round_of(game.home, game.away) == round
}
