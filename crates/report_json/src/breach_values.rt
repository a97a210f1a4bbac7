//! The breaches of a rule: where, by how much, and the games that they name.

ghost use Rattle.std.specs.Prelude.{◌≡◌, ◌++◌, ◌<◌, map, IfOk, OnOk};
ghost use Rattle.fixtures.specs.Games.{round_count};
ghost use Rattle.league.specs.RuleLimits.{IsBodyFor};
ghost use Rattle.serde_json.specs.View.{view};
ghost use Rattle.report_breaches.specs.BreachText.{side_word};
ghost use Rattle.report_json.specs.within.Parts.{seen};
ghost use Rattle.report_json.specs.Rules.{breach_data, breaches_data, games_named, named_at, named_data, named_in, place_data, team_place};

use crate::meeting_values::both_value;
use crate::parts::push_value;
use fixtures::Schedule;
use league::{Rule, RuleBody};
use report_breaches::{Breach, Place, breaches_of, names_cell};
use serde_json::{Value, json};
use std::alloc::{AllocError, Global};

pub(crate) fn breaches_value(
    alloc: Global,
    schedule: &Schedule,
    rule: &Rule,
) -> Result<Value, AllocError>
    requires { IsBodyFor schedule.now.teams rule.now.body }
    ensures { IfOk result (λ value. view value ≡ breaches_data schedule.now rule.now.body) }
{
    let breaches = breaches_of(alloc, schedule, rule)?;
    let mut values = Vec::new(alloc);
    push_breaches(alloc, &mut values, schedule, &rule.body, &breaches)?;
    Ok(Value::from(values))
}

fn push_breaches(
    alloc: Global,
    values: &mut Vec<Value>,
    schedule: &Schedule,
    body: &RuleBody,
    breaches: &[Breach],
) -> Result<(), AllocError>
    requires { IsBodyFor schedule.now.teams body.now }
    ensures { OnOk result (seen values.new.items ≡ seen values.old.items ++ map (breach_data schedule.now body.now) breaches.now) }
{
    let mut rest = breaches;
    while let [breach, later @ ..] = rest {
        push_value(values, breach_value(alloc, schedule, body, *breach)?)?;
        rest = later;
    }
    Ok(())
}

fn breach_value(
    alloc: Global,
    schedule: &Schedule,
    body: &RuleBody,
    breach: Breach,
) -> Result<Value, AllocError>
    requires { IsBodyFor schedule.now.teams body.now }
    ensures { IfOk result (λ value. view value ≡ breach_data schedule.now body.now breach) }
{
    let games = games_value(alloc, schedule, body, breach.place)?;
    let place = place_value(alloc, breach.place)?;
    json!(in alloc; {
        "by": breach.by as u64,
        "games": games,
        "place": place,
        "side": side_word(breach.place),
    })
}

/// Whether there is too much or too little.
fn side_word(place: Place) -> &'static str
    ensures { result.now ≡ side_word place }
{
    match place {
        Place::GamesUnder | Place::Pair { .. } => "under",
        _ => "over",
    }
}

fn place_value(alloc: Global, place: Place) -> Result<Value, AllocError>
    ensures { IfOk result (λ value. view value ≡ place_data place) }
{
    match place {
        Place::GamesOf { team } | Place::BreaksOf { team } => team_value(alloc, team),
        Place::Window { team, first, last } => {
            let rounds = both_value(alloc, first, last)?;
            json!(in alloc; {"rounds": rounds, "team": team as u64 + 1})
        }
        Place::Round { round } => json!(in alloc; {"round": round as u64 + 1}),
        Place::Together | Place::GamesOver | Place::GamesUnder => json!(in alloc; {}),
        Place::Pair { low, high } => {
            let teams = both_value(alloc, low, high)?;
            json!(in alloc; {"teams": teams})
        }
        Place::PairIn { low, high, round } => {
            let teams = both_value(alloc, low, high)?;
            json!(in alloc; {"round": round as u64 + 1, "teams": teams})
        }
    }
}

fn team_value(alloc: Global, team: u8) -> Result<Value, AllocError>
    ensures { IfOk result (λ value. view value ≡ team_place team) }
{
    json!(in alloc; {"team": team as u64 + 1})
}

/// The games that the breach at the place names.
fn games_value(
    alloc: Global,
    schedule: &Schedule,
    body: &RuleBody,
    place: Place,
) -> Result<Value, AllocError>
    requires { IsBodyFor schedule.now.teams body.now }
    ensures { IfOk result (λ value. view value ≡ games_named schedule.now body.now place) }
{
    let mut games = Vec::new(alloc);
    for round in 0..schedule.rounds() {
        push_named_in(alloc, &mut games, schedule, body, (place, round))?;
    }
    Ok(Value::from(games))
}

fn push_named_in(
    alloc: Global,
    games: &mut Vec<Value>,
    schedule: &Schedule,
    body: &RuleBody,
    at: (Place, u8),
) -> Result<(), AllocError>
    requires body { IsBodyFor schedule.now.teams body.now }
    requires round { at.1 < round_count schedule.now.teams }
    ensures { OnOk result (seen games.new.items ≡ seen games.old.items ++ named_in schedule.now body.now at.0 at.1) }
{
    let (place, round) = at;
    for team in 0..schedule.teams() {
        push_named_at(alloc, games, schedule, body, (place, round, team))?;
    }
    Ok(())
}

/// Adds the game that the team has at home in the round, if it is named.
fn push_named_at(
    alloc: Global,
    games: &mut Vec<Value>,
    schedule: &Schedule,
    body: &RuleBody,
    at: (Place, u8, u8),
) -> Result<(), AllocError>
    requires body { IsBodyFor schedule.now.teams body.now }
    requires round { at.1 < round_count schedule.now.teams }
    requires team { at.2 < schedule.now.teams }
    ensures { OnOk result (seen games.new.items ≡ seen games.old.items ++ named_at schedule.now body.now at.0 at.1 at.2) }
{
    let (place, round, team) = at;
    let game = schedule.game_at(team, round);
    let is_named = game.home
        && (names_cell(schedule, body, place, team, round)
            || names_cell(schedule, body, place, game.opponent, round));
    if !is_named {
        return Ok(());
    }
    push_value(games, named_value(alloc, team, game.opponent, round)?)?;
    Ok(())
}

fn named_value(alloc: Global, home: u8, away: u8, round: u8) -> Result<Value, AllocError>
    ensures { IfOk result (λ value. view value ≡ named_data home away round) }
{
    json!(in alloc; {"away": away as u64 + 1, "home": home as u64 + 1, "round": round as u64 + 1})
}
