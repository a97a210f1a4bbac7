//! The teams' names and tours.

ghost use Rattle.std.specs.Prelude.{◌≡◌, ◌<◌, IfOk};
ghost use Rattle.fixtures.specs.Games.{round_count};
ghost use Rattle.league.specs.League.{teams};
ghost use Rattle.serde_json.specs.View.{view};
ghost use Rattle.report_json.specs.Rounds.{names_data, place_of, places_data, tour_data, tours_data};

use crate::parts::push_value;
use fixtures::Schedule;
use league::League;
use serde_json::{Value, json};
use std::alloc::{AllocError, Global};
use tours::travel_of;

pub(crate) fn names_value(alloc: Global, league: &League) -> Result<Value, AllocError>
    ensures { IfOk result (λ value. view value ≡ names_data league.now (teams league.now)) }
{
    let mut names = Vec::new(alloc);
    for team in 0..league.teams() {
        push_value(&mut names, Value::try_from_str(alloc, league.name(team))?)?;
    }
    Ok(Value::from(names))
}

pub(crate) fn tours_value(
    alloc: Global,
    league: &League,
    schedule: &Schedule,
) -> Result<Value, AllocError>
    requires { schedule.now.teams ≡ teams league.now }
    ensures { IfOk result (λ value. view value ≡ tours_data league.now schedule.now) }
{
    let mut tours = Vec::new(alloc);
    for team in 0..schedule.teams() {
        push_value(&mut tours, tour_value(alloc, league, schedule, team)?)?;
    }
    Ok(Value::from(tours))
}

fn tour_value(
    alloc: Global,
    league: &League,
    schedule: &Schedule,
    team: u8,
) -> Result<Value, AllocError>
    requires same { schedule.now.teams ≡ teams league.now }
    requires team { team < schedule.now.teams }
    ensures { IfOk result (λ value. view value ≡ tour_data league.now schedule.now team) }
{
    let places = places_value(alloc, schedule, team)?;
    let travel = travel_of(schedule, league, team);
    json!(in alloc; {"places": places, "team": team as u64 + 1, "travel": travel})
}

/// Where the team is in each round.
fn places_value(alloc: Global, schedule: &Schedule, team: u8) -> Result<Value, AllocError>
    requires { team < schedule.now.teams }
    ensures { IfOk result (λ value. view value ≡ places_data schedule.now team) }
{
    let mut places = Vec::new(alloc);
    for round in 0..schedule.rounds() {
        let place = place_of(schedule, team, round);
        push_value(&mut places, Value::from(place as u64 + 1))?;
    }
    Ok(Value::from(places))
}

/// Whose home the team is at in the round.
fn place_of(schedule: &Schedule, team: u8, round: u8) -> u8
    requires team { team < schedule.now.teams }
    requires round { round < round_count schedule.now.teams }
    ensures { result ≡ place_of schedule.now team round }
{
    let game = schedule.game_at(team, round);
    if game.home { team } else { game.opponent }
}
