//! The games by round.

ghost use Rattle.std.specs.Prelude.{◌≡◌, ◌++◌, ◌<◌, IfOk, OnOk};
ghost use Rattle.fixtures.specs.Games.{round_count, IsPair};
ghost use Rattle.league.specs.League.{teams};
ghost use Rattle.serde_json.specs.View.{view};
ghost use Rattle.report_json.specs.within.Parts.{seen};
ghost use Rattle.report_json.specs.Rounds.{game_at, game_data, round_data, rounds_data};

use crate::parts::push_value;
use fixtures::Schedule;
use league::League;
use serde_json::{Value, json};
use std::alloc::{AllocError, Global};

pub(crate) fn rounds_value(
    alloc: Global,
    league: &League,
    schedule: &Schedule,
) -> Result<Value, AllocError>
    requires { schedule.now.teams ≡ teams league.now }
    ensures { IfOk result (λ value. view value ≡ rounds_data league.now schedule.now) }
{
    let mut rounds = Vec::new(alloc);
    for round in 0..schedule.rounds() {
        push_value(&mut rounds, round_value(alloc, league, schedule, round)?)?;
    }
    Ok(Value::from(rounds))
}

fn round_value(
    alloc: Global,
    league: &League,
    schedule: &Schedule,
    round: u8,
) -> Result<Value, AllocError>
    requires same { schedule.now.teams ≡ teams league.now }
    requires round { round < round_count schedule.now.teams }
    ensures { IfOk result (λ value. view value ≡ round_data league.now schedule.now round) }
{
    let mut games = Vec::new(alloc);
    for team in 0..schedule.teams() {
        push_game_at(alloc, &mut games, league, schedule, (team, round))?;
    }
    Ok(Value::from(games))
}

/// Adds the team's game in the round, if the team is at home there.
fn push_game_at(
    alloc: Global,
    games: &mut Vec<Value>,
    league: &League,
    schedule: &Schedule,
    at: (u8, u8),
) -> Result<(), AllocError>
    requires same { schedule.now.teams ≡ teams league.now }
    requires team { at.0 < schedule.now.teams }
    requires round { at.1 < round_count schedule.now.teams }
    ensures { OnOk result (seen games.new.items ≡ seen games.old.items ++ game_at league.now schedule.now at.1 at.0) }
{
    let (team, round) = at;
    let game = schedule.game_at(team, round);
    if !game.home {
        return Ok(());
    }
    push_value(games, game_value(alloc, league, team, game.opponent)?)?;
    Ok(())
}

fn game_value(alloc: Global, league: &League, home: u8, away: u8) -> Result<Value, AllocError>
    requires { IsPair (teams league.now) home away }
    ensures { IfOk result (λ value. view value ≡ game_data league.now home away) }
{
    let start = league.start_round(home, away);
    json!(in alloc; {
        "away": away as u64 + 1,
        "away_name": league.name(away),
        "home": home as u64 + 1,
        "home_name": league.name(home),
        "start": start as u64 + 1,
    })
}
