//! The pairs that meet in consecutive rounds, and those with both games in one half.

ghost use Rattle.std.specs.Prelude.{◌≡◌, ◌+◌, ◌-◌, ◌++◌, ◌<◌, IfOk, OnOk};
ghost use Rattle.fixtures.specs.Games.{round_count};
ghost use Rattle.serde_json.specs.View.{view};
ghost use Rattle.report_json.specs.Parts.{both, meetings, parts_below};
ghost use Rattle.report_json.specs.within.Parts.{seen};
ghost use Rattle.report_json.specs.Sides.{half_at, halves_data, halves_of, repeat_at, repeats_after, repeats_data};

use crate::parts::push_value;
use fixtures::Schedule;
use league::League;
use serde_json::{Value, json};
use std::alloc::{AllocError, Global};
use tours::is_unphased;

/// The pairs that meet in consecutive rounds, unless that is free.
pub(crate) fn repeats_value(
    alloc: Global,
    league: &League,
    schedule: &Schedule,
) -> Result<Value, AllocError>
    ensures { IfOk result (λ value. view value ≡ repeats_data league.now schedule.now) }
{
    let mut repeats = Vec::new(alloc);
    if !league.free_repeats() {
        push_repeats(alloc, &mut repeats, schedule)?;
    }
    Ok(Value::from(repeats))
}

fn push_repeats(
    alloc: Global,
    repeats: &mut Vec<Value>,
    schedule: &Schedule,
) -> Result<(), AllocError>
    ensures { OnOk result (seen repeats.new.items ≡ seen repeats.old.items
        ++ parts_below (repeats_after schedule.now) (round_count schedule.now.teams - 1)) }
{
    for round in 0..schedule.rounds() - 1 {
        push_repeats_after(alloc, repeats, schedule, round)?;
    }
    Ok(())
}

fn push_repeats_after(
    alloc: Global,
    repeats: &mut Vec<Value>,
    schedule: &Schedule,
    round: u8,
) -> Result<(), AllocError>
    requires { round + 1 < round_count schedule.now.teams }
    ensures { OnOk result (seen repeats.new.items ≡ seen repeats.old.items ++ repeats_after schedule.now round) }
{
    for team in 0..schedule.teams() {
        push_repeat(alloc, repeats, schedule, round, team)?;
    }
    Ok(())
}

/// Adds the pair if the team meets the same lower team in the round and in the next.
fn push_repeat(
    alloc: Global,
    repeats: &mut Vec<Value>,
    schedule: &Schedule,
    round: u8,
    team: u8,
) -> Result<(), AllocError>
    requires team { team < schedule.now.teams }
    requires next { round + 1 < round_count schedule.now.teams }
    ensures { OnOk result (seen repeats.new.items ≡ seen repeats.old.items ++ repeat_at schedule.now round team) }
{
    let opponent = schedule.game_at(team, round).opponent;
    let next = schedule.game_at(team, round + 1).opponent;
    if opponent >= team || opponent != next {
        return Ok(());
    }
    push_value(
        repeats,
        meetings_value(alloc, (opponent, team), (round, round + 1))?,
    )?;
    Ok(())
}

fn meetings_value(alloc: Global, pair: (u8, u8), rounds: (u8, u8)) -> Result<Value, AllocError>
    ensures { IfOk result (λ value. view value ≡ meetings pair.0 pair.1 rounds.0 rounds.1) }
{
    let played = both_value(alloc, rounds.0, rounds.1)?;
    let teams = both_value(alloc, pair.0, pair.1)?;
    json!(in alloc; {"rounds": played, "teams": teams})
}

/// Two teams, or two rounds.
pub(crate) fn both_value(alloc: Global, first: u8, second: u8) -> Result<Value, AllocError>
    ensures { IfOk result (λ value. view value ≡ both first second) }
{
    json!(in alloc; [first as u64 + 1, second as u64 + 1])
}

/// The pairs of a phased league.
pub(crate) fn halves_value(
    alloc: Global,
    league: &League,
    schedule: &Schedule,
) -> Result<Value, AllocError>
    ensures { IfOk result (λ value. view value ≡ halves_data league.now schedule.now) }
{
    let mut halves = Vec::new(alloc);
    if league.phased() {
        push_halves(alloc, &mut halves, schedule)?;
    }
    Ok(Value::from(halves))
}

fn push_halves(
    alloc: Global,
    halves: &mut Vec<Value>,
    schedule: &Schedule,
) -> Result<(), AllocError>
    ensures { OnOk result (seen halves.new.items ≡ seen halves.old.items
        ++ parts_below (halves_of schedule.now) schedule.now.teams) }
{
    for high in 0..schedule.teams() {
        push_halves_of(alloc, halves, schedule, high)?;
    }
    Ok(())
}

fn push_halves_of(
    alloc: Global,
    halves: &mut Vec<Value>,
    schedule: &Schedule,
    high: u8,
) -> Result<(), AllocError>
    requires { high < schedule.now.teams }
    ensures { OnOk result (seen halves.new.items ≡ seen halves.old.items ++ halves_of schedule.now high) }
{
    for low in 0..high {
        push_half(alloc, halves, schedule, high, low)?;
    }
    Ok(())
}

/// Adds the pair if it plays both its games in one half of the season.
fn push_half(
    alloc: Global,
    halves: &mut Vec<Value>,
    schedule: &Schedule,
    high: u8,
    low: u8,
) -> Result<(), AllocError>
    requires high { high < schedule.now.teams }
    requires low { low < high }
    ensures { OnOk result (seen halves.new.items ≡ seen halves.old.items ++ half_at schedule.now high low) }
{
    if !is_unphased(schedule, low, high) {
        return Ok(());
    }
    let rounds = (schedule.round_of(low, high), schedule.round_of(high, low));
    push_value(halves, meetings_value(alloc, (low, high), rounds)?)?;
    Ok(())
}
