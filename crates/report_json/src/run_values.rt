//! The stretches of each team at home or away that are longer than the league allows.

ghost use Rattle.std.specs.Prelude.{◌≡◌, ◌+◌, ◌++◌, ◌<◌, ◌≤◌, IfOk, OnOk};
ghost use Rattle.fixtures.specs.Games.{round_count};
ghost use Rattle.league.specs.Limits.{max_rounds};
ghost use Rattle.serde_json.specs.View.{view};
ghost use Rattle.report_json.specs.within.Parts.{seen};
ghost use Rattle.report_json.specs.Sides.{run_at, run_data, runs_data, runs_of, side_name};

use crate::parts::push_value;
use fixtures::Schedule;
use report_text::{Stretch, windows_ended};
use serde_json::{Value, json};
use std::alloc::{AllocError, Global};

pub(crate) fn runs_value(
    alloc: Global,
    schedule: &Schedule,
    at_most: u8,
) -> Result<Value, AllocError>
    requires least { 1 ≤ at_most }
    requires most { at_most ≤ max_rounds }
    ensures { IfOk result (λ value. view value ≡ runs_data schedule.now at_most) }
{
    let mut runs = Vec::new(alloc);
    for team in 0..schedule.teams() {
        push_runs_of(alloc, &mut runs, schedule, at_most, team)?;
    }
    Ok(Value::from(runs))
}

/// A stretch is added at the round with which no window of it begins any more.
fn push_runs_of(
    alloc: Global,
    runs: &mut Vec<Value>,
    schedule: &Schedule,
    at_most: u8,
    team: u8,
) -> Result<(), AllocError>
    requires least { 1 ≤ at_most }
    requires most { at_most ≤ max_rounds }
    requires team { team < schedule.now.teams }
    ensures { OnOk result (seen runs.new.items ≡ seen runs.old.items ++ runs_of schedule.now at_most team) }
{
    for round in 0..schedule.rounds() {
        let windows = windows_ended(schedule, at_most, team, round);
        let stretch = Stretch {
            team,
            round,
            windows,
        };
        push_run(alloc, runs, schedule, at_most, stretch)?;
    }
    Ok(())
}

/// Adds the stretch, unless it has no window.
fn push_run(
    alloc: Global,
    runs: &mut Vec<Value>,
    schedule: &Schedule,
    at_most: u8,
    stretch: Stretch,
) -> Result<(), AllocError>
    requires team { stretch.team < schedule.now.teams }
    requires round { stretch.round < round_count schedule.now.teams }
    requires windows { stretch.windows ≤ stretch.round }
    ensures { OnOk result (seen runs.new.items ≡ seen runs.old.items
        ++ run_at schedule.now at_most stretch.team stretch.round stretch.windows) }
{
    if stretch.windows == 0 {
        return Ok(());
    }
    let last = schedule.game_at(stretch.team, stretch.round - 1);
    push_value(runs, run_value(alloc, at_most, last.home, stretch)?)?;
    Ok(())
}

fn run_value(alloc: Global, at_most: u8, home: bool, stretch: Stretch) -> Result<Value, AllocError>
    requires { stretch.windows ≤ stretch.round }
    ensures { IfOk result (λ value. view value ≡ run_data at_most home stretch.team stretch.round stretch.windows) }
{
    let first = (stretch.round - stretch.windows) as u64 + 1;
    let last = stretch.round as u64 + at_most as u64;
    json!(in alloc; {
        "first": first,
        "last": last,
        "side": side_name(home),
        "team": stretch.team as u64 + 1,
        "windows": stretch.windows as u64,
    })
}

fn side_name(home: bool) -> &'static str
    ensures { result.now ≡ side_name home }
{
    if home { "home" } else { "away" }
}
