//! The whole report.

ghost use Rattle.std.specs.Prelude.{◌≡◌, ◌<◌, ◌^◌, IfOk, OnOk};
ghost use Rattle.costs.specs.Costs.{cost_of, total_of};
ghost use Rattle.league.specs.League.{teams};
ghost use Rattle.serde_json.specs.View.{members_view, view};
ghost use Rattle.report_json.specs.JsonReport.{cost_data, json_text, league_data, report_data, total_data};
ghost use Rattle.report_json.specs.within.JsonReport.{with_parts, with_season};

use crate::game_values::rounds_value;
use crate::label_values::{round_texts_value, short_names_value, title_value};
use crate::meeting_values::{halves_value, repeats_value};
use crate::rule_values::rules_value;
use crate::run_values::runs_value;
use crate::team_values::{names_value, tours_value};
use costs::{Cost, cost_of};
use fixtures::Schedule;
use league::League;
use serde_json::{Map, Value, json, put};
use std::alloc::{AllocError, Global};
use tours::moved_games;

/// The report as a line of JSON.
#[tactic(auto, using(crate::proofs::NoFloats::report_free), unfolding(crate::specs::JsonReport::json_text))]
pub fn json_report(
    alloc: Global,
    league: &League,
    schedule: &Schedule,
) -> Result<Vec<u8>, AllocError>
    requires { schedule.now.teams ≡ teams league.now }
    ensures { IfOk result (λ text. text.items ≡ json_text league.now schedule.now) }
{
    let report = report_value(alloc, league, schedule)?;
    let mut text = report.to_vec(alloc)?;
    text.extend_from_slice(b"\n")?;
    Ok(text)
}

#[tactic(auto, unfolding(crate::specs::JsonReport::report_data))]
fn report_value(alloc: Global, league: &League, schedule: &Schedule) -> Result<Value, AllocError>
    requires { schedule.now.teams ≡ teams league.now }
    ensures { IfOk result (λ value. view value ≡ report_data league.now schedule.now) }
{
    let mut report = Map::new(alloc);
    put_season(alloc, &mut report, league, schedule)?;
    put_parts(alloc, &mut report, league, schedule)?;
    Ok(Value::Object(report))
}

/// Adds the league, the games and what they cost.
fn put_season(
    alloc: Global,
    report: &mut Map<String, Value>,
    league: &League,
    schedule: &Schedule,
) -> Result<(), AllocError>
    requires { schedule.now.teams ≡ teams league.now }
    ensures { OnOk result (members_view report.new.entries ≡ with_season league.now schedule.now (members_view report.old.entries)) }
{
    let cost = cost_value(alloc, league, schedule)?;
    put(report, alloc, "cost", cost)?;
    let terms = league_value(alloc, league)?;
    put(report, alloc, "league", terms)?;
    let rounds = rounds_value(alloc, league, schedule)?;
    put(report, alloc, "rounds", rounds)?;
    let tours = tours_value(alloc, league, schedule)?;
    put(report, alloc, "tours", tours)
}

/// Adds what the cost is made of.
fn put_parts(
    alloc: Global,
    report: &mut Map<String, Value>,
    league: &League,
    schedule: &Schedule,
) -> Result<(), AllocError>
    requires { schedule.now.teams ≡ teams league.now }
    ensures { OnOk result (members_view report.new.entries ≡ with_parts league.now schedule.now (members_view report.old.entries)) }
{
    let halves = halves_value(alloc, league, schedule)?;
    put(report, alloc, "halves", halves)?;
    let repeats = repeats_value(alloc, league, schedule)?;
    put(report, alloc, "repeats", repeats)?;
    let rules = rules_value(alloc, league, schedule)?;
    put(report, alloc, "rules", rules)?;
    let runs = runs_value(alloc, schedule, league.at_most())?;
    put(report, alloc, "runs", runs)
}

fn cost_value(alloc: Global, league: &League, schedule: &Schedule) -> Result<Value, AllocError>
    requires { schedule.now.teams ≡ teams league.now }
    ensures { IfOk result (λ value. view value ≡ cost_data league.now schedule.now (cost_of league.now schedule.now)) }
{
    let cost = cost_of(schedule, league);
    let moved = moved_games(schedule, league);
    json!(in alloc; {
        "feasible": cost.is_feasible(),
        "hard": cost.hard,
        "moved": moved,
        "near": league.near() as u64,
        "soft": cost.soft,
        "total": total_value(cost),
        "travel": cost.travel,
    })
}

/// The total, if no hard limit is broken.
fn total_value(cost: Cost) -> Value
    requires { total_of cost < 2 ^ 64 }
    ensures { view result ≡ total_data cost }
{
    if cost.is_feasible() {
        Value::from(cost.total())
    } else {
        Value::Null
    }
}

fn league_value(alloc: Global, league: &League) -> Result<Value, AllocError>
    ensures { IfOk result (λ value. view value ≡ league_data league.now) }
{
    json!(in alloc; {
        "at_most": league.at_most() as u64,
        "free_repeats": league.free_repeats(),
        "name": title_value(alloc, league)?,
        "phased": league.phased(),
        "round_texts": round_texts_value(alloc, league)?,
        "short": short_names_value(alloc, league)?,
        "teams": names_value(alloc, league)?,
    })
}
