//! The rules: what each asks for, and how it is broken.

ghost use Rattle.std.specs.Prelude.{◌≡◌, ◌++◌, ◌<◌, IfOk};
ghost use Rattle.league.specs.League.{teams};
ghost use Rattle.league.specs.RuleLimits.{IsBodyFor};
ghost use Rattle.serde_json.specs.View.{view};
ghost use Rattle.report_json.specs.Rules.{kind_of, rule_data, rules_data, weight_data};

use crate::breach_values::breaches_value;
use crate::parts::push_value;
use fixtures::Schedule;
use league::{League, Rule, Weight};
use rules::deviation;
use serde_json::{Value, json};
use std::alloc::{AllocError, Global};
use text_lines::class_name;

pub(crate) fn rules_value(
    alloc: Global,
    league: &League,
    schedule: &Schedule,
) -> Result<Value, AllocError>
    requires { schedule.now.teams ≡ teams league.now }
    ensures { IfOk result (λ value. view value ≡ rules_data league.now schedule.now) }
{
    let mut rules = Vec::new(alloc);
    for i in 0..league.rule_count() {
        push_value(
            &mut rules,
            rule_value(alloc, schedule, i as u64, league.rule(i))?,
        )?;
    }
    Ok(Value::from(rules))
}

fn rule_value(alloc: Global, schedule: &Schedule, i: u64, rule: &Rule) -> Result<Value, AllocError>
    requires few { i < 256 }
    requires body { IsBodyFor schedule.now.teams rule.now.body }
    ensures { IfOk result (λ value. view value ≡ rule_data schedule.now i rule.now) }
{
    let breaches = breaches_value(alloc, schedule, rule)?;
    json!(in alloc; {
        "breaches": breaches,
        "class": class_name(&rule.body),
        "deviation": deviation(schedule, rule),
        "kind": kind_of(rule.weight),
        "rule": i + 1,
        "weight": weight_value(rule.weight),
    })
}

fn kind_of(weight: Weight) -> &'static str
    ensures { result.now ≡ kind_of weight }
{
    match weight {
        Weight::Hard => "hard",
        Weight::Soft(_) => "soft",
    }
}

fn weight_value(weight: Weight) -> Value
    ensures { view result ≡ weight_data weight }
{
    match weight {
        Weight::Hard => Value::Null,
        Weight::Soft(weight) => Value::from(weight as u64),
    }
}
