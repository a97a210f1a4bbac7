//! The rules of a league's text, by class.

ghost use Rattle.std.specs.Prelude.{◌≡◌, ◌≤◌, length, IfOk, IfSome};
ghost use Rattle.std.specs.List.{AllByRecursion};
ghost use Rattle.serde_json.specs.View.{view, items_view};
ghost use Rattle.league.specs.Limits.{max_rules};
ghost use Rattle.league.specs.Reading.{Gives};
ghost use Rattle.league.specs.RuleLimits.{IsBodyFor, IsRuleFor};
ghost use Rattle.league_json.specs.RuleClasses.{class_of, ca1_of, ca2_of, ca3_of, ca4_of, ga1_of, br1_of, br2_of, se1_of};
ghost use Rattle.league_json.specs.RuleClasses.{fa2_of, body_of, rule_of_class};
ghost use Rattle.league_json.specs.League.{rule_of, rules_from};

use crate::formats::SECOND_FORMAT;
use crate::rosters::Roster;
use crate::rule_members::{
    any_side_member, count_member, each_member, games_member, one_side_member, opponents_member,
    slots_member, teams_member, text_member, weight_of, window_member,
};
use league::{LeagueFault, Rule, RuleBody};
use serde_json::Value;
use std::alloc::{AllocError, Global};

/// The classes of rules.
#[derive(Clone, Copy)]
pub(crate) enum Class {
    Ca1,
    Ca2,
    Ca3,
    Ca4,
    Ga1,
    Br1,
    Br2,
    Se1,
    Fa2,
}

fn class_of(rule: &Value, format: u64) -> Option<Class>
    ensures { result ≡ class_of format (view rule.now) }
{
    match text_member(rule, "class")? {
        "CA1" => Some(Class::Ca1),
        "CA2" => Some(Class::Ca2),
        "CA3" => Some(Class::Ca3),
        "CA4" => Some(Class::Ca4),
        "GA1" => Some(Class::Ga1),
        "BR1" => Some(Class::Br1),
        "BR2" => Some(Class::Br2),
        "SE1" => Some(Class::Se1),
        "FA2" if format >= SECOND_FORMAT => Some(Class::Fa2),
        _ => None,
    }
}

#[tactic(auto, unfolding(crate::specs::RuleClasses::ca1_of))]
fn ca1_of(rule: &Value, roster: &Roster<'_>) -> Option<RuleBody>
    ensures value { result ≡ ca1_of roster.now (view rule.now) }
    ensures range { IfSome result (IsBodyFor roster.now.teams) }
{
    Some(RuleBody::Ca1 {
        teams: teams_member(rule, "teams", roster)?,
        side: one_side_member(rule)?,
        slots: slots_member(rule, roster.teams())?,
        max: count_member(rule, "max")?,
    })
}

#[tactic(auto, unfolding(crate::specs::RuleClasses::ca2_of))]
fn ca2_of(rule: &Value, roster: &Roster<'_>) -> Option<RuleBody>
    ensures value { result ≡ ca2_of roster.now (view rule.now) }
    ensures range { IfSome result (IsBodyFor roster.now.teams) }
{
    Some(RuleBody::Ca2 {
        teams1: teams_member(rule, "teams1", roster)?,
        side: any_side_member(rule)?,
        teams2: opponents_member(rule, roster)?,
        slots: slots_member(rule, roster.teams())?,
        max: count_member(rule, "max")?,
    })
}

#[tactic(auto, unfolding(crate::specs::RuleClasses::ca3_of))]
fn ca3_of(rule: &Value, roster: &Roster<'_>) -> Option<RuleBody>
    ensures value { result ≡ ca3_of roster.now (view rule.now) }
    ensures range { IfSome result (IsBodyFor roster.now.teams) }
{
    Some(RuleBody::Ca3 {
        teams1: teams_member(rule, "teams1", roster)?,
        side: any_side_member(rule)?,
        teams2: opponents_member(rule, roster)?,
        window: window_member(rule, roster.teams())?,
        max: count_member(rule, "max")?,
    })
}

#[tactic(auto, unfolding(crate::specs::RuleClasses::ca4_of))]
fn ca4_of(rule: &Value, roster: &Roster<'_>) -> Option<RuleBody>
    ensures value { result ≡ ca4_of roster.now (view rule.now) }
    ensures range { IfSome result (IsBodyFor roster.now.teams) }
{
    Some(RuleBody::Ca4 {
        teams1: teams_member(rule, "teams1", roster)?,
        side: any_side_member(rule)?,
        teams2: opponents_member(rule, roster)?,
        slots: slots_member(rule, roster.teams())?,
        each: each_member(rule)?,
        max: count_member(rule, "max")?,
    })
}

#[tactic(auto, unfolding(crate::specs::RuleClasses::ga1_of))]
fn ga1_of(alloc: Global, rule: &Value, roster: &Roster<'_>) -> Result<Option<RuleBody>, AllocError>
    ensures value { IfOk result (λ body. body ≡ ga1_of roster.now (view rule.now)) }
    ensures range { IfOk result (λ body. IfSome body (IsBodyFor roster.now.teams)) }
{
    let Some(games) = games_member(alloc, rule, roster)? else {
        return Ok(None);
    };
    let Some(slots) = slots_member(rule, roster.teams()) else {
        return Ok(None);
    };
    let (Some(min), Some(max)) = (count_member(rule, "min"), count_member(rule, "max")) else {
        return Ok(None);
    };
    if min > max {
        return Ok(None);
    }
    Ok(Some(RuleBody::Ga1 {
        games,
        slots,
        min,
        max,
    }))
}

#[tactic(auto, unfolding(crate::specs::RuleClasses::br1_of))]
fn br1_of(rule: &Value, roster: &Roster<'_>) -> Option<RuleBody>
    ensures value { result ≡ br1_of roster.now (view rule.now) }
    ensures range { IfSome result (IsBodyFor roster.now.teams) }
{
    Some(RuleBody::Br1 {
        teams: teams_member(rule, "teams", roster)?,
        side: any_side_member(rule)?,
        slots: slots_member(rule, roster.teams())?,
        most: count_member(rule, "intp")?,
    })
}

#[tactic(auto, unfolding(crate::specs::RuleClasses::br2_of))]
fn br2_of(rule: &Value, roster: &Roster<'_>) -> Option<RuleBody>
    ensures value { result ≡ br2_of roster.now (view rule.now) }
    ensures range { IfSome result (IsBodyFor roster.now.teams) }
{
    Some(RuleBody::Br2 {
        teams: teams_member(rule, "teams", roster)?,
        slots: slots_member(rule, roster.teams())?,
        most: count_member(rule, "intp")?,
    })
}

#[tactic(auto, unfolding(crate::specs::RuleClasses::se1_of))]
fn se1_of(rule: &Value, roster: &Roster<'_>) -> Option<RuleBody>
    ensures value { result ≡ se1_of roster.now (view rule.now) }
    ensures range { IfSome result (IsBodyFor roster.now.teams) }
{
    Some(RuleBody::Se1 {
        teams: teams_member(rule, "teams", roster)?,
        min: count_member(rule, "min")?,
    })
}

#[tactic(auto, unfolding(crate::specs::RuleClasses::fa2_of))]
fn fa2_of(rule: &Value, roster: &Roster<'_>) -> Option<RuleBody>
    ensures value { result ≡ fa2_of roster.now (view rule.now) }
    ensures range { IfSome result (IsBodyFor roster.now.teams) }
{
    Some(RuleBody::Fa2 {
        teams: teams_member(rule, "teams", roster)?,
        slots: slots_member(rule, roster.teams())?,
        most: count_member(rule, "intp")?,
    })
}

fn body_of(
    alloc: Global,
    rule: &Value,
    roster: &Roster<'_>,
    class: Class,
) -> Result<Option<RuleBody>, AllocError>
    ensures value { IfOk result (λ body. body ≡ body_of roster.now (view rule.now) class) }
    ensures range { IfOk result (λ body. IfSome body (IsBodyFor roster.now.teams)) }
{
    match class {
        Class::Ca1 => Ok(ca1_of(rule, roster)),
        Class::Ca2 => Ok(ca2_of(rule, roster)),
        Class::Ca3 => Ok(ca3_of(rule, roster)),
        Class::Ca4 => Ok(ca4_of(rule, roster)),
        Class::Ga1 => ga1_of(alloc, rule, roster),
        Class::Br1 => Ok(br1_of(rule, roster)),
        Class::Br2 => Ok(br2_of(rule, roster)),
        Class::Se1 => Ok(se1_of(rule, roster)),
        Class::Fa2 => Ok(fa2_of(rule, roster)),
    }
}

fn rule_of_class(
    alloc: Global,
    rule: &Value,
    roster: &Roster<'_>,
    class: Class,
) -> Result<Option<Rule>, AllocError>
    ensures value { IfOk result (λ rule'. rule' ≡ rule_of_class roster.now (view rule.now) class) }
    ensures range { IfOk result (λ rule'. IfSome rule' (IsRuleFor roster.now.teams)) }
{
    let Some(weight) = weight_of(rule) else {
        return Ok(None);
    };
    let body = body_of(alloc, rule, roster, class)?;
    Ok(body.map(|body| Rule { weight, body }))
}

#[tactic(auto, unfolding(crate::specs::League::rule_of))]
fn rule_of(
    alloc: Global,
    rule: &Value,
    format: u64,
    roster: &Roster<'_>,
    index: u8,
) -> Result<Rule, LeagueFault>
    ensures exact { Gives (λ r. r) result (rule_of format roster.now index (view rule.now)) }
    ensures range { IfOk result (IsRuleFor roster.now.teams) }
{
    let class = class_of(rule, format).ok_or(LeagueFault::RuleClass(index))?;
    rule_of_class(alloc, rule, roster, class)?.ok_or(LeagueFault::RuleValue(index))
}

/// Reads the rules of a league of these teams, or tells the first fault.
pub fn read_rules(
    alloc: Global,
    items: &[Value],
    format: u64,
    roster: &Roster<'_>,
) -> Result<Vec<Rule>, LeagueFault>
    requires { length items.now ≤ max_rules }
    ensures exact { Gives (λ rules. rules.items) result (rules_from format roster.now 0 (items_view items.now)) }
    ensures range { IfOk result (λ rules. AllByRecursion (IsRuleFor roster.now.teams) rules.items) }
    ensures count { IfOk result (λ rules. length rules.items ≤ max_rules) }
{
    let mut rules = Vec::with_capacity(alloc, items.len())?;
    for (index, item) in items.iter().enumerate() {
        rules.push(rule_of(alloc, item, format, roster, index as u8)?)?;
    }
    Ok(rules)
}
