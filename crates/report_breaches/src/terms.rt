//! How large each term of a deviation is.

ghost use Rattle.std.specs.Prelude.{◌≡◌, ◌<◌, ◌≤◌, true};
ghost use Rattle.league.specs.Limits.{max_teams};
ghost use Rattle.league.specs.RuleLimits.{IsBodyFor};
ghost use Rattle.rules.specs.Deviations.{over};
ghost use Rattle.report_breaches.specs.within.Terms.{amount, column_count, is_of_rule, named_at, place_at, row_count, term};

use crate::fairness::{rounds_between, worst_gap};
use crate::place_counts::{count_at, count_listed, over};
use crate::places::place_at;
use fixtures::Schedule;
use league::RuleBody;
use rules::breaks;

/// The term of the row and the column.
pub(crate) fn term(schedule: &Schedule, body: &RuleBody, row: u8, column: u8) -> u32
    requires most { schedule.now.teams ≤ max_teams }
    requires body { IsBodyFor schedule.now.teams body.now }
    requires row { row < row_count schedule.now body.now }
    requires column { column < column_count schedule.now body.now row }
    ensures { result ≡ term schedule.now body.now row column }
{
    if is_of_rule(schedule, body, row, column) {
        amount(schedule, body, row, column)
    } else {
        0
    }
}

/// Whether its team, its round or its teams are of the rule.
fn is_of_rule(schedule: &Schedule, body: &RuleBody, row: u8, column: u8) -> bool
    requires most { schedule.now.teams ≤ max_teams }
    requires body { IsBodyFor schedule.now.teams body.now }
    requires row { row < row_count schedule.now body.now }
    requires column { column < column_count schedule.now body.now row }
    ensures { result ≡ is_of_rule body.now row column }
{
    match body {
        RuleBody::Ca1 { teams, .. }
        | RuleBody::Ca2 { teams1: teams, .. }
        | RuleBody::Ca3 { teams1: teams, .. }
        | RuleBody::Br1 { teams, .. } => teams.has(row),
        RuleBody::Ca4 { slots, each, .. } => !*each || slots.has(row),
        RuleBody::Ga1 { .. } | RuleBody::Br2 { .. } => true,
        RuleBody::Se1 { teams, .. } | RuleBody::Fa2 { teams, .. } => {
            teams.has(column) && teams.has(row)
        }
    }
}

/// By how much the limit is broken.
fn amount(schedule: &Schedule, body: &RuleBody, row: u8, column: u8) -> u32
    requires body { IsBodyFor schedule.now.teams body.now }
    requires row { row < row_count schedule.now body.now }
    requires column { column < column_count schedule.now body.now row }
    requires rule { is_of_rule body.now row column ≡ true }
    ensures { result ≡ amount schedule.now body.now row column }
{
    match body {
        RuleBody::Ca1 { max, .. } => counted(schedule, body, (row, column), *max),
        RuleBody::Ca2 { max, .. } => counted(schedule, body, (row, column), *max),
        RuleBody::Ca3 { max, .. } => counted(schedule, body, (row, column), *max),
        RuleBody::Ca4 { max, .. } => counted(schedule, body, (row, column), *max),
        RuleBody::Br2 { most, .. } => counted(schedule, body, (row, column), *most),
        RuleBody::Ga1 {
            games,
            slots,
            min,
            max,
        } => {
            let count = count_listed(schedule, games, *slots);
            if row == 0 {
                over(count, *max)
            } else {
                over(*min, count)
            }
        }
        RuleBody::Br1 {
            side,
            slots,
            most,
            ..
        } => over(breaks(schedule, row, *slots, *side), *most),
        RuleBody::Se1 { min, .. } => over(*min, rounds_between(schedule, column, row)),
        RuleBody::Fa2 { slots, most, .. } => { worst_gap(schedule, *slots, *most, column, row).by }
    }
}

/// By how much the games that the place names are over the most.
fn counted(schedule: &Schedule, body: &RuleBody, at: (u8, u8), most: u32) -> u32
    requires body { IsBodyFor schedule.now.teams body.now }
    requires row { at.0 < row_count schedule.now body.now }
    requires column { at.1 < column_count schedule.now body.now at.0 }
    ensures { result ≡
        over (named_at schedule.now body.now (place_at schedule.now body.now at.0 at.1)) most }
{
    let place = place_at(schedule, body, at.0, at.1);
    over(count_at(schedule, body, place), most)
}
