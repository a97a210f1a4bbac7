//! The breaches of a rule as a list.

ghost use Rattle.std.specs.Prelude.{◌≡◌, ◌++◌, ◌<◌, ◌≤◌, IfOk, OnOk};
ghost use Rattle.league.specs.Limits.{max_teams};
ghost use Rattle.league.specs.RuleLimits.{IsBodyFor};
ghost use Rattle.report_breaches.specs.Breaches.{breaches_of};
ghost use Rattle.report_breaches.specs.within.Terms.{breach_in, breaches_in_row, column_count, row_count};

use crate::breach::Breach;
use crate::places::{column_count, place_at, row_count};
use crate::terms::term;
use fixtures::Schedule;
use league::{Rule, RuleBody};
use std::alloc::{AllocError, Global};

/// The breaches of the rule, in the order of its deviation's sum. Takes memory for the list.
#[tactic(auto, using(crate::proofs::Rows::in_rows))]
pub fn breaches_of(
    alloc: Global,
    schedule: &Schedule,
    rule: &Rule,
) -> Result<Vec<Breach>, AllocError>
    requires { IsBodyFor schedule.now.teams rule.now.body }
    ensures { IfOk result (λ list. list.items ≡ breaches_of schedule.now rule.now.body) }
{
    let mut list = Vec::new(alloc);
    for row in 0..row_count(schedule, &rule.body) {
        push_row(&mut list, schedule, &rule.body, row)?;
    }
    Ok(list)
}

fn push_row(
    list: &mut Vec<Breach>,
    schedule: &Schedule,
    body: &RuleBody,
    row: u8,
) -> Result<(), AllocError>
    requires most { schedule.now.teams ≤ max_teams }
    requires body { IsBodyFor schedule.now.teams body.now }
    requires row { row < row_count schedule.now body.now }
    ensures { OnOk result (list.new.items ≡ list.old.items ++ breaches_in_row schedule.now body.now row) }
{
    for column in 0..column_count(schedule, body, row) {
        push_breach_in(list, schedule, body, (row, column))?;
    }
    Ok(())
}

/// Adds the breach of the term at the row and the column, if the term is above 0.
fn push_breach_in(
    list: &mut Vec<Breach>,
    schedule: &Schedule,
    body: &RuleBody,
    at: (u8, u8),
) -> Result<(), AllocError>
    requires most { schedule.now.teams ≤ max_teams }
    requires body { IsBodyFor schedule.now.teams body.now }
    requires row { at.0 < row_count schedule.now body.now }
    requires column { at.1 < column_count schedule.now body.now at.0 }
    ensures { OnOk result (list.new.items ≡ list.old.items ++ breach_in schedule.now body.now at.0 at.1) }
{
    let by = term(schedule, body, at.0, at.1);
    if by == 0 {
        return Ok(());
    }
    let place = place_at(schedule, body, at.0, at.1);
    list.push(Breach { place, by })?;
    Ok(())
}
