//! The games that breaches name.

ghost use Rattle.std.specs.Prelude.{◌<◌};
ghost use Rattle.league.specs.RuleLimits.{IsBodyFor};

use fixtures::Schedule;
use league::{League, Rule};
use report_breaches::is_marked;
use std::alloc::{AllocError, Global};

/// Adds a row of the team: `#` for each game that is named, and `.` for another.
fn push_row(text: &mut String, schedule: &Schedule, rule: &Rule, team: u8) -> Result<(), AllocError>
    requires body { IsBodyFor schedule.now.teams rule.now.body }
    requires team { team < schedule.now.teams }
{
    for round in 0..schedule.rounds() {
        let mark = if is_marked(schedule, rule, team, round) {
            '#'
        } else {
            '.'
        };
        text.push(mark)?;
    }
    text.push('\n')
}

/// A row for each team, if the league has a rule and as many teams as the schedule.
pub(crate) fn marks_of(
    alloc: Global,
    schedule: &Schedule,
    league: &League,
) -> Result<String, AllocError> {
    let mut text = String::new(alloc);
    if league.teams() != schedule.teams() || league.rule_count() == 0 {
        return Ok(text);
    }
    for team in 0..schedule.teams() {
        push_row(&mut text, schedule, league.rule(0), team)?;
    }
    Ok(text)
}
