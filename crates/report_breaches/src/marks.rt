//! The games that the breaches of a rule name.

ghost use Rattle.std.specs.Prelude.{◌≡◌, ◌<◌, ◌≤◌};
ghost use Rattle.std.specs.List.{list_any};
ghost use Rattle.league.specs.Limits.{max_teams};
ghost use Rattle.league.specs.RuleLimits.{IsBodyFor};
ghost use Rattle.fixtures.specs.Games.{round_count};
ghost use Rattle.report_breaches.specs.Cells.{is_marked, names};
ghost use Rattle.report_breaches.specs.within.Terms.{breach_in, breaches_in_row, column_count, row_count};

use crate::cells::names_cell;
use crate::places::{column_count, place_at, row_count};
use crate::terms::term;
use fixtures::Schedule;
use league::{Rule, RuleBody};

/// Whether a breach of the rule names the team's game in the round.
pub fn is_marked(schedule: &Schedule, rule: &Rule, team: u8, round: u8) -> bool
    requires body { IsBodyFor schedule.now.teams rule.now.body }
    requires team { team < schedule.now.teams }
    requires round { round < round_count schedule.now.teams }
    ensures { result ≡ is_marked schedule.now rule.now.body team round }
{
    for row in 0..row_count(schedule, &rule.body) {
        if is_marked_in(schedule, &rule.body, row, team, round) {
            return true;
        }
    }
    false
}

/// Whether a breach in the row does.
fn is_marked_in(schedule: &Schedule, body: &RuleBody, row: u8, team: u8, round: u8) -> bool
    requires most { schedule.now.teams ≤ max_teams }
    requires body { IsBodyFor schedule.now.teams body.now }
    requires row { row < row_count schedule.now body.now }
    requires team { team < schedule.now.teams }
    requires round { round < round_count schedule.now.teams }
    ensures { result ≡ list_any (names schedule.now body.now team round) (breaches_in_row schedule.now body.now row) }
{
    for column in 0..column_count(schedule, body, row) {
        if is_marked_at(schedule, body, (row, column), team, round) {
            return true;
        }
    }
    false
}

/// Whether the breach at the row and the column does, if there is one. What it takes longer to count is counted last.
#[tactic(auto, using(crate::proofs::Naming::any_at))]
fn is_marked_at(schedule: &Schedule, body: &RuleBody, at: (u8, u8), team: u8, round: u8) -> bool
    requires most { schedule.now.teams ≤ max_teams }
    requires body { IsBodyFor schedule.now.teams body.now }
    requires row { at.0 < row_count schedule.now body.now }
    requires column { at.1 < column_count schedule.now body.now at.0 }
    requires team { team < schedule.now.teams }
    requires round { round < round_count schedule.now.teams }
    ensures { result ≡ list_any (names schedule.now body.now team round) (breach_in schedule.now body.now at.0 at.1) }
{
    if let RuleBody::Fa2 { .. } = body {
        return false;
    }
    let place = place_at(schedule, body, at.0, at.1);
    names_cell(schedule, body, place, team, round) && term(schedule, body, at.0, at.1) > 0
}
