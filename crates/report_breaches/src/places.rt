//! The terms of a deviation stand in rows, in the order of its sum.

ghost use Rattle.std.specs.Prelude.{◌≡◌, ℕ, ◌+◌, ◌-◌, ◌<◌, ◌≤◌, ◌==◌, if◌then◌else◌};
ghost use Rattle.league.specs.Limits.{max_teams};
ghost use Rattle.league.specs.RuleLimits.{IsBodyFor};
ghost use Rattle.fixtures.specs.Games.{round_count};
ghost use Rattle.report_breaches.specs.within.Terms.{column_count, place_at, row_count, IsPlaceFor};
ghost use Rattle.report_breaches.specs.declared.breach.Place.TheVariants.{GamesOver, GamesUnder};

use crate::breach::Place;
use crate::fairness::worst_gap;
use fixtures::Schedule;
use league::RuleBody;

/// A row for each team, round or side of the list that has a term, or for all together.
pub(crate) fn row_count(schedule: &Schedule, body: &RuleBody) -> u8
    ensures value { result ≡ row_count schedule.now body.now }
    ensures most { schedule.now.teams ≤ max_teams }
{
    let teams = schedule.teams();
    match body {
        RuleBody::Ca4 { each: true, .. } => schedule.rounds(),
        RuleBody::Ca4 { each: false, .. } | RuleBody::Br2 { .. } => 1,
        RuleBody::Ga1 { .. } => 2,
        _ => teams,
    }
}

/// A column for each window of a team and for each lower team of a pair, and one otherwise.
pub(crate) fn column_count(schedule: &Schedule, body: &RuleBody, row: u8) -> u8
    requires body { IsBodyFor schedule.now.teams body.now }
    requires row { row < row_count schedule.now body.now }
    ensures { result ≡ column_count schedule.now body.now row }
{
    match body {
        RuleBody::Ca3 { window, .. } => schedule.rounds() + 1 - *window as u8,
        RuleBody::Se1 { .. } | RuleBody::Fa2 { .. } => row,
        _ => 1,
    }
}

/// The term of the row and the column.
pub(crate) fn place_at(schedule: &Schedule, body: &RuleBody, row: u8, column: u8) -> Place
    requires body { IsBodyFor schedule.now.teams body.now }
    requires row { row < row_count schedule.now body.now }
    requires column { column < column_count schedule.now body.now row }
    ensures value { result ≡ place_at schedule.now body.now row column }
    ensures in_range { IsPlaceFor schedule.now.teams result }
{
    match body {
        RuleBody::Ca1 { .. } | RuleBody::Ca2 { .. } => Place::GamesOf { team: row },
        RuleBody::Ca3 { window, .. } => Place::Window {
            team: row,
            first: column,
            last: last_of(schedule, column, *window),
        },
        RuleBody::Ca4 { each: true, .. } => Place::Round { round: row },
        RuleBody::Ca4 { each: false, .. } | RuleBody::Br2 { .. } => Place::Together,
        RuleBody::Ga1 { .. } => listed_side(row),
        RuleBody::Br1 { .. } => Place::BreaksOf { team: row },
        RuleBody::Se1 { .. } => Place::Pair {
            low: column,
            high: row,
        },
        RuleBody::Fa2 { slots, most, .. } => Place::PairIn {
            low: column,
            high: row,
            round: worst_gap(schedule, *slots, *most, column, row).round,
        },
    }
}

/// The last round of a window that begins with this round. As many rounds come behind it as windows.
fn last_of(schedule: &Schedule, first: u8, window: u32) -> u8
    requires least { 1 ≤ window }
    requires within { first + window ≤ round_count schedule.now.teams }
    ensures { result ≡ first + window - 1 }
{
    let rounds = schedule.rounds();
    let behind = rounds - window as u8 - first;
    rounds - 1 - behind
}

/// Too many of the listed games stand before too few.
fn listed_side(row: u8) -> Place
    ensures value { result ≡ (if row == 0 then GamesOver else GamesUnder) }
    ensures in_range { (n : ℕ) → IsPlaceFor n result }
{
    if row == 0 {
        Place::GamesOver
    } else {
        Place::GamesUnder
    }
}
