//! Whether a rule is kept, or else where it is broken, in words.

ghost use Rattle.std.specs.Prelude.{◌≡◌, ◌++◌, ◌≤◌, ◌&&◌, ℕ, nat_lt, OnOk};
ghost use Rattle.league.specs.League.{teams};
ghost use Rattle.league.specs.Limits.{max_rounds, max_teams};
ghost use Rattle.league.specs.RuleLimits.{IsBodyFor};
ghost use Rattle.league.specs.Sets.{has, IsBelow};
ghost use Rattle.fixtures.specs.Games.{round_count};
ghost use Rattle.rules.specs.Deviations.{deviation};
ghost use Rattle.report_page.specs.Lists.{rounds_text, teams_text};
ghost use Rattle.report_page.specs.RuleWords.{broken_among, broken_by, broken_for, broken_in, broken_text, tell_round, tell_team, tells_round, tells_team, verdict_text};

use crate::lists::{push_rounds, push_teams};
use crate::pieces::{PagePiece, push_pieces};
use fixtures::Schedule;
use league::limits::round_count;
use league::{League, Rule, RuleBody, SlotSet, TeamSet};
use report_breaches::{Breach, Place, breaches_of};
use std::alloc::{AllocError, Global};

/// Adds whether the rule is kept, or else where it is broken. Its deviation from the schedule is `by`.
#[tactic(auto, unfolding(crate::specs::RuleWords::verdict_text))]
pub(crate) fn push_verdict(
    page: &mut Vec<u8>,
    alloc: Global,
    league: &League,
    schedule: &Schedule,
    rule: &Rule,
    by: u64,
) -> Result<(), AllocError>
    requires same { schedule.now.teams ≡ teams league.now }
    requires body { IsBodyFor schedule.now.teams rule.now.body }
    requires by { by ≡ deviation schedule.now rule.now.body }
    ensures { OnOk result (page.new.items ≡ page.old.items ++ verdict_text league.now schedule.now rule.now.body) }
{
    if by == 0 {
        return push_pieces(page, &[PagePiece::Raw(b": kept")]);
    }
    let breaches = breaches_of(alloc, schedule, rule)?;
    push_broken(page, league, &rule.body, &breaches, by)
}

/// Adds where the rule is broken, which has these breaches.
#[tactic(auto, unfolding(crate::specs::RuleWords::broken_text))]
fn push_broken(
    page: &mut Vec<u8>,
    league: &League,
    body: &RuleBody,
    breaches: &[Breach],
    by: u64,
) -> Result<(), AllocError>
    ensures { OnOk result (page.new.items ≡ page.old.items ++ broken_text league.now body.now breaches.now by) }
{
    match body {
        RuleBody::Ca4 { each, .. } => {
            if *each {
                push_broken_in(page, league, breaches)
            } else {
                push_broken_by(page, by)
            }
        }
        RuleBody::Ga1 { .. } | RuleBody::Br2 { .. } => push_broken_by(page, by),
        RuleBody::Ca1 { .. } | RuleBody::Ca2 { .. } | RuleBody::Ca3 { .. } | RuleBody::Br1 { .. } =>
            push_broken_for(page, league, breaches),
        RuleBody::Se1 { .. } | RuleBody::Fa2 { .. } => push_broken_among(page, league, breaches),
    }
}

fn push_broken_by(page: &mut Vec<u8>, by: u64) -> Result<(), AllocError>
    ensures { OnOk result (page.new.items ≡ page.old.items ++ broken_by by) }
{
    push_pieces(
        page,
        &[PagePiece::Raw(b": broken by "), PagePiece::Number(by)],
    )
}

fn push_broken_for(
    page: &mut Vec<u8>,
    league: &League,
    breaches: &[Breach],
) -> Result<(), AllocError>
    ensures { OnOk result (page.new.items ≡ page.old.items ++ broken_for league.now breaches.now) }
{
    push_pieces(page, &[PagePiece::Raw(b": broken for ")])?;
    push_teams_told(page, league, breaches)
}

fn push_broken_among(
    page: &mut Vec<u8>,
    league: &League,
    breaches: &[Breach],
) -> Result<(), AllocError>
    ensures { OnOk result (page.new.items ≡ page.old.items ++ broken_among league.now breaches.now) }
{
    push_pieces(page, &[PagePiece::Raw(b": broken among ")])?;
    push_teams_told(page, league, breaches)
}

fn push_broken_in(
    page: &mut Vec<u8>,
    league: &League,
    breaches: &[Breach],
) -> Result<(), AllocError>
    ensures { OnOk result (page.new.items ≡ page.old.items ++ broken_in league.now breaches.now) }
{
    push_pieces(page, &[PagePiece::Raw(b": broken in ")])?;
    push_rounds_told(page, league, breaches)
}

fn push_teams_told(
    page: &mut Vec<u8>,
    league: &League,
    breaches: &[Breach],
) -> Result<(), AllocError>
    ensures { OnOk result (page.new.items ≡ page.old.items ++ teams_text league.now (tell_team breaches.now)) }
{
    push_teams(page, league, teams_told(breaches, league.teams()))
}

fn push_rounds_told(
    page: &mut Vec<u8>,
    league: &League,
    breaches: &[Breach],
) -> Result<(), AllocError>
    ensures { OnOk result (page.new.items ≡ page.old.items
        ++ rounds_text (round_count (teams league.now)) (tell_round breaches.now)) }
{
    let rounds = round_count(league.teams());
    push_rounds(page, rounds, rounds_told(breaches, rounds))
}

/// The teams of so many of which a breach tells.
fn teams_told(breaches: &[Breach], teams: u8) -> TeamSet
    requires { teams ≤ max_teams }
    ensures members { (t : ℕ) → has result t ≡ (nat_lt t teams && tell_team breaches.now t) }
    ensures below { IsBelow teams result }
{
    let mut told = TeamSet::empty();
    for team in 0..teams {
        if tell_team(breaches, team) {
            told = told.with(team);
        }
    }
    told
}

/// The rounds of so many of which a breach tells.
fn rounds_told(breaches: &[Breach], rounds: u8) -> SlotSet
    requires { rounds ≤ max_rounds }
    ensures members { (r : ℕ) → has result r ≡ (nat_lt r rounds && tell_round breaches.now r) }
    ensures below { IsBelow rounds result }
{
    let mut told = SlotSet::empty();
    for round in 0..rounds {
        if tell_round(breaches, round) {
            told = told.with(round);
        }
    }
    told
}

fn tell_team(breaches: &[Breach], team: u8) -> bool
    ensures { result ≡ tell_team breaches.now team }
{
    breaches.iter().any(|breach| tells_team(breach.place, team))
}

fn tell_round(breaches: &[Breach], round: u8) -> bool
    ensures { result ≡ tell_round breaches.now round }
{
    breaches
        .iter()
        .any(|breach| tells_round(breach.place, round))
}

/// Whether a breach at the place tells of the team.
fn tells_team(place: Place, team: u8) -> bool
    ensures { result ≡ tells_team place team }
{
    match place {
        Place::GamesOf { team: of }
        | Place::BreaksOf { team: of }
        | Place::Window { team: of, .. } => team == of,
        Place::Pair { low, high } | Place::PairIn { low, high, .. } => team == low || team == high,
        _ => false,
    }
}

/// Whether a breach at the place tells of the round.
fn tells_round(place: Place, round: u8) -> bool
    ensures { result ≡ tells_round place round }
{
    match place {
        Place::Round { round: of } => round == of,
        _ => false,
    }
}
