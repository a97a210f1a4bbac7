//! Each rule in words, with the teams' names: what it asks, of whom and when, and whether it is kept.

ghost use Rattle.std.specs.Prelude.{◌≡◌, ◌++◌, ◌≤◌, ◌&&◌, if◌then◌else◌, OnOk};
ghost use Rattle.league.specs.League.{teams};
ghost use Rattle.league.specs.Limits.{max_rounds};
ghost use Rattle.league.specs.RuleLimits.{IsBodyFor};
ghost use Rattle.league.specs.Sets.{IsBelow};
ghost use Rattle.fixtures.specs.Games.{round_count};
ghost use Rattle.rules.specs.Deviations.{deviation};
ghost use Rattle.report_page.specs.RuleWords.{against_text, apart_text, are_several, each_slot_text, each_word, for_all, for_each};
ghost use Rattle.report_page.specs.RuleWords.{for_pairs, gap_text, most_against};
ghost use Rattle.report_page.specs.RuleWords.{most_of_against, most_of_text, most_text, rule_words, side_word, slots_text, what_text};
ghost use Rattle.report_page.specs.RuleWords.{when_text, where_word, whom_text, window_text};

use crate::listed_games::push_games_range;
use crate::lists::{push_each, push_pairs, push_rounds, push_teams};
use crate::pieces::{PagePiece, push_pieces};
use crate::style::word_if;
use crate::verdicts::push_verdict;
use fixtures::Schedule;
use league::limits::round_count;
use league::{League, Rule, RuleBody, Side, SlotSet, TeamSet};
use std::alloc::{AllocError, Global};

/// Adds the rule in words. Its deviation from the schedule is `by`. Takes memory for its breaches too.
#[tactic(auto, unfolding(crate::specs::RuleWords::rule_words))]
pub(crate) fn push_rule_words(
    page: &mut Vec<u8>,
    alloc: Global,
    league: &League,
    schedule: &Schedule,
    rule: &Rule,
    by: u64,
) -> Result<(), AllocError>
    requires same { schedule.now.teams ≡ teams league.now }
    requires body { IsBodyFor schedule.now.teams rule.now.body }
    requires by { by ≡ deviation schedule.now rule.now.body }
    ensures { OnOk result (page.new.items ≡ page.old.items ++ rule_words league.now schedule.now rule.now.body) }
{
    push_what(page, league, &rule.body)?;
    push_whom(page, league, &rule.body)?;
    push_when(page, league, &rule.body)?;
    push_verdict(page, alloc, league, schedule, rule, by)
}

/// Adds what the rule asks.
#[tactic(auto, unfolding(crate::specs::RuleWords::what_text))]
fn push_what(page: &mut Vec<u8>, league: &League, body: &RuleBody) -> Result<(), AllocError>
    requires { IsBodyFor (teams league.now) body.now }
    ensures { OnOk result (page.new.items ≡ page.old.items ++ what_text league.now body.now) }
{
    match body {
        RuleBody::Ca1 { side, max, .. } => push_most(page, *max, *side, b"game"),
        RuleBody::Ca2 {
            side,
            teams2,
            max,
            ..
        }
        | RuleBody::Ca3 {
            side,
            teams2,
            max,
            ..
        } => push_most_against(page, league, *max, *side, *teams2),
        RuleBody::Ca4 {
            teams1,
            side,
            teams2,
            each,
            max,
            ..
        } => push_most_of_all(page, league, (*max, *teams1, *each), *side, *teams2),
        RuleBody::Ga1 {
            games,
            min,
            max,
            ..
        } => push_games_range(page, league, games, (*min, *max)),
        RuleBody::Br1 { side, most, .. } => push_most(page, *most, *side, b"break"),
        RuleBody::Br2 { most, .. } => push_most(page, *most, Side::Any, b"break"),
        RuleBody::Se1 { min, .. } => push_apart(page, *min),
        RuleBody::Fa2 { most, .. } => push_gap(page, *most),
    }
}

fn push_most_against(
    page: &mut Vec<u8>,
    league: &League,
    max: u32,
    side: Side,
    opponents: TeamSet,
) -> Result<(), AllocError>
    requires { IsBelow (teams league.now) opponents }
    ensures { OnOk result (page.new.items ≡ page.old.items ++ most_against league.now max side opponents) }
{
    push_most(page, max, side, b"game")?;
    push_against(page, league, opponents)
}

/// Adds how many games of all the teams there may be: as teams in each slot, if there are two at least, or together.
fn push_most_of_all(
    page: &mut Vec<u8>,
    league: &League,
    most: (u32, TeamSet, bool),
    side: Side,
    opponents: TeamSet,
) -> Result<(), AllocError>
    requires chosen { IsBelow (teams league.now) most.1 }
    requires opponents { IsBelow (teams league.now) opponents }
    ensures { OnOk result (page.new.items ≡ page.old.items ++ (if most.2 && are_several league.now most.1
        then most_of_against league.now most.0 most.1 side opponents else most_against league.now most.0 side opponents)) }
{
    let (max, chosen, each) = most;
    if each && chosen.len() > 1 {
        push_most_of(page, league, max, chosen, side)?;
        push_against(page, league, opponents)
    } else {
        push_most_against(page, league, max, side, opponents)
    }
}

fn push_gap(page: &mut Vec<u8>, most: u32) -> Result<(), AllocError>
    ensures { OnOk result (page.new.items ≡ page.old.items ++ gap_text most) }
{
    push_pieces(
        page,
        &[
            PagePiece::Raw(b"numbers of home games at most "),
            PagePiece::Number(u64::from(most)),
            PagePiece::Raw(b" apart"),
        ],
    )
}

fn push_apart(page: &mut Vec<u8>, min: u32) -> Result<(), AllocError>
    ensures { OnOk result (page.new.items ≡ page.old.items ++ apart_text min) }
{
    push_pieces(
        page,
        &[
            PagePiece::Raw(b"at least "),
            PagePiece::Number(u64::from(min)),
            PagePiece::Raw(b" round"),
            PagePiece::Raw(word_if(min != 1, b"s")),
            PagePiece::Raw(b" between both games"),
        ],
    )
}

/// Adds how many games or breaks there may be.
fn push_most(page: &mut Vec<u8>, count: u32, side: Side, word: &[u8]) -> Result<(), AllocError>
    ensures { OnOk result (page.new.items ≡ page.old.items ++ most_text count side word.now) }
{
    push_pieces(
        page,
        &[
            PagePiece::Raw(b"at most "),
            PagePiece::Number(u64::from(count)),
            PagePiece::Raw(b" "),
            PagePiece::Raw(side_word(side)),
            PagePiece::Raw(word),
            PagePiece::Raw(word_if(count != 1, b"s")),
        ],
    )
}

fn side_word(side: Side) -> &'static [u8]
    ensures { result.now ≡ side_word side }
{
    match side {
        Side::Home => b"home ",
        Side::Away => b"away ",
        Side::Any => b"",
    }
}

/// Adds how many of the teams may be at home, away, or either.
fn push_most_of(
    page: &mut Vec<u8>,
    league: &League,
    count: u32,
    chosen: TeamSet,
    side: Side,
) -> Result<(), AllocError>
    requires { IsBelow (teams league.now) chosen }
    ensures { OnOk result (page.new.items ≡ page.old.items ++ most_of_text league.now count chosen side) }
{
    push_pieces(
        page,
        &[
            PagePiece::Raw(b"at most "),
            PagePiece::Number(u64::from(count)),
            PagePiece::Raw(b" of "),
        ],
    )?;
    push_teams(page, league, chosen)?;
    push_pieces(page, &[PagePiece::Raw(where_word(side))])
}

fn where_word(side: Side) -> &'static [u8]
    ensures { result.now ≡ where_word side }
{
    match side {
        Side::Home => b" at home",
        Side::Away => b" away",
        Side::Any => b" playing",
    }
}

/// Adds whom the games are against, unless it is all the same.
#[tactic(auto, unfolding(crate::specs::RuleWords::against_text))]
fn push_against(page: &mut Vec<u8>, league: &League, opponents: TeamSet) -> Result<(), AllocError>
    requires { IsBelow (teams league.now) opponents }
    ensures { OnOk result (page.new.items ≡ page.old.items ++ against_text league.now opponents) }
{
    if opponents.len() == u32::from(league.teams()) {
        return Ok(());
    }
    push_pieces(page, &[PagePiece::Raw(b" against ")])?;
    push_teams(page, league, opponents)
}

/// Adds of whom the rule asks it.
#[tactic(auto, unfolding(crate::specs::RuleWords::whom_text))]
fn push_whom(page: &mut Vec<u8>, league: &League, body: &RuleBody) -> Result<(), AllocError>
    requires { IsBodyFor (teams league.now) body.now }
    ensures { OnOk result (page.new.items ≡ page.old.items ++ whom_text league.now body.now) }
{
    match body {
        RuleBody::Ca4 { teams1, each, .. } => {
            if *each && teams1.len() > 1 {
                Ok(())
            } else {
                push_for_all(page, league, *teams1)
            }
        }
        RuleBody::Ga1 { .. } => Ok(()),
        RuleBody::Ca1 { teams, .. }
        | RuleBody::Ca2 { teams1: teams, .. }
        | RuleBody::Ca3 { teams1: teams, .. }
        | RuleBody::Br1 { teams, .. } => push_for_each(page, league, *teams),
        RuleBody::Br2 { teams, .. } => push_for_all(page, league, *teams),
        RuleBody::Se1 { teams, .. } | RuleBody::Fa2 { teams, .. } => {
            push_for_pairs(page, league, *teams)
        }
    }
}

fn push_for_each(page: &mut Vec<u8>, league: &League, chosen: TeamSet) -> Result<(), AllocError>
    requires { IsBelow (teams league.now) chosen }
    ensures { OnOk result (page.new.items ≡ page.old.items ++ for_each league.now chosen) }
{
    push_pieces(page, &[PagePiece::Raw(b" for ")])?;
    push_each(page, league, chosen)
}

fn push_for_all(page: &mut Vec<u8>, league: &League, chosen: TeamSet) -> Result<(), AllocError>
    requires { IsBelow (teams league.now) chosen }
    ensures { OnOk result (page.new.items ≡ page.old.items ++ for_all league.now chosen) }
{
    push_pieces(page, &[PagePiece::Raw(b" for ")])?;
    push_teams(page, league, chosen)?;
    push_pieces(
        page,
        &[PagePiece::Raw(word_if(chosen.len() > 1, b" together"))],
    )
}

fn push_for_pairs(page: &mut Vec<u8>, league: &League, chosen: TeamSet) -> Result<(), AllocError>
    requires { IsBelow (teams league.now) chosen }
    ensures { OnOk result (page.new.items ≡ page.old.items ++ for_pairs league.now chosen) }
{
    push_pieces(page, &[PagePiece::Raw(b" for ")])?;
    push_pairs(page, league, chosen)
}

/// Adds when the rule asks it.
#[tactic(auto, unfolding(crate::specs::RuleWords::when_text))]
fn push_when(page: &mut Vec<u8>, league: &League, body: &RuleBody) -> Result<(), AllocError>
    requires { IsBodyFor (teams league.now) body.now }
    ensures { OnOk result (page.new.items ≡ page.old.items ++ when_text (round_count (teams league.now)) body.now) }
{
    let rounds = round_count(league.teams());
    match body {
        RuleBody::Ca4 { slots, each, .. } => {
            if *each {
                push_each_slot(page, rounds, *slots)
            } else {
                push_slots(page, rounds, b"", b" in ", *slots)
            }
        }
        RuleBody::Ca1 { slots, .. }
        | RuleBody::Ca2 { slots, .. }
        | RuleBody::Ga1 { slots, .. }
        | RuleBody::Br1 { slots, .. }
        | RuleBody::Br2 { slots, .. } => push_slots(page, rounds, b"", b" in ", *slots),
        RuleBody::Ca3 { window, .. } => push_window(page, *window),
        RuleBody::Se1 { .. } => Ok(()),
        RuleBody::Fa2 { slots, .. } => {
            push_slots(page, rounds, b" after every round", b" after ", *slots)
        }
    }
}

/// Adds the rounds behind the word, or what says that they are all of so many.
fn push_slots(
    page: &mut Vec<u8>,
    rounds: u8,
    always: &[u8],
    word: &[u8],
    slots: SlotSet,
) -> Result<(), AllocError>
    requires most { rounds ≤ max_rounds }
    requires below { IsBelow rounds slots }
    ensures { OnOk result (page.new.items ≡ page.old.items ++ slots_text rounds always.now word.now slots) }
{
    if slots.len() == u32::from(rounds) {
        return push_pieces(page, &[PagePiece::Raw(always)]);
    }
    push_pieces(page, &[PagePiece::Raw(word)])?;
    push_rounds(page, rounds, slots)
}

/// The words of one round at a time.
fn push_each_slot(page: &mut Vec<u8>, rounds: u8, slots: SlotSet) -> Result<(), AllocError>
    requires most { rounds ≤ max_rounds }
    requires below { IsBelow rounds slots }
    ensures { OnOk result (page.new.items ≡ page.old.items ++ each_slot_text rounds slots) }
{
    push_slots(page, rounds, b" in a round", each_word(slots.len()), slots)
}

/// The words before so many rounds, each of which is named by itself.
fn each_word(count: u32) -> &'static [u8]
    ensures { result.now ≡ each_word count }
{
    if count > 1 {
        b" in a round out of "
    } else {
        b" in "
    }
}

fn push_window(page: &mut Vec<u8>, window: u32) -> Result<(), AllocError>
    ensures { OnOk result (page.new.items ≡ page.old.items ++ window_text window) }
{
    if window == 1 {
        return push_pieces(page, &[PagePiece::Raw(b" in any round")]);
    }
    push_pieces(
        page,
        &[
            PagePiece::Raw(b" in any "),
            PagePiece::Number(u64::from(window)),
            PagePiece::Raw(b" rounds in a row"),
        ],
    )
}
