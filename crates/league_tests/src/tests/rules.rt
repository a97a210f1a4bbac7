//! Rules as they are read.

use crate::tests::checks::check_same;
use crate::tests::league_texts::{GOOD_RULE, all_games_text, list, with_rules};
use league::{League, Pairing, RuleBody, Side, SlotSet, TeamSet, Weight};
use league_json::read_league;
use std::alloc::Global;
use std::process::Abort;
use std::test::Fail;

// from numbers that count from 0
fn team_set(teams: Option<&[u8]>) -> Option<TeamSet> {
    let mut set = TeamSet::empty();
    for &team in teams? {
        if team < 40 {
            set = set.with(team);
        }
    }
    Some(set)
}

fn slot_set(slots: Option<&[u8]>) -> Option<SlotSet> {
    let mut set = SlotSet::empty();
    for &slot in slots? {
        if slot < 78 {
            set = set.with(slot);
        }
    }
    Some(set)
}

/// A class, a side and two numbers.
pub(crate) type Values = (&'static str, Option<Side>, [u32; 2]);

fn values_of(body: &RuleBody) -> Values {
    match *body {
        RuleBody::Ca1 { side, max, .. } => ("CA1", Some(side), [max, 0]),
        RuleBody::Ca2 { side, max, .. } => ("CA2", Some(side), [max, 0]),
        RuleBody::Ca3 {
            side,
            window,
            max,
            ..
        } => ("CA3", Some(side), [window, max]),
        RuleBody::Ca4 {
            side,
            each,
            max,
            ..
        } => ("CA4", Some(side), [u32::from(each), max]),
        RuleBody::Ga1 { min, max, .. } => ("GA1", None, [min, max]),
        RuleBody::Br1 { side, most, .. } => ("BR1", Some(side), [most, 0]),
        RuleBody::Br2 { most, .. } => ("BR2", None, [most, 0]),
        RuleBody::Se1 { min, .. } => ("SE1", None, [min, 0]),
        RuleBody::Fa2 { most, .. } => ("FA2", None, [most, 0]),
    }
}

/// Teams, their opponents and slots.
pub(crate) type Sets = (Option<TeamSet>, Option<TeamSet>, Option<SlotSet>);

fn sets_of(body: &RuleBody) -> Sets {
    match *body {
        RuleBody::Ca1 { teams, slots, .. } => (Some(teams), None, Some(slots)),
        RuleBody::Ca2 {
            teams1,
            teams2,
            slots,
            ..
        } => (Some(teams1), Some(teams2), Some(slots)),
        RuleBody::Ca3 { teams1, teams2, .. } => (Some(teams1), Some(teams2), None),
        RuleBody::Ca4 {
            teams1,
            teams2,
            slots,
            ..
        } => (Some(teams1), Some(teams2), Some(slots)),
        RuleBody::Ga1 { slots, .. } => (None, None, Some(slots)),
        RuleBody::Br1 { teams, slots, .. } => (Some(teams), None, Some(slots)),
        RuleBody::Br2 { teams, slots, .. } => (Some(teams), None, Some(slots)),
        RuleBody::Se1 { teams, .. } => (Some(teams), None, None),
        RuleBody::Fa2 { teams, slots, .. } => (Some(teams), None, Some(slots)),
    }
}

/// Numbers from 0.
type List = Option<&'static [u8]>;

/// Teams, their opponents and slots.
type Numbers = (List, List, List);

pub(crate) fn check_body(
    rt: &impl Abort,
    league: &League,
    rule: usize,
    values: Values,
    sets: Sets,
) {
    assert!(rt; rule < league.rule_count());
    let body = &league.rule(rule).body;
    check_same(rt, &(rule, values_of(body)), &(rule, values));
    check_same(rt, &(rule, sets_of(body)), &(rule, sets));
}

/// A rule's text, and what is read of it.
type Read = (&'static str, Values, Numbers);

// four teams in a circle with one rule, in the second format
fn check_rule(rt: &impl Abort, alloc: Global, (rule, values, numbers): Read) -> Result<(), Fail> {
    let (teams, opponents, slots) = numbers;
    let sets = (team_set(teams), team_set(opponents), slot_set(slots));
    let league = with_rules(alloc, 2, rule)?;
    check_only_body(rt, &league, values, sets);
    Ok(())
}

fn check_only_body(rt: &impl Abort, league: &League, values: Values, sets: Sets) {
    check_same(rt, &league.rule_count(), &1);
    check_body(rt, league, 0, values, sets);
}

const EACH_CLASS: &[Read] = &[
    (
        r#"[{"class":"CA1","kind":"hard","teams":[4],"mode":"A","slots":[1,3,5],"max":1}]"#,
        ("CA1", Some(Side::Away), [1, 0]),
        (Some(&[3]), None, Some(&[0, 2, 4])),
    ),
    (
        r#"[{"class":"CA2","kind":"hard","teams1":[1],"mode":"A","teams2":[3,4],"slots":[3,4],"max":0}]"#,
        ("CA2", Some(Side::Away), [0, 0]),
        (Some(&[0]), Some(&[2, 3]), Some(&[2, 3])),
    ),
    (
        r#"[{"class":"CA3","kind":"hard","teams1":[3],"mode":"H","teams2":[],"slots":7,"intp":6,"max":10000}]"#,
        ("CA3", Some(Side::Home), [6, 10_000]),
        (Some(&[2]), Some(&[]), None),
    ),
    (
        r#"[{"class":"CA4","kind":"hard","teams1":[1,2],"mode":"HA","mode2":"EVERY","teams2":[3,4],"slots":[1,6],"max":1}]"#,
        ("CA4", Some(Side::Any), [1, 1]),
        (Some(&[0, 1]), Some(&[2, 3]), Some(&[0, 5])),
    ),
    (
        r#"[{"class":"BR1","kind":"hard","teams":[1],"mode":"H","slots":[2,3],"intp":0}]"#,
        ("BR1", Some(Side::Home), [0, 0]),
        (Some(&[0]), None, Some(&[1, 2])),
    ),
    (
        r#"[{"class":"BR2","kind":"hard","teams":[1,2,3,4],"slots":[],"intp":4}]"#,
        ("BR2", None, [4, 0]),
        (Some(ALL_TEAMS), None, Some(&[])),
    ),
    (
        r#"[{"class":"SE1","kind":"hard","teams":[4,1,4],"min":3}]"#,
        ("SE1", None, [3, 0]),
        (Some(&[0, 3]), None, None),
    ),
    (
        r#"[{"class":"FA2","kind":"hard","teams":[1,3],"slots":[2,6],"intp":1}]"#,
        ("FA2", None, [1, 0]),
        (Some(&[0, 2]), None, Some(&[1, 5])),
    ),
];

const ALL_TEAMS: &[u8] = &[0, 1, 2, 3];

const ALL_SLOTS: &[u8] = &[0, 1, 2, 3, 4, 5];

#[test]
fn reads_each_class(rt: HostRuntime) -> Result<(), Fail> {
    for &read in EACH_CLASS {
        check_rule(&rt, rt.alloc(), read)?;
    }
    Ok(())
}

const ABSENT_SETS: &[Read] = &[
    (
        r#"[{"class":"CA2","kind":"hard","teams1":[1],"mode":"HA","max":0}]"#,
        ("CA2", Some(Side::Any), [0, 0]),
        (Some(&[0]), Some(ALL_TEAMS), Some(ALL_SLOTS)),
    ),
    (
        r#"[{"class":"CA3","kind":"hard","teams1":[3],"mode":"H","intp":1,"max":2}]"#,
        ("CA3", Some(Side::Home), [1, 2]),
        (Some(&[2]), Some(ALL_TEAMS), None),
    ),
    (
        r#"[{"class":"CA4","kind":"hard","teams1":[],"mode":"A","mode2":"GLOBAL","max":1}]"#,
        ("CA4", Some(Side::Away), [0, 1]),
        (Some(&[]), Some(ALL_TEAMS), Some(ALL_SLOTS)),
    ),
    (
        r#"[{"class":"FA2","kind":"hard","teams":[],"intp":10000}]"#,
        ("FA2", None, [10_000, 0]),
        (Some(&[]), None, Some(ALL_SLOTS)),
    ),
];

#[test]
fn absent_sets_are_whole(rt: HostRuntime) -> Result<(), Fail> {
    for &read in ABSENT_SETS {
        check_rule(&rt, rt.alloc(), read)?;
    }
    Ok(())
}

/// How many games a rule has, the first of them and the last.
pub(crate) type Games = (usize, Option<(Pairing, Pairing)>);

fn games_of(body: &RuleBody) -> Option<Games> {
    let RuleBody::Ga1 { games, .. } = body else {
        return None;
    };
    if games.is_empty() {
        return Some((0, None));
    }
    let ends = (games.at(0), games.at(games.len() - 1));
    Some((games.len(), Some(ends)))
}

/// The members of a rule of games: its games, how many of them are wanted, and its slots.
#[derive(Clone, Copy)]
pub(crate) struct GameRule {
    pub(crate) games: Games,
    pub(crate) wanted: [u32; 2],
    pub(crate) slots: SlotSet,
}

pub(crate) fn check_games(rt: &impl Abort, league: &League, rule: usize, said: GameRule) {
    assert!(rt; rule < league.rule_count());
    let found = games_of(&league.rule(rule).body);
    check_same(rt, &(rule, found), &(rule, Some(said.games)));
    let wanted = said.wanted;
    let sets = (None, None, Some(said.slots));
    check_body(rt, league, rule, ("GA1", None, wanted), sets);
}

const GAME_RULES: &str =
    r#"[{"class":"GA1","kind":"hard","games":[[1,2],[2,1],[1,2]],"slots":[2],"min":1,"max":2},
    {"class":"GA1","kind":"hard","games":[],"min":0,"max":0}]"#;

pub(crate) const TWO_GAMES: Games = (
    2,
    Some((Pairing { home: 0, away: 1 }, Pairing { home: 1, away: 0 })),
);

fn check_two_rules(rt: &impl Abort, league: &League) {
    check_same(rt, &league.rule_count(), &2);
    let two = GameRule {
        games: TWO_GAMES,
        wanted: [1, 2],
        slots: SlotSet::empty().with(1),
    };
    let none = GameRule {
        games: (0, None),
        wanted: [0, 0],
        slots: SlotSet::below(6),
    };
    check_games(rt, league, 0, two);
    check_games(rt, league, 1, none);
}

#[test]
fn games_count_once(rt: HostRuntime) -> Result<(), Fail> {
    check_two_rules(&rt, &with_rules(rt.alloc(), 1, GAME_RULES)?);
    Ok(())
}

const ALL_GAMES: Games = (
    1560,
    Some((Pairing { home: 0, away: 1 }, Pairing { home: 39, away: 38 })),
);

// the only rule lists all games of forty teams
pub(crate) fn check_all_games(rt: &impl Abort, league: &League) {
    check_same(rt, &league.rule_count(), &1);
    let all = GameRule {
        games: ALL_GAMES,
        wanted: [0, 1560],
        slots: SlotSet::below(78),
    };
    check_games(rt, league, 0, all);
}

#[test]
fn reads_all_games_of_forty_teams(rt: HostRuntime) -> Result<(), Fail> {
    let text = all_games_text(rt.alloc())?;
    check_all_games(&rt, &read_league(rt.alloc(), text.as_bytes())?);
    Ok(())
}

const WEIGHTS: &[(&str, Weight)] = &[
    (r#""kind":"hard""#, Weight::Hard),
    (r#""kind":"hard","weight":0"#, Weight::Hard),
    (r#""kind":"soft","weight":1"#, Weight::Soft(1)),
    (r#""kind":"soft","weight":1000000"#, Weight::Soft(1_000_000)),
];

pub(crate) fn weight_of(league: &League, rule: usize) -> Option<Weight> {
    if rule < league.rule_count() {
        Some(league.rule(rule).weight)
    } else {
        None
    }
}

fn check_weight(
    rt: &impl Abort,
    alloc: Global,
    (members, weight): (&str, Weight),
) -> Result<(), Fail> {
    let rules = format!(in alloc; "[{{\"class\":\"SE1\",\"teams\":[1],\"min\":3,{members}}}]")?;
    let league = with_rules(alloc, 1, rules.as_str())?;
    let found = (league.rule_count(), weight_of(&league, 0));
    check_same(rt, &(members, found), &(members, (1, Some(weight))));
    Ok(())
}

#[test]
fn reads_weights(rt: HostRuntime) -> Result<(), Fail> {
    for &case in WEIGHTS {
        check_weight(&rt, rt.alloc(), case)?;
    }
    Ok(())
}

fn check_many_rules(rt: &impl Abort, league: &League) {
    check_same(rt, &league.rule_count(), &256);
    let sets = (Some(TeamSet::empty().with(0).with(3)), None, None);
    check_body(rt, league, 255, ("SE1", None, [3, 0]), sets);
}

#[test]
fn reads_rules_to_their_limit(rt: HostRuntime) -> Result<(), Fail> {
    let rules = list(rt.alloc(), 256, GOOD_RULE)?;
    check_many_rules(&rt, &with_rules(rt.alloc(), 1, rules.as_str())?);
    Ok(())
}
