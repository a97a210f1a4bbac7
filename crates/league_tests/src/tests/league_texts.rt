//! Texts of leagues, and of their parts, for the tests; and the fault that is told of one.

use crate::tests::checks::check_same;
use league::{League, LeagueFault};
use league_json::read_league;
use std::alloc::{AllocError, Global};
use std::fmt::Write;
use std::process::Abort;
use std::test::Fail;

pub(crate) const TEAMS: &str = r#"["T1","T2","T3","T4"]"#;

pub(crate) const CIRCLE: &str = "[[0,1,2,1],[1,0,1,2],[2,1,0,1],[1,2,1,0]]";

pub(crate) const GOOD_RULE: &str = r#"{"class":"SE1","kind":"hard","teams":[1,4],"min":3}"#;

pub(crate) const FOUR_TEAMS: &str =
    r#"{"format":1,"teams":["T1","T2","T3","T4"],"distances":[[0,1,2,1],[1,0,1,2],[2,1,0,1],[1,2,1,0]]}"#;

pub(crate) fn league_text(
    alloc: Global,
    teams: &str,
    distances: &str,
    more: &str,
) -> Result<String, AllocError> {
    format!(in alloc; "{{\"format\":1,\"teams\":{teams},\"distances\":{distances}{more}}}")
}

// four teams in a circle
pub(crate) fn circle_text(alloc: Global, format: u64, more: &str) -> Result<String, AllocError> {
    format!(in alloc; "{{\"format\":{format},\"teams\":{TEAMS},\"distances\":{CIRCLE}{more}}}")
}

// four teams in a circle, with rules
pub(crate) fn rules_text(alloc: Global, format: u64, rules: &str) -> Result<String, AllocError> {
    let more = format!(in alloc; ",\"rules\":{rules}")?;
    circle_text(alloc, format, more.as_str())
}

// four teams in a circle with these members more
pub(crate) fn circle_with(alloc: Global, format: u64, more: &str) -> Result<League, Fail> {
    let text = circle_text(alloc, format, more)?;
    Ok(read_league(alloc, text.as_bytes())?)
}

// four teams in a circle with these rules
pub(crate) fn with_rules(alloc: Global, format: u64, rules: &str) -> Result<League, Fail> {
    let text = rules_text(alloc, format, rules)?;
    Ok(read_league(alloc, text.as_bytes())?)
}

// n teams of one name, each as far from each other one
pub(crate) fn even_text(
    alloc: Global,
    n: usize,
    distance: &str,
    more: &str,
) -> Result<String, AllocError> {
    let teams = list(alloc, n, "\"T\"")?;
    let distances = square(alloc, n, distance)?;
    league_text(alloc, teams.as_str(), distances.as_str(), more)
}

// each game of forty teams
fn all_games(alloc: Global) -> Result<String, AllocError> {
    let mut games = String::new(alloc);
    for home in 1..=40 {
        for away in 1..=40 {
            if home != away {
                let comma = if games.is_empty() { "" } else { "," };
                write!(games, "{comma}[{home},{away}]").map_err(|_| AllocError)?;
            }
        }
    }
    Ok(games)
}

// forty teams with one rule, which lists each game of theirs
pub(crate) fn all_games_text(alloc: Global) -> Result<String, AllocError> {
    let games = all_games(alloc)?;
    let rules = format!(in alloc;
        ",\"rules\":[{{\"class\":\"GA1\",\"kind\":\"hard\",\"games\":[{games}],\"min\":0,\"max\":1560}}]"
    )?;
    even_text(alloc, 40, "1", rules.as_str())
}

// the bytes are told to have this fault, or none
pub(crate) fn check_bytes(
    rt: &impl Abort,
    alloc: Global,
    bytes: &[u8],
    fault: Option<LeagueFault>,
) {
    check_same(
        rt,
        &(bytes, read_league(alloc, bytes).err()),
        &(bytes, fault),
    );
}

// the text is told to have this fault, or none
pub(crate) fn check_fault(rt: &impl Abort, alloc: Global, text: &str, fault: Option<LeagueFault>) {
    let found = read_league(alloc, text.as_bytes()).err();
    check_same(rt, &(text, found), &(text, fault));
}

// four teams in a circle with these members more are told to have this fault
pub(crate) fn check_circle(
    rt: &impl Abort,
    alloc: Global,
    format: u64,
    (more, fault): (&str, LeagueFault),
) -> Result<(), Fail> {
    let text = circle_text(alloc, format, more)?;
    check_fault(rt, alloc, text.as_str(), Some(fault));
    Ok(())
}

// n times the item, between commas
pub(crate) fn list(alloc: Global, n: usize, item: &str) -> Result<String, AllocError> {
    let mut text = String::from_str(alloc, "[")?;
    for i in 0..n {
        text.push_str(if i > 0 { "," } else { "" })?;
        text.push_str(item)?;
    }
    text.push_str("]")?;
    Ok(text)
}

// adds the row of a team, of n numbers
fn push_row(text: &mut String, n: usize, a: usize, other: &str) -> Result<(), AllocError> {
    text.push_str(if a > 0 { ",[" } else { "[" })?;
    for b in 0..n {
        text.push_str(if b > 0 { "," } else { "" })?;
        text.push_str(if a == b { "0" } else { other })?;
    }
    text.push_str("]")
}

// n rows of n numbers: 0 on the diagonal, and the other one elsewhere
fn square(alloc: Global, n: usize, other: &str) -> Result<String, AllocError> {
    let mut text = String::from_str(alloc, "[")?;
    for a in 0..n {
        push_row(&mut text, n, a, other)?;
    }
    text.push_str("]")?;
    Ok(text)
}
