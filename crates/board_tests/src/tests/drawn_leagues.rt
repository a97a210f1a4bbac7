//! Leagues and schedules that a linear congruence draws, as `scripts/oracle starts` does.

use crate::tests::drawn_numbers::{among, drawn, drawn_move, next_word, part};
use fixtures::{Schedule, berger};
use league::League;
use league::limits::{MAX_TEAMS, MAX_WEIGHT, MIN_TEAMS, round_count};
use league_json::read_league;
use moves::{apply, check};
use std::alloc::Global;
use std::fmt::Write;
use std::process::Abort;

/// One rule of each class, of teams and slots that each league has.
const RULES: &[&str] = &[
    r#"{"class":"CA1","kind":"hard","teams":[1],"mode":"H","slots":[1,2,6],"max":1}"#,
    r#"{"class":"CA2","kind":"soft","weight":3,"teams1":[1,2],"mode":"A","teams2":[3,4],"slots":[1,3,4],"max":0}"#,
    r#"{"class":"CA3","kind":"hard","teams1":[3],"mode":"H","intp":3,"max":1}"#,
    r#"{"class":"CA4","kind":"soft","weight":7,"teams1":[1,3],"mode":"H","teams2":[2,4],"slots":[2,3,5],"mode2":"GLOBAL","max":1}"#,
    r#"{"class":"GA1","kind":"soft","weight":10,"games":[[1,2],[4,3]],"slots":[2,5],"min":1,"max":1}"#,
    r#"{"class":"BR1","kind":"hard","teams":[2],"mode":"HA","slots":[2,3,4],"intp":1}"#,
    r#"{"class":"BR2","kind":"soft","weight":2,"teams":[1,2,3,4],"intp":2}"#,
    r#"{"class":"SE1","kind":"soft","weight":5,"teams":[1,4],"min":3}"#,
    r#"{"class":"FA2","kind":"soft","weight":4,"teams":[1,3,4],"slots":[2,5],"intp":0}"#,
];

/// The distance between two teams that the key gives.
fn distance(key: u64, a: u8, b: u8) -> u8 {
    if a == b {
        return 0;
    }
    let pair = 64 * u64::from(a.min(b)) + u64::from(a.max(b));
    part(next_word(key.wrapping_add(pair)), 33, 200)
}

// a text that got no memory is no league's, which is told where it is read

/// Adds the names of the teams.
fn write_names(text: &mut String, teams: u8) {
    for team in 0..teams {
        let separator = if team == 0 { "" } else { "," };
        let _ = write!(text, "{separator}\"T{team}\"");
    }
}

/// Adds a row of the distances.
fn write_row(text: &mut String, key: u64, teams: u8, from: u8) {
    for to in 0..teams {
        let separator = match (from, to) {
            (0, 0) => "[",
            (_, 0) => "],[",
            _ => ",",
        };
        let distance = distance(key, from, to);
        let _ = write!(text, "{separator}{distance}");
    }
}

/// Adds the rows of the distances, by the next word.
fn write_rows(text: &mut String, state: &mut u64, teams: u8) {
    *state = next_word(*state);
    for from in 0..teams {
        write_row(text, *state, teams, from);
    }
}

/// Adds those of the rules that are drawn.
fn write_rules(text: &mut String, state: &mut u64) {
    let mut is_first = true;
    for &rule in RULES {
        if drawn(state, 3) == 0 {
            let separator = if is_first { "" } else { "," };
            let _ = write!(text, "{separator}{rule}");
            is_first = false;
        }
    }
}

/// Adds the limits and the start, and tells whether another start is to be given.
fn write_limits(text: &mut String, state: &mut u64) -> bool {
    let at_most = among(state, &[2, 3, 4, 78]);
    let hard_weight = among(state, &[1, 100, 1000]);
    let phased = drawn(state, 4) == 0;
    let kind = drawn(state, 4);
    let start = if kind == 1 { "fide" } else { "plain" };
    let _ = write!(
        text,
        "\"at_most\":{at_most},\"hard_weight\":{hard_weight},\"phased\":{phased},\"start\":\"{start}\""
    );
    kind > 1
}

/// Adds the members of a league of so many teams, and tells whether another start is to be given.
fn write_league(text: &mut String, state: &mut u64, teams: u8) -> bool {
    let _ = text.write_str("{\"format\":2,");
    let is_given = write_limits(text, state);
    let _ = text.write_str(",\"teams\":[");
    write_names(text, teams);
    let _ = text.write_str("],\"distances\":[");
    write_rows(text, state, teams);
    let _ = text.write_str("]],\"rules\":[");
    write_rules(text, state);
    let _ = text.write_str("]}");
    is_given
}

/// Makes those of so many drawn moves that can be made.
fn make_drawn(schedule: &mut Schedule, state: &mut u64, moves: u64) {
    for _ in 0..moves {
        let mv = drawn_move(state, schedule.teams());
        if check(schedule, mv).is_ok() {
            apply(schedule, mv);
        }
    }
}

/// Has the league begin at the Berger table after three or fifty drawn moves.
fn begin_drawn(rt: &impl Abort, alloc: Global, league: &mut League, state: &mut u64) {
    let teams = league.teams();
    assert!(rt; MIN_TEAMS <= teams && teams <= MAX_TEAMS && teams % 2 == 0);
    let mut start = berger(alloc, teams).expect(rt, "a table");
    let moves = among(state, &[3, 50]);
    make_drawn(&mut start, state, moves);
    begin_at(rt, league, start);
}

/// Has the league begin at the schedule.
pub(crate) fn begin_at(rt: &impl Abort, league: &mut League, start: Schedule) {
    assert!(rt; start.teams() == league.teams());
    league.begin_at(start);
}

/// Keeps the game of the pair, if it is one.
fn keep(league: &mut League, home: u8, away: u8) {
    let teams = league.teams();
    if home < teams && away < teams && home != away {
        league.keep(home, away);
    }
}

fn keep_drawn_rounds(league: &mut League, state: &mut u64) {
    let rounds = round_count(league.teams());
    for _ in 0..drawn(state, 3) {
        league.keep_round(drawn(state, rounds));
    }
}

fn keep_drawn_games(league: &mut League, state: &mut u64) {
    for _ in 0..3 {
        let teams = league.teams();
        let (home, away) = (drawn(state, teams), drawn(state, teams));
        keep(league, home, away);
    }
}

/// Sets what a game costs that has left its round, up to the greatest weight.
fn set_near(league: &mut League, near: u64) {
    if near <= u64::from(MAX_WEIGHT) {
        league.set_near(near as u32);
    }
}

/// A league with a start, kept games and a price for leaving the start.
pub(crate) fn drawn_league(rt: &impl Abort, alloc: Global, state: &mut u64, teams: u8) -> League {
    let mut text = String::new(alloc);
    let is_given = write_league(&mut text, state, teams);
    let mut league = read_league(alloc, text.as_bytes()).expect(rt, "a league");
    if is_given {
        begin_drawn(rt, alloc, &mut league, state);
    }
    set_near(&mut league, among(state, &[1, 7, 100, 1_000_000]));
    keep_drawn_rounds(&mut league, state);
    keep_drawn_games(&mut league, state);
    league
}
