//! Leagues that begin at the schedule of a text.

use crate::tests::checks::{check_same, check_same_of};
use crate::tests::circle::{CIRCLE, SHEET};
use crate::tests::judged_schedules::{DAMAGED, FAULTS};
use byte_streams::MemorySink;
use given_start::BeginFault::{self, GameRange, Memory, NoRound, NotRoundRobin, RoundRange, Row};
use given_start::{Beginning, begin, write_start_faults};
use league::{League, SlotSet};
use league_json::read_league;
use schedule_csv::{CellFault, Column, RowFault};
use std::alloc::Global;
use std::process::Abort;
use std::test::Fail;

/// The start with its first and last round exchanged, behind another sheet.
const LAST: &str = "league 4 teams 6 rounds\nround 1: 1-2\nleague\n\
    round 6: 1-4 2-3\nround 2: 1-2 4-3\nround 3: 2-4 3-1\n\
    round 4: 3-2 4-1\nround 5: 2-1 3-4\nround 1: 1-3 4-2\n";

/// The schedule as a table.
const TABLE: &str = "home,away\n1,3\n4,2\n1,2\n4,3\n2,4\n3,1\n3,2\n4,1\n2,1\n3,4\nT1,T4\nT2,T3\n";

/// Where the circle of four teams begins with a text, if a round and a game of it are kept at a price of 7.
fn begun(alloc: Global, text: &str, round: u8, game: (u8, u8)) -> Result<League, BeginFault> {
    let Ok(league) = read_league(alloc, CIRCLE.as_bytes()) else {
        return Err(Memory);
    };
    let beginning = Beginning {
        from: Some(text.as_bytes()),
        rounds: SlotSet::empty().with(round.min(77)),
        games: &[game],
        near: 7,
    };
    begin(alloc, league, &beginning)
}

/// The round of a game at the start, and whether it is kept.
fn game_of(rt: &impl Abort, league: &League, home: u8, away: u8) -> (u8, bool) {
    let teams = league.teams();
    assert!(rt; home < teams && away < teams && home != away);
    (league.start_round(home, away), league.keeps(home, away))
}

/// Games of that start from 0, their rounds, and whether they are kept: those of its second round, and the game 1-4.
const GAMES: &[(u8, u8, (u8, bool))] = &[
    (0, 1, (1, true)),
    (3, 2, (1, true)),
    (0, 3, (5, true)),
    (1, 2, (5, false)),
    (0, 2, (0, false)),
];

#[test]
fn a_league_begins_at_the_last_sheet(rt: HostRuntime) -> Result<(), Fail> {
    for text in [LAST, TABLE] {
        let league = begun(rt.alloc(), text, 1, (0, 3))?;
        for &(home, away, wanted) in GAMES {
            let found = game_of(&rt, &league, home, away);
            check_same_of(&rt, &(home, away), &found, &wanted);
        }
        check_same(&rt, &league.near(), &7);
    }
    Ok(())
}

const UNKNOWN: RowFault = RowFault {
    line: 3,
    column: Column::Away,
    why: CellFault::NoTeam,
};

/// Texts, a round and a game to keep, and the fault.
const FAULTY: &[(&str, u8, (u8, u8), BeginFault)] = &[
    ("rounds 1 2\n", 6, (0, 4), NoRound),
    ("round 1: 1-4 2-3\n", 6, (0, 4), NotRoundRobin),
    ("home,away\n1,4\n2,T5\n", 6, (0, 4), Row(UNKNOWN)),
    ("home,away\n", 6, (0, 4), NoRound),
    ("home,away\n1,4\n", 6, (0, 4), NotRoundRobin),
    (SHEET, 6, (0, 4), RoundRange),
    (SHEET, 5, (0, 4), GameRange),
    (SHEET, 5, (1, 1), GameRange),
];

#[test]
fn the_first_fault_of_a_beginning_is_told(rt: HostRuntime) {
    for &(text, round, game, wanted) in FAULTY {
        let fault = begun(rt.alloc(), text, round, game).err();
        check_same(&rt, &fault, &Some(wanted));
    }
}

#[test]
fn faults_of_a_start_are_those_of_a_report(rt: HostRuntime) -> Result<(), Fail> {
    let league = read_league(rt.alloc(), CIRCLE.as_bytes())?;
    let mut buffer = [0; 400];
    let mut sink = MemorySink::new(&mut buffer);
    write_start_faults(rt.alloc(), &league, DAMAGED.as_bytes(), &mut sink)?;
    check_same(&rt, &sink.held(), &FAULTS.as_bytes());
    Ok(())
}
