//! Leagues that no command makes, whatever allocation is refused. The other calls of `league` that take memory are those of
//! whole commands, which `./test-memory` sweeps too.

use crate::tests::checks::check_same;
use league::{League, LeagueFault, circular, constant};
use std::process::Abort;
use std::test::Fail;

/// Distances of four teams.
type Table = [[u32; 4]; 4];

const CIRCLE: &Table = &[[0, 1, 2, 1], [1, 0, 1, 2], [2, 1, 0, 1], [1, 2, 1, 0]];

const CONSTANT: &Table = &[[0, 1, 1, 1], [1, 0, 1, 1], [1, 1, 0, 1], [1, 1, 1, 0]];

fn check_row(rt: &impl Abort, league: &League, a: u8, distances: &[u32; 4]) {
    assert!(rt; a < 4 && league.teams() == 4);
    let found = [
        league.distance(a, 0),
        league.distance(a, 1),
        league.distance(a, 2),
        league.distance(a, 3),
    ];
    check_same(rt, &(a, &found), &(a, distances));
}

/// Four teams so far from each other, without rules, or want of memory.
fn check_made(
    rt: &impl Abort,
    answer: Result<League, LeagueFault>,
    distances: &Table,
) -> Result<(), Fail> {
    if let Err(fault) = &answer {
        check_same(rt, fault, &LeagueFault::Memory);
    }
    let league = answer?;
    let said = (league.rule_count(), league.at_most(), league.hard_weight());
    check_same(rt, &said, &(0, 3, 100));
    for a in 0..4 {
        check_row(rt, &league, a, &distances[usize::from(a)]);
    }
    Ok(())
}

#[test]
fn made_leagues_and_memory(rt: HostRuntime) -> Result<(), Fail> {
    check_made(&rt, circular(rt.alloc(), 4), CIRCLE)?;
    check_made(&rt, constant(rt.alloc(), 4), CONSTANT)
}
