//! Bounds of leagues whose least tours are known: by hand where each team is as near as each other, and for circles by tables over
//! all sets of opponents, apart from the crates.

use bounds::LeagueBounds;
use league::{League, circular, constant};
use league_json::read_league;
use std::alloc::Global;
use std::process::Abort;
use std::test::Fail;

/// How many teams, and what all their least tours come to together.
const CIRCLES: &[(u8, u64)] = &[(4, 16), (6, 60), (8, 128), (10, 220)];

/// A team plays n - 1 games away, in a third as many trips.
const CONSTANTS: &[(u8, u64)] = &[(4, 16), (6, 42), (8, 80), (10, 120)];

fn check_bound(rt: &impl Abort, alloc: Global, league: &League, known: u64) -> Result<(), Fail> {
    assert_eq!(rt; LeagueBounds::of(alloc, league)?.travel, known);
    Ok(())
}

#[test]
fn circles(rt: HostRuntime) -> Result<(), Fail> {
    for &(teams, known) in CIRCLES {
        check_bound(&rt, rt.alloc(), &circular(rt.alloc(), teams)?, known)?;
    }
    Ok(())
}

#[test]
fn constants(rt: HostRuntime) -> Result<(), Fail> {
    for &(teams, known) in CONSTANTS {
        check_bound(&rt, rt.alloc(), &constant(rt.alloc(), teams)?, known)?;
    }
    Ok(())
}

/// The first team is near the second, and the third near the fourth. A least tour visits the near one by itself, and the others in one trip:
/// 2 and 10 + 1 + 10.
const PAIRS: &[u8] = br#"{"format": 1, "teams": ["A", "B", "C", "D"], "at_most": 2, "distances":
    [[0, 1, 10, 10], [1, 0, 10, 10], [10, 10, 0, 1], [10, 10, 1, 0]]}"#;

#[test]
fn each_team_of_two_pairs(rt: HostRuntime) -> Result<(), Fail> {
    let league = read_league(rt.alloc(), PAIRS)?;
    let bounds = LeagueBounds::of(rt.alloc(), &league)?;
    assert_eq!(rt; bounds.tours.as_slice(), [23, 23, 23, 23].as_slice());
    check_bound(&rt, rt.alloc(), &league, 92)
}

/// Each game is a trip: twice the distances from home.
const ALONE: &[u8] = br#"{"format": 1, "teams": ["A", "B", "C", "D"], "at_most": 1, "distances":
    [[0, 1, 2, 3], [1, 0, 4, 5], [2, 4, 0, 6], [3, 5, 6, 0]]}"#;

#[test]
fn trips_of_one_game(rt: HostRuntime) -> Result<(), Fail> {
    let league = read_league(rt.alloc(), ALONE)?;
    let bounds = LeagueBounds::of(rt.alloc(), &league)?;
    assert_eq!(rt; bounds.tours.as_slice(), [12, 20, 24, 28].as_slice());
    Ok(())
}

/// All games may be one trip, and nothing travels.
const NOWHERE: &[u8] = br#"{"format": 1, "teams": ["A", "B", "C", "D"], "at_most": 78, "distances":
    [[0, 0, 0, 0], [0, 0, 0, 0], [0, 0, 0, 0], [0, 0, 0, 0]]}"#;

#[test]
fn nothing_travels(rt: HostRuntime) -> Result<(), Fail> {
    check_bound(&rt, rt.alloc(), &read_league(rt.alloc(), NOWHERE)?, 0)
}
