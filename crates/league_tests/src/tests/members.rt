//! The members of a league as they are read, and those of a league that is made.

use crate::tests::checks::check_same;
use crate::tests::league_texts::{check_circle, even_text, league_text};
use league::LeagueFault::{self, RuleClass, WrongKind};
use league::{Field, League, circular, constant};
use league_json::read_league;
use std::alloc::Global;
use std::process::Abort;
use std::test::Fail;

/// The longest name there is.
const NAME: &str = "0123456789012345678901234567890123456789";

/// Four teams of that name.
const NAMES: &str =
    r#"["0123456789012345678901234567890123456789","0123456789012345678901234567890123456789",
    "0123456789012345678901234567890123456789","0123456789012345678901234567890123456789"]"#;

/// As far from each other as teams may be.
const FAR: &str =
    "[[0,1000000,1000000,1000000],[1000000,0,1000000,1000000],[1000000,1000000,0,1000000],[1000000,1000000,1000000,0]]";

// the name of a team
fn check_name(rt: &impl Abort, league: &League, team: u8, name: &str) {
    assert!(rt; team < league.teams());
    check_same(rt, &league.name(team), &name);
}

// both ways
fn check_distance(rt: &impl Abort, league: &League, a: u8, b: u8, distance: u32) {
    assert!(rt; a < league.teams() && b < league.teams());
    let found = (league.distance(a, b), league.distance(b, a));
    check_same(rt, &(a, b, found), &(a, b, (distance, distance)));
}

// the league of four teams of that name, so far from each other
fn check_read(rt: &impl Abort, league: &League, limits: (u8, u32)) {
    check_same(rt, &league.teams(), &4);
    check_same(rt, &(league.at_most(), league.hard_weight()), &limits);
    check_name(rt, league, 3, NAME);
    check_distance(rt, league, 1, 2, 1_000_000);
}

/// Members, and how many rounds in a row are allowed and what a hard breach weighs.
type Limits = (&'static str, (u8, u32));

const LEAST: Limits = (
    r#","at_most":1,"hard_weight":1,"rules":[],"note":3.5"#,
    (1, 1),
);

const MOST: Limits = (
    r#","at_most":78,"hard_weight":1000000,"rules":[],"note":3.5"#,
    (78, 1_000_000),
);

fn check_limits(rt: &impl Abort, alloc: Global, (more, limits): Limits) -> Result<(), Fail> {
    let text = league_text(alloc, NAMES, FAR, more)?;
    check_read(rt, &read_league(alloc, text.as_bytes())?, limits);
    Ok(())
}

#[test]
fn reads_members_to_their_limits(rt: HostRuntime) -> Result<(), Fail> {
    check_limits(&rt, rt.alloc(), LEAST)?;
    check_limits(&rt, rt.alloc(), MOST)
}

// how many teams there are, and the distance between the first and the last
fn check_size(rt: &impl Abort, league: &League, teams: u8, distance: u32) {
    check_same(rt, &league.teams(), &teams);
    check_distance(rt, league, 0, teams.saturating_sub(1), distance);
}

#[test]
fn reads_forty_teams(rt: HostRuntime) -> Result<(), Fail> {
    let text = even_text(rt.alloc(), 40, "7", "")?;
    check_size(&rt, &read_league(rt.alloc(), text.as_bytes())?, 40, 7);
    Ok(())
}

/// How far each team of a circle of ten is from the first.
const DISTANCES: [u32; 10] = [0, 1, 2, 3, 4, 5, 4, 3, 2, 1];

fn check_circle_of_ten(rt: &impl Abort, circle: &League) {
    check_size(rt, circle, 10, 1);
    check_name(rt, circle, 0, "T1");
    check_name(rt, circle, 9, "T10");
    for b in 0..10 {
        check_distance(rt, circle, 0, b, DISTANCES[usize::from(b)]);
    }
}

#[test]
fn makes_a_circle_of_ten_teams(rt: HostRuntime) -> Result<(), Fail> {
    check_circle_of_ten(&rt, &circular(rt.alloc(), 10)?);
    Ok(())
}

fn check_forty(rt: &impl Abort, even: &League) {
    check_size(rt, even, 40, 1);
    check_name(rt, even, 39, "T40");
    check_distance(rt, even, 39, 39, 0);
}

#[test]
fn makes_forty_teams_at_distance_1(rt: HostRuntime) -> Result<(), Fail> {
    check_forty(&rt, &constant(rt.alloc(), 40)?);
    Ok(())
}

#[test]
fn makes_no_league_of_other_counts(rt: HostRuntime) {
    for n in [0, 5, 42] {
        let faults = (circular(rt.alloc(), n).err(), constant(rt.alloc(), n).err());
        let wanted = Some(LeagueFault::TeamCount);
        check_same(&rt, &(n, faults), &(n, (wanted, wanted)));
    }
}

const FAULTS: &[(&str, LeagueFault)] = &[
    (r#","at_most":0"#, WrongKind(Field::AtMost)),
    (r#","at_most":79"#, WrongKind(Field::AtMost)),
    (r#","at_most":3.0"#, WrongKind(Field::AtMost)),
    (r#","at_most":null"#, WrongKind(Field::AtMost)),
    (r#","hard_weight":0"#, WrongKind(Field::HardWeight)),
    (r#","hard_weight":1000001"#, WrongKind(Field::HardWeight)),
    (r#","rules":{}"#, WrongKind(Field::Rules)),
    (r#","rules":[1]"#, WrongKind(Field::Rules)),
    (r#","rules":[{},1]"#, WrongKind(Field::Rules)),
    (r#","rules":[{}]"#, RuleClass(0)),
    (r#","rules":[1],"at_most":0"#, WrongKind(Field::AtMost)),
    (
        r#","rules":[1],"hard_weight":0"#,
        WrongKind(Field::HardWeight),
    ),
];

#[test]
fn tells_faults_of_later_members(rt: HostRuntime) -> Result<(), Fail> {
    for &case in FAULTS {
        check_circle(&rt, rt.alloc(), 1, case)?;
    }
    Ok(())
}
