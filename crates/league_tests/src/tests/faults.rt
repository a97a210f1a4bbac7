//! Which fault of a text is told, and how each is printed.

use crate::tests::checks::check_same;
use crate::tests::league_texts::{
    FOUR_TEAMS, TEAMS, check_bytes, check_fault, even_text, league_text, list, rules_text,
};
use league::Field;
use league::LeagueFault::{
    self, Asymmetric, Diagonal, DistanceRange, DistanceShape, Memory, MissingField, NotJson,
    RuleClass, RuleValue, TeamCount, TooManyRules, WrongKind,
};
use std::alloc::Global;
use std::process::Abort;
use std::test::Fail;

#[test]
fn tells_bytes_that_are_no_text(rt: HostRuntime) {
    let cut = &FOUR_TEAMS.as_bytes()[..50];
    check_bytes(&rt, rt.alloc(), cut, Some(NotJson));
    let spoilt = &[b'"', 255, b'"'];
    check_bytes(&rt, rt.alloc(), spoilt, Some(NotJson));
}

const TEXTS: &[(&str, LeagueFault)] = &[
    ("", NotJson),
    ("[]", WrongKind(Field::Whole)),
    ("{}", MissingField(Field::Format)),
    (r#"{"teams":3}"#, MissingField(Field::Format)),
    (r#"{"format":3}"#, MissingField(Field::Teams)),
    (r#"{"format":4}"#, WrongKind(Field::Format)),
    (r#"{"format":2}"#, MissingField(Field::Teams)),
    (r#"{"format":0}"#, WrongKind(Field::Format)),
    (r#"{"format":1.0}"#, WrongKind(Field::Format)),
    (r#"{"format":4,"format":1}"#, MissingField(Field::Teams)),
    (r#"{"format":1,"distances":[]}"#, MissingField(Field::Teams)),
    (r#"{"format":1,"teams":{}}"#, WrongKind(Field::Teams)),
    (r#"{"format":1,"teams":["T1",2]}"#, WrongKind(Field::Teams)),
    (r#"{"format":1,"teams":[""]}"#, WrongKind(Field::Teams)),
    (r#"{"format":1,"teams":["a\tb"]}"#, WrongKind(Field::Teams)),
    (
        "{\"format\":1,\"teams\":[\"\u{7f}\"]}",
        WrongKind(Field::Teams),
    ),
    (
        r#"{"format":1,"teams":["01234567890123456789012345678901234567890"]}"#,
        WrongKind(Field::Teams),
    ),
    (r#"{"format":1,"teams":[]}"#, MissingField(Field::Distances)),
    (
        r#"{"format":1,"teams":[],"distances":[1]}"#,
        WrongKind(Field::Distances),
    ),
    (
        r#"{"format":1,"teams":[],"distances":[[-1]]}"#,
        WrongKind(Field::Distances),
    ),
];

#[test]
fn tells_faults_of_the_text(rt: HostRuntime) {
    for &(text, fault) in TEXTS {
        check_fault(&rt, rt.alloc(), text, Some(fault));
    }
}

/// Teams and distances, and the first fault of the whole.
type Whole = (&'static str, &'static str, LeagueFault);

const WHOLE: &[Whole] = &[
    ("[]", "[]", TeamCount),
    (TEAMS, "[[0,1,2,1],[1,0,1,2],[2,1,0,1]]", DistanceShape),
    (
        TEAMS,
        "[[0,1,2,1],[1,0,1,2],[2,1,0,1],[1,2,1]]",
        DistanceShape,
    ),
    (
        TEAMS,
        "[[0,1000001,2,1],[1,0,1,2],[2,1,0,1],[1,2,1]]",
        DistanceShape,
    ),
    (
        TEAMS,
        "[[0,1000001,2,1],[1000001,0,1,2],[2,1,0,1],[1,2,1,0]]",
        DistanceRange,
    ),
    (
        TEAMS,
        "[[1,1000001,2,1],[1000001,0,1,2],[2,1,0,1],[1,2,1,0]]",
        DistanceRange,
    ),
    (TEAMS, "[[0,1,2,1],[1,0,1,2],[2,1,0,1],[1,2,1,1]]", Diagonal),
    (TEAMS, "[[0,2,2,1],[1,1,1,2],[2,1,0,1],[1,2,1,0]]", Diagonal),
    (
        TEAMS,
        "[[0,2,2,1],[1,0,1,2],[2,1,0,1],[1,2,1,0]]",
        Asymmetric,
    ),
];

fn check_whole(
    rt: &impl Abort,
    alloc: Global,
    (teams, distances, fault): Whole,
) -> Result<(), Fail> {
    let text = league_text(alloc, teams, distances, ",\"rules\":[{}]")?;
    check_fault(rt, alloc, text.as_str(), Some(fault));
    Ok(())
}

#[test]
fn tells_the_first_fault_of_the_whole(rt: HostRuntime) -> Result<(), Fail> {
    for &whole in WHOLE {
        check_whole(&rt, rt.alloc(), whole)?;
    }
    Ok(())
}

const WRONG_COUNTS: &[usize] = &[2, 3, 5, 39, 41, 42];

#[test]
fn tells_a_team_count_out_of_range(rt: HostRuntime) -> Result<(), Fail> {
    for &n in WRONG_COUNTS {
        let text = even_text(rt.alloc(), n, "1", "")?;
        check_fault(&rt, rt.alloc(), text.as_str(), Some(TeamCount));
    }
    Ok(())
}

fn check_empty_rules(
    rt: &impl Abort,
    alloc: Global,
    count: usize,
    fault: LeagueFault,
) -> Result<(), Fail> {
    let rules = list(alloc, count, "{}")?;
    let text = rules_text(alloc, 1, rules.as_str())?;
    check_fault(rt, alloc, text.as_str(), Some(fault));
    Ok(())
}

#[test]
fn tells_too_many_rules(rt: HostRuntime) -> Result<(), Fail> {
    check_empty_rules(&rt, rt.alloc(), 256, RuleClass(0))?;
    check_empty_rules(&rt, rt.alloc(), 257, TooManyRules)
}

fn check_messages(
    rt: &impl Abort,
    alloc: Global,
    cases: &[(LeagueFault, &str)],
) -> Result<(), Fail> {
    for (fault, text) in cases {
        let message = fault.to_string(alloc)?;
        check_same(rt, &message.as_str(), text);
    }
    Ok(())
}

const MEMBERS: &[(LeagueFault, &str)] = &[
    (MissingField(Field::Format), "league lacks format"),
    (MissingField(Field::Teams), "league lacks teams"),
    (MissingField(Field::Distances), "league lacks distances"),
    (WrongKind(Field::Whole), "league is no object"),
    (WrongKind(Field::Format), "league member format is wrong"),
    (WrongKind(Field::Teams), "league member teams is wrong"),
    (
        WrongKind(Field::Distances),
        "league member distances is wrong",
    ),
    (WrongKind(Field::AtMost), "league member at_most is wrong"),
    (
        WrongKind(Field::HardWeight),
        "league member hard_weight is wrong",
    ),
    (WrongKind(Field::Rules), "league member rules is wrong"),
    (WrongKind(Field::Start), "league member start is wrong"),
    (WrongKind(Field::Phased), "league member phased is wrong"),
    (WrongKind(Field::Name), "league member name is wrong"),
    (WrongKind(Field::Short), "league member short is wrong"),
    (WrongKind(Field::Rounds), "league member rounds is wrong"),
    (WrongKind(Field::Repeats), "league member repeats is wrong"),
];

#[test]
fn prints_faults_of_members(rt: HostRuntime) -> Result<(), Fail> {
    check_messages(&rt, rt.alloc(), MEMBERS)
}

const OTHERS: &[(LeagueFault, &str)] = &[
    (NotJson, "league is not JSON"),
    (TeamCount, "team count must be even, 4 to 40"),
    (DistanceShape, "distances are not n rows of n"),
    (DistanceRange, "a distance is over 1000000"),
    (Diagonal, "a distance from a team to itself is not 0"),
    (Asymmetric, "distances are not symmetric"),
    (TooManyRules, "more than 256 rules"),
    (RuleClass(0), "rule 1 has no known class"),
    (RuleValue(255), "rule 256 has a wrong value"),
    (Memory, "out of memory"),
];

#[test]
fn prints_faults(rt: HostRuntime) -> Result<(), Fail> {
    check_messages(&rt, rt.alloc(), OTHERS)
}
