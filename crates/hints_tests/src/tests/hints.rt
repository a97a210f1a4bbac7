//! The line that tells where a league's text has its fault, and what is wanted there. The lines of texts that are no JSON are those of
//! Python's reader.

use league::LeagueFault::{MissingField, WrongKind};
use league::{Field, LeagueFault};
use league_hints::hint_on;
use league_json::read_league;
use std::alloc::Global;
use std::process::Abort;
use std::test::Fail;

/// The members of four teams up to their distances, and from these on.
pub(super) const TEAMS: &str = r#"{"format":2,"teams":["A","B","C","D"],"distances":"#;

pub(super) const CIRCLE: &str = "[[0,1,2,1],[1,0,1,2],[2,1,0,1],[1,2,1,0]]";

/// A text behind the teams, and the line.
type Case = (&'static str, &'static str);

const DISTANCES: &[Case] = &[
    (
        "[[0,1,2,1],[1,0,1,2],3,[1,2,1,0]]",
        "see distances: row 3 is 3, an array of numbers is wanted",
    ),
    (
        r#"[[0,"1"],[1,0]]"#,
        r#"see distances: row 1, column 2 is "1", a whole number from 0 to 1000000 is wanted"#,
    ),
    ("[[0,1,2,1],[1,0,1,2]]", "see distances: 2 rows for 4 teams"),
    (
        "[[0,1,2,1],[1,0,1,2],[2,1,0,1],[1,2,1]]",
        "see distances: row 4 has length 3, 4 is wanted",
    ),
    (
        "[[0,1,2,1],[1,0,1,1000001],[2,1,0,1],[1,2,1,0]]",
        "see distances: row 2, column 4 is 1000001, a whole number from 0 to 1000000 is wanted",
    ),
    (
        "[[0,1,2,1],[1,0,1,2],[2,1,5,1],[1,2,1,0]]",
        "see distances: row 3, column 3 is 5, 0 is wanted",
    ),
    (
        "[[0,1,2,1],[1,0,1,2],[2,1,0,1],[1,3,1,0]]",
        "see distances: 2 to 4 is 2, 4 to 2 is 3",
    ),
    (
        "7",
        r#"see the league: member "distances" is 7, an array of arrays of numbers is wanted"#,
    ),
];

const RULES: &[Case] = &[
    (
        r#"{"class":"CA9"}"#,
        r#"see rule 1: member "class" is "CA9", CA1, CA2, CA3, CA4, GA1, BR1, BR2, SE1 or, in format 2, FA2 is wanted"#,
    ),
    (
        r#"{"kind":"hard"}"#,
        r#"see rule 1: member "class" is absent, CA1, CA2, CA3, CA4, GA1, BR1, BR2, SE1 or, in format 2, FA2 is wanted"#,
    ),
    (
        r#"{"class":"SE1"}"#,
        r#"see rule 1: member "kind" is absent, "hard" or "soft" is wanted"#,
    ),
    (
        r#"{"class":"SE1","kind":"Hard"}"#,
        r#"see rule 1: member "kind" is "Hard", "hard" or "soft" is wanted"#,
    ),
    (
        r#"{"class":"SE1","kind":"soft","weight":0}"#,
        r#"see rule 1: member "weight" is 0, a whole number from 1 to 1000000 is wanted"#,
    ),
    (
        r#"{"class":"SE1","kind":"hard","teams":[1,5,6],"min":1}"#,
        r#"see rule 1: member "teams" has 5, an array of team numbers from 1 to 4 is wanted"#,
    ),
    (
        r#"{"class":"SE1","kind":"hard","teams":[1,"B",5],"min":1}"#,
        r#"see rule 1: member "teams" has "B", an array of team numbers from 1 to 4 is wanted"#,
    ),
    (
        r#"{"class":"CA2","kind":"hard","teams1":1,"mode":"H","max":1}"#,
        r#"see rule 1: member "teams1" is 1, an array of team numbers from 1 to 4 is wanted"#,
    ),
    (
        r#"{"class":"CA2","kind":"hard","teams1":[1],"mode":"H","teams2":[0],"max":1}"#,
        r#"see rule 1: member "teams2" has 0, an array of team numbers from 1 to 4 is wanted"#,
    ),
    (
        r#"{"class":"CA1","kind":"hard","teams":[1],"mode":"HA","max":1}"#,
        r#"see rule 1: member "mode" is "HA", "H" or "A" is wanted"#,
    ),
    (
        r#"{"class":"BR1","kind":"hard","teams":[1],"intp":0}"#,
        r#"see rule 1: member "mode" is absent, "H", "A" or "HA" is wanted"#,
    ),
    (
        r#"{"class":"SE1","kind":"hard","teams":[1],"min":1},{"class":"CA3","kind":"hard","teams1":[1],"mode":"H","intp":7,"max":1}"#,
        r#"see rule 2: member "intp" is 7, a whole number from 1 to 6 is wanted"#,
    ),
    (
        r#"{"class":"CA4","kind":"hard","teams1":[1],"mode":"H","slots":[7],"mode2":"EVERY","max":1}"#,
        r#"see rule 1: member "slots" has 7, an array of round numbers from 1 to 6 is wanted"#,
    ),
    (
        r#"{"class":"CA4","kind":"hard","teams1":[1],"mode":"H","mode2":"each","max":1}"#,
        r#"see rule 1: member "mode2" is "each", "EVERY" or "GLOBAL" is wanted"#,
    ),
    (
        r#"{"class":"GA1","kind":"hard","games":[[1,1]],"min":0,"max":1}"#,
        r#"see rule 1: member "games" has [1, 1], an array of pairs of distinct team numbers from 1 to 4 is wanted"#,
    ),
    (
        r#"{"class":"GA1","kind":"hard","games":[[1,2],[1,2,3]],"min":0,"max":1}"#,
        r#"see rule 1: member "games" has an array of length 3, an array of pairs of distinct team numbers from 1 to 4 is wanted"#,
    ),
    (
        r#"{"class":"GA1","kind":"hard","games":{},"min":0,"max":1}"#,
        r#"see rule 1: member "games" is an object, an array of pairs of distinct team numbers from 1 to 4 is wanted"#,
    ),
    (
        r#"{"class":"SE1","kind":"a\u0007bcdefghijklmnopqrstuvwxyz0123456789äöü"}"#,
        r#"see rule 1: member "kind" is "a?bcdefghijklmnopqrstuvwxyz0123456789äöü", "hard" or "soft" is wanted"#,
    ),
    (
        r#"{"class":"SE1","kind":"abcdefghijklmnopqrstuvwxyz0123456789äöü東京"}"#,
        r#"see rule 1: member "kind" is "abcdefghijklmnopqrstuvwxyz0123456789äöü東..", "hard" or "soft" is wanted"#,
    ),
    (
        r#"{"class":"GA1","kind":"hard","games":[[1,2]],"min":2,"max":1}"#,
        r#"see rule 1: member "max" is 1, a number not below "min" is wanted"#,
    ),
    (
        r#"{"class":"BR2","kind":"hard","teams":[1]}"#,
        r#"see rule 1: member "intp" is absent, a whole number from 0 to 10000 is wanted"#,
    ),
];

/// A text for the four teams, and the line.
const NAMES: &[Case] = &[
    (
        r#"["A","B","東京東京東京東京東京東京東京","D"]"#,
        "see teams: number 3 \"東京東京東京東京東京東京東京\" has 42 bytes, a string of 1 to 40 bytes without control bytes is wanted",
    ),
    (
        r#"["A","","C",""]"#,
        "see teams: number 2 \"\" has 0 bytes, a string of 1 to 40 bytes without control bytes is wanted",
    ),
    (
        r#"["A","B","C","D\t"]"#,
        "see teams: number 4 \"D?\" has a control byte, a string of 1 to 40 bytes without control bytes is wanted",
    ),
    (
        r#"[1,"","C","D"]"#,
        "see teams: number 1 is 1, a string of 1 to 40 bytes without control bytes is wanted",
    ),
    (
        r#"["A","B","C","D","E"]"#,
        "see teams: 5 of them, an even number from 4 to 40 is wanted",
    ),
    (
        "[]",
        "see teams: 0 of them, an even number from 4 to 40 is wanted",
    ),
    (
        "4",
        r#"see the league: member "teams" is 4, an array of strings is wanted"#,
    ),
];

const TEXTS: &[Case] = &[
    ("{\"format\": 1,\n \"teams\": [,]}", "see line 2, column 12"),
    (
        "\u{feff}{\"format\": 1}",
        "see line 1: it begins with a byte order mark",
    ),
    ("", "see the text: it is empty"),
    (" \r\n\t", "see the text: it is empty"),
    (
        r#"{"format":1,"teams":["A","B","C","D"],"distances":[[0,1,1,1],[1,0,1,1],[1,1,0,1],[1,1,1,0]],"rules":[{"class":"FA2"}]}"#,
        r#"see rule 1: class FA2 needs "format": 2"#,
    ),
];

/// A text behind the distances of four teams, and the line.
const MEMBERS: &[Case] = &[
    (
        r#""at_most":0"#,
        r#"see the league: member "at_most" is 0, a whole number from 1 to 78 is wanted"#,
    ),
    (
        r#""at_most":null"#,
        r#"see the league: member "at_most" is null, a whole number from 1 to 78 is wanted"#,
    ),
    (
        r#""hard_weight":1000001"#,
        r#"see the league: member "hard_weight" is 1000001, a whole number from 1 to 1000000 is wanted"#,
    ),
    (
        r#""rules":{"class":"SE1"}"#,
        r#"see the league: member "rules" is an object, an array of objects is wanted"#,
    ),
    (
        r#""rules":[{},["SE1"]]"#,
        "see rule 2: it is an array of length 1, an object is wanted",
    ),
    (
        r#""start":"FIDE""#,
        r#"see the league: member "start" is "FIDE", "plain" or "fide" is wanted"#,
    ),
    (
        r#""phased":"true""#,
        r#"see the league: member "phased" is "true", true or false is wanted"#,
    ),
];

/// A text, its fault, and the line.
type Fault = (&'static str, LeagueFault, &'static str);

/// A text for each fault of a league's members.
const FAULTS: &[Fault] = &[
    (
        "[1, 2]",
        WrongKind(Field::Whole),
        "see the text: it is [1, 2], an object is wanted",
    ),
    (
        "{}",
        MissingField(Field::Format),
        r#"see the league: member "format" is absent, a whole number from 1 to 3 is wanted"#,
    ),
    (
        r#"{"format":4}"#,
        WrongKind(Field::Format),
        r#"see the league: member "format" is 4, a whole number from 1 to 3 is wanted"#,
    ),
    (
        r#"{"format":1}"#,
        MissingField(Field::Teams),
        r#"see the league: member "teams" is absent, an array of strings is wanted"#,
    ),
    (
        r#"{"format":1,"teams":false}"#,
        WrongKind(Field::Teams),
        r#"see the league: member "teams" is false, an array of strings is wanted"#,
    ),
    (
        r#"{"format":1,"teams":[]}"#,
        MissingField(Field::Distances),
        r#"see the league: member "distances" is absent, an array of arrays of numbers is wanted"#,
    ),
];

pub(super) fn check_hint(
    rt: &impl Abort,
    alloc: Global,
    text: &str,
    line: &str,
) -> Result<(), Fail> {
    let fault = match read_league(alloc, text.as_bytes()) {
        Ok(_) => LeagueFault::Memory,
        Err(fault) => fault,
    };
    let found = match hint_on(alloc, text.as_bytes(), fault)? {
        Some(hint) => format!(in alloc; "{hint}")?,
        None => String::new(alloc),
    };
    assert_eq!(rt; found.as_str(), line, "{text}");
    Ok(())
}

#[test]
fn text_that_is_no_league_has_its_place(rt: HostRuntime) -> Result<(), Fail> {
    for &(text, line) in TEXTS {
        check_hint(&rt, rt.alloc(), text, line)?;
    }
    Ok(())
}

#[test]
fn text_that_is_no_utf8_has_its_line(rt: HostRuntime) -> Result<(), Fail> {
    let text = b"{\"format\": 1,\n\"teams\": [\"A\xff\"]}";
    let hint = hint_on(rt.alloc(), text, LeagueFault::NotJson)?;
    let line = match hint {
        Some(hint) => format!(in rt.alloc(); "{hint}")?,
        None => String::new(rt.alloc()),
    };
    assert_eq!(&rt; line.as_str(), "see line 2: it is no UTF-8");
    Ok(())
}

#[test]
fn each_fault_of_a_member_has_its_line(rt: HostRuntime) -> Result<(), Fail> {
    for &(text, fault, line) in FAULTS {
        assert_eq!(&rt;
            read_league(rt.alloc(), text.as_bytes()).err(),
            Some(fault),
            "{text}"
        );
        check_hint(&rt, rt.alloc(), text, line)?;
    }
    Ok(())
}

#[test]
fn wrong_member_has_its_name(rt: HostRuntime) -> Result<(), Fail> {
    for &(members, line) in MEMBERS {
        let text = format!(in rt.alloc(); "{TEAMS}{CIRCLE},{members}}}")?;
        check_hint(&rt, rt.alloc(), text.as_str(), line)?;
    }
    Ok(())
}

#[test]
fn too_many_rules_are_counted(rt: HostRuntime) -> Result<(), Fail> {
    let mut text = format!(in rt.alloc(); "{TEAMS}{CIRCLE},\"rules\":[{{}}")?;
    for _ in 0..256 {
        text.push_str(",{}")?;
    }
    text.push_str("]}")?;
    let line = "see rules: 257 of them, at most 256 are wanted";
    check_hint(&rt, rt.alloc(), text.as_str(), line)
}

#[test]
fn wrong_team_has_its_number(rt: HostRuntime) -> Result<(), Fail> {
    for &(teams, line) in NAMES {
        let text = format!(in rt.alloc(); "{{\"format\":1,\"teams\":{teams},\"distances\":[]}}")?;
        check_hint(&rt, rt.alloc(), text.as_str(), line)?;
    }
    Ok(())
}

#[test]
fn wrong_distance_has_its_row_and_column(rt: HostRuntime) -> Result<(), Fail> {
    for &(distances, line) in DISTANCES {
        let text = format!(in rt.alloc(); "{TEAMS}{distances}}}")?;
        check_hint(&rt, rt.alloc(), text.as_str(), line)?;
    }
    Ok(())
}

#[test]
fn refused_rule_has_its_member_and_what_is_wanted(rt: HostRuntime) -> Result<(), Fail> {
    for &(rules, line) in RULES {
        let text = format!(in rt.alloc(); "{TEAMS}{CIRCLE},\"rules\":[{rules}]}}")?;
        check_hint(&rt, rt.alloc(), text.as_str(), line)?;
    }
    Ok(())
}
