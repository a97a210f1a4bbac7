//! The line that tells what is wrong in a league of the third format.

use crate::tests::hints::{CIRCLE, check_hint};
use std::test::Fail;

/// The members of four teams, two of which have one name.
const TEAMS: &str = r#"{"format":3,"teams":["FC Basel","YB","YB","Sion"],"distances":"#;

/// Members, and the line.
const MEMBERS: &[(&str, &str)] = &[
    (
        r#""name":"""#,
        r#"see the league: member "name" is "", a string of 1 to 80 bytes without control bytes is wanted"#,
    ),
    (
        r#""short":"FCB""#,
        r#"see the league: member "short" is "FCB", an array of a string of 1 to 6 bytes for each team is wanted"#,
    ),
    (
        r#""short":["FCB","YB1","YB2"]"#,
        r#"see the league: member "short" has length 3, an array of a string of 1 to 6 bytes for each team is wanted"#,
    ),
    (
        r#""short":["FCB","FC Basel","YB1",4]"#,
        r#"see the league: member "short" has "FC Basel", an array of a string of 1 to 6 bytes for each team is wanted"#,
    ),
    (
        r#""rounds":["1","2","3","4","5",6]"#,
        r#"see the league: member "rounds" has 6, an array of a string of 1 to 20 bytes for each round is wanted"#,
    ),
    (
        r#""rounds":["1","2","3","4","5"]"#,
        r#"see the league: member "rounds" has length 5, an array of a string of 1 to 20 bytes for each round is wanted"#,
    ),
    (
        r#""repeats":"allowed""#,
        r#"see the league: member "repeats" is "allowed", "forbidden" or "free" is wanted"#,
    ),
];

#[test]
fn wrong_member_of_the_third_format_has_its_name(rt: HostRuntime) -> Result<(), Fail> {
    for &(members, line) in MEMBERS {
        let text = format!(in rt.alloc(); "{TEAMS}{CIRCLE},{members}}}")?;
        check_hint(&rt, rt.alloc(), text.as_str(), line)?;
    }
    Ok(())
}

/// A rule, and the line.
const RULES: &[(&str, &str)] = &[
    (
        r#"{"class":"SE1","kind":"hard","teams":[1,"FC Bassel"],"min":3}"#,
        r#"see rule 1: member "teams" names "FC Bassel", no team is called so"#,
    ),
    (
        r#"{"class":"SE1","kind":"hard","teams":["FC Basel","YB"],"min":3}"#,
        r#"see rule 1: member "teams" names "YB", several teams are called so"#,
    ),
    (
        r#"{"class":"CA2","kind":"hard","teams1":["Sion"],"teams2":["sion"],"mode":"H","max":0}"#,
        r#"see rule 1: member "teams2" names "sion", no team is called so"#,
    ),
    (
        r#"{"class":"GA1","kind":"hard","games":[["FC Basel","Sion"],["YB",5]],"min":0,"max":1}"#,
        r#"see rule 1: member "games" names "YB", several teams are called so"#,
    ),
    (
        r#"{"class":"SE1","kind":"hard","teams":["Sion",5],"min":3}"#,
        r#"see rule 1: member "teams" has 5, an array of team names, or numbers from 1 to 4 is wanted"#,
    ),
    (
        r#"{"class":"SE1","kind":"hard","teams":"Sion","min":3}"#,
        r#"see rule 1: member "teams" is "Sion", an array of team names, or numbers from 1 to 4 is wanted"#,
    ),
    (
        r#"{"class":"GA1","kind":"hard","games":[[1,"FC Basel"]],"min":0,"max":1}"#,
        r#"see rule 1: member "games" has an array of length 2, an array of pairs of distinct teams, by name or by number from 1 to 4 is wanted"#,
    ),
    (
        r#"{"class":"SE1","kind":"hard","teams":["Sion"],"min":-1}"#,
        r#"see rule 1: member "min" is -1, a whole number from 0 to 10000 is wanted"#,
    ),
];

#[test]
fn wrong_name_in_a_rule_is_told(rt: HostRuntime) -> Result<(), Fail> {
    for &(rule, line) in RULES {
        let text = format!(in rt.alloc(); "{TEAMS}{CIRCLE},\"rules\":[{rule}]}}")?;
        check_hint(&rt, rt.alloc(), text.as_str(), line)?;
    }
    Ok(())
}
