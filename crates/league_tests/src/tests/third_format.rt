//! The members that the third format of a league's text has besides.

use crate::tests::checks::check_same;
use crate::tests::league_texts::{
    CIRCLE, check_circle, check_fault, circle_with, rules_text, with_rules,
};
use league::LeagueFault::{self, RuleValue, WrongKind};
use league::{Field, League};
use std::alloc::Global;
use std::process::Abort;
use std::test::Fail;

const ALL: &str =
    r#","name":"A cup","short":["A","B","C","DDDDDD"],"rounds":["1","2","3","4","5","Sunday, 1 March 2026"],"repeats":"free""#;

/// The league's name, the short name of its last team, what its last round is called, and whether repeats are free.
type Besides = (
    Option<&'static str>,
    Option<&'static str>,
    Option<&'static str>,
    bool,
);

const NONE: Besides = (None, None, None, false);

const READ: &[(u64, &str, Besides)] = &[
    (1, ALL, NONE),
    (2, ALL, NONE),
    (2, r#","name":1,"short":1,"rounds":1,"repeats":1"#, NONE),
    (3, "", NONE),
    (
        3,
        ALL,
        (
            Some("A cup"),
            Some("DDDDDD"),
            Some("Sunday, 1 March 2026"),
            true,
        ),
    ),
    (3, r#","name":"A""#, (Some("A"), None, None, false)),
    (
        3,
        r#","short":["A","A","A","A"]"#,
        (None, Some("A"), None, false),
    ),
    (
        3,
        r#","rounds":["1","2","3","4","5","6"]"#,
        (None, None, Some("6"), false),
    ),
    (3, r#","repeats":"free""#, (None, None, None, true)),
    (3, r#","repeats":"forbidden""#, NONE),
    (3, r#","repeats":"free","repeats":"forbidden""#, NONE),
];

fn besides(league: &League) -> (Option<&str>, Option<&str>, Option<&str>, bool) {
    (
        league.title(),
        league.short_name(3),
        league.round_text(5),
        league.free_repeats(),
    )
}

#[test]
fn reads_labels_and_whether_repeats_are_free(rt: HostRuntime) -> Result<(), Fail> {
    for &(format, more, expected) in READ {
        let league = circle_with(rt.alloc(), format, more)?;
        check_same(&rt, &(more, besides(&league)), &(more, expected));
        let copy = league.duplicate(rt.alloc())?;
        check_same(&rt, &(more, besides(&copy)), &(more, expected));
    }
    Ok(())
}

// of teams and rounds in the order of the text, and beyond it
fn check_each(rt: &impl Abort, league: &League) {
    let names = (
        league.short_name(0),
        league.short_name(2),
        league.short_name(4),
    );
    check_same(rt, &names, &(Some("A"), Some("C"), None));
    let texts = (
        league.round_text(0),
        league.round_text(4),
        league.round_text(6),
    );
    check_same(rt, &texts, &(Some("1"), Some("5"), None));
}

#[test]
fn labels_stand_in_the_order_of_the_text(rt: HostRuntime) -> Result<(), Fail> {
    check_each(&rt, &circle_with(rt.alloc(), 3, ALL)?);
    Ok(())
}

const FAULTS: &[(&str, Field)] = &[
    (r#","name":"""#, Field::Name),
    (r#","name":1"#, Field::Name),
    (r#","name":null"#, Field::Name),
    (r#","name":"a\tb""#, Field::Name),
    (
        r#","name":"01234567890123456789012345678901234567890123456789012345678901234567890123456789X""#,
        Field::Name,
    ),
    (r#","short":["A","B","C"]"#, Field::Short),
    (r#","short":["A","B","C","D","E"]"#, Field::Short),
    (r#","short":[]"#, Field::Short),
    (r#","short":["A","B","C",""]"#, Field::Short),
    (r#","short":["A","B","C","1234567"]"#, Field::Short),
    (r#","short":["A","B","C","\u007f"]"#, Field::Short),
    (r#","short":["A","B","C",4]"#, Field::Short),
    (r#","short":"ABCD""#, Field::Short),
    (r#","rounds":["1","2","3","4","5"]"#, Field::Rounds),
    (r#","rounds":["1","2","3","4","5","6","7"]"#, Field::Rounds),
    (r#","rounds":["1","2","3","4","5",6]"#, Field::Rounds),
    (
        r#","rounds":["1","2","3","4","5","012345678901234567890"]"#,
        Field::Rounds,
    ),
    (r#","rounds":6"#, Field::Rounds),
    (r#","repeats":"Free""#, Field::Repeats),
    (r#","repeats":true"#, Field::Repeats),
    (r#","repeats":null"#, Field::Repeats),
    (
        r#","repeats":1,"rounds":1,"short":1,"name":1,"phased":1"#,
        Field::Phased,
    ),
    (r#","repeats":1,"rounds":1,"short":1,"name":1"#, Field::Name),
    (r#","repeats":1,"rounds":1,"short":1"#, Field::Short),
    (r#","repeats":1,"rounds":1"#, Field::Rounds),
    (r#","repeats":1,"rules":[{}]"#, Field::Repeats),
];

#[test]
fn tells_faults_of_the_third_format(rt: HostRuntime) -> Result<(), Fail> {
    for &(more, field) in FAULTS {
        check_circle(&rt, rt.alloc(), 3, (more, WrongKind(field)))?;
    }
    Ok(())
}

/// The longest name there is.
const TITLE: &str =
    r#","name":"01234567890123456789012345678901234567890123456789012345678901234567890123456789""#;

#[test]
fn reads_a_name_of_eighty_bytes(rt: HostRuntime) -> Result<(), Fail> {
    let league = circle_with(rt.alloc(), 3, TITLE)?;
    check_same(&rt, &league.title().map(|title| title.len()), &Some(80));
    Ok(())
}

/// Rules in names, and the same in numbers.
const NAMED: &[(&str, &str)] = &[
    (
        r#"[{"class":"SE1","kind":"hard","teams":["T4",1,"T1"],"min":3}]"#,
        r#"[{"class":"SE1","kind":"hard","teams":[1,4],"min":3}]"#,
    ),
    (
        r#"[{"class":"CA2","kind":"hard","teams1":["T2"],"teams2":["T3","T1"],"mode":"H","max":0}]"#,
        r#"[{"class":"CA2","kind":"hard","teams1":[2],"teams2":[1,3],"mode":"H","max":0}]"#,
    ),
    (
        r#"[{"class":"GA1","kind":"hard","games":[["T3","T2"],[1,"T4"]],"min":1,"max":1}]"#,
        r#"[{"class":"GA1","kind":"hard","games":[[3,2],[1,4]],"min":1,"max":1}]"#,
    ),
];

// the rules with names, which formats before the third refuse, are those with numbers
fn check_named(rt: &impl Abort, alloc: Global, named: &str, numbered: &str) -> Result<(), Fail> {
    let wanted = with_rules(alloc, 3, numbered)?;
    check_same(
        rt,
        &(named, with_rules(alloc, 3, named)?.is_same(&wanted)),
        &(named, true),
    );
    check_same(
        rt,
        &(numbered, with_rules(alloc, 1, numbered)?.is_same(&wanted)),
        &(numbered, true),
    );
    let second = rules_text(alloc, 2, named)?;
    check_fault(rt, alloc, second.as_str(), Some(RuleValue(0)));
    Ok(())
}

#[test]
fn rules_list_teams_by_name(rt: HostRuntime) -> Result<(), Fail> {
    for &(named, numbered) in NAMED {
        check_named(&rt, rt.alloc(), named, numbered)?;
    }
    Ok(())
}

/// Teams that a rule lists, and whether that is wrong, if the teams are A, B, A and 4.
const LISTED: &[(&str, Option<LeagueFault>)] = &[
    (r#"["B"]"#, None),
    (r#"["4"]"#, None),
    (r#"["A"]"#, Some(RuleValue(0))),
    (r#"["B","A"]"#, Some(RuleValue(0))),
    (r#"["a"]"#, Some(RuleValue(0))),
    (r#"["1"]"#, Some(RuleValue(0))),
    (r#"["T1"]"#, Some(RuleValue(0))),
    (r#"[""]"#, Some(RuleValue(0))),
    ("[1,2,3,4]", None),
    ("[5]", Some(RuleValue(0))),
];

#[test]
fn tells_names_of_no_team_and_of_two(rt: HostRuntime) -> Result<(), Fail> {
    let alloc = rt.alloc();
    for &(teams, fault) in LISTED {
        let text = format!(in alloc;
            "{{\"format\":3,\"teams\":[\"A\",\"B\",\"A\",\"4\"],\"distances\":{CIRCLE},\"rules\":[{{\"class\":\"SE1\",\"kind\":\"hard\",\"teams\":{teams},\"min\":3}}]}}"
        )?;
        check_fault(&rt, alloc, text.as_str(), fault);
    }
    Ok(())
}
