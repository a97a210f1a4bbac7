//! Tables, and the leagues that they give.

use super::checks::check_same;
use league_csv::{Settings, Symmetry, league_from_table};
use league_json::read_league;
use std::alloc::Global;
use std::process::Abort;
use std::str;
use std::test::Fail;

/// A table, what is taken for a pair that is further apart one way, and how many distances are rounded.
type Case = (&'static str, Option<Symmetry>, u64);

const NOTHING_SAID: Settings = Settings {
    title: None,
    at_most: None,
    hard_weight: None,
};

/// The league of leagues/valley-4.json, in format 3.
const VALLEY: &str = r#"{
  "format": 3,
  "teams": ["Aldersey", "Brookfold", "Carrowby", "Dunmarsh"],
  "distances": [
    [0, 34, 57, 121],
    [34, 0, 41, 98],
    [57, 41, 0, 76],
    [121, 98, 76, 0]
  ]
}
"#;

/// Each gives the valley.
const VALLEYS: &[Case] = &[
    (
        ",Aldersey,Brookfold,Carrowby,Dunmarsh\nAldersey,0,34,57,121\nBrookfold,34,0,41,98\nCarrowby,57,41,0,76\nDunmarsh,121,98,76,0\n",
        None,
        0,
    ),
    (
        "Aldersey,Brookfold,Carrowby,Dunmarsh\n0,34,57,121\n34,0,41,98\n57,41,0,76\n121,98,76,0",
        None,
        0,
    ),
    (
        "\u{feff}km;Aldersey;\"Brookfold\";Carrowby;Dunmarsh\r\n\r\nAldersey;;34,4;57;121\r\n;;;;\r\nBrookfold;34,4;0,0;41;98\r\nCarrowby;57;41;;76\r\n\"Dunmarsh\";121;98;76;\r\n",
        None,
        2,
    ),
    (
        "\n\tAldersey\tBrookfold\tCarrowby\tDunmarsh\nAldersey\t0\t33.5\t57.00\t121\nBrookfold\t33.5\t0\t41\t98\nCarrowby\t57\t41\t0\t76.49\nDunmarsh\t121\t98\t75.50\t0\n",
        Some(Symmetry::Max),
        4,
    ),
    (
        "Aldersey,Brookfold,Carrowby,Dunmarsh\n0,33,57,121\n34,0,40,98\n57,42,0,76\n121,98,76,0\n",
        Some(Symmetry::Mean),
        0,
    ),
    (
        "Aldersey,Brookfold,Carrowby,Dunmarsh\n0,33,57,121\n34,0,41,98\n57,12,0,76\n121,98,76,0\n",
        Some(Symmetry::Max),
        0,
    ),
];

fn check_case(rt: &impl Abort, alloc: Global, (table, choice, rounded): Case) -> Result<(), Fail> {
    let made = league_from_table(alloc, table.as_bytes(), choice, NOTHING_SAID)?;
    check_same(
        rt,
        &(str::from_utf8(&made.text), made.rounded),
        &(Ok(VALLEY), rounded),
    );
    Ok(())
}

#[test]
fn each_form_gives_the_valley(rt: HostRuntime) -> Result<(), Fail> {
    for &case in VALLEYS {
        check_case(&rt, rt.alloc(), case)?;
    }
    Ok(())
}

/// Names with marks, commas and a backslash, and all that is said beside them.
const QUOTED: &str = "\"a \"\"b\"\"\",\"c, d\",e\\f,\u{fc}\n0,1,1,1\n1,0,1,1\n1,1,0,1\n1,1,1,0\n";

const QUOTED_LEAGUE: &str = r#"{
  "format": 3,
  "name": "Cup \"ü\"",
  "teams": ["a \"b\"", "c, d", "e\\f", "ü"],
  "distances": [
    [0, 1, 1, 1],
    [1, 0, 1, 1],
    [1, 1, 0, 1],
    [1, 1, 1, 0]
  ],
  "at_most": 2,
  "hard_weight": 1000000
}
"#;

#[test]
fn names_and_terms_are_said(rt: HostRuntime) -> Result<(), Fail> {
    let alloc = rt.alloc();
    let settings = Settings {
        title: Some("Cup \"\u{fc}\""),
        at_most: Some(2),
        hard_weight: Some(1_000_000),
    };
    let made = league_from_table(alloc, QUOTED.as_bytes(), None, settings)?;
    check_same(&rt, &str::from_utf8(&made.text), &Ok(QUOTED_LEAGUE));
    let league = read_league(alloc, &made.text)?;
    let said = (league.name(0), league.at_most(), league.hard_weight());
    check_same(&rt, &said, &("a \"b\"", 2, 1_000_000));
    check_same(&rt, &league.title(), &Some("Cup \"\u{fc}\""));
    Ok(())
}
