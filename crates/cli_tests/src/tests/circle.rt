//! A league that several tests share, whole and in parts, and the sheet of its start.

/// Four teams in a circle.
pub(crate) const CIRCLE: &str =
    r#"{"format":1,"teams":["T1","T2","T3","T4"],"distances":[[0,1,2,1],[1,0,1,2],[2,1,0,1],[1,2,1,0]]}"#;

/// The beginning of a league in each format.
pub(crate) const FIRST: &str = r#"{"format":1,"#;

pub(crate) const SECOND: &str = r#"{"format":2,"#;

pub(crate) const THIRD: &str = r#"{"format":3,"#;

/// The teams and distances of that circle, behind the beginning and before the members that are told besides.
pub(crate) const FOUR: &str =
    r#""teams":["T1","T2","T3","T4"],"distances":[[0,1,2,1],[1,0,1,2],[2,1,0,1],[1,2,1,0]]"#;

pub(crate) const SHEET: &str = "league 4 teams 6 rounds\n\
    team 1 HHAAAH T1\n\
    team 2 HAHAHA T2\n\
    team 3 AAHHHA T3\n\
    team 4 AHAHAH T4\n\
    round 1: 1-4 2-3\n\
    round 2: 1-2 4-3\n\
    round 3: 2-4 3-1\n\
    round 4: 3-2 4-1\n\
    round 5: 2-1 3-4\n\
    round 6: 1-3 4-2\n";
