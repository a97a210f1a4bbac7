//! The members that the second format of a league's text has besides.

use crate::tests::checks::check_same;
use crate::tests::league_texts::{check_circle, circle_with};
use league::LeagueFault::WrongKind;
use league::{Field, League};
use std::process::Abort;
use std::test::Fail;

const FIDE_AND_PHASED: &str = r#","start":"fide","phased":true"#;

/// A format, members, and whether the league that is read starts in the order of FIDE and is phased.
type Start = (u64, &'static str, (bool, bool));

const STARTS: &[Start] = &[
    (1, "", (false, false)),
    (1, FIDE_AND_PHASED, (false, false)),
    (1, r#","start":7,"phased":7"#, (false, false)),
    (2, "", (false, false)),
    (2, r#","start":"plain","phased":false"#, (false, false)),
    (2, r#","start":"fide""#, (true, false)),
    (2, r#","phased":true"#, (false, true)),
    (2, FIDE_AND_PHASED, (true, true)),
    (2, r#","start":"fide","start":"plain""#, (false, false)),
];

fn check_order_and_phases(rt: &impl Abort, league: &League, expected: (bool, bool)) {
    check_same(rt, &(league.fide(), league.phased()), &expected);
}

#[test]
fn reads_the_order_of_the_start_and_the_phases(rt: HostRuntime) -> Result<(), Fail> {
    for &(format, more, expected) in STARTS {
        let league = circle_with(rt.alloc(), format, more)?;
        check_order_and_phases(&rt, &league, expected);
    }
    Ok(())
}

const FAULTS: &[(&str, Field)] = &[
    (r#","start":"FIDE""#, Field::Start),
    (r#","start":"""#, Field::Start),
    (r#","start":true"#, Field::Start),
    (r#","start":null"#, Field::Start),
    (r#","phased":1"#, Field::Phased),
    (r#","phased":"true""#, Field::Phased),
    (r#","phased":null"#, Field::Phased),
    (r#","phased":1,"start":1"#, Field::Start),
    (r#","start":1,"rules":1"#, Field::Rules),
    (r#","phased":1,"rules":[{}]"#, Field::Phased),
];

#[test]
fn tells_faults_of_the_second_format(rt: HostRuntime) -> Result<(), Fail> {
    for &(more, field) in FAULTS {
        let case = (more, WrongKind(field));
        check_circle(&rt, rt.alloc(), 2, case)?;
    }
    Ok(())
}
