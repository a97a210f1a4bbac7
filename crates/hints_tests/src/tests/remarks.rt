//! Remarks on members that aren't known.

use league_hints::remarks_on;
use std::alloc::Global;
use std::process::Abort;
use std::test::Fail;

/// A text, and the remarks on it.
type Case = (&'static str, &'static str);

const CASES: &[Case] = &[
    (
        r#"{"format":1,"teams":[],"distances":[],"at_most":3,"hard_weight":1,"rules":[],"start":1,"phased":1}"#,
        "",
    ),
    (
        r#"{"at_msot":2}"#,
        "remark: the league has a member at_msot, which is not read\n",
    ),
    (
        r#"{"zeta":1,"Teams":1,"zeta":2}"#,
        "remark: the league has a member Teams, which is not read\nremark: the league has a member zeta, which is not read\n",
    ),
    (
        r#"{"rules":[{"class":1,"kind":1,"weight":1,"teams":1,"teams1":1,"teams2":1,"slots":1,
            "mode":1,"mode2":1,"max":1,"min":1,"intp":1,"games":1},{"mx":1}]}"#,
        "remark: rule 2 has a member mx, which is not read\n",
    ),
    (
        "{\"a\\n\u{7f}\u{e9}\":1}",
        "remark: the league has a member a??\u{e9}, which is not read\n",
    ),
    (
        r#"{"format":2,"name":1,"repeats":1}"#,
        "remark: the league has a member name, which is not read\nremark: the league has a member repeats, which is not read\n",
    ),
    (
        r#"{"format":3,"name":1,"short":1,"rounds":1,"repeats":1,"shorts":1}"#,
        "remark: the league has a member shorts, which is not read\n",
    ),
    (
        r#"{"format":4,"rounds":1}"#,
        "remark: the league has a member rounds, which is not read\n",
    ),
    ("{", ""),
    ("[1]", ""),
    (r#"{"rules":[3]}"#, ""),
];

fn check_remarks(rt: &impl Abort, alloc: Global, (text, remarks): Case) -> Result<(), Fail> {
    let found = remarks_on(alloc, text.as_bytes())?;
    assert_eq!(rt; found.as_slice(), remarks.as_bytes(), "{text}");
    Ok(())
}

#[test]
fn members_that_are_not_known_have_remarks(rt: HostRuntime) -> Result<(), Fail> {
    for &case in CASES {
        check_remarks(&rt, rt.alloc(), case)?;
    }
    Ok(())
}
