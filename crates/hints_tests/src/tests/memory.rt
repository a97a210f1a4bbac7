//! Hints and remarks, whatever allocation is refused. The commands that `./test-memory` sweeps go without one where there is
//! no memory for it, so here each has to be right.

use league::LeagueFault::{self, Diagonal, NotJson};
use league_hints::{hint_on, remarks_on};
use std::alloc::{AllocError, Global};
use std::process::Abort;
use std::test::Fail;

/// A text with a fault, and the line that tells where it lies.
type Case = (&'static str, LeagueFault, &'static str);

/// A distance that isn't 0 from a team to itself, and a text that is no JSON.
const HINTS: [Case; 2] = [
    (
        r#"{"format":1,"teams":["A","B","C","D"],"distances":[[0,1,2,1],[1,0,1,2],[2,1,5,1],[1,2,1,0]]}"#,
        Diagonal,
        "see distances: row 3, column 3 is 5, 0 is wanted",
    ),
    (
        "{\"format\": 1,\n \"teams\": [,]}",
        NotJson,
        "see line 2, column 12",
    ),
];

const UNKNOWN: &str = r#"{"format":1,"at_msot":2,"rules":[{"class":"SE1","mx":1}]}"#;

const REMARKS: &[u8] = b"remark: the league has a member at_msot, which is not read\n\
    remark: rule 1 has a member mx, which is not read\n";

fn check_hint(rt: &impl Abort, alloc: Global, case: Case) -> Result<(), AllocError> {
    let (text, fault, line) = case;
    let found = match hint_on(alloc, text.as_bytes(), fault)? {
        Some(hint) => format!(in alloc; "{hint}")?,
        None => String::new(alloc),
    };
    assert_eq!(rt; found.as_str(), line, "{text}");
    Ok(())
}

fn check_remarks(rt: &impl Abort, alloc: Global) -> Result<(), Fail> {
    let found = remarks_on(alloc, UNKNOWN.as_bytes())?;
    assert_eq!(rt; found.as_slice(), REMARKS);
    Ok(())
}

#[test]
fn hints_and_memory(rt: HostRuntime) -> Result<(), Fail> {
    for case in HINTS {
        check_hint(&rt, rt.alloc(), case)?;
    }
    check_remarks(&rt, rt.alloc())
}
