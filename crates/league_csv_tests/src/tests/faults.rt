//! Tables that give no league, and what is said of them.

use super::checks::check_same;
use league_csv::{Settings, league_from_table};
use std::alloc::Global;
use std::process::Abort;
use std::test::Fail;

/// A table, and its fault.
type Case = (&'static str, &'static str);

const FAULTS: &[Case] = &[
    ("", "table has no row"),
    ("\n;;\n,,\n", "table has no row"),
    (
        "a,b,c,d,\n",
        "row on line 1: column 5 is no name of 1 to 40 bytes",
    ),
    (
        ",a,\"b\u{7f}\",c,d\na,0,1,1,1\n",
        "row on line 1: column 3 is no name of 1 to 40 bytes",
    ),
    (
        "a,b,c,12345678901234567890123456789012345678901\n",
        "row on line 1: column 4 is no name of 1 to 40 bytes",
    ),
    ("a,b\n0,1\n1,0\n", "team count must be even, 4 to 40"),
    (
        ",a,b,c,d,e\na,0,1,1,1,1\n",
        "team count must be even, 4 to 40",
    ),
    (
        "a,b,c,d\n0,1,1,1\n\n",
        "table ends before the row of team 2",
    ),
    (
        "a,b,c,d\n0,1,1,1\n1,0,1,1\n1,1,0,1\n1,1,1,0\n\n1,1,1,1\n",
        "row on line 7 is one too many",
    ),
    ("a,b,c,d\n0,1,1\n", "row on line 2: column 4 is not there"),
    (
        ",a,b,c,d\na,0,1,1\n",
        "row on line 2: column 5 is not there",
    ),
    (
        ",a,b,c,d\na,0,1,1,1,1\n",
        "row on line 2: column 6 is one too many",
    ),
    ("a,b,c,d\n0,1,x,1\n", "row on line 2: column 3 is no number"),
    (
        "a,b,c,d\n0,1,-1,1\n",
        "row on line 2: column 3 is no number",
    ),
    (
        "a,b,c,d\n0,1,\"1,5\",1\n",
        "row on line 2: column 3 is no number",
    ),
    (
        "a,b,c,d\n0,1,1000000,1000000.5\n",
        "row on line 2: column 4 is over 1000000",
    ),
    (
        "a,b,c,d\n0,1,1,1\n1,7,1,1\n",
        "row on line 3: column 2 is neither empty nor 0",
    ),
    (
        ",a,b,c,d\na,0,1,1,1\nc,1,0,1,1\n",
        "row on line 3: column 1 is not the name that the first row has here",
    ),
    (
        "a,b,c,d\n0,1,1,1\n1,0,1,5\n1,1,0,1\n1,4,1,0\n",
        "2 to 4 is 5, 4 to 2 is 4; --symmetric mean or max takes it",
    ),
];

fn check_case(rt: &impl Abort, alloc: Global, (table, wanted): Case) -> Result<(), Fail> {
    let told = match league_from_table(alloc, table.as_bytes(), None, Settings::default()) {
        Ok(_) => String::from_str(alloc, "a league")?,
        Err(fault) => format!(in alloc; "{fault}")?,
    };
    check_same(rt, &(table, told.as_str()), &(table, wanted));
    Ok(())
}

#[test]
fn each_fault_is_told(rt: HostRuntime) -> Result<(), Fail> {
    for &case in FAULTS {
        check_case(&rt, rt.alloc(), case)?;
    }
    Ok(())
}
