//! What faults say.

use crate::tests::checks::check_same;
use search::RunFault;
use std::alloc::Global;
use std::process::Abort;
use std::test::Fail;

const TEXTS: &[(RunFault, &str)] = &[
    (RunFault::Workers, "the number of workers is not 1 to 16"),
    (RunFault::Spawn, "a worker could not be started"),
    (
        RunFault::Receipts,
        "the reports do not add up to the board's history",
    ),
    (RunFault::Memory, "out of memory"),
];

fn check_text(rt: &impl Abort, alloc: Global, fault: RunFault, text: &str) -> Result<(), Fail> {
    let reported = format!(in alloc; "{fault}")?;
    check_same(rt, &reported.as_str(), &text);
    Ok(())
}

#[test]
fn faults_have_their_texts(rt: HostRuntime) -> Result<(), Fail> {
    for &(fault, text) in TEXTS {
        check_text(&rt, rt.alloc(), fault, text)?;
    }
    Ok(())
}
