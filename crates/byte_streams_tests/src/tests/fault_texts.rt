//! What faults say.

use super::checks::check_same;
use byte_streams::{ReadFault, WriteFault};
use std::alloc::Global;
use std::fmt::Display;
use std::process::Abort;
use std::test::Fail;

fn check_says(
    rt: &impl Abort,
    alloc: Global,
    fault: &impl Display,
    text: &str,
) -> Result<(), Fail> {
    check_same(rt, &format!(in alloc; "{fault}")?.as_str(), &text);
    Ok(())
}

#[test]
fn faults_say_what_could_not_be_done(rt: HostRuntime) -> Result<(), Fail> {
    let alloc = rt.alloc();
    check_says(&rt, alloc, &ReadFault::Read, "input cannot be read")?;
    check_says(
        &rt,
        alloc,
        &ReadFault::TooLong,
        "input is over 4194304 bytes",
    )?;
    check_says(&rt, alloc, &ReadFault::Memory, "out of memory")?;
    check_says(&rt, alloc, &WriteFault, "output cannot be written")
}
