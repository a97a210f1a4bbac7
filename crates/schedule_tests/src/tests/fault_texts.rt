//! What faults say.

use crate::tests::checks::check_same;
use fixtures::FixtureFault;
use moves::MoveFault;
use std::alloc::Global;
use std::fmt::Display;
use std::process::Abort;
use std::test::Fail;

fn check_text(
    rt: &impl Abort,
    alloc: Global,
    fault: &impl Display,
    text: &str,
) -> Result<(), Fail> {
    let found = format!(in alloc; "{fault}")?;
    check_same(rt, &found.as_str(), &text);
    Ok(())
}

#[test]
fn faults_have_their_texts(rt: HostRuntime) -> Result<(), Fail> {
    let text = "the games are no double round robin";
    check_text(&rt, rt.alloc(), &FixtureFault::NotRoundRobin, text)?;
    check_text(&rt, rt.alloc(), &FixtureFault::Memory, "out of memory")?;
    check_text(&rt, rt.alloc(), &MoveFault::BadMove, "bad move")?;
    check_text(&rt, rt.alloc(), &MoveFault::Meet, "meet")
}
