//! Pairs of teams that meet twice in one half of the season. The expected numbers were worked by hand from the Berger
//! table of four teams.

use crate::tests::checks::check_same;
use crate::tests::number_sets::teams_of;
use crate::tests::small_leagues::{Plan, rounds_exchanged, schedule};
use fixtures::{Schedule, Touched, berger};
use league::SlotSet;
use std::alloc::Global;
use std::process::Abort;
use std::test::Fail;
use tours::{unphased, unphased_part};

fn check_all_pairs(rt: &impl Abort, alloc: Global, plan: Plan, pairs: u64) -> Result<(), Fail> {
    check_same(rt, &unphased(&schedule(alloc, plan)?), &pairs);
    Ok(())
}

#[test]
fn pairs_in_one_half_of_the_starts(rt: HostRuntime) -> Result<(), Fail> {
    check_all_pairs(&rt, rt.alloc(), Plan::Berger(4), 0)?;
    check_all_pairs(&rt, rt.alloc(), Plan::Fide(4), 0)
}

#[test]
fn pairs_in_one_half(rt: HostRuntime) -> Result<(), Fail> {
    check_all_pairs(&rt, rt.alloc(), Plan::Rounds(2, 3), 4)
}

/// Teams, and how many pairs with one of them meet twice in one half, on the start with rounds 2 and 3 exchanged. On the
/// start itself none do.
const PAIRS: &[(&[u8], u64)] = &[(&[0], 2), (&[0, 1], 4), (&[0, 2], 3), (&[0, 1, 2, 3], 4)];

fn check_part(
    rt: &impl Abort,
    start: &Schedule,
    exchanged: &Schedule,
    (teams, pairs): (&[u8], u64),
) {
    let touched = Touched {
        teams: teams_of(teams),
        rounds: SlotSet::empty(),
    };
    let none = unphased_part(start, touched);
    let found = unphased_part(exchanged, touched);
    check_same(rt, &(teams, (none, found)), &(teams, (0, pairs)));
}

fn check_parts(rt: &impl Abort, alloc: Global, cases: &[(&[u8], u64)]) -> Result<(), Fail> {
    let start = berger(alloc, 4)?;
    let exchanged = rounds_exchanged(alloc, 2, 3)?;
    for &case in cases {
        check_part(rt, &start, &exchanged, case);
    }
    Ok(())
}

#[test]
fn pairs_in_one_half_with_some_teams(rt: HostRuntime) -> Result<(), Fail> {
    check_parts(&rt, rt.alloc(), PAIRS)
}
