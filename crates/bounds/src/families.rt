//! Which sets of opponents have prices.

ghost use Rattle.std.specs.Prelude.{◌≡◌, ◌<◌, ◌≢◌, IfOk, IfSome};
ghost use Rattle.league.specs.League.{teams};
ghost use Rattle.bounds.specs.within.Prices.{IsOfOpponents, AreOfOpponents};

use crate::travellers::Traveller;
use league::League;
use league::limits::MAX_DISTANCE;
use sets::TeamSet;
use std::alloc::{AllocError, Global};

/// Single opponents; the sets that grow from each by those with which it saves most, but for such as full trips can visit alone; and
/// all opponents, the last.
pub(crate) fn priced_sets(
    alloc: Global,
    league: &League,
    traveller: Traveller,
) -> Result<Vec<TeamSet>, AllocError>
    requires { traveller.teams ≡ teams league.now }
    ensures { IfOk result (λ sets. AreOfOpponents traveller.teams traveller.home sets.items) }
{
    let mut sets = Vec::new(alloc);
    for j in 0..traveller.teams {
        if j != traveller.home {
            push_new(traveller, single(traveller, j), &mut sets)?;
        }
    }
    for j in 0..traveller.teams {
        if j != traveller.home {
            push_grown(league, traveller, j, &mut sets)?;
        }
    }
    push_new(traveller, all_opponents(traveller), &mut sets)?;
    Ok(sets)
}

fn single(traveller: Traveller, j: u8) -> TeamSet
    requires j { j < traveller.teams }
    requires opponent { j ≢ traveller.home }
    ensures { IsOfOpponents traveller.teams traveller.home result }
{
    TeamSet::empty().with(j)
}

fn all_opponents(traveller: Traveller) -> TeamSet
    ensures { IsOfOpponents traveller.teams traveller.home result }
{
    let home = TeamSet::empty().with(traveller.home);
    TeamSet::below(traveller.teams).difference(home)
}

fn push_grown(
    league: &League,
    traveller: Traveller,
    j: u8,
    sets: &mut Vec<TeamSet>,
) -> Result<(), AllocError>
    requires teams { traveller.teams ≡ teams league.now }
    requires j { j < traveller.teams }
    requires opponent { j ≢ traveller.home }
    requires opponents { AreOfOpponents traveller.teams traveller.home sets.old.items }
    ensures { AreOfOpponents traveller.teams traveller.home sets.new.items }
{
    let mut set = single(traveller, j);
    for size in 2..traveller.teams - 1 {
        let Some(next) = best_companion(league, traveller, j, set) else {
            return Ok(());
        };
        set = grown(traveller, set, next);
        if size % traveller.most > 0 {
            push_new(traveller, set, sets)?;
        }
    }
    Ok(())
}

/// The set with one more opponent.
fn grown(traveller: Traveller, set: TeamSet, next: u8) -> TeamSet
    requires set { IsOfOpponents traveller.teams traveller.home set }
    requires next { next < traveller.teams }
    requires other { next ≢ traveller.home }
    ensures { IsOfOpponents traveller.teams traveller.home result }
{
    set.with(next)
}

/// Adds the set, if it isn't there.
fn push_new(traveller: Traveller, set: TeamSet, sets: &mut Vec<TeamSet>) -> Result<(), AllocError>
    requires set { IsOfOpponents traveller.teams traveller.home set }
    requires sets { AreOfOpponents traveller.teams traveller.home sets.old.items }
    ensures { AreOfOpponents traveller.teams traveller.home sets.new.items }
{
    if !sets.contains(&set) {
        sets.push(set)?;
    }
    Ok(())
}

/// The first of the opponents outside the set with which team j saves most.
fn best_companion(league: &League, traveller: Traveller, j: u8, set: TeamSet) -> Option<u8>
    requires teams { traveller.teams ≡ teams league.now }
    requires j { j < traveller.teams }
    ensures { IfSome result (λ x. (x < traveller.teams) × (x ≢ traveller.home)) }
{
    let mut best = None;
    let mut least = u64::MAX;
    for x in 0..traveller.teams {
        if x != traveller.home && !set.has(x) {
            // the way on to x, and less what it is from home
            let detour = u64::from(league.distance(j, x)) + MAX_DISTANCE
                - u64::from(league.distance(traveller.home, x));
            if detour < least {
                least = detour;
                best = Some(x);
            }
        }
    }
    best
}
