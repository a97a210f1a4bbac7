//! A team and what its tours keep to.

ghost use Rattle.std.specs.Prelude.{◌<◌, ◌≤◌};
ghost use Rattle.sets.specs.Limits.{max_teams};

/// A team whose tours are bounded, of so many teams, and how many games each of its trips has at most.
#[derive(Clone, Copy, Drop)]
pub(crate) struct Traveller {
    pub(crate) teams: u8,
    pub(crate) home: u8,
    pub(crate) most: u8,
    ghost teams_most: { teams ≤ max_teams },
    ghost home_in: { home < teams },
    ghost most_least: { 1 ≤ most },
    ghost most_most: { most < teams },
}
