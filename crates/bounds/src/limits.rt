//! In what prices and lengths are counted.

ghost use Rattle.std.specs.Prelude.{◌≡◌, ◌+◌, ◌*◌};
ghost use Rattle.sets.specs.Limits.{max_teams};

/// Prices and lengths are in so many parts of a distance.
pub(crate) const SCALE: u64 = 1 << 16;
/// Each leg to an opponent is longer by so much, at least by all prices together: no shortened leg falls below 0.
pub(crate) const LONGER: u64 = 1 << 48;
/// Above the length of each walk.
pub(crate) const NO_WALK: u64 = 1 << 60;
/// The entries of a table that has a row for each of the most teams, and as many in each row.
pub(crate) const ENTRIES: usize = ROW * ROW;
/// The entries of a row.
pub(crate) const ROW: usize = 40;

/// Where an entry stands in such a table.
pub(crate) fn entry(row: u8, team: u8) -> usize
    ensures { result ≡ row * max_teams + team }
{
    usize::from(row) * ROW + usize::from(team)
}
