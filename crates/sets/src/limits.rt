//! How large leagues and their seasons may be.

ghost use Rattle.std.specs.Prelude.{◌≡◌, ◌≤◌};
ghost use Rattle.sets.specs.Limits.{max_rounds, max_teams, round_count};

/// The fewest teams of a league.
pub const MIN_TEAMS: u8 = 4;
/// The most teams of a league.
pub const MAX_TEAMS: u8 = 40;
/// The most rounds of a season: each of the most teams meets each other twice.
pub const MAX_ROUNDS: u8 = 78;

/// How many rounds so many teams play: each meets each other twice.
pub fn round_count(teams: u8) -> u8
    requires least { 1 ≤ teams }
    requires most { teams ≤ max_teams }
    ensures value { result ≡ round_count teams }
    ensures within { result ≤ max_rounds }
{
    2 * (teams - 1)
}
