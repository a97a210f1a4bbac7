//! How large leagues, their seasons and their rules may be.

pub use sets::limits::{MAX_ROUNDS, MAX_TEAMS, MIN_TEAMS, round_count};

/// The longest distance between two homes.
pub const MAX_DISTANCE: u64 = 1_000_000;
/// The most rounds in a row that a league may allow at home, or away.
pub const MAX_AT_MOST: u8 = MAX_ROUNDS;
/// The largest weight: that of hard limits, and that of a soft rule.
pub const MAX_WEIGHT: u32 = 1_000_000;
/// The most rules of a league.
pub const MAX_RULES: usize = 256;
/// The largest number of a rule.
pub const MAX_COUNT: u32 = 10_000;
/// The most bytes of a team's name.
pub const MAX_NAME: usize = 40;
/// The most bytes of a league's name.
pub const MAX_TITLE: usize = 80;
/// The most bytes of a team's short name.
pub const MAX_SHORT_NAME: usize = 6;
/// The most bytes of what a round is called.
pub const MAX_ROUND_TEXT: usize = 20;
/// How many rounds in a row at home, or away, a league allows that does not say.
pub const DEFAULT_AT_MOST: u8 = 3;
/// The hard weight of a league that does not say.
pub const DEFAULT_HARD_WEIGHT: u32 = 100;
