//! The formats of a league's text.

/// The first.
pub const FIRST_FORMAT: u64 = 1;
/// The second, which has the order of the start, the phased mode and the rules of class FA2 besides.
pub const SECOND_FORMAT: u64 = 2;
/// The third, which has names of the league and its rounds, short names of the teams, free repeats, and teams by
/// name in rules besides.
pub const THIRD_FORMAT: u64 = 3;
