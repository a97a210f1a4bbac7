//! The leagues of the tests.

use league::{League, LeagueFault, circular, constant};
use league_json::read_league;
use std::alloc::Global;

/// Four teams in one place. One is not to be at home in the first round, which is a wish of weight 60.
const WISH: &str = r#"{"format": 1, "teams": ["A", "B", "C", "D"], "distances": [
    [0, 0, 0, 0], [0, 0, 0, 0], [0, 0, 0, 0], [0, 0, 0, 0]],
    "rules": [{"class": "CA1", "kind": "soft", "weight": 60, "teams": [1], "mode": "H", "slots": [1], "max": 0}]}"#;

/// Four teams in one place, without a wish.
const ONE_PLACE: &str = r#"{"format": 1, "teams": ["A", "B", "C", "D"], "distances": [
    [0, 0, 0, 0], [0, 0, 0, 0], [0, 0, 0, 0], [0, 0, 0, 0]]}"#;

/// Four teams of which one is not to be at home at all.
const IMPOSSIBLE: &str = r#"{"format": 1, "teams": ["A", "B", "C", "D"], "distances": [
    [0, 1, 1, 1], [1, 0, 1, 1], [1, 1, 0, 1], [1, 1, 1, 0]],
    "rules": [{"class": "CA1", "kind": "hard", "teams": [1], "mode": "H", "max": 0}]}"#;

/// A league of the tests.
#[derive(Clone, Copy, Debug, PartialEq, Eq)]
pub(crate) enum Sample {
    Circle,
    Constant,
    Wish,
    OnePlace,
    Impossible,
}

pub(crate) fn league_of(alloc: Global, sample: Sample) -> Result<League, LeagueFault> {
    match sample {
        Sample::Circle => circular(alloc, 8),
        Sample::Constant => constant(alloc, 6),
        Sample::Wish => read_league(alloc, WISH.as_bytes()),
        Sample::OnePlace => read_league(alloc, ONE_PLACE.as_bytes()),
        Sample::Impossible => read_league(alloc, IMPOSSIBLE.as_bytes()),
    }
}
