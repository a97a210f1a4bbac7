//! Breaches of rules.

/// Which term of a deviation it is, and so where a rule is broken.
#[derive(Clone, Copy, Debug, Drop, PartialEq, Eq)]
pub enum Place {
    /// The games of a team.
    GamesOf { team: u8 },
    /// The breaks of a team.
    BreaksOf { team: u8 },
    /// The games of a team from the first round to the last.
    Window { team: u8, first: u8, last: u8 },
    /// The games in a round.
    Round { round: u8 },
    /// All that the rule counts together.
    Together,
    /// The listed games that are in the slots, too many.
    GamesOver,
    /// The listed games, too few of which are in the slots.
    GamesUnder,
    /// The two games of a pair.
    Pair { low: u8, high: u8 },
    /// A pair after a round.
    PairIn { low: u8, high: u8, round: u8 },
}

/// A term of a deviation that is above 0.
#[derive(Clone, Copy, Debug, Drop, PartialEq, Eq)]
pub struct Breach {
    pub place: Place,
    pub by: u32,
}
