//! The five moves.

/// A move of a schedule. Teams and rounds are numbered from 0. Each move exchanges two things, so made a second
/// time it gives the schedule back. A partial move exchanges them in a part of the schedule: the least that has to
/// follow so that a double round robin is left.
#[derive(Clone, Copy, Debug, PartialEq, Eq)]
pub enum Move {
    /// The two games between teams `i` and `j` exchange their rounds.
    Homes { i: u8, j: u8 },
    /// Rounds `k` and `l` are exchanged.
    Rounds { k: u8, l: u8 },
    /// Teams `i` and `j` are exchanged in all games but the two between them.
    Teams { i: u8, j: u8 },
    /// Rounds `k` and `l` are exchanged for team `i` and the teams that have to follow.
    PartRounds { i: u8, k: u8, l: u8 },
    /// Teams `i` and `j` are exchanged in round `k` and the rounds that have to follow.
    PartTeams { i: u8, j: u8, k: u8 },
}

/// Which of the five moves one is.
#[derive(Clone, Copy, Debug, PartialEq, Eq)]
pub enum MoveKind {
    Homes,
    Rounds,
    Teams,
    PartRounds,
    PartTeams,
}

impl Move {
    ghost use Rattle.std.specs.Prelude.{◌≡◌};
    ghost use Rattle.moves.specs.Moves.{kind_of};

    /// Which of the five moves it is.
    pub fn kind(self) -> MoveKind
        ensures { result ≡ kind_of self }
    {
        match self {
            Move::Homes { .. } => MoveKind::Homes,
            Move::Rounds { .. } => MoveKind::Rounds,
            Move::Teams { .. } => MoveKind::Teams,
            Move::PartRounds { .. } => MoveKind::PartRounds,
            Move::PartTeams { .. } => MoveKind::PartTeams,
        }
    }
}
