//! Legs: stretches of steps of one chain.

use moves::MoveKind;

/// The kinds of moves that a leg draws from: each as often as the others, or as it is named.
#[derive(Clone, Copy, Debug, PartialEq, Eq)]
pub enum MoveSet {
    /// Homes and teams.
    Rigid,
    /// Homes, rounds and teams. These and the rigid ones leave the partial moves out, which melt a schedule where it is hot.
    Loose,
    /// All five.
    Full,
    /// Homes and the partial moves: what a repair needs.
    Repair,
    /// The moves of a repair and rounds.
    WideRepair,
    /// Homes and, each twice as often, the partial moves: what breaks few rules.
    Partial,
}

impl MoveSet {
    ghost use Rattle.std.specs.Prelude.{◌≡◌, ◌≤◌, length};
    ghost use Rattle.policy.specs.Legs.{kinds_of};

    /// The kinds of moves, in the order of `MoveKind`.
    pub fn kinds(self) -> &'static [MoveKind]
        ensures value { result.now ≡ kinds_of self }
        ensures least { 2 ≤ length result.now }
        ensures most { length result.now ≤ 5 }
    {
        match self {
            MoveSet::Rigid => &[MoveKind::Homes, MoveKind::Teams],
            MoveSet::Loose => &[MoveKind::Homes, MoveKind::Rounds, MoveKind::Teams],
            MoveSet::Full => &[
                MoveKind::Homes,
                MoveKind::Rounds,
                MoveKind::Teams,
                MoveKind::PartRounds,
                MoveKind::PartTeams,
            ],
            MoveSet::Repair => &[MoveKind::Homes, MoveKind::PartRounds, MoveKind::PartTeams],
            MoveSet::WideRepair => &[
                MoveKind::Homes,
                MoveKind::Rounds,
                MoveKind::PartRounds,
                MoveKind::PartTeams,
            ],
            MoveSet::Partial => &[
                MoveKind::Homes,
                MoveKind::PartRounds,
                MoveKind::PartRounds,
                MoveKind::PartTeams,
                MoveKind::PartTeams,
            ],
        }
    }
}

/// How the temperature goes while a leg lasts.
#[derive(Clone, Copy, Debug, PartialEq, Eq)]
pub enum Course {
    /// It falls evenly, and is at most as high in the end.
    Cools { from: u32, to: u32 },
    /// It rises evenly until half of the steps, and then stays. The leg ends at the first thousand steps after which its
    /// chain has a feasible version.
    Heats { from: u32, to: u32 },
}

/// A stretch of steps of one chain.
#[derive(Clone, Copy, Debug, PartialEq, Eq)]
pub struct Leg {
    pub moves: MoveSet,
    pub course: Course,
    /// At least 1.
    pub steps: u64,
}

/// The end of a leg.
#[derive(Clone, Copy, Debug, PartialEq, Eq)]
pub struct LegEnd {
    /// At most those of the leg. Only a leg that heats has fewer.
    pub steps: u64,
    /// The highest temperature that it had.
    pub hottest: u32,
    /// How many moves were made.
    pub accepted: u64,
    /// The breaches of hard limits of the schedule at the end.
    pub hard: u64,
    /// The least total of a feasible version in the chain's history, if there is one.
    pub best: Option<u64>,
}

/// The weight of a breach of a hard limit: at first, and within which limits it follows the share of feasible steps.
#[derive(Clone, Copy, Debug, PartialEq, Eq)]
pub struct WeightCourse {
    pub first: u64,
    pub least: u64,
    pub most: u64,
    /// What a breach of a hard rule weighs, if that is apart: it is then at least this, and the weight of the others follows
    /// the share of steps that break no other limit than rules. None: all breaches weigh alike.
    pub rule: Option<u64>,
}
