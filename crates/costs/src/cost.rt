//! The cost of a schedule.

use crate::weights::Weights;
use league::League;

/// The cost of a schedule in a league. It is feasible if `hard` is 0.
#[derive(Clone, Copy, Debug, PartialEq, Eq)]
pub struct Cost {
    /// How far all teams travel, in the unit of the league's distances.
    pub travel: u64,
    /// The streaks, the repeats unless they are free, the deviations of the hard rules and, in a phased league, the pairs of
    /// teams with both games in one half of the season.
    pub hard: u64,
    /// Of these the deviations of the hard rules.
    pub of_rules: u64,
    /// The deviations of the soft rules, each times its weight.
    pub soft: u64,
}

impl Cost {
    ghost use Rattle.std.specs.Prelude.{◌≡◌, ◌^◌, ◌<◌, ◌==◌};
    ghost use Rattle.costs.specs.Costs.{score_by, score_of, total_of};

    /// The number to compare if hard limits may be broken: travel and soft, and the league's hard weight for each
    /// breach of a hard limit.
    pub fn score(self, league: &League) -> u64
        requires { score_of league.now self < 2 ^ 64 }
        ensures { result ≡ score_of league.now self }
    {
        self.score_by(Weights::alike(league.hard_weight()))
    }

    /// The score with these weights for breaches of hard limits.
    pub fn score_by(self, weights: Weights) -> u64
        requires { score_by weights self < 2 ^ 64 }
        ensures { result ≡ score_by weights self }
    {
        self.total()
            + u64::from(weights.breach) * self.hard
            + u64::from(weights.rule) * self.of_rules
    }

    /// The number to compare among feasible schedules: travel and soft.
    pub fn total(self) -> u64
        requires { total_of self < 2 ^ 64 }
        ensures { result ≡ total_of self }
    {
        self.travel + self.soft
    }

    /// Whether no hard limit is broken.
    pub fn is_feasible(self) -> bool
        ensures { result ≡ (self.hard == 0) }
    {
        self.hard == 0
    }
}
