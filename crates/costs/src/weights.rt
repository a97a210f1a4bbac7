//! What breaches of hard limits weigh in a score.

ghost use Rattle.std.specs.Prelude.{◌≡◌, ◌≤◌};
ghost use Rattle.costs.specs.Costs.{alike, AreWeights};

/// The weights of breaches of hard limits in a score. Both together fit 32 bits.
#[derive(Clone, Copy, Debug, PartialEq, Eq)]
pub struct Weights {
    /// Of each breach: at least 1.
    pub breach: u32,
    /// What each breach of a rule weighs beside that.
    pub rule: u32,
}

impl Weights {
    /// The weights by which all breaches weigh the same.
    pub fn alike(breach: u32) -> Weights
        ensures value { result ≡ alike breach }
        ensures are { 1 ≤ breach → AreWeights result }
    {
        Weights { breach, rule: 0 }
    }
}
