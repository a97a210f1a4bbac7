//! Distances that differ by direction.

/// The choice for a pair that is further apart one way.
#[derive(Clone, Copy, Debug, PartialEq, Eq)]
pub enum Symmetry {
    /// The mean, half up.
    Mean,
    /// The longer distance.
    Max,
}
