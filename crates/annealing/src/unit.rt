//! The unit of temperatures and weights.

ghost use Rattle.std.specs.Prelude.{◌≤◌};

/// So many distances: a fraction. A temperature and a weight are measured in it.
#[derive(Clone, Copy, Debug, PartialEq, Eq)]
pub struct Unit {
    pub numerator: u64,
    pub denominator: u64,
    pub ghost divides: { 1 ≤ denominator },
}

impl Unit {
    ghost use Rattle.std.specs.Prelude.{◌≡◌, ◌^◌, ◌<◌, ◌≤◌};
    ghost use Rattle.annealing.specs.within.Units.{temperature_in, weight_in};

    /// In 1024ths of a distance a temperature that is given in millionths of the unit.
    pub(crate) fn temperature(self, heat: u64) -> u64
        requires { heat < 2 ^ 54 }
        ensures value { result ≡ temperature_in self heat }
        ensures most { result < 2 ^ 58 }
    {
        let parts = u128::from(heat) * u128::from(self.numerator) * 1024;
        (parts / (1_000_000 * u128::from(self.denominator))).min(MOST_TEMPERATURE) as u64
    }

    /// In distances, and at least 1, a weight that is given in millionths of the unit.
    pub(crate) fn weight(self, weight: u64) -> u32
        ensures value { result ≡ weight_in self weight }
        ensures least { 1 ≤ result }
    {
        let parts = u128::from(weight) * u128::from(self.numerator);
        let whole = parts / (1_000_000 * u128::from(self.denominator));
        whole.clamp(1, u128::from(u32::MAX)) as u32
    }
}

/// No threshold passes 64 bits at this temperature.
const MOST_TEMPERATURE: u128 = (1 << 58) - 1;
