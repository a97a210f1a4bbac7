//! The penalties for breaches of hard and of soft limits.

ghost use Rattle.std.specs.Prelude.{◌≡◌, ◌*◌, ◌≤◌};
ghost use Rattle.league.specs.Limits.{deviation_limit, max_weight};
ghost use Rattle.league.specs.RuleLimits.{IsWeight};
ghost use Rattle.costs.specs.Costs.{hard_penalty, soft_penalty};

use league::Weight;

/// The penalties for breaches of limits.
#[derive(Clone, Copy)]
pub(crate) struct Penalties {
    /// How often hard limits are broken.
    pub(crate) hard: u64,
    /// The deviations of soft rules, each times its weight.
    pub(crate) soft: u64,
}

impl Penalties {
    /// The penalties of a rule of this weight.
    pub(crate) fn of_rule(weight: Weight, deviation: u64) -> Penalties
        requires weight { IsWeight weight }
        requires deviation { deviation ≤ deviation_limit }
        ensures hard { result.hard ≡ hard_penalty weight deviation }
        ensures soft { result.soft ≡ soft_penalty weight deviation }
        ensures hard_most { result.hard ≤ deviation_limit }
        ensures soft_most { result.soft ≤ max_weight * deviation_limit }
    {
        match weight {
            Weight::Hard => Penalties {
                hard: deviation,
                soft: 0,
            },
            Weight::Soft(weight) => Penalties {
                hard: 0,
                soft: u64::from(weight) * deviation,
            },
        }
    }
}
