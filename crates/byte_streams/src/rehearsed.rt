//! The list of steps that an end follows.
ghost use Rattle.std.specs.Prelude.{◌≡◌, [], ◌∷◌, MatchOption};

use super::ends::Step;

/// Takes the next step off the list, if there is one.
pub(crate) fn next_step(steps: &mut &[Step]) -> Option<Step>
    ensures { MatchOption result ((steps.old.now ≡ []) × (steps.new.now ≡ [])) (λ step. steps.old.now ≡ step ∷ steps.new.now) }
{
    let (step, rest) = steps.split_first()?;
    *steps = rest;
    Some(*step)
}
