//! The law of bounds. The function does nothing: what is known is in its contract.

ghost use Rattle.std.specs.Prelude.{◌≡◌, ◌≤◌, ℕ};
ghost use Rattle.league.specs.League.{LeagueData, teams};
ghost use Rattle.fixtures.specs.Games.{Games, IsDoubleRoundRobin};
ghost use Rattle.bounds.specs.Bounds.{IsBound};
ghost use Rattle.costs.specs.Costs.{cost_of, total_of};

/// No feasible schedule has a lower total than a bound on what schedules travel.
#[tactic(auto, using(crate::proofs::Totals::bound_below))]
pub fn bound_is_below_totals()
    ensures { (l : LeagueData) (b : ℕ) (g : Games) → IsBound l b → IsDoubleRoundRobin g → g.teams ≡ teams l →
        (cost_of l g).hard ≡ 0 → b ≤ total_of (cost_of l g) }
{}
