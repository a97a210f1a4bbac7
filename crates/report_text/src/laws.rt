//! The law of the report. The function does nothing: what is known is in its contract.

ghost use Rattle.league.specs.League.{LeagueData, IsLeague};
ghost use Rattle.fixtures.specs.Games.{Games, IsDoubleRoundRobin};
ghost use Rattle.report_text.specs.Figures.{AddsUp};

/// The lines of a report add up to its first one: tours, windows of runs, repeats, pairs in one half, deviations, and the price of the moved
/// games. Its text is made of these lines.
#[tactic(auto, using(crate::proofs::Figures::adds_up))]
pub fn figures_add_up()
    ensures { (l : LeagueData) (g : Games) → IsLeague l → IsDoubleRoundRobin g → AddsUp l g }
{}
