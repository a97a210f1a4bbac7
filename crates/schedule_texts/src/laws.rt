//! The laws of the faults and of the schedule. The functions do nothing: what is known is in their contracts.

ghost use Rattle.std.specs.Prelude.{ℕ, List};
ghost use Rattle.league.specs.League.{LeagueData, IsLeague, teams};
ghost use Rattle.schedule_texts.specs.Faultless.{IsFaultlessExactly, IsToldExactly};

/// A text has no fault exactly if it gives a double round robin of the league's teams: if [`judge`](crate::judge)
/// finds one.
#[tactic(auto, using(crate::proofs::Faultless::faultless_exactly))]
pub fn faults_are_complete()
    ensures { (l : LeagueData) (lines : List (List ℕ)) → IsLeague l → IsFaultlessExactly (teams l) lines }
{}

/// A text gives one schedule at most: the games that it has if it has no fault.
#[tactic(auto, using(crate::proofs::Faultless::told_exactly))]
pub fn schedule_is_told()
    ensures { (l : LeagueData) (lines : List (List ℕ)) → IsLeague l → IsToldExactly (teams l) lines }
{}
