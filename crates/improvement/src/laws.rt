//! The laws of improvements. The functions do nothing: what is known of all legs is in their contracts.

ghost use Rattle.std.specs.Prelude.{◌≡◌, ℕ, ◌<◌, Bool, true, List, ◌∷◌, ◌++◌, length, All, codes};
ghost use Rattle.league.specs.League.{LeagueData, IsLeague};
ghost use Rattle.improvement.specs.declared.broken.Part.{Part};
ghost use Rattle.improvement.specs.Broken.{broken_in};
ghost use Rattle.improvement.specs.Chains.{chains_of};
ghost use Rattle.improvement.specs.Laws.{BeginsWith, CannotBeKept, EndsWith, Fall, IsEnd, IsSolution, last_line, newest_total};
ghost use Rattle.improvement.specs.Legs.{AreLegs, LegRun, lead_of};
ghost use Rattle.improvement.specs.LegText.{blocks, improve_text};
ghost use Rattle.improvement.specs.Solutions.{Solution, solutions_of};

/// Each schedule that is written is a double round robin of the league's teams that keeps all hard limits, with its total.
pub fn solutions_are_feasible()
    ensures { (league : LeagueData) (room : ℕ) (legs : List LegRun) →
        IsLeague league → AreLegs league room legs → All (IsSolution league) (solutions_of league legs) }
{}

/// The totals fall from one schedule that is written to the next.
pub fn totals_fall()
    ensures { (league : LeagueData) (legs : List LegRun) → Fall (solutions_of league legs) }
{}

/// The history in the end is legal, and its best version is the last schedule that was written. No leg had a lesser total,
/// nor has the league's start if that is feasible.
pub fn end_is_least()
    ensures { (league : LeagueData) (room : ℕ) (legs : List LegRun) →
        AreLegs league room legs → 0 < length legs → IsEnd league room legs (lead_of league legs) }
{}

/// The last line has the total of the schedule that was written last, or `none` if none was.
pub fn last_line_has_the_last_total()
    ensures { (league : LeagueData) (history : Bool) (legs : List LegRun) → 0 < length legs →
        EndsWith (last_line history (newest_total (solutions_of league legs)) (length (lead_of league legs)))
        (improve_text league history true legs) }
{}

/// A text begins with the blocks of the schedules up to any that was written, and these end with the line `----------`. So what stands up
/// to there is whole.
pub fn text_up_to_a_block_is_whole()
    ensures { (league : LeagueData) (history ended : Bool) (legs : List LegRun) (newer older : List Solution) (s : Solution) →
        solutions_of league legs ≡ newer ++ s ∷ older → BeginsWith (blocks league (s ∷ older)) (improve_text league history ended legs)
        × EndsWith (codes "\n----------\n") (blocks league (s ∷ older)) }
{}

/// A part of what is hard that no schedule of the league keeps is broken in each chain.
pub fn unkept_is_broken_in_each()
    ensures { (league : LeagueData) (room : ℕ) (legs : List LegRun) (part : Part) → IsLeague league → AreLegs league room legs →
        CannotBeKept league part → broken_in league part (chains_of league legs) ≡ length (chains_of league legs) }
{}
