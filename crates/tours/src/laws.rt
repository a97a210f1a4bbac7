//! The law of the parts: what a change adds to a part that holds all that it can alter, it adds to the whole. So a
//! cost after a change is the cost before it, and the part after less the part before. The function does nothing:
//! what is known is in its contract, which speaks of all schedules.

ghost use Rattle.std.specs.Prelude.{◌≡◌, ℕ, ◌+◌, Bool};
ghost use Rattle.league.specs.League.{LeagueData};
ghost use Rattle.fixtures.specs.Games.{Games, IsDoubleRoundRobin};
ghost use Rattle.fixtures.specs.Changes.{DiffersOnlyIn};
ghost use Rattle.tours.specs.Tours.{travel};
ghost use Rattle.tours.specs.Streaks.{runs_over};
ghost use Rattle.tours.specs.Repeats.{repeats};
ghost use Rattle.tours.specs.Phased.{unphased, unphased_part};
ghost use Rattle.tours.specs.Parts.{travel_part, runs_part, repeats_part};

/// Cells of touched teams in touched rounds that change.
pub fn parts_balance()
    ensures travel { (l : LeagueData) (g g' : Games) (teams rounds : ℕ → Bool) → DiffersOnlyIn g g' teams rounds →
        travel l g' + travel_part l g teams rounds ≡ travel l g + travel_part l g' teams rounds }
    ensures streaks { (g g' : Games) (limit : ℕ) (teams rounds : ℕ → Bool) → DiffersOnlyIn g g' teams rounds →
        runs_over g' limit + runs_part g limit teams rounds ≡ runs_over g limit + runs_part g' limit teams rounds }
    ensures repeats { (g g' : Games) (teams rounds : ℕ → Bool) → DiffersOnlyIn g g' teams rounds →
        repeats g' + repeats_part g rounds ≡ repeats g + repeats_part g' rounds }
    ensures unphased { (g g' : Games) (teams rounds : ℕ → Bool) → IsDoubleRoundRobin g → IsDoubleRoundRobin g' →
        DiffersOnlyIn g g' teams rounds →
        unphased g' + unphased_part g teams ≡ unphased g + unphased_part g' teams }
{}
