//! The verdict of a command on a schedule.

ghost use Rattle.std.specs.Prelude.{◌≡◌};
ghost use Rattle.commands.specs.Verdict.{verdict_of};

/// The verdict of a report, or of an improvement of a league.
#[derive(Clone, Copy, Debug, PartialEq, Eq)]
pub enum Verdict {
    /// The schedule is a double round robin that breaks no hard limit of the league. That of an improvement is the best one.
    Feasible,
    /// It breaks one, or is no double round robin of the league's teams. An improvement found none that breaks none.
    Infeasible,
}

impl Verdict {
    pub(crate) fn of(feasible: bool) -> Verdict
        ensures { result ≡ verdict_of feasible }
    {
        if feasible {
            Verdict::Feasible
        } else {
            Verdict::Infeasible
        }
    }
}
