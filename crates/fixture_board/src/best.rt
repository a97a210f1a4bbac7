//! The best version so far.

ghost use Rattle.std.specs.Prelude.{◌≡◌, ◌^◌, ◌<◌, if◌then◌else◌};
ghost use Rattle.costs.specs.Costs.{total_of};
ghost use Rattle.fixture_board.specs.within.Kept.{improved_by, is_improved_by};

use costs::Cost;
use fixtures::Schedule;

/// The least total, travel and soft together, of the feasible versions so far.
#[derive(Clone, Copy, Debug, PartialEq, Eq)]
pub struct Best {
    /// The first version that has it.
    pub at: u64,
    /// Its travel and soft penalties.
    pub total: u64,
}

/// Keeps the best of the versions so far, with its schedule: the version `at` has this schedule, of this cost.
pub(crate) fn keep_best(
    best: &mut Option<Best>,
    best_schedule: &mut Schedule,
    schedule: &Schedule,
    cost: Cost,
    at: u64,
)
    requires { total_of cost < 2 ^ 64 }
    ensures best { best.new ≡ improved_by best.old cost at }
    ensures schedule { best_schedule.new ≡ (if is_improved_by best.old cost then schedule.now else best_schedule.old) }
{
    if is_improved_by(*best, cost) {
        let total = cost.total();
        *best = Some(Best { at, total });
        best_schedule.copy_from(schedule);
    }
}

/// Whether a version of this cost is better than the best so far: feasible, and of a lesser total.
fn is_improved_by(best: Option<Best>, cost: Cost) -> bool
    requires { total_of cost < 2 ^ 64 }
    ensures { result ≡ is_improved_by best cost }
{
    match best {
        None => cost.is_feasible(),
        Some(best) => cost.is_feasible() && cost.total() < best.total,
    }
}
