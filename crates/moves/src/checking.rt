//! Whether a move can be made.

ghost use Rattle.std.specs.Prelude.{◌≡◌};
ghost use Rattle.moves.specs.Moves.{fault_of, are_distinct_below};

use crate::{Move, MoveFault};
use fixtures::Schedule;

/// Whether the move can be made. A number out of range or two equal ones are told before a meeting of the two
/// teams.
pub fn check(schedule: &Schedule, mv: Move) -> Result<(), MoveFault>
    ensures { result ≡ fault_of schedule.now mv }
{
    let teams = schedule.teams();
    let rounds = schedule.rounds();
    let in_range = match mv {
        Move::Homes { i, j } | Move::Teams { i, j } => are_distinct_below(teams, i, j),
        Move::Rounds { k, l } => are_distinct_below(rounds, k, l),
        Move::PartRounds { i, k, l } => i < teams && are_distinct_below(rounds, k, l),
        Move::PartTeams { i, j, k } => are_distinct_below(teams, i, j) && k < rounds,
    };
    if !in_range {
        return Err(MoveFault::BadMove);
    }
    if let Move::PartTeams { i, j, k } = mv {
        if schedule.round_of(i, j) == k || schedule.round_of(j, i) == k {
            return Err(MoveFault::Meet);
        }
    }
    Ok(())
}

/// Whether these are two distinct numbers below `bound`.
fn are_distinct_below(bound: u8, i: u8, j: u8) -> bool
    ensures { result ≡ are_distinct_below bound i j }
{
    i < bound && j < bound && i != j
}
