//! Which exchange a move is: beside `check`, the one place where the five moves are told apart.

ghost use Rattle.std.specs.Prelude.{◌≡◌, Ok};
ghost use Rattle.fixtures.specs.Games.{IsPair};
ghost use Rattle.moves.specs.Moves.{fault_of};
ghost use Rattle.moves.specs.ExchangeOf.{exchange_of, IsExchangeOf, rounds_apart};

use crate::{Move, moved_rounds, moved_teams};
use fixtures::{Exchange, Schedule};
use league::{SlotSet, TeamSet};

/// The exchange that a move is which `check` lets pass. An ejection chain is walked once. Takes no memory.
pub fn exchange(schedule: &Schedule, mv: Move) -> Exchange
    requires { fault_of schedule.now mv ≡ Ok tt }
    ensures value { result ≡ exchange_of schedule.now mv }
    ensures is_move { IsExchangeOf schedule.now mv result }
{
    let teams = schedule.teams();
    match mv {
        Move::Homes { i, j } => Exchange::Rounds {
            k: schedule.round_of(i, j),
            l: schedule.round_of(j, i),
            among: TeamSet::two(i, j),
        },
        Move::Rounds { k, l } => Exchange::Rounds {
            k,
            l,
            among: TeamSet::below(teams),
        },
        Move::Teams { i, j } => Exchange::Teams {
            i,
            j,
            among: rounds_apart(schedule, i, j),
        },
        Move::PartRounds { i, k, l } => Exchange::Rounds {
            k,
            l,
            among: moved_teams(schedule, i, k, l),
        },
        Move::PartTeams { i, j, k } => Exchange::Teams {
            i,
            j,
            among: moved_rounds(schedule, i, j, k),
        },
    }
}

/// The rounds in which `i` and `j` don't meet.
fn rounds_apart(schedule: &Schedule, i: u8, j: u8) -> SlotSet
    requires { IsPair schedule.now.teams i j }
    ensures { result ≡ rounds_apart schedule.now i j }
{
    let theirs = SlotSet::two(schedule.round_of(i, j), schedule.round_of(j, i));
    SlotSet::below(schedule.rounds()).difference(theirs)
}
