//! Moves made, and the cells that they change.

ghost use Rattle.std.specs.Prelude.{◌≡◌, ℕ, ◌<◌, ◌&&◌, ◌||◌, ◌==◌, nat_lt, Ok, true};
ghost use Rattle.league.specs.Sets.{has};
ghost use Rattle.fixtures.specs.Games.{round_of, round_count, IsPair, IsDoubleRoundRobin};
ghost use Rattle.fixtures.specs.Changes.{DiffersOnlyIn};
ghost use Rattle.moves.specs.Moves.{fault_of, moved, touched_team, touched_round};
ghost use Rattle.fixtures.specs.Exchanges.{IsExchange, main_cells};
ghost use Rattle.fixtures.specs.within.Exchanges.{touched_by};

use crate::{Move, exchange};
use fixtures::{Exchange, Schedule, Touched};
use league::{SlotSet, TeamSet};

/// Makes a move that `check` lets pass, and gives the teams and the rounds whose cells it changed. Takes no memory.
pub fn apply(schedule: &mut Schedule, mv: Move) -> Touched
    requires checked { fault_of schedule.old mv ≡ Ok tt }
    ensures moved { schedule.new ≡ moved schedule.old mv }
    ensures teams { (t : ℕ) → has result.teams t ≡ touched_team schedule.old mv t }
    ensures rounds { (r : ℕ) → has result.rounds r ≡ touched_round schedule.old mv r }
    ensures differs { DiffersOnlyIn schedule.old schedule.new (has result.teams) (has result.rounds) }
{
    let exchange = exchange(schedule, mv);
    let touched = touched_by(schedule, &exchange);
    exchange.make(schedule);
    touched
}

/// The teams and the rounds whose cells a move changes that `check` lets pass. Takes no memory.
pub fn touched(schedule: &Schedule, mv: Move) -> Touched
    requires checked { fault_of schedule.now mv ≡ Ok tt }
    ensures teams { (t : ℕ) → has result.teams t ≡ touched_team schedule.now mv t }
    ensures rounds { (r : ℕ) → has result.rounds r ≡ touched_round schedule.now mv r }
    ensures round_robin { IsDoubleRoundRobin schedule.now }
{
    touched_by(schedule, &exchange(schedule, mv))
}

/// The teams and the rounds whose cells an exchange changes.
fn touched_by(schedule: &Schedule, exchange: &Exchange) -> Touched
    requires { IsExchange schedule.now exchange.now }
    ensures teams { (t : ℕ) → has result.teams t ≡ touched_by schedule.now exchange.now t }
    ensures rounds { result.rounds ≡ (main_cells exchange.now).rounds }
    ensures round_robin { IsDoubleRoundRobin schedule.now }
{
    let main = exchange.main();
    match *exchange {
        Exchange::Rounds { .. } => main,
        Exchange::Teams { i, j, among } => Touched {
            teams: teams_with_opponents(schedule, i, j, among),
            rounds: main.rounds,
        },
    }
}

/// The teams `i` and `j`, and the opponents of `i` in these rounds. If the two can be exchanged in them, `j` has the
/// same opponents there.
fn teams_with_opponents(schedule: &Schedule, i: u8, j: u8, rounds: SlotSet) -> TeamSet
    requires round_robin { IsDoubleRoundRobin schedule.now }
    requires pair { IsPair schedule.now.teams i j }
    requires below { (r : ℕ) → has rounds r ≡ true → r < round_count schedule.now.teams }
    ensures { (t : ℕ) → has result t ≡
        (t == i || t == j ||
        (nat_lt t schedule.now.teams &&
        (has rounds (round_of schedule.now i t) || has rounds (round_of schedule.now t i)))) }
{
    let mut found = TeamSet::two(i, j);
    for round in rounds {
        found = found.with(schedule.game_at(i, round).opponent);
    }
    found
}
