//! Whether a move changes a game.

ghost use Rattle.std.specs.Prelude.{◌≡◌, ◌≢◌, ◌↔◌, ◌<◌, ◌&&◌, ◌||◌, IsTrue, Ok};
ghost use Rattle.league.specs.Limits.{max_teams, max_rounds};
ghost use Rattle.league.specs.Sets.{has};
ghost use Rattle.fixtures.specs.Games.{round_of, IsPair};
ghost use Rattle.moves.specs.Moves.{fault_of, moved};

use crate::{Move, exchange};
use fixtures::{Game, Schedule, Touched};

/// Whether a move that `check` lets pass gives another round to the game, which stands in its round. Takes no memory.
pub fn would_change(schedule: &Schedule, mv: Move, game: Game) -> bool
    requires checked { fault_of schedule.now mv ≡ Ok tt }
    requires pair { IsPair schedule.now.teams game.home game.away }
    requires there { round_of schedule.now game.home game.away ≡ game.round }
    ensures { IsTrue result ↔ (round_of (moved schedule.now mv) game.home game.away ≢ game.round) }
{
    prove_eq!(schedule.round_of(game.home, game.away), game.round);
    is_in(exchange(schedule, mv).main(), game)
}

/// Whether the game is one of these teams in one of these rounds.
fn is_in(cells: Touched, game: Game) -> bool
    requires round { game.round < max_rounds }
    requires home { game.home < max_teams }
    requires away { game.away < max_teams }
    ensures { result ≡ (has cells.rounds game.round && (has cells.teams game.home || has cells.teams game.away)) }
{
    cells.rounds.has(game.round) && (cells.teams.has(game.home) || cells.teams.has(game.away))
}
