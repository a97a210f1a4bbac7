//! How often each team plays in each round, and receives each other team, in a list of games.

ghost use Rattle.std.specs.Prelude.{◌≡◌, ℕ, ◌<◌, ◌≤◌, slice_index};
ghost use Rattle.league.specs.Limits.{max_rounds, max_teams};
ghost use Rattle.schedule_texts.specs.Faults.{plays, receives};
ghost use Rattle.schedule_texts.specs.within.Faults.{count_in, number_of, numbers, takes};

use fixtures::Game;
use league::limits::{MAX_ROUNDS, round_count};

/// An entry for each round of the longest season. No league has more teams.
const ENTRIES: usize = MAX_ROUNDS as usize;

/// The numbers by which the games of a team are counted.
#[derive(Clone, Copy)]
pub(crate) enum Counted {
    /// All of them, by their rounds.
    Rounds,
    /// The games at home, by their guests.
    Guests,
}

impl Counted {
    /// How many rounds or teams there are.
    pub(crate) fn numbers(self, teams: u8) -> u8
        requires least { 4 ≤ teams }
        requires most { teams ≤ max_teams }
        ensures { result ≡ numbers self teams }
    {
        match self {
            Counted::Rounds => round_count(teams),
            Counted::Guests => teams,
        }
    }

    /// Whether the game is one of the team's that are counted.
    fn takes(self, teams: u8, team: u8, game: Game) -> bool
        requires { teams ≤ max_teams }
        ensures { result ≡ takes self teams team game }
    {
        match self {
            Counted::Rounds => plays(teams, game, team),
            Counted::Guests => receives(teams, game, team),
        }
    }

    /// The game's round or guest.
    fn number_of(self, game: Game) -> u8
        ensures { result ≡ number_of self game }
    {
        match self {
            Counted::Rounds => game.round,
            Counted::Guests => game.away,
        }
    }
}

fn plays(teams: u8, game: Game, team: u8) -> bool
    requires { teams ≤ max_teams }
    ensures { result ≡ plays teams team game }
{
    game.is_in_range(teams) && (game.home == team || game.away == team)
}

fn receives(teams: u8, game: Game, team: u8) -> bool
    requires { teams ≤ max_teams }
    ensures { result ≡ receives teams team game }
{
    game.is_in_range(teams) && game.home == team
}

/// How often the team has a game with each number: in each round, or at home against each other team.
pub(crate) fn counts_of(counted: Counted, teams: u8, games: &[Game], team: u8) -> [usize; ENTRIES]
    requires { teams ≤ max_teams }
    ensures { (number : ℕ) → number < max_rounds → slice_index result number ≡ count_in counted teams games.now team number }
{
    let mut counts = [0; ENTRIES];
    for game in games {
        if counted.takes(teams, team, *game) {
            counts[usize::from(counted.number_of(*game))] += 1;
        }
    }
    counts
}
