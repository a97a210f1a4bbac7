//! Games that have another round than at the start.

ghost use Rattle.std.specs.Prelude.{◌≡◌, ◌*◌, ◌<◌, ◌≤◌};
ghost use Rattle.league.specs.League.{teams};
ghost use Rattle.league.specs.Limits.{max_teams};
ghost use Rattle.league.specs.Starts.{start_round};
ghost use Rattle.league.specs.Sums.{count_where};
ghost use Rattle.tours.specs.Moved.{is_moved, moved_games};

use fixtures::Schedule;
use league::League;

/// How many games have another round than at the start of the league.
#[tactic(auto, using(league::proofs::ForCallers::sums), unfolding(crate::specs::Moved::moved_from))]
pub fn moved_games(schedule: &Schedule, league: &League) -> u64
    requires { teams league.now ≡ schedule.now.teams }
    ensures value { result ≡ moved_games league.now schedule.now }
    ensures limit { result ≤ max_teams * max_teams }
{
    let mut moved = 0;
    for home in 0..schedule.teams() {
        moved += moved_at_home(schedule, league, home);
    }
    moved
}

/// The moved games of a team at home.
#[tactic(auto, using(league::proofs::ForCallers::sums))]
fn moved_at_home(schedule: &Schedule, league: &League, home: u8) -> u64
    requires same { teams league.now ≡ schedule.now.teams }
    requires home { home < schedule.now.teams }
    ensures value { result ≡ count_where schedule.now.teams (is_moved (start_round league.now) schedule.now home) }
    ensures limit { result ≤ max_teams }
{
    let mut moved = 0;
    for away in 0..schedule.teams() {
        moved += u64::from(is_moved(schedule, league, home, away));
    }
    moved
}

/// Whether the game in which `home` receives `away` has another round than at the start. A team has no game with itself.
fn is_moved(schedule: &Schedule, league: &League, home: u8, away: u8) -> bool
    requires same { teams league.now ≡ schedule.now.teams }
    requires home { home < schedule.now.teams }
    requires away { away < schedule.now.teams }
    ensures { result ≡ is_moved (start_round league.now) schedule.now home away }
{
    home != away && schedule.round_of(home, away) != league.start_round(home, away)
}
