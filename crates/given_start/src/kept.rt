//! The games of a start that are to be kept.

ghost use Rattle.std.specs.Prelude.{◌≡◌, ◌<◌, ◌≤◌, true};
ghost use Rattle.league.specs.League.{teams};
ghost use Rattle.league.specs.Limits.{max_teams};
ghost use Rattle.given_start.specs.Begun.{are_pairs, lacks_round, is_pair, keeping_at, keeping_games, keeping_in, keeping_rounds};

use league::limits::{MAX_ROUNDS, round_count};
use league::{League, SlotSet};

/// Whether the season of this number of teams lacks one of the rounds.
pub(crate) fn lacks_round(teams: u8, rounds: SlotSet) -> bool
    requires least { 4 ≤ teams }
    requires most { teams ≤ max_teams }
    ensures { result ≡ lacks_round teams rounds }
{
    let none = SlotSet::below(MAX_ROUNDS).difference(SlotSet::below(round_count(teams)));
    rounds.intersects(none)
}

/// Whether each game is between two teams.
pub(crate) fn are_pairs(teams: u8, games: &[(u8, u8)]) -> bool
    ensures { result ≡ are_pairs teams games.now }
{
    for game in games {
        if !is_pair(teams, *game) {
            return false;
        }
    }
    true
}

fn is_pair(teams: u8, game: (u8, u8)) -> bool
    ensures { result ≡ is_pair teams game }
{
    game.0 < teams && game.1 < teams && game.0 != game.1
}

/// Keeps the games of these rounds of the start.
pub(crate) fn keep_rounds(league: &mut League, rounds: SlotSet)
    ensures { league.new ≡ keeping_rounds rounds league.old }
{
    for home in 0..league.teams() {
        keep_home_games(league, rounds, home);
    }
}

/// The kept rounds in which the team is at home.
fn keep_home_games(league: &mut League, rounds: SlotSet, home: u8)
    requires { home < teams league.old }
    ensures { league.new ≡ keeping_at rounds home (teams league.old) league.old }
{
    for away in 0..league.teams() {
        keep_in_rounds(league, rounds, home, away);
    }
}

/// The game of these two teams, if it is in one of the rounds.
fn keep_in_rounds(league: &mut League, rounds: SlotSet, home: u8, away: u8)
    requires home { home < teams league.old }
    requires away { away < teams league.old }
    ensures { league.new ≡ keeping_in rounds home away league.old }
{
    let _teams = league.teams();
    if home != away && rounds.has(league.start_round(home, away)) {
        league.keep(home, away);
    }
}

/// Keeps these games of the start.
pub(crate) fn keep_games(league: &mut League, games: &[(u8, u8)])
    requires { are_pairs (teams league.old) games.now ≡ true }
    ensures { league.new ≡ keeping_games games.now league.old }
{
    for game in games {
        league.keep(game.0, game.1);
    }
}
