//! GA1: so many of the listed games in some rounds.

ghost use Rattle.std.specs.Prelude.{◌≡◌, ◌≤◌, ◌&&◌, ◌||◌};
ghost use Rattle.std.specs.List.{AllByRecursion};
ghost use Rattle.league.specs.Games.{IsGameFor};
ghost use Rattle.league.specs.Sets.{has};
ghost use Rattle.league.specs.declared.rule.RuleBody.TheVariants as RuleBody;
ghost use Rattle.fixtures.specs.Games.{round_of, IsPair};
ghost use Rattle.rules.specs.Deviations.{deviation, listed_games_in};
ghost use Rattle.rules.specs.Parts.{has_moved_game};

use crate::around::Around;
use crate::counted_games::over;
use fixtures::Schedule;
use league::{GameList, Pairing, SlotSet};

/// The games of the list in the slots, over the most or under the least.
#[tactic(auto, unfolding(crate::specs::Deviations::deviation))]
pub(crate) fn ga1(
    schedule: &Schedule,
    games: &GameList,
    slots: SlotSet,
    least: u32,
    most: u32,
) -> u64
    requires { AllByRecursion (IsGameFor schedule.now.teams) games.now }
    ensures { result ≡ deviation schedule.now (RuleBody.Ga1 games.now slots least most) }
{
    let count = listed_games_in(schedule, slots, games);
    over(count, most) + over(least, count)
}

/// How many games of the list are in the slots.
#[tactic(auto, using(crate::proofs::counted::GameCounts::IsPair_game), unfolding(crate::specs::Deviations::listed_games_in))]
fn listed_games_in(schedule: &Schedule, slots: SlotSet, games: &GameList) -> u32
    requires { AllByRecursion (IsGameFor schedule.now.teams) games.now }
    ensures value { result ≡ listed_games_in schedule.now (has slots) games.now }
    ensures most { result ≤ 1600 }
{
    let mut count = 0;
    for i in 0..games.len() {
        let game = games.at(i);
        if slots.has(schedule.round_of(game.home, game.away)) {
            count += 1;
        }
    }
    count
}

/// Whether a game of the list is one of a main team in one of the rounds.
#[tactic(auto, using(crate::proofs::counted::GameCounts::IsPair_game), unfolding(crate::specs::Parts::has_moved_game))]
pub(crate) fn has_moved_game(schedule: &Schedule, games: &GameList, change: &Around) -> bool
    requires { AllByRecursion (IsGameFor schedule.now.teams) games.now }
    ensures { result ≡ has_moved_game schedule.now (has change.now.main) (has change.now.rounds) games.now }
{
    for i in 0..games.len() {
        let game = games.at(i);
        if is_moved_game(schedule, game, change) {
            return true;
        }
    }
    false
}

/// Whether the game is one of a main team in one of the rounds.
fn is_moved_game(schedule: &Schedule, game: Pairing, change: &Around) -> bool
    requires { IsPair schedule.now.teams game.home game.away }
    ensures { result ≡ ((has change.now.main game.home || has change.now.main game.away) &&
        has change.now.rounds (round_of schedule.now game.home game.away)) }
{
    let round = schedule.round_of(game.home, game.away);
    (change.main.has(game.home) || change.main.has(game.away)) && change.rounds.has(round)
}
