//! Schedules compared with sheets. A sheet has rounds, each before its games, and numbers rounds and teams from 1.

use crate::tests::checks::check_holds;
use fixtures::{Cell, Game, Schedule};
use league::SlotSet;
use std::alloc::{AllocError, Global};
use std::process::Abort;
use std::test::Fail;

/// The double round robin of four teams.
pub(crate) const FOUR: &str =
    "1: 1-4 2-3  2: 1-2 4-3  3: 2-4 3-1  4: 3-2 4-1  5: 2-1 3-4  6: 1-3 4-2";

/// The first cycle of the Berger table of six teams.
pub(crate) const SIX: &str =
    "1: 1-6 2-5 3-4  2: 6-4 5-3 1-2  3: 2-6 3-1 4-5  4: 6-5 1-4 2-3  5: 3-6 4-2 5-1";

/// The games of a sheet.
pub(crate) fn games(alloc: Global, sheet: &str) -> Result<Vec<Game>, AllocError> {
    let mut games = Vec::new(alloc);
    let mut round = 0;
    for word in sheet.split_whitespace() {
        if let Some((number, _)) = word.split_once(':') {
            round = index(number);
        } else if let Some((home, away)) = word.split_once('-') {
            let home = index(home);
            let away = index(away);
            games.push(Game { round, home, away })?;
        }
    }
    Ok(games)
}

/// The index of a number of a sheet, 255 for what is none.
fn index(number: &str) -> u8 {
    match number.parse::<u8>() {
        Ok(number) => number.wrapping_sub(1),
        Err(_) => 255,
    }
}

/// The games of a schedule, by home team.
pub(crate) fn games_of(alloc: Global, schedule: &Schedule) -> Result<Vec<Game>, AllocError> {
    let mut games = Vec::new(alloc);
    for home in 0..schedule.teams() {
        for away in 0..schedule.teams() {
            if home != away {
                let round = schedule.round_of(home, away);
                games.push(Game { round, home, away })?;
            }
        }
    }
    Ok(games)
}

/// The games of these rounds, by round and home team.
pub(crate) fn games_in(
    alloc: Global,
    schedule: &Schedule,
    rounds: SlotSet,
) -> Result<Vec<Game>, AllocError> {
    let mut games = Vec::new(alloc);
    for round in rounds {
        for home in 0..schedule.teams() {
            if round < schedule.rounds() {
                let cell = schedule.game_at(home, round);
                let away = cell.opponent;
                if cell.home {
                    games.push(Game { round, home, away })?;
                }
            }
        }
    }
    Ok(games)
}

/// Whether the schedule has the game, by its pair, by the cells of both teams, by their rounds at home and by their stops.
pub(crate) fn has_game(schedule: &Schedule, game: Game) -> bool {
    let teams = schedule.teams();
    if game.home >= teams || game.away >= teams || game.home == game.away {
        return false;
    }
    if game.round >= schedule.rounds() {
        return false;
    }
    let home = Cell {
        opponent: game.away,
        home: true,
    };
    let away = Cell {
        opponent: game.home,
        home: false,
    };
    schedule.round_of(game.home, game.away) == game.round
        && is_at(schedule, game.home, game.round, home, game.home)
        && is_at(schedule, game.away, game.round, away, game.home)
}

/// Whether the team has the cell in the round, and plays it at this place, by all three tables of a team.
fn is_at(schedule: &Schedule, team: u8, round: u8, cell: Cell, place: u8) -> bool {
    if team >= schedule.teams() || round >= schedule.rounds() {
        return false;
    }
    schedule.game_at(team, round) == cell
        && schedule.home_rounds(team).has(round) == cell.home
        && schedule.stop(team, round + 1) == place
}

/// Whether the list is not empty, and the schedule has each of its games.
pub(crate) fn has_games(schedule: &Schedule, games: &[Game]) -> bool {
    for &game in games {
        if !has_game(schedule, game) {
            return false;
        }
    }
    !games.is_empty()
}

/// The schedule has the games of the sheet.
pub(crate) fn check_sheet(
    rt: &impl Abort,
    alloc: Global,
    schedule: &Schedule,
    sheet: &str,
) -> Result<(), Fail> {
    let games = games(alloc, sheet)?;
    check_holds(rt, &sheet, has_games(schedule, &games));
    Ok(())
}
