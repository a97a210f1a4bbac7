//! How many of which games a rule wants, in words.

ghost use Rattle.std.specs.Prelude.{◌≡◌, ◌++◌, OnOk};
ghost use Rattle.std.specs.List.{AllByRecursion};
ghost use Rattle.league.specs.Games.{IsGameFor};
ghost use Rattle.league.specs.League.{teams};
ghost use Rattle.report_page.specs.RuleWords.{first_games, game_text, games_range, more_text, no_games_text, one_game_text};
ghost use Rattle.report_page.specs.RuleWords.{range_text, some_games_text, times_text};

use crate::pieces::{PagePiece, push_pieces};
use crate::style::word_if;
use league::{GameList, League, Pairing};
use std::alloc::AllocError;

/// How many games of a list are told.
const SHOWN: usize = 6;

/// Adds from how many to how many of the games are wanted.
#[tactic(auto, unfolding(crate::specs::RuleWords::games_range))]
pub(crate) fn push_games_range(
    page: &mut Vec<u8>,
    league: &League,
    games: &GameList,
    range: (u32, u32),
) -> Result<(), AllocError>
    requires { AllByRecursion (IsGameFor (teams league.now)) games.now }
    ensures { OnOk result (page.new.items ≡ page.old.items ++ games_range league.now games.now range.0 range.1) }
{
    let count = games.len();
    if count == 0 {
        push_no_games(page, range)
    } else if count == 1 {
        push_one_game(page, league, games, range)
    } else {
        push_some_games(page, league, games, range)
    }
}

fn push_no_games(page: &mut Vec<u8>, range: (u32, u32)) -> Result<(), AllocError>
    ensures { OnOk result (page.new.items ≡ page.old.items ++ no_games_text range.0 range.1) }
{
    push_range(page, range.0, range.1)?;
    push_pieces(page, &[PagePiece::Raw(b" of no games")])
}

/// Adds the only game, and how often it is wanted.
fn push_one_game(
    page: &mut Vec<u8>,
    league: &League,
    games: &GameList,
    range: (u32, u32),
) -> Result<(), AllocError>
    requires { AllByRecursion (IsGameFor (teams league.now)) games.now }
    ensures { OnOk result (page.new.items ≡ page.old.items ++ one_game_text league.now games.now range.0 range.1) }
{
    push_pieces(page, &[PagePiece::Raw(b"the game ")])?;
    push_first_games(page, league, games)?;
    push_pieces(page, &[PagePiece::Raw(b" ")])?;
    push_times(page, range.0, range.1)
}

/// Adds the first of the games, and how many more there are.
fn push_some_games(
    page: &mut Vec<u8>,
    league: &League,
    games: &GameList,
    range: (u32, u32),
) -> Result<(), AllocError>
    requires { AllByRecursion (IsGameFor (teams league.now)) games.now }
    ensures { OnOk result (page.new.items ≡ page.old.items ++ some_games_text league.now games.now range.0 range.1) }
{
    push_range(page, range.0, range.1)?;
    push_pieces(page, &[PagePiece::Raw(b" of the games ")])?;
    push_first_games(page, league, games)?;
    push_more(page, games.len())
}

/// Adds how often a game is wanted.
fn push_times(page: &mut Vec<u8>, min: u32, max: u32) -> Result<(), AllocError>
    ensures { OnOk result (page.new.items ≡ page.old.items ++ times_text min max) }
{
    push_range(page, min, max)?;
    push_pieces(
        page,
        &[
            PagePiece::Raw(b" time"),
            PagePiece::Raw(word_if(max != 1, b"s")),
        ],
    )
}

fn push_range(page: &mut Vec<u8>, min: u32, max: u32) -> Result<(), AllocError>
    ensures { OnOk result (page.new.items ≡ page.old.items ++ range_text min max) }
{
    let least = PagePiece::Number(u64::from(min));
    let most = PagePiece::Number(u64::from(max));
    if min == max {
        push_pieces(page, &[PagePiece::Raw(b"exactly "), most])
    } else if min == 0 {
        push_pieces(page, &[PagePiece::Raw(b"at most "), most])
    } else {
        push_pieces(
            page,
            &[
                PagePiece::Raw(b"from "),
                least,
                PagePiece::Raw(b" to "),
                most,
            ],
        )
    }
}

fn push_first_games(page: &mut Vec<u8>, league: &League, games: &GameList) -> Result<(), AllocError>
    requires { AllByRecursion (IsGameFor (teams league.now)) games.now }
    ensures { OnOk result (page.new.items ≡ page.old.items ++ first_games league.now games.now) }
{
    for i in 0..SHOWN.min(games.len()) {
        push_game(page, league, i, games.at(i))?;
    }
    Ok(())
}

fn push_game(page: &mut Vec<u8>, league: &League, i: usize, game: Pairing) -> Result<(), AllocError>
    requires { IsGameFor (teams league.now) game }
    ensures { OnOk result (page.new.items ≡ page.old.items ++ game_text league.now i game) }
{
    push_pieces(
        page,
        &[
            PagePiece::Raw(word_if(i != 0, b", ")),
            PagePiece::Name(league.name(game.home).as_bytes()),
            PagePiece::Raw(b" - "),
            PagePiece::Name(league.name(game.away).as_bytes()),
        ],
    )
}

fn push_more(page: &mut Vec<u8>, count: usize) -> Result<(), AllocError>
    ensures { OnOk result (page.new.items ≡ page.old.items ++ more_text count) }
{
    if count <= SHOWN {
        return Ok(());
    }
    push_pieces(
        page,
        &[
            PagePiece::Raw(b" and "),
            PagePiece::Number((count - SHOWN) as u64),
            PagePiece::Raw(b" more"),
        ],
    )
}
