//! The cost of leaving the start of a league, and the games that have left it.

ghost use Rattle.std.specs.Prelude.{◌≡◌, ◌++◌, ◌<◌, OnOk};
ghost use Rattle.league.specs.League.{teams};
ghost use Rattle.byte_streams.specs.Pieces.{pieces_below};
ghost use Rattle.report_page.specs.MovedGames.{moved_row, moved_rows, moved_section, moved_table, near_figure, was_row};

use crate::pieces::{PagePiece, push_pieces};
use fixtures::Schedule;
use league::League;
use std::alloc::AllocError;
use tours::moved_games;

/// Adds what leaving the start costs, if it has a price.
pub(crate) fn push_near(
    page: &mut Vec<u8>,
    league: &League,
    schedule: &Schedule,
) -> Result<(), AllocError>
    requires { schedule.now.teams ≡ teams league.now }
    ensures { OnOk result (page.new.items ≡ page.old.items ++ near_figure league.now schedule.now) }
{
    let near = league.near();
    if near == 0 {
        return Ok(());
    }
    let moved = moved_games(schedule, league);
    push_pieces(
        page,
        &[
            PagePiece::Raw(b"<li>near <b>"),
            PagePiece::Number(near as u64),
            PagePiece::Raw(b"</b> moved <b>"),
            PagePiece::Number(moved),
            PagePiece::Raw(b"</b></li>"),
        ],
    )
}

/// Adds the games that have left the start, if it was given.
pub(crate) fn push_moved(
    page: &mut Vec<u8>,
    league: &League,
    schedule: &Schedule,
) -> Result<(), AllocError>
    requires { schedule.now.teams ≡ teams league.now }
    ensures { OnOk result (page.new.items ≡ page.old.items ++ moved_section league.now schedule.now) }
{
    if league.given() {
        push_moved_table(page, league, schedule)
    } else {
        Ok(())
    }
}

fn push_moved_table(
    page: &mut Vec<u8>,
    league: &League,
    schedule: &Schedule,
) -> Result<(), AllocError>
    requires { schedule.now.teams ≡ teams league.now }
    ensures { OnOk result (page.new.items ≡ page.old.items ++ moved_table league.now schedule.now) }
{
    push_pieces(
        page,
        &[PagePiece::Raw(
            b"<h2>Moved games</h2><table><tr><th>Game</th><th>Round at the start</th><th>Round now</th></tr>",
        )],
    )?;
    push_all_moved(page, league, schedule)?;
    push_pieces(page, &[PagePiece::Raw(b"</table>")])
}

fn push_all_moved(
    page: &mut Vec<u8>,
    league: &League,
    schedule: &Schedule,
) -> Result<(), AllocError>
    requires { schedule.now.teams ≡ teams league.now }
    ensures { OnOk result (page.new.items ≡ page.old.items
        ++ pieces_below (moved_rows league.now schedule.now) schedule.now.teams) }
{
    for home in 0..schedule.teams() {
        push_moved_of(page, league, schedule, home)?;
    }
    Ok(())
}

fn push_moved_of(
    page: &mut Vec<u8>,
    league: &League,
    schedule: &Schedule,
    home: u8,
) -> Result<(), AllocError>
    requires same { schedule.now.teams ≡ teams league.now }
    requires home { home < schedule.now.teams }
    ensures { OnOk result (page.new.items ≡ page.old.items ++ moved_rows league.now schedule.now home) }
{
    for away in 0..schedule.teams() {
        push_moved_game(page, league, schedule, home, away)?;
    }
    Ok(())
}

/// Adds the game in which `home` receives `away`, if it isn't in its round of the start. A team has no game with itself.
fn push_moved_game(
    page: &mut Vec<u8>,
    league: &League,
    schedule: &Schedule,
    home: u8,
    away: u8,
) -> Result<(), AllocError>
    requires same { schedule.now.teams ≡ teams league.now }
    requires home { home < schedule.now.teams }
    requires away { away < schedule.now.teams }
    ensures { OnOk result (page.new.items ≡ page.old.items ++ moved_row league.now schedule.now home away) }
{
    if home == away {
        return Ok(());
    }
    let was = league.start_round(home, away);
    let now = schedule.round_of(home, away);
    if now == was {
        return Ok(());
    }
    push_was(page, (home, away), was, now)
}

fn push_was(page: &mut Vec<u8>, game: (u8, u8), was: u8, now: u8) -> Result<(), AllocError>
    ensures { OnOk result (page.new.items ≡ page.old.items ++ was_row game.0 game.1 was now) }
{
    push_pieces(
        page,
        &[
            PagePiece::Raw(b"<tr><td>"),
            PagePiece::Number(game.0 as u64 + 1),
            PagePiece::Raw(b"-"),
            PagePiece::Number(game.1 as u64 + 1),
            PagePiece::Raw(b"</td><td>"),
            PagePiece::Number(was as u64 + 1),
            PagePiece::Raw(b"</td><td>"),
            PagePiece::Number(now as u64 + 1),
            PagePiece::Raw(b"</td></tr>"),
        ],
    )
}
