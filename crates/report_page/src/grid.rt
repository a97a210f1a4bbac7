//! The grid of teams and rounds.

ghost use Rattle.std.specs.Prelude.{◌≡◌, ◌++◌, ◌-◌, ◌<◌, ◌&&◌, nat_le, nat_lt, length, OnOk};
ghost use Rattle.fixtures.specs.Games.{cell, cell_round, round_count, IsPair};
ghost use Rattle.league.specs.League.{teams};
ghost use Rattle.league.specs.Starts.{is_given, start_round};
ghost use Rattle.league.specs.Sets.{has};
ghost use Rattle.league.specs.Limits.{max_rounds};
ghost use Rattle.byte_streams.specs.Pieces.{pieces_below};
ghost use Rattle.report_page.specs.Grid.{cell_of, cell_text, grid_lines, grid_row, grid_text, is_moved, legend_text, meets_again};
ghost use Rattle.report_page.specs.Grid.{round_head, team_head};
ghost use Rattle.report_page.specs.within.BrokenGames.{AreBroken};

use crate::broken_games::BrokenGames;
use crate::labels::{has_short_names, short_name};
use crate::pieces::{PagePiece, push_pieces};
use crate::style::word_if;
use fixtures::{Cell, Schedule};
use league::{League, SlotSet};
use std::alloc::AllocError;
use tours::windows_spent;

/// Adds the grid: a head with the rounds, and a row for each team.
#[tactic(auto, unfolding(crate::specs::Grid::grid_text))]
pub(crate) fn push_grid(
    page: &mut Vec<u8>,
    league: &League,
    schedule: &Schedule,
    broken: &BrokenGames,
) -> Result<(), AllocError>
    requires same { schedule.now.teams ≡ teams league.now }
    requires broken { AreBroken league.now schedule.now broken.now }
    ensures { OnOk result (page.new.items ≡ page.old.items ++ grid_text league.now schedule.now) }
{
    push_legend(page, league)?;
    push_lines(page, league, schedule, broken)?;
    push_pieces(page, &[PagePiece::Raw(b"</tr></table></div>")])
}

/// Adds what the marks in the grid mean.
fn push_legend(page: &mut Vec<u8>, league: &League) -> Result<(), AllocError>
    ensures { OnOk result (page.new.items ≡ page.old.items ++ legend_text league.now.at_most (nat_lt 0 (length league.now.rules)) (is_given league.now.origin.start)) }
{
    push_pieces(
        page,
        &[
            PagePiece::Raw(b"<h2>Games</h2><p><span class='h'>Shaded</span>: at home. @: away. "),
            PagePiece::Raw(b"<span class='o'>Ringed</span>: more than "),
            PagePiece::Number(league.at_most() as u64),
            PagePiece::Raw(b" in a row at home or away. "),
            PagePiece::Raw(b"<span class='r'>Dashed</span>: the opponent of the round before.</p>"),
            PagePiece::Raw(word_if(
                league.rule_count() > 0,
                b"<p><span class='b'>Line below</span>: what a broken rule counts.</p>",
            )),
            PagePiece::Raw(word_if(
                league.given(),
                b"<p><span class='m'>Underlined</span>: in another round than at the start.</p>",
            )),
            PagePiece::Raw(b"<div class='wide'><table class='grid'><tr><th>Team</th>"),
        ],
    )
}

fn push_lines(
    page: &mut Vec<u8>,
    league: &League,
    schedule: &Schedule,
    broken: &BrokenGames,
) -> Result<(), AllocError>
    requires same { schedule.now.teams ≡ teams league.now }
    requires broken { AreBroken league.now schedule.now broken.now }
    ensures { OnOk result (page.new.items ≡ page.old.items ++ grid_lines league.now schedule.now) }
{
    push_round_heads(page, schedule)?;
    push_rows(page, league, schedule, broken)
}

fn push_round_heads(page: &mut Vec<u8>, schedule: &Schedule) -> Result<(), AllocError>
    ensures { OnOk result (page.new.items ≡ page.old.items ++ pieces_below round_head (round_count schedule.now.teams)) }
{
    for round in 0..schedule.rounds() {
        push_pieces(
            page,
            &[
                PagePiece::Raw(b"<th>"),
                PagePiece::Number(round as u64 + 1),
                PagePiece::Raw(b"</th>"),
            ],
        )?;
    }
    Ok(())
}

fn push_rows(
    page: &mut Vec<u8>,
    league: &League,
    schedule: &Schedule,
    broken: &BrokenGames,
) -> Result<(), AllocError>
    requires same { schedule.now.teams ≡ teams league.now }
    requires broken { AreBroken league.now schedule.now broken.now }
    ensures { OnOk result (page.new.items ≡ page.old.items ++ pieces_below (grid_row league.now schedule.now) schedule.now.teams) }
{
    for team in 0..schedule.teams() {
        push_row(page, league, schedule, broken, team)?;
    }
    Ok(())
}

fn push_row(
    page: &mut Vec<u8>,
    league: &League,
    schedule: &Schedule,
    broken: &BrokenGames,
    team: u8,
) -> Result<(), AllocError>
    requires same { schedule.now.teams ≡ teams league.now }
    requires broken { AreBroken league.now schedule.now broken.now }
    requires team { team < schedule.now.teams }
    ensures { OnOk result (page.new.items ≡ page.old.items ++ grid_row league.now schedule.now team) }
{
    push_pieces(page, &[PagePiece::Raw(b"</tr>")])?;
    push_team_head(page, league, team)?;
    push_cells(page, league, schedule, broken, team)
}

/// Begins a row of the team, by its number, its short name if it has one, and its name.
pub(crate) fn push_team_head(
    page: &mut Vec<u8>,
    league: &League,
    team: u8,
) -> Result<(), AllocError>
    requires { team < teams league.now }
    ensures { OnOk result (page.new.items ≡ page.old.items ++ team_head league.now team) }
{
    push_pieces(
        page,
        &[
            PagePiece::Raw(b"<tr><th>"),
            PagePiece::Number(team as u64 + 1),
            PagePiece::Raw(b" "),
            PagePiece::Name(short_name(league, team)),
            PagePiece::Raw(word_if(has_short_names(league), b" ")),
            PagePiece::Name(league.name(team).as_bytes()),
            PagePiece::Raw(b"</th>"),
        ],
    )
}

fn push_cells(
    page: &mut Vec<u8>,
    league: &League,
    schedule: &Schedule,
    broken: &BrokenGames,
    team: u8,
) -> Result<(), AllocError>
    requires same { schedule.now.teams ≡ teams league.now }
    requires broken { AreBroken league.now schedule.now broken.now }
    requires team { team < schedule.now.teams }
    ensures { OnOk result (page.new.items ≡ page.old.items
        ++ pieces_below (cell_text league.now schedule.now team) (round_count schedule.now.teams)) }
{
    let at_most = league.at_most();
    let windows = windows_spent(schedule, at_most + 1, team);
    for round in 0..schedule.rounds() {
        let game = schedule.game_at(team, round);
        let marks = Marks {
            over: goes_over(windows, at_most, round),
            again: meets_again(schedule, team, round),
            broken: broken.has(team, round),
            moved: is_moved(league, schedule, team, round),
        };
        push_cell(page, game, marks)?;
    }
    Ok(())
}

/// Whether boards begin at a given schedule that has the team's game of the round in another one.
fn is_moved(league: &League, schedule: &Schedule, team: u8, round: u8) -> bool
    requires same { schedule.now.teams ≡ teams league.now }
    requires team { team < schedule.now.teams }
    requires round { round < round_count schedule.now.teams }
    ensures { result ≡ is_moved league.now schedule.now team round }
{
    let game = schedule.game_at(team, round);
    league.given() && round_at_start(league, team, game) != round
}

/// The round at the start of the game that the team plays with this opponent, at home or away.
fn round_at_start(league: &League, team: u8, game: Cell) -> u8
    requires { IsPair (teams league.now) team game.opponent }
    ensures { result ≡ cell_round (start_round league.now) team game }
{
    if game.home {
        league.start_round(team, game.opponent)
    } else {
        league.start_round(game.opponent, team)
    }
}

/// Whether a window of one round more than allowed, of those that begin with these rounds, ends with the round.
fn goes_over(windows: SlotSet, at_most: u8, round: u8) -> bool
    requires { round < max_rounds }
    ensures { result ≡ (nat_le at_most round && has windows (round - at_most)) }
{
    at_most <= round && windows.has(round - at_most)
}

/// The marks of a game: that it makes a run longer than allowed, has the opponent of the round before, is in a breach of
/// a rule, or is moved.
#[derive(Clone, Copy)]
struct Marks {
    over: bool,
    again: bool,
    broken: bool,
    moved: bool,
}

fn push_cell(page: &mut Vec<u8>, game: Cell, marks: Marks) -> Result<(), AllocError>
    ensures { OnOk result (page.new.items ≡ page.old.items
        ++ cell_of game.opponent game.home marks.over marks.again marks.broken marks.moved) }
{
    push_pieces(
        page,
        &[
            PagePiece::Raw(b"<td class='"),
            PagePiece::Raw(word_if(game.home, b"h")),
            PagePiece::Raw(word_if(marks.over, b" o")),
            PagePiece::Raw(word_if(marks.again, b" r")),
            PagePiece::Raw(word_if(marks.broken, b" b")),
            PagePiece::Raw(word_if(marks.moved, b" m")),
            PagePiece::Raw(b"'>"),
            PagePiece::Raw(word_if(!game.home, b"@")),
            PagePiece::Number(game.opponent as u64 + 1),
            PagePiece::Raw(b"</td>"),
        ],
    )
}

/// Whether the team meets in the round whom it met in the round before.
fn meets_again(schedule: &Schedule, team: u8, round: u8) -> bool
    requires team { team < schedule.now.teams }
    requires round { round < round_count schedule.now.teams }
    ensures { result ≡ meets_again schedule.now team round }
{
    round > 0
        && schedule.game_at(team, round).opponent == schedule.game_at(team, round - 1).opponent
}
