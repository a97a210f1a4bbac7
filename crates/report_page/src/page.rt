//! The page of a schedule: the league's figures, the grid of its games, the travel of each team, the rules, the moved games, and the games
//! by round.

ghost use Rattle.std.specs.Prelude.{◌≡◌, ◌++◌, ◌<◌, ◌^◌, length, slice_get, IfOk, OnOk};
ghost use Rattle.costs.specs.Costs.{total_of};
ghost use Rattle.league.specs.League.{teams};
ghost use Rattle.byte_streams.specs.Pieces.{pieces_below};
ghost use Rattle.report_page.specs.Page.{costs_text, counts_text, figures_text, measures_text, page_text, row_head, rule_figures, rule_row_at, rule_rows};
ghost use Rattle.report_page.specs.Page.{rule_table, rules_text, sections_text, sorted_rules, top_text, total_text, tour_row};
ghost use Rattle.report_page.specs.Page.{travel_row, travel_text, weight_text};
ghost use Rattle.report_page.specs.within.BrokenGames.{AreBroken};

use crate::broken_games::{BrokenGames, broken_games};
use crate::grid::{push_grid, push_team_head};
use crate::labels::{has_title, title};
use crate::moved_games::{push_moved, push_near};
use crate::pairings::push_round_list;
use crate::pieces::{PagePiece, push_pieces};
use crate::rule_words::push_rule_words;
use crate::style::{push_style, word_if};
use costs::{Cost, cost_of};
use fixtures::Schedule;
use league::limits::round_count;
use league::{League, Rule, Weight};
use rules::deviation;
use std::alloc::{AllocError, Global};
use text_lines::class_name;
use tours::travel_of;

/// The page. It stands alone: it holds no script, and nothing from elsewhere.
#[tactic(auto, unfolding(crate::specs::Page::page_text))]
pub(crate) fn page(
    alloc: Global,
    league: &League,
    schedule: &Schedule,
) -> Result<Vec<u8>, AllocError>
    requires { schedule.now.teams ≡ teams league.now }
    ensures { IfOk result (λ page. page.items ≡ page_text league.now schedule.now) }
{
    let mut page = Vec::new(alloc);
    push_top(&mut page, league, schedule)?;
    let broken = broken_games(alloc, league, schedule)?;
    push_sections(&mut page, alloc, league, schedule, &broken)?;
    push_pieces(&mut page, &[PagePiece::Raw(b"</body></html>\n")])?;
    Ok(page)
}

/// Adds the page up to the figures.
fn push_top(page: &mut Vec<u8>, league: &League, schedule: &Schedule) -> Result<(), AllocError>
    requires { schedule.now.teams ≡ teams league.now }
    ensures { OnOk result (page.new.items ≡ page.old.items ++ top_text league.now schedule.now) }
{
    let cost = cost_of(schedule, league);
    push_costs(page, league, schedule, cost)
}

fn push_costs(
    page: &mut Vec<u8>,
    league: &League,
    schedule: &Schedule,
    cost: Cost,
) -> Result<(), AllocError>
    requires same { schedule.now.teams ≡ teams league.now }
    requires small { total_of cost < 2 ^ 64 }
    ensures { OnOk result (page.new.items ≡ page.old.items ++ costs_text league.now schedule.now cost) }
{
    push_style(page, league)?;
    push_measures(page, schedule, cost.travel)?;
    push_figures(page, league, schedule, cost)
}

/// Adds the grid, the travel, the rules, the moved games, and the games by round.
#[tactic(auto, unfolding(crate::specs::Page::sections_text))]
fn push_sections(
    page: &mut Vec<u8>,
    alloc: Global,
    league: &League,
    schedule: &Schedule,
    broken: &BrokenGames,
) -> Result<(), AllocError>
    requires same { schedule.now.teams ≡ teams league.now }
    requires broken { AreBroken league.now schedule.now broken.now }
    ensures { OnOk result (page.new.items ≡ page.old.items ++ sections_text league.now schedule.now) }
{
    push_grid(page, league, schedule, broken)?;
    push_travel(page, league, schedule)?;
    push_rules(page, alloc, league, schedule)?;
    push_moved(page, league, schedule)?;
    push_round_list(page, league, schedule)
}

/// Adds the numbers that the style takes from the page.
fn push_measures(page: &mut Vec<u8>, schedule: &Schedule, travel: u64) -> Result<(), AllocError>
    ensures { OnOk result (page.new.items ≡ page.old.items ++ measures_text schedule.now travel) }
{
    push_pieces(
        page,
        &[
            PagePiece::Number(schedule.teams() as u64),
            PagePiece::Raw(b";--rounds:"),
            PagePiece::Number(schedule.rounds() as u64),
            PagePiece::Raw(b";--travel:"),
            PagePiece::Number(travel),
            PagePiece::Raw(b"'>"),
        ],
    )
}

fn push_figures(
    page: &mut Vec<u8>,
    league: &League,
    schedule: &Schedule,
    cost: Cost,
) -> Result<(), AllocError>
    requires same { schedule.now.teams ≡ teams league.now }
    requires small { total_of cost < 2 ^ 64 }
    ensures { OnOk result (page.new.items ≡ page.old.items ++ figures_text league.now schedule.now cost) }
{
    push_counts(page, league, cost)?;
    push_near(page, league, schedule)?;
    push_total(page, cost)
}

fn push_counts(page: &mut Vec<u8>, league: &League, cost: Cost) -> Result<(), AllocError>
    ensures { OnOk result (page.new.items ≡ page.old.items ++ counts_text league.now cost) }
{
    let teams = league.teams();
    push_pieces(
        page,
        &[
            PagePiece::Raw(b"<h1>"),
            PagePiece::Name(title(league)),
            PagePiece::Raw(word_if(has_title(league), b": ")),
            PagePiece::Number(teams as u64),
            PagePiece::Raw(b" teams, "),
            PagePiece::Number(round_count(teams) as u64),
            PagePiece::Raw(b" rounds</h1><ul><li>travel <b>"),
            PagePiece::Number(cost.travel),
            PagePiece::Raw(b"</b></li><li>hard <b>"),
            PagePiece::Number(cost.hard),
            PagePiece::Raw(b"</b></li><li>soft <b>"),
            PagePiece::Number(cost.soft),
            PagePiece::Raw(b"</b></li>"),
        ],
    )
}

fn push_total(page: &mut Vec<u8>, cost: Cost) -> Result<(), AllocError>
    requires { total_of cost < 2 ^ 64 }
    ensures { OnOk result (page.new.items ≡ page.old.items ++ total_text cost) }
{
    if cost.is_feasible() {
        push_pieces(
            page,
            &[
                PagePiece::Raw(b"<li>total <b>"),
                PagePiece::Number(cost.total()),
                PagePiece::Raw(b"</b></li></ul>"),
            ],
        )
    } else {
        push_pieces(
            page,
            &[PagePiece::Raw(b"<li class='bad'><b>infeasible</b></li></ul>")],
        )
    }
}

fn push_travel(page: &mut Vec<u8>, league: &League, schedule: &Schedule) -> Result<(), AllocError>
    requires { schedule.now.teams ≡ teams league.now }
    ensures { OnOk result (page.new.items ≡ page.old.items ++ travel_text league.now schedule.now) }
{
    push_pieces(
        page,
        &[PagePiece::Raw(
            b"<h2>Travel</h2><p>A bar that ends at the line is as long as the average.</p><table class='travel'>",
        )],
    )?;
    push_tours(page, league, schedule)?;
    push_pieces(page, &[PagePiece::Raw(b"</table>")])
}

fn push_tours(page: &mut Vec<u8>, league: &League, schedule: &Schedule) -> Result<(), AllocError>
    requires { schedule.now.teams ≡ teams league.now }
    ensures { OnOk result (page.new.items ≡ page.old.items
        ++ pieces_below (tour_row league.now schedule.now) schedule.now.teams) }
{
    for team in 0..schedule.teams() {
        push_tour(page, league, team, travel_of(schedule, league, team))?;
    }
    Ok(())
}

fn push_tour(page: &mut Vec<u8>, league: &League, team: u8, travel: u64) -> Result<(), AllocError>
    requires { team < teams league.now }
    ensures { OnOk result (page.new.items ≡ page.old.items ++ travel_row league.now team travel) }
{
    push_team_head(page, league, team)?;
    push_pieces(
        page,
        &[
            PagePiece::Raw(b"<td>"),
            PagePiece::Number(travel),
            PagePiece::Raw(b"</td><td class='bar'><div style='--tour:"),
            PagePiece::Number(travel),
            PagePiece::Raw(b"'></div></td></tr>"),
        ],
    )
}

/// Adds the rules, if there are any.
fn push_rules(
    page: &mut Vec<u8>,
    alloc: Global,
    league: &League,
    schedule: &Schedule,
) -> Result<(), AllocError>
    requires { schedule.now.teams ≡ teams league.now }
    ensures { OnOk result (page.new.items ≡ page.old.items ++ rules_text league.now schedule.now) }
{
    if league.rule_count() == 0 {
        Ok(())
    } else {
        push_rule_table(page, alloc, league, schedule)
    }
}

/// Adds the rules with a head.
fn push_rule_table(
    page: &mut Vec<u8>,
    alloc: Global,
    league: &League,
    schedule: &Schedule,
) -> Result<(), AllocError>
    requires { schedule.now.teams ≡ teams league.now }
    ensures { OnOk result (page.new.items ≡ page.old.items ++ rule_table league.now schedule.now) }
{
    push_pieces(
        page,
        &[
            PagePiece::Raw(b"<h2>Rules</h2><p>Broken ones first.</p><table class='rules'>"),
            PagePiece::Raw(
                b"<tr><th>Rule</th><th>Class</th><th>Kind</th><th>Deviation</th><th>Words</th></tr>",
            ),
        ],
    )?;
    push_sorted_rules(page, alloc, league, schedule)?;
    push_pieces(page, &[PagePiece::Raw(b"</table>")])
}

/// Adds the broken rules, and then the others.
#[tactic(auto, unfolding(crate::specs::Page::sorted_rules))]
fn push_sorted_rules(
    page: &mut Vec<u8>,
    alloc: Global,
    league: &League,
    schedule: &Schedule,
) -> Result<(), AllocError>
    requires { schedule.now.teams ≡ teams league.now }
    ensures { OnOk result (page.new.items ≡ page.old.items ++ sorted_rules league.now schedule.now) }
{
    push_rule_rows(page, alloc, league, schedule, true)?;
    push_rule_rows(page, alloc, league, schedule, false)
}

/// Adds the rules that are broken, or those that are not.
fn push_rule_rows(
    page: &mut Vec<u8>,
    alloc: Global,
    league: &League,
    schedule: &Schedule,
    broken: bool,
) -> Result<(), AllocError>
    requires { schedule.now.teams ≡ teams league.now }
    ensures { OnOk result (page.new.items ≡ page.old.items ++ rule_rows league.now schedule.now broken) }
{
    for i in 0..league.rule_count() {
        push_rule(page, alloc, league, schedule, broken, i)?;
    }
    Ok(())
}

/// Adds the rule, if it is broken or not as is asked.
fn push_rule(
    page: &mut Vec<u8>,
    alloc: Global,
    league: &League,
    schedule: &Schedule,
    broken: bool,
    i: usize,
) -> Result<(), AllocError>
    requires same { schedule.now.teams ≡ teams league.now }
    requires rule { i < length league.now.rules }
    requires few { i < 256 }
    ensures { OnOk result (page.new.items ≡ page.old.items
        ++ rule_row_at league.now schedule.now broken i (slice_get league.now.rules i)) }
{
    let rule = league.rule(i);
    let deviation = deviation(schedule, rule);
    if (deviation > 0) != broken {
        return Ok(());
    }
    push_rule_figures(page, broken, i as u64, rule, deviation)?;
    push_rule_words(page, alloc, league, schedule, rule, deviation)?;
    push_pieces(page, &[PagePiece::Raw(b"</td></tr>")])
}

/// Adds a row up to the rule in words.
fn push_rule_figures(
    page: &mut Vec<u8>,
    broken: bool,
    i: u64,
    rule: &Rule,
    deviation: u64,
) -> Result<(), AllocError>
    requires { i < 256 }
    ensures { OnOk result (page.new.items ≡ page.old.items ++ rule_figures broken i rule.now deviation) }
{
    push_pieces(
        page,
        &[
            PagePiece::Raw(row_head(broken)),
            PagePiece::Number(i + 1),
            PagePiece::Raw(b"</td><td>"),
            PagePiece::Raw(class_name(&rule.body).as_bytes()),
            PagePiece::Raw(b"</td><td>"),
        ],
    )?;
    push_weight(page, rule.weight)?;
    push_pieces(
        page,
        &[
            PagePiece::Raw(b"</td><td>"),
            PagePiece::Number(deviation),
            PagePiece::Raw(b"</td><td>"),
        ],
    )
}

fn row_head(broken: bool) -> &'static [u8]
    ensures { result.now ≡ row_head broken }
{
    if broken {
        b"<tr class='bad'><td>"
    } else {
        b"<tr><td>"
    }
}

fn push_weight(page: &mut Vec<u8>, weight: Weight) -> Result<(), AllocError>
    ensures { OnOk result (page.new.items ≡ page.old.items ++ weight_text weight) }
{
    match weight {
        Weight::Hard => push_pieces(page, &[PagePiece::Raw(b"hard")]),
        Weight::Soft(weight) => push_pieces(
            page,
            &[PagePiece::Raw(b"soft "), PagePiece::Number(weight as u64)],
        ),
    }
}
