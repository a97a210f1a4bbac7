//! The games of a schedule in words, as they are published.

ghost use Rattle.std.specs.Prelude.{◌≡◌, ◌++◌, ◌<◌, IfOk, OnOk};
ghost use Rattle.fixtures.specs.Games.{round_count};
ghost use Rattle.league.specs.League.{teams};
ghost use Rattle.byte_streams.specs.Pieces.{pieces_below};
ghost use Rattle.report_page.specs.Pairings.{pairing, pairing_at, pairings_text, round_block, round_end, round_head, rounds_section, rounds_text};

use crate::labels::{has_round_texts, round_text};
use crate::pieces::{PagePiece, push_pieces};
use crate::style::word_if;
use fixtures::Schedule;
use league::League;
use std::alloc::{AllocError, Global};

/// How the games of a round stand.
#[derive(Clone, Copy)]
pub(crate) enum Dress {
    /// A line for each.
    Lines,
    /// As a part of a page, on which names stand for themselves, whatever they hold.
    Page,
}

/// A block for each round, with a line for each game in the order of the home teams.
pub(crate) fn pairings(
    alloc: Global,
    league: &League,
    schedule: &Schedule,
) -> Result<Vec<u8>, AllocError>
    requires { schedule.now.teams ≡ teams league.now }
    ensures { IfOk result (λ text. text.items ≡ pairings_text league.now schedule.now) }
{
    let mut text = Vec::new(alloc);
    push_rounds(&mut text, Dress::Lines, league, schedule)?;
    Ok(text)
}

/// Adds the games by round as a part of a page.
pub(crate) fn push_round_list(
    page: &mut Vec<u8>,
    league: &League,
    schedule: &Schedule,
) -> Result<(), AllocError>
    requires { schedule.now.teams ≡ teams league.now }
    ensures { OnOk result (page.new.items ≡ page.old.items ++ rounds_section league.now schedule.now) }
{
    push_pieces(
        page,
        &[PagePiece::Raw(b"<h2>Rounds</h2><div class='rounds'>\n")],
    )?;
    push_rounds(page, Dress::Page, league, schedule)?;
    push_pieces(page, &[PagePiece::Raw(b"</div>")])
}

fn push_rounds(
    text: &mut Vec<u8>,
    dress: Dress,
    league: &League,
    schedule: &Schedule,
) -> Result<(), AllocError>
    requires { schedule.now.teams ≡ teams league.now }
    ensures { OnOk result (text.new.items ≡ text.old.items ++ rounds_text dress league.now schedule.now) }
{
    for round in 0..schedule.rounds() {
        push_round(text, dress, league, schedule, round)?;
    }
    Ok(())
}

fn push_round(
    text: &mut Vec<u8>,
    dress: Dress,
    league: &League,
    schedule: &Schedule,
    round: u8,
) -> Result<(), AllocError>
    requires same { schedule.now.teams ≡ teams league.now }
    requires round { round < round_count schedule.now.teams }
    ensures { OnOk result (text.new.items ≡ text.old.items ++ round_block dress league.now schedule.now round) }
{
    push_round_head(text, dress, league, round)?;
    push_pairings(text, dress, league, schedule, round)?;
    push_round_end(text, dress)
}

fn push_round_head(
    text: &mut Vec<u8>,
    dress: Dress,
    league: &League,
    round: u8,
) -> Result<(), AllocError>
    ensures { OnOk result (text.new.items ≡ text.old.items ++ round_head dress league.now round) }
{
    let number = PagePiece::Number(round as u64 + 1);
    let comma = PagePiece::Raw(word_if(has_round_texts(league), b", "));
    let called = round_text(league, round);
    match dress {
        Dress::Lines => {
            let apart = PagePiece::Raw(word_if(round > 0, b"\n"));
            push_pieces(
                text,
                &[
                    apart,
                    PagePiece::Raw(b"Round "),
                    number,
                    comma,
                    PagePiece::Raw(called),
                    PagePiece::Raw(b"\n"),
                ],
            )
        }
        Dress::Page => push_pieces(
            text,
            &[
                PagePiece::Raw(b"<section><h3>Round "),
                number,
                comma,
                PagePiece::Name(called),
                PagePiece::Raw(b"</h3>"),
            ],
        ),
    }
}

fn push_round_end(text: &mut Vec<u8>, dress: Dress) -> Result<(), AllocError>
    ensures { OnOk result (text.new.items ≡ text.old.items ++ round_end dress) }
{
    match dress {
        Dress::Lines => Ok(()),
        Dress::Page => push_pieces(text, &[PagePiece::Raw(b"</section>\n")]),
    }
}

fn push_pairings(
    text: &mut Vec<u8>,
    dress: Dress,
    league: &League,
    schedule: &Schedule,
    round: u8,
) -> Result<(), AllocError>
    requires same { schedule.now.teams ≡ teams league.now }
    requires round { round < round_count schedule.now.teams }
    ensures { OnOk result (text.new.items ≡ text.old.items
        ++ pieces_below (pairing_at dress league.now schedule.now round) schedule.now.teams) }
{
    for team in 0..schedule.teams() {
        push_pairing_at(text, dress, league, schedule, round, team)?;
    }
    Ok(())
}

/// Adds the team's game in the round, if the team is at home there.
fn push_pairing_at(
    text: &mut Vec<u8>,
    dress: Dress,
    league: &League,
    schedule: &Schedule,
    round: u8,
    team: u8,
) -> Result<(), AllocError>
    requires same { schedule.now.teams ≡ teams league.now }
    requires team { team < schedule.now.teams }
    requires round { round < round_count schedule.now.teams }
    ensures { OnOk result (text.new.items ≡ text.old.items ++ pairing_at dress league.now schedule.now round team) }
{
    let game = schedule.game_at(team, round);
    if game.home {
        push_pairing(text, dress, league, team, game.opponent)
    } else {
        Ok(())
    }
}

fn push_pairing(
    text: &mut Vec<u8>,
    dress: Dress,
    league: &League,
    home: u8,
    away: u8,
) -> Result<(), AllocError>
    requires home { home < teams league.now }
    requires away { away < teams league.now }
    ensures { OnOk result (text.new.items ≡ text.old.items ++ pairing dress league.now home away) }
{
    let home = league.name(home).as_bytes();
    let away = league.name(away).as_bytes();
    let against = PagePiece::Raw(b" - ");
    match dress {
        Dress::Lines => push_pieces(
            text,
            &[
                PagePiece::Raw(home),
                against,
                PagePiece::Raw(away),
                PagePiece::Raw(b"\n"),
            ],
        ),
        Dress::Page => push_pieces(
            text,
            &[
                PagePiece::Raw(b"<div>"),
                PagePiece::Name(home),
                against,
                PagePiece::Name(away),
                PagePiece::Raw(b"</div>"),
            ],
        ),
    }
}
