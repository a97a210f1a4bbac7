//! Lists of teams and of rounds in words.

ghost use Rattle.std.specs.Prelude.{◌≡◌, ◌++◌, ◌<◌, ◌≤◌, ◌+◌, ◌-◌, ◌==◌, ◌&&◌, not, nat_lt, OnOk};
ghost use Rattle.league.specs.League.{teams};
ghost use Rattle.league.specs.Limits.{max_rounds, max_teams};
ghost use Rattle.league.specs.Sets.{has, IsBelow};
ghost use Rattle.league.specs.Sums.{count_where};
ghost use Rattle.byte_streams.specs.Pieces.{pieces_below};
ghost use Rattle.report_page.specs.Lists.{each_text, joint, name_if, names_text, pairs_text, round_in, rounds_text, stretch_text};
ghost use Rattle.report_page.specs.Lists.{teams_text};

use crate::pieces::{PagePiece, push_pieces};
use crate::style::word_if;
use league::{League, SlotSet, TeamSet};
use std::alloc::AllocError;

/// Adds the names of the teams.
fn push_names(page: &mut Vec<u8>, league: &League, chosen: TeamSet) -> Result<(), AllocError>
    requires { IsBelow (teams league.now) chosen }
    ensures { OnOk result (page.new.items ≡ page.old.items ++ names_text league.now (has chosen)) }
{
    let all = chosen.len();
    let mut before = 0;
    for team in 0..league.teams() {
        let passes = chosen.has(team);
        push_name_if(page, league, passes, (before, all), team)?;
        before += u32::from(passes);
    }
    Ok(())
}

/// Adds the team's name behind so many of all, if it passes.
fn push_name_if(
    page: &mut Vec<u8>,
    league: &League,
    passes: bool,
    place: (u32, u32),
    team: u8,
) -> Result<(), AllocError>
    requires few { place.0 ≤ max_teams }
    requires team { team < teams league.now }
    ensures { OnOk result (page.new.items ≡ page.old.items ++ name_if league.now passes place.0 place.1 team) }
{
    let (before, all) = place;
    if !passes {
        return Ok(());
    }
    push_pieces(
        page,
        &[
            PagePiece::Raw(joint(before, all)),
            PagePiece::Name(league.name(team).as_bytes()),
        ],
    )
}

/// The words that part an item from those before it, of so many.
fn joint(before: u32, all: u32) -> &'static [u8]
    requires { before ≤ max_teams }
    ensures { result.now ≡ joint before all }
{
    if before == 0 {
        b""
    } else if before + 1 == all {
        b" and "
    } else {
        b", "
    }
}

/// Adds the teams.
#[tactic(auto, unfolding(crate::specs::Lists::teams_text))]
pub(crate) fn push_teams(
    page: &mut Vec<u8>,
    league: &League,
    chosen: TeamSet,
) -> Result<(), AllocError>
    requires { IsBelow (teams league.now) chosen }
    ensures { OnOk result (page.new.items ≡ page.old.items ++ teams_text league.now (has chosen)) }
{
    let count = chosen.len();
    if count == 0 {
        push_pieces(page, &[PagePiece::Raw(b"no team")])
    } else if count == u32::from(league.teams()) {
        push_pieces(page, &[PagePiece::Raw(b"all teams")])
    } else {
        push_names(page, league, chosen)
    }
}

/// Adds each of the teams.
#[tactic(auto, unfolding(crate::specs::Lists::each_text))]
pub(crate) fn push_each(
    page: &mut Vec<u8>,
    league: &League,
    chosen: TeamSet,
) -> Result<(), AllocError>
    requires { IsBelow (teams league.now) chosen }
    ensures { OnOk result (page.new.items ≡ page.old.items ++ each_text league.now (has chosen)) }
{
    let count = chosen.len();
    if count == u32::from(league.teams()) {
        return push_pieces(page, &[PagePiece::Raw(b"every team")]);
    }
    push_pieces(page, &[PagePiece::Raw(word_if(count > 1, b"each of "))])?;
    push_teams(page, league, chosen)
}

/// Adds each two of the teams, of which there are none below two teams.
#[tactic(auto, unfolding(crate::specs::Lists::pairs_text))]
pub(crate) fn push_pairs(
    page: &mut Vec<u8>,
    league: &League,
    chosen: TeamSet,
) -> Result<(), AllocError>
    requires { IsBelow (teams league.now) chosen }
    ensures { OnOk result (page.new.items ≡ page.old.items ++ pairs_text league.now (has chosen)) }
{
    let count = chosen.len();
    if count == u32::from(league.teams()) {
        return push_pieces(page, &[PagePiece::Raw(b"any two teams")]);
    }
    if count < 2 {
        return push_pieces(page, &[PagePiece::Raw(b"no two teams")]);
    }
    push_pieces(page, &[PagePiece::Raw(word_if(count != 2, b"any two of "))])?;
    push_teams(page, league, chosen)
}

/// Adds the rounds of so many, each stretch by its first and its last.
#[tactic(auto, unfolding(crate::specs::Lists::rounds_text))]
pub(crate) fn push_rounds(page: &mut Vec<u8>, rounds: u8, chosen: SlotSet) -> Result<(), AllocError>
    requires most { rounds ≤ max_rounds }
    requires below { IsBelow rounds chosen }
    ensures { OnOk result (page.new.items ≡ page.old.items ++ rounds_text rounds (has chosen)) }
{
    let count = chosen.len();
    if count == 0 {
        return push_pieces(page, &[PagePiece::Raw(b"no round")]);
    }
    push_pieces(
        page,
        &[
            PagePiece::Raw(b"round"),
            PagePiece::Raw(word_if(count > 1, b"s")),
            PagePiece::Raw(b" "),
        ],
    )?;
    push_stretches(page, rounds, chosen)
}

fn push_stretches(page: &mut Vec<u8>, rounds: u8, chosen: SlotSet) -> Result<(), AllocError>
    requires { rounds ≤ max_rounds }
    ensures { OnOk result (page.new.items ≡ page.old.items ++ pieces_below (round_in rounds (has chosen)) rounds) }
{
    let mut before = 0;
    for round in 0..rounds {
        let stretch = stretch_at(chosen, rounds, round);
        push_stretch_end(page, stretch, before, round)?;
        before += u32::from(stretch.passes);
    }
    Ok(())
}

/// Whether a round passes, and the rounds before and after it do.
#[derive(Clone, Copy)]
struct SlotStretch {
    passes: bool,
    goes_on: bool,
    continues: bool,
}

fn stretch_at(chosen: SlotSet, rounds: u8, round: u8) -> SlotStretch
    requires most { rounds ≤ max_rounds }
    requires round { round < rounds }
    ensures passes { result.passes ≡ has chosen round }
    ensures goes_on { result.goes_on ≡ (not (round == 0) && has chosen (round - 1)) }
    ensures continues { result.continues ≡ (nat_lt (round + 1) rounds && has chosen (round + 1)) }
{
    SlotStretch {
        passes: chosen.has(round),
        goes_on: round != 0 && chosen.has(round - 1),
        continues: round + 1 < rounds && chosen.has(round + 1),
    }
}

/// Adds the round, if it passes behind so many others, and a stretch of them begins or ends with it.
fn push_stretch_end(
    page: &mut Vec<u8>,
    stretch: SlotStretch,
    before: u32,
    round: u8,
) -> Result<(), AllocError>
    ensures { OnOk result (page.new.items ≡ page.old.items
        ++ stretch_text stretch.passes before stretch.goes_on stretch.continues round) }
{
    let number = PagePiece::Number(round as u64 + 1);
    if !stretch.passes {
        Ok(())
    } else if !stretch.goes_on {
        push_pieces(page, &[PagePiece::Raw(word_if(before != 0, b", ")), number])
    } else if stretch.continues {
        Ok(())
    } else {
        push_pieces(page, &[PagePiece::Raw(b"-"), number])
    }
}
