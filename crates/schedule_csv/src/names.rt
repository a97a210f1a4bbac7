//! The team that a cell means.

ghost use Rattle.std.specs.Prelude.{◌≡◌};
ghost use Rattle.std.specs.Str.{bytes_eq};
ghost use Rattle.league.specs.League.{teams};
ghost use Rattle.schedule_csv.specs.Names.{and_also, doubled, is_marked_name, named_below, only_one, stands_for, team_of, unguarded};

use crate::cells::{MARK, unmarked};
use crate::fault::CellFault;
use league::League;
use text_lines::number;

/// The teams of a league that have a name, as far as that is asked.
#[derive(Clone, Copy)]
enum Named {
    Nobody,
    /// This team, by its number from 0.
    One(u8),
    Several,
}

/// The number from 1 of the team that a cell means: a number as it is, or that of the one team with this name.
pub(crate) fn team_of(league: &League, cell: &[u8]) -> Result<u64, CellFault>
    ensures { result ≡ team_of league.now cell.now }
{
    match number(unmarked(cell)) {
        Some(number) => Ok(number),
        None => only_one(teams_named(league, cell)),
    }
}

fn only_one(named: Named) -> Result<u64, CellFault>
    ensures { result ≡ only_one named }
{
    match named {
        Named::Nobody => Err(CellFault::NoTeam),
        Named::One(team) => Ok(u64::from(team) + 1),
        Named::Several => Err(CellFault::TwoTeams),
    }
}

/// The teams for whose names the cell stands.
fn teams_named(league: &League, cell: &[u8]) -> Named
    ensures { result ≡ named_below league.now cell.now (teams league.now) }
{
    let mut named = Named::Nobody;
    for team in 0..league.teams() {
        if stands_for(league.name(team).as_bytes(), cell) {
            named = and_also(team, named);
        }
    }
    named
}

/// With one team more.
fn and_also(team: u8, named: Named) -> Named
    ensures { result ≡ and_also team named }
{
    match named {
        Named::Nobody => Named::One(team),
        Named::One(_) | Named::Several => Named::Several,
    }
}

/// Whether a cell is the name, or the name in quotation marks, behind an apostrophe or not.
fn stands_for(name: &[u8], cell: &[u8]) -> bool
    ensures { result ≡ stands_for name.now cell.now }
{
    cell == name || is_marked_name(name, unmarked(cell))
}

#[tactic(auto, unfolding(crate::specs::Names::is_marked_name))]
fn is_marked_name(name: &[u8], text: &[u8]) -> bool
    ensures { result ≡ is_marked_name name.now text.now }
{
    is_doubled(name, text) || is_doubled(name, unguarded(text))
}

/// Without the apostrophe at its front that tells a spreadsheet that a cell is a text.
fn unguarded(text: &[u8]) -> &[u8]
    ensures { result.now ≡ unguarded text.now }
{
    match text {
        [b'\'', rest @ ..] => rest,
        _ => text,
    }
}

/// Whether the text is the name with each of its quotation marks doubled.
fn is_doubled(name: &[u8], text: &[u8]) -> bool
    ensures { result ≡ bytes_eq text.now (doubled name.now) }
{
    let mut name = name;
    let mut rest = text;
    while let [byte, later @ ..] = name {
        rest = match (*byte, rest) {
            (MARK, [MARK, MARK, after @ ..]) => after,
            (MARK, _) => return false,
            (byte, [first, after @ ..]) if *first == byte => after,
            _ => return false,
        };
        name = later;
    }
    rest.is_empty()
}
