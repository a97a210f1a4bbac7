//! The rounds and games that the words keep of the schedule at which boards begin, and the cost of a moved game.

ghost use Rattle.std.specs.Prelude.{◌≡◌, ◌+◌, ◌≤◌, [], map, IfOk, IfSome, option_map};
ghost use Rattle.clap.specs.Words.{found_of, rows_of};
ghost use Rattle.sets.specs.Limits.{max_rounds};
ghost use Rattle.options.specs.Beginnings.{game_of_numbers, game_of_text, games_in};
ghost use Rattle.options.specs.Beginnings.{max_near, near_in, near_of_text, rounds_in, rounds_of_text, with_games, with_item};
ghost use Rattle.options.specs.Beginnings.{with_numbers, with_rounds};

use clap::ArgMatches;
use sets::SlotSet;
use sets::limits::{MAX_ROUNDS, MAX_TEAMS};
use std::alloc::{AllocError, Global};
use text_lines::{byte_index, number, numbers_at_dash, rest_after};

/// The most that a moved game costs.
pub(crate) const MAX_NEAR: u64 = 1_000_000;

/// The rounds and games that are kept of the schedule at which boards begin, and the cost of a moved game.
#[derive(Drop)]
pub struct BeginningWords {
    /// The rounds whose games are kept, from 0.
    pub rounds: SlotSet,
    /// Games that are kept, the home team first, teams from 0.
    pub games: Vec<(u8, u8)>,
    /// The cost of a game that isn't in its round of the start.
    pub near: u32,
}

/// The rounds that are kept, unless their text is wrong.
pub(crate) fn rounds_in(values: &ArgMatches) -> Option<SlotSet>
    ensures { result ≡ rounds_in (rows_of (found_of values.now)) }
{
    match values.get_str("keep") {
        Some(text) => rounds_of_text(text.as_bytes()),
        None => Some(SlotSet::empty()),
    }
}

fn rounds_of_text(text: &[u8]) -> Option<SlotSet>
    ensures { result ≡ rounds_of_text text.now }
{
    let mut rounds = SlotSet::empty();
    let mut rest = text;
    let mut comma = byte_index(rest, b',');
    while comma < rest.len() {
        let (item, _rest) = rest.split_at(comma);
        rounds = with_item(rounds, item)?;
        rest = rest_after(rest, comma);
        comma = byte_index(rest, b',');
    }
    with_item(rounds, rest)
}

/// The set with the rounds of an item.
fn with_item(rounds: SlotSet, item: &[u8]) -> Option<SlotSet>
    ensures { result ≡ with_item rounds item.now }
{
    let (first, last) = numbers_at_dash(item);
    if byte_index(item, b'-') == item.len() {
        with_rounds(rounds, first, first)
    } else {
        with_rounds(rounds, first, last)
    }
}

fn with_rounds(rounds: SlotSet, first: Option<u64>, last: Option<u64>) -> Option<SlotSet>
    ensures { result ≡ with_rounds rounds first last }
{
    match (first, last) {
        (Some(first), Some(last)) => {
            if 1 <= first && first <= last && last <= u64::from(MAX_ROUNDS) {
                Some(with_numbers(rounds, (first - 1) as u8, (last + 1 - first) as u8))
            } else {
                None
            }
        }
        _ => None,
    }
}

/// The set with so many rounds from the first on.
#[tactic(auto, using(crate::proofs::Keeping::one_more))]
fn with_numbers(rounds: SlotSet, first: u8, count: u8) -> SlotSet
    requires { first + count ≤ max_rounds }
    ensures { result ≡ with_numbers rounds first count }
{
    let mut all = rounds;
    for place in 0..count {
        all = all.with(first + place);
    }
    all
}

/// The games that are kept, unless a text is wrong.
pub(crate) fn games_in(
    alloc: Global,
    values: &ArgMatches,
) -> Result<Option<Vec<(u8, u8)>>, AllocError>
    ensures { IfOk result (λ games. option_map (λ games. games.items) games ≡ games_in (rows_of (found_of values.now))) }
{
    match values.get_raw("keep-game") {
        Some(texts) => games_of_texts(alloc, texts),
        None => Ok(Some(Vec::new(alloc))),
    }
}

fn games_of_texts(alloc: Global, texts: &[&str]) -> Result<Option<Vec<(u8, u8)>>, AllocError>
    ensures { IfOk result (λ games. option_map (λ games. games.items) games ≡ with_games [] (map (λ text. text.now) texts.now)) }
{
    let mut games = Vec::new(alloc);
    for text in texts {
        match game_of_text(text) {
            Some(game) => games.push(game)?,
            None => return Ok(None),
        }
    }
    Ok(Some(games))
}

/// The game `H-A`.
pub(crate) fn game_of_text(text: &str) -> Option<(u8, u8)>
    ensures { result ≡ game_of_text text.now }
{
    let (home, away) = numbers_at_dash(text.as_bytes());
    game_of_numbers(home, away)
}

fn game_of_numbers(home: Option<u64>, away: Option<u64>) -> Option<(u8, u8)>
    ensures { result ≡ game_of_numbers home away }
{
    let most = u64::from(MAX_TEAMS);
    match (home, away) {
        (Some(home), Some(away)) => {
            if 1 <= home && home <= most && 1 <= away && away <= most && home != away {
                Some(((home - 1) as u8, (away - 1) as u8))
            } else {
                None
            }
        }
        _ => None,
    }
}

/// The cost of a moved game, unless its text is wrong.
pub(crate) fn near_in(values: &ArgMatches) -> Option<u32>
    ensures value { result ≡ near_in (rows_of (found_of values.now)) }
    ensures most { IfSome result (λ near. near ≤ max_near) }
{
    match values.get_str("near") {
        Some(text) => near_of_text(text.as_bytes()),
        None => Some(0),
    }
}

fn near_of_text(text: &[u8]) -> Option<u32>
    ensures value { result ≡ near_of_text text.now }
    ensures most { IfSome result (λ near. near ≤ max_near) }
{
    match number(text) {
        Some(near) if near <= MAX_NEAR => Some(near as u32),
        _ => None,
    }
}
