//! The members of a league's text that name the league, its teams in short, and its rounds.

ghost use Rattle.std.specs.Prelude.{◌≡◌, IsTrue, IfOk, IfSome, length, option_map, string_bytes};
ghost use Rattle.serde_json.specs.View.{view};
ghost use Rattle.league.specs.Limits.{max_short_name, max_round_text};
ghost use Rattle.league.specs.Reading.{Gives};
ghost use Rattle.league_json.specs.LabelMembers.{labels_of};
ghost use Rattle.league.specs.Labels.{are_texts_for, is_title, AreLabelsFor};
ghost use Rattle.league_json.specs.LabelMembers.{texts_for, title_of, short_names_of, round_texts_of};
ghost use Rattle.league.specs.Views.{texts};

use crate::formats::THIRD_FORMAT;
use crate::forms::{text_within, texts_within};
use league::limits::{MAX_ROUND_TEXT, MAX_SHORT_NAME, MAX_TITLE};
use league::{Field, Labels, LeagueFault};
use serde_json::Value;
use std::alloc::{AllocError, Global};

fn title_of(alloc: Global, object: &Value, format: u64) -> Result<Option<String>, LeagueFault>
    ensures value { Gives (λ title. option_map string_bytes title) result (title_of format (view object.now)) }
    ensures fits { IfOk result (λ title. IsTrue (is_title (option_map string_bytes title))) }
{
    match object.get("name") {
        Some(member) if format >= THIRD_FORMAT => {
            let title = text_within(member, MAX_TITLE).ok_or(LeagueFault::WrongKind(Field::Name))?;
            Ok(Some(String::from_str(alloc, title)?))
        }
        _ => Ok(None),
    }
}

fn texts_for(
    alloc: Global,
    value: &Value,
    count: usize,
    most: usize,
) -> Result<Option<Vec<String>>, AllocError>
    ensures value { IfOk result (λ o. option_map (λ list. texts list.items) o ≡ texts_for count most (view value.now)) }
    ensures fit { IfOk result (λ o. IfSome o (λ list. IsTrue (are_texts_for count most (texts list.items)))) }
{
    match texts_within(alloc, value, most)? {
        Some(texts) if texts.len() == count => Ok(Some(texts)),
        _ => Ok(None),
    }
}

fn short_names_of(
    alloc: Global,
    object: &Value,
    format: u64,
    teams: usize,
) -> Result<Vec<String>, LeagueFault>
    ensures value { Gives (λ names. texts names.items) result (short_names_of format teams (view object.now)) }
    ensures fit { IfOk result (λ names. IsTrue (are_texts_for teams max_short_name (texts names.items))) }
{
    match object.get("short") {
        Some(member) if format >= THIRD_FORMAT => {
            texts_for(alloc, member, teams, MAX_SHORT_NAME)?.ok_or(LeagueFault::WrongKind(
                Field::Short,
            ))
        }
        _ => Ok(Vec::new(alloc)),
    }
}

fn round_texts_of(
    alloc: Global,
    object: &Value,
    format: u64,
    rounds: usize,
) -> Result<Vec<String>, LeagueFault>
    ensures value { Gives (λ list. texts list.items) result (round_texts_of format rounds (view object.now)) }
    ensures fit { IfOk result (λ list. IsTrue (are_texts_for rounds max_round_text (texts list.items))) }
{
    match object.get("rounds") {
        Some(member) if format >= THIRD_FORMAT => {
            texts_for(alloc, member, rounds, MAX_ROUND_TEXT)?.ok_or(LeagueFault::WrongKind(
                Field::Rounds,
            ))
        }
        _ => Ok(Vec::new(alloc)),
    }
}

/// The labels of a league with these names of teams.
#[tactic(auto, unfolding(crate::specs::LabelMembers::labels_of))]
pub fn labels_of(
    alloc: Global,
    object: &Value,
    format: u64,
    names: &[String],
) -> Result<Labels, LeagueFault>
    ensures value { Gives (λ l. l) result (labels_of format (length (texts names.now)) (view object.now)) }
    ensures fit { IfOk result (AreLabelsFor (length (texts names.now))) }
{
    let rounds = 2 * names.len().saturating_sub(1);
    Ok(Labels::new(
        title_of(alloc, object, format)?,
        short_names_of(alloc, object, format, names.len())?,
        round_texts_of(alloc, object, format, rounds)?,
    ))
}
