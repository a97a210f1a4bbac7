//! The forms of JSON values that a league is made of.

ghost use Rattle.std.specs.Prelude.{◌≡◌, length, IsTrue, IfOk, IfSome, option_map};
ghost use Rattle.std.specs.List.{list_all};
ghost use Rattle.serde_json.specs.Events.{items_len};
ghost use Rattle.serde_json.specs.View.{view, items_view};
ghost use Rattle.league_json.specs.Json.{number_within, objects, all_objects};
ghost use Rattle.league.specs.Names.{is_text_within};
ghost use Rattle.league_json.specs.LeagueMembers.{text_within, texts_within, distance_row, distance_rows};
ghost use Rattle.league.specs.Views.{texts};
ghost use Rattle.league.specs.Views.{rows};

use league::is_text_within;
use serde_json::Value;
use std::alloc::{AllocError, Global};

/// A whole number from `low` to `high`.
pub fn number_within(value: &Value, low: u64, high: u64) -> Option<u64>
    ensures { result ≡ number_within low high (view value.now) }
{
    value
        .as_u64()
        .filter(|number| (low..=high).contains(number))
}

/// A text of one byte to `most`, none of them a control byte.
pub fn text_within(value: &Value, most: usize) -> Option<&str>
    ensures value { option_map (λ text. text.now) result ≡ text_within most (view value.now) }
    ensures fits { IfSome result (λ text. IsTrue (is_text_within most text.now)) }
{
    value
        .as_str()
        .filter(|text| is_text_within(text.as_bytes(), most))
}

/// The texts of an array of such texts.
pub fn texts_within(
    alloc: Global,
    value: &Value,
    most: usize,
) -> Result<Option<Vec<String>>, AllocError>
    ensures value { IfOk result (λ o. option_map (λ list. texts list.items) o ≡ texts_within most (view value.now)) }
    ensures fit { IfOk result (λ o. IfSome o (λ list. IsTrue (list_all (is_text_within most) (texts list.items)))) }
{
    let Some(list) = value.as_array() else {
        return Ok(None);
    };
    let mut texts = Vec::with_capacity(alloc, list.len())?;
    for item in list {
        let Some(text) = text_within(item, most) else {
            return Ok(None);
        };
        texts.push(String::from_str(alloc, text)?)?;
    }
    Ok(Some(texts))
}

fn distance_row(alloc: Global, value: &Value) -> Result<Option<Vec<u64>>, AllocError>
    ensures { IfOk result (λ o. option_map (λ row. row.items) o ≡ distance_row (view value.now)) }
{
    let Some(list) = value.as_array() else {
        return Ok(None);
    };
    let mut row = Vec::with_capacity(alloc, list.len())?;
    for item in list {
        let Some(distance) = item.as_u64() else {
            return Ok(None);
        };
        row.push(distance)?;
    }
    Ok(Some(row))
}

/// The numbers of an array of arrays of whole numbers.
pub fn distance_rows(alloc: Global, value: &Value) -> Result<Option<Vec<Vec<u64>>>, AllocError>
    ensures { IfOk result (λ o. option_map (λ table. rows table.items) o ≡ distance_rows (view value.now)) }
{
    let Some(list) = value.as_array() else {
        return Ok(None);
    };
    let mut table = Vec::with_capacity(alloc, list.len())?;
    for item in list {
        let Some(row) = distance_row(alloc, item)? else {
            return Ok(None);
        };
        table.push(row)?;
    }
    Ok(Some(table))
}

fn all_objects(items: &[Value]) -> bool
    ensures { result ≡ all_objects (items_view items.now) }
{
    for item in items {
        if !item.is_object() {
            return false;
        }
    }
    true
}

/// The items of an array of objects.
pub fn objects(value: &Value) -> Option<&[Value]>
    ensures { option_map (λ items. items_view items.now) result ≡ objects (view value.now) }
{
    value
        .as_array()
        .map(|items| items.as_slice())
        .filter(|items| all_objects(items))
}

/// How many items there are.
#[tactic(auto, using(crate::proofs::Items::items_len_same))]
pub fn item_count(items: &[Value]) -> usize
    ensures value { result ≡ items_len (items_view items.now) }
    ensures length { result ≡ length items.now }
{
    items.len()
}
