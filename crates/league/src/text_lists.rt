//! Lists of texts.

ghost use Rattle.std.specs.Prelude.{◌≡◌, ◌↔◌, IfOk, IsTrue};
ghost use Rattle.league.specs.Views.{texts};

use std::alloc::{AllocError, Global};

/// Whether the lists have the same texts.
pub fn are_same_texts(list: &[String], other: &[String]) -> bool
    ensures { IsTrue result ↔ (texts list.now ≡ texts other.now) }
{
    list == other
}

/// Copies the texts into memory of their own.
pub fn duplicate_texts(alloc: Global, list: &[String]) -> Result<Vec<String>, AllocError>
    ensures { IfOk result (λ copy. texts copy.items ≡ texts list.now) }
{
    let mut copy = Vec::with_capacity(alloc, list.len())?;
    for text in list {
        copy.push(String::from_str(alloc, text.as_str())?)?;
    }
    Ok(copy)
}
