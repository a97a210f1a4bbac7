//! The laws of names on a page. The functions do nothing: what is known is in their contracts.

ghost use Rattle.std.specs.Prelude.{◌≡◌, ℕ, List, Some, true};
ghost use Rattle.std.specs.List.{list_all};
ghost use Rattle.report_page.specs.Pieces.{escaped, is_plain, unescaped};

/// No markup begins or ends in a name, nor does an attribute that holds it.
#[tactic(auto, using(crate::proofs::Escapes::escaped_plain))]
pub fn names_have_no_marks()
    ensures { (name : List ℕ) → list_all is_plain (escaped name) ≡ true }
{}

/// A browser reads each name as the league has it, and no `&` in it stands for itself.
#[tactic(auto, using(crate::proofs::Escapes::escaped_read))]
pub fn names_are_read_back()
    ensures { (name : List ℕ) → unescaped 0 (escaped name) ≡ Some name }
{}
