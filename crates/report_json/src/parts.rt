//! Lists of values.

ghost use Rattle.std.specs.Prelude.{◌≡◌, [], ◌∷◌, ◌++◌, OnOk};
ghost use Rattle.serde_json.specs.View.{view};
ghost use Rattle.report_json.specs.within.Parts.{seen};

use serde_json::Value;
use std::alloc::AllocError;

#[tactic(auto, using(crate::proofs::Lists::value_pushed))]
pub(crate) fn push_value(list: &mut Vec<Value>, value: Value) -> Result<(), AllocError>
    ensures { OnOk result (seen list.new.items ≡ seen list.old.items ++ view value ∷ []) }
{
    list.push(value)?;
    Ok(())
}
