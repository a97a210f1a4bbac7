//! Remarks on the members of a league's text that aren't known.

ghost use Rattle.std.specs.Prelude.{◌≡◌, ◌++◌, map, IfOk, OnOk};
ghost use Rattle.serde_json.specs.Find.{as_object};
ghost use Rattle.serde_json.specs.View.{view, items_view, members_view};
ghost use Rattle.league_hints.specs.Remarks.{knows, owner_words, remark_line, remark};
ghost use Rattle.league_forms.specs.Shown.{shown_byte};
ghost use Rattle.league_hints.specs.Remarks.{member_remarks, remarks_in, rule_remarks, remarks_of, remarks_on};

use crate::forms::is_third;
use crate::json::json_of;
use league_forms::shown_byte;
use serde_json::{Map, Value};
use std::alloc::{AllocError, Global};

/// Who has a member: the league, which may be in the third format, or a rule by its number from 1.
#[derive(Clone, Copy)]
enum Owner {
    League { third: bool },
    Rule(u64),
}

impl Owner {
    fn knows(self, member: &str) -> bool
        ensures { result ≡ knows self member.now }
    {
        match self {
            Owner::League { third } => match member {
                "format"
                | "teams"
                | "distances"
                | "at_most"
                | "hard_weight"
                | "rules"
                | "start"
                | "phased" => true,
                "name" | "short" | "rounds" | "repeats" => third,
                _ => false,
            },
            Owner::Rule(_) => match member {
                "class"
                | "kind"
                | "weight"
                | "teams"
                | "teams1"
                | "teams2"
                | "slots"
                | "mode"
                | "mode2"
                | "max"
                | "min"
                | "intp"
                | "games" => true,
                _ => false,
            },
        }
    }
}

/// A line for each member of a league's text that isn't known: those of the league and then those of each rule, in the order of
/// their names. The members of the third format are known in it alone, all others always. A control byte in a name is shown as a question mark. Bytes that are no JSON have no remarks.
#[tactic(auto, unfolding(crate::specs::Remarks::remarks_on))]
pub fn remarks_on(alloc: Global, text: &[u8]) -> Result<Vec<u8>, AllocError>
    ensures { IfOk result (λ remarks. remarks.items ≡ remarks_on text.now) }
{
    match json_of(alloc, text)? {
        Ok(league) => remarks_of(alloc, &league),
        Err(_) => Ok(Vec::new(alloc)),
    }
}

fn remarks_of(alloc: Global, league: &Value) -> Result<Vec<u8>, AllocError>
    ensures { IfOk result (λ remarks. remarks.items ≡ remarks_of (view league.now)) }
{
    let mut remarks = Vec::new(alloc);
    let owner = Owner::League {
        third: is_third(league),
    };
    push_owned(&mut remarks, owner, league)?;
    if let Some(rules) = league.get("rules").and_then(|rules| rules.as_array()) {
        push_rules(&mut remarks, rules)?;
    }
    Ok(remarks)
}

fn push_rules(remarks: &mut Vec<u8>, rules: &[Value]) -> Result<(), AllocError>
    ensures { OnOk result (remarks.new.items ≡ remarks.old.items ++ rule_remarks 1 (items_view rules.now)) }
{
    let mut number = 1;
    for rule in rules {
        push_owned(remarks, Owner::Rule(number), rule)?;
        number += 1;
    }
    Ok(())
}

/// Adds a remark for each member of the object that its owner doesn't know.
fn push_owned(remarks: &mut Vec<u8>, owner: Owner, object: &Value) -> Result<(), AllocError>
    ensures { OnOk result (remarks.new.items ≡ remarks.old.items ++ remarks_in owner (as_object (view object.now))) }
{
    match object.as_object() {
        Some(members) => push_members(remarks, owner, members),
        None => Ok(()),
    }
}

fn push_members(
    remarks: &mut Vec<u8>,
    owner: Owner,
    members: &Map<String, Value>,
) -> Result<(), AllocError>
    ensures { OnOk result (remarks.new.items ≡ remarks.old.items ++ member_remarks owner (members_view members.now.entries)) }
{
    for (name, _) in members.iter() {
        push_remark(remarks, owner, name.as_str())?;
    }
    Ok(())
}

/// Adds a line, unless the member is known.
fn push_remark(remarks: &mut Vec<u8>, owner: Owner, name: &str) -> Result<(), AllocError>
    ensures { OnOk result (remarks.new.items ≡ remarks.old.items ++ remark owner name.now) }
{
    if owner.knows(name) {
        Ok(())
    } else {
        push_line(remarks, owner, name.as_bytes())
    }
}

fn push_line(remarks: &mut Vec<u8>, owner: Owner, name: &[u8]) -> Result<(), AllocError>
    ensures { OnOk result (remarks.new.items ≡ remarks.old.items ++ remark_line owner name.now) }
{
    remarks.extend_from_slice(b"remark: ")?;
    push_owner(remarks, owner)?;
    remarks.extend_from_slice(b" has a member ")?;
    push_shown(remarks, name)?;
    remarks.extend_from_slice(b", which is not read\n")
}

fn push_owner(remarks: &mut Vec<u8>, owner: Owner) -> Result<(), AllocError>
    ensures { OnOk result (remarks.new.items ≡ remarks.old.items ++ owner_words owner) }
{
    match owner {
        Owner::League { .. } => remarks.extend_from_slice(b"the league"),
        Owner::Rule(number) => {
            let mut digits = itoa::Buffer::new();
            remarks.extend_from_slice(b"rule ")?;
            remarks.extend_from_slice(digits.format(number).as_bytes())
        }
    }
}

/// Adds the name with a question mark for each control byte.
fn push_shown(remarks: &mut Vec<u8>, name: &[u8]) -> Result<(), AllocError>
    ensures { OnOk result (remarks.new.items ≡ remarks.old.items ++ map shown_byte name.now) }
{
    for byte in name {
        remarks.push(shown_byte(*byte))?;
    }
    Ok(())
}
