//! Which member of a rule is wrong, and what is wanted.

ghost use Rattle.std.specs.Prelude.{◌≡◌, option_map};
ghost use Rattle.serde_json.specs.View.{view};
ghost use Rattle.league_hints.specs.Rules.{first_unmet, needs_of, unmet, member_hint, name_hint, need_hint, value_hint, class_hint, rule_hint, wrong_name_in};

use crate::forms::text_member;
use crate::hint::Hint;
use crate::needs::Need;
use crate::place::{Place, RuleMember};
use crate::rosters::Roster;
use crate::seen::{rule_seen, seen_of};
use crate::wanted::Wanted;
use league_forms::Quote;
use serde_json::Value;

// what the classes ask of members by these names

const TEAMS: Need = Need::Teams(RuleMember::Teams);

const TEAMS1: Need = Need::Teams(RuleMember::Teams1);

const MIN: Need = Need::Count(RuleMember::Min);

const MAX: Need = Need::Count(RuleMember::Max);

const INTP: Need = Need::Count(RuleMember::Intp);

/// Where the rule at an index lacks a class that its format knows.
pub(crate) fn class_hint(rule: &Value, index: u8) -> Hint
    ensures { result ≡ class_hint index (view rule.now) }
{
    match text_member(rule, "class") {
        Some("FA2") => Hint::SecondFormat(u16::from(index) + 1),
        _ => member_hint(rule, index, RuleMember::Class, Wanted::Class),
    }
}

/// Where the rule at an index, of a league of these teams, has a wrong value.
pub(crate) fn rule_hint(rule: &Value, roster: &Roster<'_>, index: u8) -> Option<Hint>
    ensures { result ≡ rule_hint index roster.now (view rule.now) }
{
    let need = unmet(rule, roster)?;
    Some(need_hint(rule, roster, index, need))
}

/// Where the rule doesn't meet a need.
fn need_hint(rule: &Value, roster: &Roster<'_>, index: u8, need: Need) -> Hint
    ensures { result ≡ need_hint index roster.now (view rule.now) need }
{
    let wanted = need.wanted(roster);
    value_hint(rule, roster, index, need.member(), wanted)
}

/// Where a member of the rule isn't as wanted.
fn value_hint(
    rule: &Value,
    roster: &Roster<'_>,
    index: u8,
    member: RuleMember,
    wanted: Wanted,
) -> Hint
    ensures { result ≡ value_hint index roster.now (view rule.now) member wanted }
{
    match name_hint(rule, roster, index, member, wanted) {
        Some(hint) => hint,
        None => {
            let place = Place::Member(u16::from(index) + 1, member);
            Hint::Value(
                place,
                rule_seen(rule, member.name(), wanted, roster),
                wanted,
            )
        }
    }
}

/// Where a list of teams has a text that isn't the name of one team.
fn name_hint(
    rule: &Value,
    roster: &Roster<'_>,
    index: u8,
    member: RuleMember,
    wanted: Wanted,
) -> Option<Hint>
    ensures { result ≡ name_hint index roster.now (view rule.now) member wanted }
{
    let name = wrong_name_in(rule.get(member.name()), wanted, roster)?;
    Some(Hint::Name {
        rule: u16::from(index) + 1,
        member,
        name: Quote::of(name),
        is_shared: roster.is_name(name),
    })
}

fn wrong_name_in<'a>(
    found: Option<&'a Value>,
    wanted: Wanted,
    roster: &Roster<'_>,
) -> Option<&'a str>
    ensures { option_map (λ name. name.now) result ≡
        wrong_name_in roster.now wanted (option_map (λ value. view value.now) found.entry) }
{
    match wanted {
        Wanted::Listed(_) => roster.first_wrong_name(found?.as_array()?),
        Wanted::ListedGames(_) => roster.first_wrong_in_games(found?.as_array()?),
        _ => None,
    }
}

fn member_hint(rule: &Value, index: u8, member: RuleMember, wanted: Wanted) -> Hint
    ensures { result ≡ member_hint index (view rule.now) member wanted }
{
    let place = Place::Member(u16::from(index) + 1, member);
    Hint::Value(place, seen_of(rule, member.name(), wanted), wanted)
}

/// The first need of the rule that isn't met, if some format knows its class: of its kind and weight, and then what the class asks for.
fn unmet(rule: &Value, roster: &Roster<'_>) -> Option<Need>
    ensures { result ≡ unmet roster.now (view rule.now) }
{
    let needs = needs_of(text_member(rule, "class")?)?;
    match first_unmet(rule, roster, &[Need::Kind, Need::Weight]) {
        Some(need) => Some(need),
        None => first_unmet(rule, roster, needs),
    }
}

/// The needs of a class, besides kind and weight.
fn needs_of(class: &str) -> Option<&'static [Need]>
    ensures { option_map (λ needs. needs.now) result ≡ needs_of class.now }
{
    match class {
        "CA1" => Some(&[TEAMS, Need::HomeOrAway, Need::Slots, MAX]),
        "CA2" => Some(&[TEAMS1, Need::Side, Need::Opponents, Need::Slots, MAX]),
        "CA3" => Some(&[TEAMS1, Need::Side, Need::Opponents, Need::Window, MAX]),
        "CA4" => Some(&[
            TEAMS1,
            Need::Side,
            Need::Opponents,
            Need::Slots,
            Need::SlotChoice,
            MAX,
        ]),
        "GA1" => Some(&[Need::Games, Need::Slots, MIN, MAX, Need::MaxFromMin]),
        "BR1" => Some(&[TEAMS, Need::Side, Need::Slots, INTP]),
        "BR2" | "FA2" => Some(&[TEAMS, Need::Slots, INTP]),
        "SE1" => Some(&[TEAMS, MIN]),
        _ => None,
    }
}

/// The first of the needs that the rule doesn't meet.
fn first_unmet(rule: &Value, roster: &Roster<'_>, needs: &[Need]) -> Option<Need>
    ensures { result ≡ first_unmet roster.now (view rule.now) needs.now }
{
    for need in needs {
        if !need.is_met(rule, roster) {
            return Some(*need);
        }
    }
    None
}
