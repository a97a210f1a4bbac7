//! Which fault of a rule is told, and of which rule.

use crate::tests::league_texts::{GOOD_RULE, check_fault, list, rules_text};
use league::Field;
use league::LeagueFault::{self, RuleClass, RuleValue, TooManyRules, WrongKind};
use std::alloc::{AllocError, Global};
use std::process::Abort;
use std::test::Fail;

// four teams in a circle with rules, in the first format
fn check_rules(
    rt: &impl Abort,
    alloc: Global,
    rules: &str,
    fault: LeagueFault,
) -> Result<(), AllocError> {
    let text = rules_text(alloc, 1, rules)?;
    check_fault(rt, alloc, text.as_str(), Some(fault));
    Ok(())
}

fn check_rule(
    rt: &impl Abort,
    alloc: Global,
    rule: &str,
    fault: LeagueFault,
) -> Result<(), AllocError> {
    let rules = format!(in alloc; "[{rule}]")?;
    check_rules(rt, alloc, rules.as_str(), fault)
}

const OF_NO_CLASS: &[&str] = &[
    r#"{}"#,
    r#"{"kind":"hard","teams":[1],"min":3}"#,
    r#"{"class":"XX1","kind":"hard","teams":[1],"min":3}"#,
    r#"{"class":7,"kind":"hard","teams":[1],"min":3}"#,
    r#"{"class":"se1","kind":"hard","teams":[1],"min":3}"#,
    r#"{"class":"FA2","kind":"hard","teams":[1],"slots":[1],"intp":1}"#,
];

#[test]
fn tells_rules_of_no_class(rt: HostRuntime) -> Result<(), Fail> {
    for &rule in OF_NO_CLASS {
        check_rule(&rt, rt.alloc(), rule, RuleClass(0))?;
    }
    Ok(())
}

const WRONG_VALUES: &[&str] = &[
    r#"{"class":"BR1","kind":"hard","teams":[1],"mode":"X","intp":0}"#,
    r#"{"class":"BR2","kind":"hard","teams":[1,2],"intp":10001}"#,
    r#"{"class":"BR2","kind":"hard","teams":[1],"slots":[7],"intp":0}"#,
    r#"{"class":"BR2","kind":"hard","teams":[1],"slots":[0],"intp":0}"#,
    r#"{"class":"BR2","kind":"hard","teams":[1],"slots":null,"intp":0}"#,
    r#"{"class":"CA1","kind":"hard","teams":[1],"mode":"HA","max":1}"#,
    r#"{"class":"CA1","kind":"hard","teams":[1],"mode":"H"}"#,
    r#"{"class":"CA2","kind":"hard","teams1":[1],"mode":"H","teams2":[0],"max":0}"#,
    r#"{"class":"CA3","kind":"hard","teams1":[1],"mode":"H","intp":0,"max":1}"#,
    r#"{"class":"CA3","kind":"hard","teams1":[1],"mode":"H","intp":7,"max":1}"#,
    r#"{"class":"CA4","kind":"hard","teams1":[1],"mode":"H","max":0}"#,
    r#"{"class":"CA4","kind":"hard","teams1":[1],"mode":"H","mode2":"ANY","max":0}"#,
    r#"{"class":"GA1","kind":"hard","min":1,"max":1}"#,
    r#"{"class":"GA1","kind":"hard","games":[[1,2]],"min":2,"max":1}"#,
    r#"{"class":"GA1","kind":"hard","games":[[1,1]],"min":1,"max":1}"#,
    r#"{"class":"GA1","kind":"hard","games":[[1,5]],"min":1,"max":1}"#,
    r#"{"class":"GA1","kind":"hard","games":[[1]],"min":1,"max":1}"#,
    r#"{"class":"GA1","kind":"hard","games":[[1,2,3]],"min":1,"max":1}"#,
    r#"{"class":"GA1","kind":"hard","games":[1,2],"min":1,"max":1}"#,
    r#"{"class":"SE1","kind":"hard","min":3}"#,
    r#"{"class":"SE1","kind":"hard","teams":[0],"min":3}"#,
    r#"{"class":"SE1","kind":"hard","teams":[5],"min":3}"#,
    r#"{"class":"SE1","kind":"hard","teams":[1],"min":3.0}"#,
    r#"{"class":"SE1","kind":"soft","teams":[1],"min":3}"#,
    r#"{"class":"SE1","kind":"soft","weight":0,"teams":[1],"min":3}"#,
    r#"{"class":"SE1","kind":"soft","weight":1000001,"teams":[1],"min":3}"#,
    r#"{"class":"SE1","kind":"firm","teams":[1],"min":3}"#,
    r#"{"class":"SE1","teams":[1],"min":3}"#,
];

#[test]
fn tells_wrong_values_of_rules(rt: HostRuntime) -> Result<(), Fail> {
    for &rule in WRONG_VALUES {
        check_rule(&rt, rt.alloc(), rule, RuleValue(0))?;
    }
    Ok(())
}

const COMPARED: &[(&str, Option<LeagueFault>)] = &[
    (r#""teams":[1],"intp":1"#, None),
    (r#""teams":[1]"#, Some(RuleValue(0))),
    (r#""intp":1"#, Some(RuleValue(0))),
    (r#""teams":[5],"intp":1"#, Some(RuleValue(0))),
    (r#""teams":[1],"intp":10001"#, Some(RuleValue(0))),
    (r#""teams":[1],"slots":[7],"intp":1"#, Some(RuleValue(0))),
];

// the class is one of the second format alone
fn check_compared_home_games(
    rt: &impl Abort,
    alloc: Global,
    (members, fault): (&str, Option<LeagueFault>),
) -> Result<(), AllocError> {
    let rules = format!(in alloc; "[{{\"class\":\"FA2\",\"kind\":\"hard\",{members}}}]")?;
    let second = rules_text(alloc, 2, rules.as_str())?;
    check_fault(rt, alloc, second.as_str(), fault);
    check_rules(rt, alloc, rules.as_str(), RuleClass(0))
}

#[test]
fn home_games_are_compared_in_the_second_format(rt: HostRuntime) -> Result<(), Fail> {
    for &case in COMPARED {
        check_compared_home_games(&rt, rt.alloc(), case)?;
    }
    Ok(())
}

const LATER: &[(&str, LeagueFault)] = &[
    (r#"{"class":"XX1"}"#, RuleClass(1)),
    (r#"{"class":"SE1"}"#, RuleValue(1)),
    (r#"{"class":"SE1"},{"class":"XX1"}"#, RuleValue(1)),
    (r#"{"class":"XX1"},{"class":"SE1"}"#, RuleClass(1)),
    (r#"{"class":"XX1"},1"#, WrongKind(Field::Rules)),
];

// after a good rule
fn check_later_rules(
    rt: &impl Abort,
    alloc: Global,
    (rules, fault): (&str, LeagueFault),
) -> Result<(), AllocError> {
    let all = format!(in alloc; "[{GOOD_RULE},{rules}]")?;
    check_rules(rt, alloc, all.as_str(), fault)
}

#[test]
fn tells_the_first_faulty_rule(rt: HostRuntime) -> Result<(), Fail> {
    for &case in LATER {
        check_later_rules(&rt, rt.alloc(), case)?;
    }
    Ok(())
}

#[test]
fn tells_the_last_faulty_rule_at_their_limit(rt: HostRuntime) -> Result<(), Fail> {
    let mut rules = list(rt.alloc(), 255, GOOD_RULE)?;
    rules.pop();
    rules.push_str(r#",{"class":"SE1"}]"#)?;
    check_rules(&rt, rt.alloc(), rules.as_str(), RuleValue(255))?;
    Ok(())
}

#[test]
fn counts_rules_to_their_limit(rt: HostRuntime) -> Result<(), Fail> {
    let rules = list(rt.alloc(), 257, r#"{"class":"XX1"}"#)?;
    check_rules(&rt, rt.alloc(), rules.as_str(), TooManyRules)?;
    Ok(())
}
