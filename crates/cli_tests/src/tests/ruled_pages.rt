//! Pages of leagues with rules: the games that breaches name, and each rule in words. The rules of each class, with their deviations, are
//! those of docs/rules.md.

use crate::tests::circle::{FIRST, FOUR, SECOND, SHEET};
use crate::tests::judged_schedules::RULES;
use crate::tests::samples::JUDGED;
use crate::tests::told::Text::Excerpt;
use crate::tests::told::{Case, Command, check_cases};
use commands::{Format, Verdict};
use std::test::Fail;

/// Team 3 is at home in rounds 3 to 5, and team 1 away.
const MARKED: Case<'_> = (
    Command::Report(Format::Html),
    &[FIRST, FOUR, RULES, JUDGED, SHEET],
    Ok(Some(Verdict::Infeasible)),
    Excerpt(
        "<!DOCTYPE html>",
        &[
            "before.</p><p><span class='b'>Line below</span>: what a broken rule counts.</p><div class='wide'>",
            "<th>1 T1</th><td class='h'>4</td><td class='h'>2</td><td class=''>@3</td><td class=' b'>@4</td>\
            <td class=' b'>@2</td><td class='h'>3</td></tr>",
            "<th>2 T2</th><td class='h'>3</td><td class=''>@1</td><td class='h'>4</td><td class=''>@3</td>\
            <td class='h'>1</td><td class=''>@4</td></tr>",
            "<th>3 T3</th><td class=''>@2</td><td class=''>@4</td><td class='h b'>1</td><td class='h b'>2</td>\
            <td class='h b'>4</td><td class=''>@1</td></tr>",
            "<tr class='bad'><td>1</td><td>CA3</td><td>soft 10</td><td>1</td>\
            <td>at most 2 home games for T3 in any 3 rounds in a row: broken for T3</td></tr>\
            <tr class='bad'><td>2</td><td>BR1</td><td>hard</td><td>2</td>\
            <td>at most 0 away breaks for T1: broken for T1</td></tr></table>",
        ],
        "</body></html>\n",
    ),
);

const OF_EACH_CLASS: &str = r#","rules":[
    {"class":"CA1","kind":"hard","teams":[4],"mode":"A","slots":[1,3,5],"max":1},
    {"class":"CA2","kind":"hard","teams1":[1],"mode":"A","teams2":[3,4],"slots":[3,4],"max":0},
    {"class":"CA4","kind":"hard","teams1":[1,2],"mode":"H","teams2":[3,4],"slots":[1,6],"mode2":"GLOBAL","max":1},
    {"class":"CA4","kind":"hard","teams1":[1,2],"mode":"H","teams2":[3,4],"slots":[1,6],"mode2":"EVERY","max":1},
    {"class":"GA1","kind":"hard","games":[[1,2]],"slots":[2],"min":1,"max":1},
    {"class":"BR2","kind":"hard","teams":[1,2,3,4],"intp":4},
    {"class":"SE1","kind":"hard","teams":[1,4],"min":3},
    {"class":"FA2","kind":"hard","teams":[1,2,3,4],"intp":1}]}"#;

const CLASSES: Case<'_> = (
    Command::Report(Format::Html),
    &[SECOND, FOUR, OF_EACH_CLASS, JUDGED, SHEET],
    Ok(Some(Verdict::Infeasible)),
    Excerpt(
        "<!DOCTYPE html>",
        &[
            "<td>2</td><td>at most 1 away game for T4 in rounds 1, 3, 5: broken for T4</td>",
            "<td>2</td><td>at most 0 away games against T3 and T4 for T1 in rounds 3-4: broken for T1</td>",
            "<td>2</td><td>at most 1 home game against T3 and T4 for T1 and T2 together in rounds 1, 6: broken by 2</td>",
            "<td>1</td><td>at most 1 of T1 and T2 at home against T3 and T4 in a round out of rounds 1, 6: \
            broken in round 1</td>",
            "<td>2</td><td>at most 4 breaks for all teams together: broken by 2</td>",
            "<td>1</td><td>at least 3 rounds between both games for T1 and T4: broken among T1 and T4</td>",
            "<td>1</td><td>numbers of home games at most 1 apart for any two teams after every round: \
            broken among T1 and T3</td>",
            "<tr><td>5</td><td>GA1</td><td>hard</td><td>0</td>\
            <td>the game T1 - T2 exactly 1 time in round 2: kept</td></tr></table>",
        ],
        "</body></html>\n",
    ),
);

/// Rules that no schedule of four teams breaks, and games 1-2 and 2-1, of which one is in rounds 1 to 3.
const ALL_KEPT: &str = r#","rules":[
    {"class":"CA1","kind":"hard","teams":[1,2,3,4],"mode":"H","max":3},
    {"class":"CA1","kind":"hard","teams":[1,2,3],"mode":"A","slots":[],"max":0},
    {"class":"CA3","kind":"hard","teams1":[1,2,3,4],"mode":"HA","teams2":[1],"intp":1,"max":1},
    {"class":"CA4","kind":"hard","teams1":[1,2,3,4],"mode":"HA","mode2":"EVERY","max":4},
    {"class":"CA4","kind":"hard","teams1":[1,2,4],"mode":"A","slots":[1,2,4,5,6],"mode2":"EVERY","max":3},
    {"class":"GA1","kind":"hard","games":[[1,2],[1,3],[1,4],[2,1],[2,3],[2,4],[3,1],[3,2]],"min":0,"max":8},
    {"class":"GA1","kind":"hard","games":[[1,2],[2,1]],"slots":[1,2,3],"min":1,"max":2},
    {"class":"SE1","kind":"hard","teams":[],"min":1},
    {"class":"FA2","kind":"hard","teams":[1,2],"slots":[6],"intp":3}]}"#;

const KEPT: Case<'_> = (
    Command::Report(Format::Html),
    &[SECOND, FOUR, ALL_KEPT, JUDGED, SHEET],
    Ok(Some(Verdict::Feasible)),
    Excerpt(
        "<!DOCTYPE html>",
        &[
            "<td>at most 3 home games for every team: kept</td>",
            "<td>at most 0 away games for each of T1, T2 and T3 in no round: kept</td>",
            "<td>at most 1 game against T1 for every team in any round: kept</td>",
            "<td>at most 4 of all teams playing in a round: kept</td>",
            "<td>at most 3 of T1, T2 and T4 away in a round out of rounds 1-2, 4-6: kept</td>",
            "<td>at most 8 of the games T1 - T2, T1 - T3, T1 - T4, T2 - T1, T2 - T3, T2 - T4 and 2 more: kept</td>",
            "<td>from 1 to 2 of the games T1 - T2, T2 - T1 in rounds 1-3: kept</td>",
            "<td>at least 1 round between both games for no two teams: kept</td>",
            "<td>numbers of home games at most 3 apart for T1 and T2 after round 6: kept</td>",
        ],
        "</body></html>\n",
    ),
);

/// Lists of none and of one. Game 1-2 is in round 2.
const OF_FEW: &str = r#","rules":[
    {"class":"GA1","kind":"hard","games":[],"min":0,"max":0},
    {"class":"GA1","kind":"hard","games":[],"slots":[1],"min":0,"max":2},
    {"class":"GA1","kind":"soft","weight":1,"games":[],"min":1,"max":2},
    {"class":"GA1","kind":"soft","weight":1,"games":[[1,2]],"slots":[2],"min":0,"max":0},
    {"class":"GA1","kind":"hard","games":[[1,2]],"min":0,"max":1},
    {"class":"CA2","kind":"hard","teams1":[],"mode":"H","teams2":[],"slots":[],"max":0},
    {"class":"CA4","kind":"hard","teams1":[],"mode":"A","mode2":"GLOBAL","max":0},
    {"class":"CA4","kind":"hard","teams1":[1],"mode":"H","mode2":"GLOBAL","max":3},
    {"class":"CA4","kind":"hard","teams1":[1],"mode":"H","slots":[2],"mode2":"EVERY","max":1},
    {"class":"CA4","kind":"hard","teams1":[],"mode":"HA","mode2":"EVERY","max":0},
    {"class":"CA4","kind":"hard","teams1":[1,2],"mode":"H","slots":[],"mode2":"EVERY","max":0},
    {"class":"CA4","kind":"hard","teams1":[1,2],"mode":"H","slots":[3],"mode2":"EVERY","max":2},
    {"class":"BR1","kind":"hard","teams":[],"mode":"H","intp":0},
    {"class":"BR2","kind":"hard","teams":[3],"intp":6},
    {"class":"BR2","kind":"hard","teams":[],"intp":0},
    {"class":"SE1","kind":"hard","teams":[2],"min":1},
    {"class":"FA2","kind":"hard","teams":[2],"slots":[],"intp":0}]}"#;

const FEW: Case<'_> = (
    Command::Report(Format::Html),
    &[SECOND, FOUR, OF_FEW, JUDGED, SHEET],
    Ok(Some(Verdict::Feasible)),
    Excerpt(
        "<!DOCTYPE html>",
        &[
            "<td>exactly 0 of no games: kept</td>",
            "<td>at most 2 of no games in round 1: kept</td>",
            "<td>from 1 to 2 of no games: broken by 1</td>",
            "<td>the game T1 - T2 exactly 0 times in round 2: broken by 1</td>",
            "<td>the game T1 - T2 at most 1 time: kept</td>",
            "<td>at most 0 home games against no team for no team in no round: kept</td>",
            "<td>at most 0 away games for no team: kept</td>",
            "<td>at most 3 home games for T1: kept</td>",
            "<td>at most 1 home game for T1 in round 2: kept</td>",
            "<td>at most 0 games for no team in a round: kept</td>",
            "<td>at most 0 of T1 and T2 at home in no round: kept</td>",
            "<td>at most 2 of T1 and T2 at home in round 3: kept</td>",
            "<td>at most 0 home breaks for no team: kept</td>",
            "<td>at most 6 breaks for T3: kept</td>",
            "<td>at most 0 breaks for no team: kept</td>",
            "<td>at least 1 round between both games for no two teams: kept</td>",
            "<td>numbers of home games at most 0 apart for no two teams after no round: kept</td>",
        ],
        "</body></html>\n",
    ),
);

const CASES: &[Case<'_>] = &[MARKED, CLASSES, KEPT, FEW];

#[test]
fn pages_mark_and_say_what_is_broken(rt: HostRuntime) -> Result<(), Fail> {
    check_cases(&rt, rt.alloc(), CASES)
}
