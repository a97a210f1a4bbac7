//! Reports for leagues with a given start and a price for leaving it: as text, with the lines worked out by hand, and as a page.

use crate::tests::checks::check_same_of;
use crate::tests::circle::{CIRCLE, FIRST, FOUR, SHEET};
use crate::tests::judged_schedules::{PARTS_OF_REPEATING, REPEATING, RULES};
use crate::tests::samples::COST;
use crate::tests::told::Text;
use crate::tests::told::Text::{Excerpt, Whole};
use byte_streams::MemorySink;
use commands::{Beginning, Format, report_on};
use league::SlotSet;
use std::alloc::Global;
use std::process::Abort;
use std::test::Fail;

/// A league in parts, the text of the schedule at which it begins, if it was given, and the price of a moved game.
type Begun<'a> = (&'a [&'a str], Option<&'a str>, u32);

/// The report of a schedule for a league in a format.
type Case<'a> = (Begun<'a>, Format, &'a str, Text<'a>);

/// The report of the schedule for the league that begins there.
fn report_of(
    alloc: Global,
    league: &[u8],
    (start, near): (Option<&str>, u32),
    format: Format,
    sheet: &str,
) -> Result<Vec<u8>, Fail> {
    let from = match start {
        Some(start) => Some(start.as_bytes()),
        None => None,
    };
    let beginning = Beginning {
        from,
        rounds: SlotSet::empty(),
        games: &[],
        near: near.min(1_000_000),
    };
    let mut buffer = vec![in alloc; 0; 20_000]?;
    let mut sink = MemorySink::new(&mut buffer);
    report_on(
        alloc,
        league,
        Some(sheet.as_bytes()),
        Some(&beginning),
        &mut sink,
        format,
    )?;
    Ok(Vec::from_slice(alloc, sink.held())?)
}

fn check_case(rt: &impl Abort, alloc: Global, case: &Case<'_>) -> Result<(), Fail> {
    let ((league, start, near), format, sheet, text) = *case;
    let league = league.concat(alloc)?;
    let report = report_of(alloc, league.as_bytes(), (start, near), format, sheet)?;
    let about = (start, near, format, str::from_utf8(&report));
    check_same_of(rt, &about, &text.is_told(&report), &true);
    Ok(())
}

/// From the start to the repeating schedule: homes of teams 1 and 2 are exchanged, and rounds 1 and 3.
const MOVED: &str = "was 1-2 round 2 now 5\n\
    was 1-4 round 1 now 3\n\
    was 2-1 round 5 now 2\n\
    was 2-3 round 1 now 3\n\
    was 2-4 round 3 now 1\n\
    was 3-1 round 3 now 1\n";

/// From it back to the start, under rules.
const BACK_UNDER_RULES: &str = "travel 30 hard 2 soft 70\n\
    tour 1 travel 6\n\
    tour 2 travel 8\n\
    tour 3 travel 8\n\
    tour 4 travel 8\n\
    rule 1 CA3 soft 10 deviation 1\n\
    over rule 1 team 3 rounds 3-5 by 1: 3-1 @ 3 3-2 @ 4 3-4 @ 5\n\
    rule 2 BR1 hard deviation 2\n\
    over rule 2 team 1 by 2: rounds 4 5\n\
    near 10 moved 6\n\
    was 1-2 round 5 now 2\n\
    was 1-4 round 3 now 1\n\
    was 2-1 round 2 now 5\n\
    was 2-3 round 3 now 1\n\
    was 2-4 round 1 now 3\n\
    was 3-1 round 1 now 3\n\
    infeasible\n";

const TEXTS: &[Case<'_>] = &[
    (
        (&[CIRCLE], Some(SHEET), 200),
        Format::Text,
        REPEATING,
        Whole(&[
            REPEATING,
            "travel 28 hard 2 soft 1200\n",
            PARTS_OF_REPEATING,
            "near 200 moved 6\n",
            MOVED,
            "infeasible\n",
        ]),
    ),
    (
        (&[FIRST, FOUR, RULES], Some(REPEATING), 10),
        Format::Text,
        SHEET,
        Whole(&[SHEET, BACK_UNDER_RULES]),
    ),
    // no price, and no given start
    (
        (&[CIRCLE], Some(SHEET), 0),
        Format::Text,
        REPEATING,
        Whole(&[
            REPEATING,
            "travel 28 hard 2 soft 0\n",
            PARTS_OF_REPEATING,
            MOVED,
            "infeasible\n",
        ]),
    ),
    (
        (&[CIRCLE], None, 1_000_000),
        Format::Text,
        REPEATING,
        Whole(&[
            REPEATING,
            "travel 28 hard 2 soft 6000000\n",
            PARTS_OF_REPEATING,
            "near 1000000 moved 6\n",
            "infeasible\n",
        ]),
    ),
    // nothing moved
    (
        (&[CIRCLE], Some(SHEET), 0),
        Format::Text,
        SHEET,
        Whole(&[SHEET, COST]),
    ),
];

#[test]
fn reports_tell_what_was_moved(rt: HostRuntime) -> Result<(), Fail> {
    for case in TEXTS {
        check_case(&rt, rt.alloc(), case)?;
    }
    Ok(())
}

/// The style of moved games, and the legend's line.
const STYLE: &str = ".m { font-weight: bold; text-decoration: underline }\n";

const LEGEND: &str =
    "before.</p><p><span class='m'>Underlined</span>: in another round than at the start.</p><div class='wide'>";

/// The first team's games: three moved ones, a repeat, a moved one, and one that stayed.
const MARKED: &str =
    "<th>1 T1</th><td class=' m'>@3</td><td class=' m'>@2</td><td class='h m'>4</td>\
    <td class=' r'>@4</td><td class='h m'>2</td><td class='h'>3</td></tr>";

const TABLE: &str =
    "<h2>Moved games</h2><table><tr><th>Game</th><th>Round at the start</th><th>Round now</th></tr>\
    <tr><td>1-2</td><td>2</td><td>5</td></tr>\
    <tr><td>1-4</td><td>1</td><td>3</td></tr>\
    <tr><td>2-1</td><td>5</td><td>2</td></tr>\
    <tr><td>2-3</td><td>1</td><td>3</td></tr>\
    <tr><td>2-4</td><td>3</td><td>1</td></tr>\
    <tr><td>3-1</td><td>3</td><td>1</td></tr></table>";

/// The games by round, and the end of the page.
const ROUNDS: &str = "</table><h2>Rounds</h2><div class='rounds'>\n\
    <section><h3>Round 1</h3><div>T2 - T4</div><div>T3 - T1</div></section>\n\
    <section><h3>Round 2</h3><div>T2 - T1</div><div>T4 - T3</div></section>\n\
    <section><h3>Round 3</h3><div>T1 - T4</div><div>T2 - T3</div></section>\n\
    <section><h3>Round 4</h3><div>T3 - T2</div><div>T4 - T1</div></section>\n\
    <section><h3>Round 5</h3><div>T1 - T2</div><div>T3 - T4</div></section>\n\
    <section><h3>Round 6</h3><div>T1 - T3</div><div>T4 - T2</div></section>\n\
    </div></body></html>\n";

const NEAR: &str = "<li>soft <b>1200</b></li><li>near <b>200</b> moved <b>6</b></li>\
    <li class='bad'><b>infeasible</b></li></ul>";

/// The first team's games without marks of moved ones.
const UNMARKED: &str = "<th>1 T1</th><td class=''>@3</td><td class=''>@2</td><td class='h'>4</td>\
    <td class=' r'>@4</td><td class='h'>2</td><td class='h'>3</td></tr>";

const PAGES: &[Case<'_>] = &[
    (
        (&[CIRCLE], Some(SHEET), 200),
        Format::Html,
        REPEATING,
        Excerpt(
            "<!DOCTYPE html>",
            &[STYLE, LEGEND, MARKED, NEAR, TABLE],
            ROUNDS,
        ),
    ),
    (
        (&[CIRCLE], None, 200),
        Format::Html,
        REPEATING,
        Excerpt(
            "<!DOCTYPE html>",
            &["before.</p><div class='wide'>", UNMARKED, NEAR],
            ROUNDS,
        ),
    ),
];

#[test]
fn pages_mark_what_was_moved(rt: HostRuntime) -> Result<(), Fail> {
    for case in PAGES {
        check_case(&rt, rt.alloc(), case)?;
    }
    Ok(())
}
