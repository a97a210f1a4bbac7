//! A case of each command, whose text is known, and the parts that other tests share.

use crate::tests::circle::{CIRCLE, SHEET};
use crate::tests::told::Text::{Excerpt, Whole};
use crate::tests::told::{Case, Command, Text, WRITTEN};
use commands::{CsvForm, Format, SearchPlan, Separator, Settings, Verdict};

/// The line between a league and a script.
pub(crate) const SCRIPT: &str = "\nscript\n";

/// The line between a league and a schedule.
pub(crate) const JUDGED: &str = "\nsheet\n";

pub(crate) const START: Case<'_> = (Command::Start, &[CIRCLE], WRITTEN, Whole(&[SHEET]));

/// A change that is undone.
pub(crate) const PLAY: Case<'_> = (
    Command::Play { room: 8 },
    &[CIRCLE, SCRIPT, "homes 1 2\nundo\n"],
    WRITTEN,
    Whole(&[
        "start travel 30 hard 0 soft 0\n\
        done 1 travel 26 hard 0 soft 0\n\
        done 2 travel 30 hard 0 soft 0\n\
        history 2\n\
        homes 1 2\n\
        undo\n\
        end\n",
        SHEET,
        "best 26 at 1\n",
    ]),
);

pub(crate) const NO_STEPS: SearchPlan = SearchPlan {
    workers: 2,
    seed: 7,
    steps: 0,
    slack: 0,
};

/// The text of a search without a step.
pub(crate) const NO_STEPS_MADE: Text<'_> = Whole(&[
    "workers 2 steps 0 seed 7\n\
    worker 1 made 0 accepted 0 refused 0\n\
    worker 2 made 0 accepted 0 refused 0\n\
    history 0\n\
    end\n",
    SHEET,
    "best 30 at 0\n",
]);

/// The start's cost. The figures are those of scripts/parts/model.py, which shares no code with the crates.
pub(crate) const COST: &str = "travel 30 hard 0 soft 0\n\
    tour 1 travel 6\n\
    tour 2 travel 8\n\
    tour 3 travel 8\n\
    tour 4 travel 8\n\
    total 30\n";

/// The start judged.
pub(crate) const REPORT: Case<'_> = (
    Command::Report(Format::Text),
    &[CIRCLE, JUDGED, SHEET],
    Ok(Some(Verdict::Feasible)),
    Whole(&[SHEET, COST]),
);

/// CSV as it is if nothing else is asked for.
pub(crate) const COMMAS: CsvForm = CsvForm {
    separator: Separator::Comma,
    has_mark: false,
};

/// The games of the start as CSV.
pub(crate) const TABLE: Case<'_> = (
    Command::Report(Format::Csv(COMMAS)),
    &[CIRCLE, JUDGED, SHEET],
    Ok(Some(Verdict::Feasible)),
    Whole(&[
        "round,home,home name,away,away name\n\
        1,1,T1,4,T4\n\
        1,2,T2,3,T3\n\
        2,1,T1,2,T2\n\
        2,4,T4,3,T3\n\
        3,2,T2,4,T4\n\
        3,3,T3,1,T1\n\
        4,3,T3,2,T2\n\
        4,4,T4,1,T1\n\
        5,2,T2,1,T1\n\
        5,3,T3,4,T4\n\
        6,1,T1,3,T3\n\
        6,4,T4,2,T2\n",
    ]),
);

/// The games of the start in words.
pub(crate) const NAMES: Case<'_> = (
    Command::Report(Format::Names),
    &[CIRCLE, JUDGED, SHEET],
    Ok(Some(Verdict::Feasible)),
    Whole(&[
        "Round 1\nT1 - T4\nT2 - T3\n\n\
        Round 2\nT1 - T2\nT4 - T3\n\n\
        Round 3\nT2 - T4\nT3 - T1\n\n\
        Round 4\nT3 - T2\nT4 - T1\n\n\
        Round 5\nT2 - T1\nT3 - T4\n\n\
        Round 6\nT1 - T3\nT4 - T2\n",
    ]),
);

/// The page of the start: its figures, its first row, and the bar of its first team.
pub(crate) const PAGE: Case<'_> = (
    Command::Report(Format::Html),
    &[CIRCLE, JUDGED, SHEET],
    Ok(Some(Verdict::Feasible)),
    Excerpt(
        "<!DOCTYPE html>",
        &[
            "<h1>4 teams, 6 rounds</h1>",
            "<li>travel <b>30</b></li><li>hard <b>0</b></li><li>soft <b>0</b></li><li>total <b>30</b></li>",
            "<th>1</th><th>2</th><th>3</th><th>4</th><th>5</th><th>6</th>",
            "<th>1 T1</th><td class='h'>4</td><td class='h'>2</td><td class=''>@3</td><td class=''>@4</td>\
            <td class=''>@2</td><td class='h'>3</td>",
            "<th>1 T1</th><td>6</td>",
        ],
        "</body></html>\n",
    ),
);

/// The name of a table's league.
pub(crate) const NAMED: Settings<'_> = Settings {
    title: Some("Four \"trees\""),
    at_most: None,
    hard_weight: None,
};

/// A table of distances, those of one pair rounded, and the league that it gives.
pub(crate) const DISTANCES: Case<'_> = (
    Command::League,
    &[
        ",Ash,Birch,Cedar,Elm\n",
        "Ash,,3.6,5,7\nBirch,3.6,,4,6\nCedar,5,4,,2\nElm,7,6,2,\n",
    ],
    WRITTEN,
    Whole(&[
        "{\n  \"format\": 3,\n  \"name\": \"Four \\\"trees\\\"\",\n  \"teams\": [\"Ash\", \"Birch\", \"Cedar\", \"Elm\"],\n  \"distances\": [\n",
        "    [0, 4, 5, 7],\n    [4, 0, 4, 6],\n    [5, 4, 0, 2],\n    [7, 6, 2, 0]\n  ]\n}\n",
    ]),
);
