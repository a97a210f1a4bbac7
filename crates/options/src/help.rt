//! The texts of `--help` and `--version`.

/// The program's version, which `--version` tells.
pub(crate) const VERSION: &str = "0.1.0";

pub(crate) const PROGRAM_ABOUT: &str = "A fixture board for the Travelling Tournament Problem";

pub(crate) const PROGRAM_EXAMPLE: &str = "Example:
  ttp improve < leagues/circular-4.json";

pub(crate) const START_ABOUT: &str =
    "Reads a league from standard input and writes the sheet of its Berger start";

pub(crate) const START_EXAMPLE: &str = "Example:
  ttp start < leagues/circular-4.json";

pub(crate) const PLAY_ABOUT: &str =
    "Reads a league, a line `script` and script lines from standard input, plays them on a new
board, and writes an answer to each line, the history, the sheet and the best version";

pub(crate) const PLAY_LINES: &str = "Script lines (docs/script.md), with teams and rounds from 1:
  homes I J          the two games between teams I and J exchange their rounds
  rounds K L         rounds K and L are exchanged
  teams I J          teams I and J are exchanged in all games but those between them
  part-rounds I K L  rounds K and L are exchanged for team I, and for those that have to follow
  part-teams I J K   teams I and J are exchanged in round K, and in those that have to follow
  pin R H A          the game H-A stays in round R
  unpin R H A        that game may move again
  undo               the last change in effect is taken back
  slack S            from here on a move may raise the score by at most S
  try MOVE           tells what one of the five moves would cost, and changes nothing

Example:
  (cat leagues/circular-4.json; echo script; echo 'homes 1 2'; echo undo) | ttp play --room 8
  ttp play leagues/circular-4.json changes.txt";

pub(crate) const IMPROVE_ABOUT: &str =
    "Reads a league from standard input, anneals its schedule, and writes the sheet of each better one
as soon as it has it, and at the end the last one again with its total";

pub(crate) const IMPROVE_EXAMPLE: &str =
    "It chooses all numbers by itself, and writes the same whatever the number of workers. A line
`----------` ends each sheet. The program can be ended at any time: what is written above such a
line is whole, and the last sheet there is the best so far. At the end that sheet and a line
`best B` stand, and with --history before them the history that leads there. With --output a file
has the best schedule alone, and with --log a file has a line for each leg (docs/improve.md). The
exit status is 3 where it finds none that breaks no hard limit; then the line before the last one
has what is broken.

Example:
  ttp improve leagues/circular-6.json --effort 0.1

Ten teams, by four workers, with more moves:
  ttp improve --workers 4 --effort 100 < leagues/circular-10.json

A season is mended by what it has: rounds 1 to 8 stay, and each game that moves costs 50:
  ttp improve season.json --from last.txt --keep 1-8 --near 50

A night of eight hours that can be ended at any time, and what goes on from it:
  ttp improve season.json --seconds 28800 --output best.txt --log legs.txt
  ttp improve season.json --seconds 28800 --output best.txt --from best.txt";

pub(crate) const SEARCH_ABOUT: &str =
    "Reads a league from standard input, has workers search for a cheaper schedule on one board,
and writes their counts, the history, the sheet of the best schedule and the best version";

pub(crate) const SEARCH_EXAMPLE: &str = "Example (docs/search.md says how to choose the numbers):
  ttp search --workers 4 --steps 200000 --slack 8 --room 1048576 < leagues/circular-10.json";

pub(crate) const REPORT_ABOUT: &str =
    "Reads a league, a line `sheet` and a schedule from standard input, and writes whether it is a
double round robin, what is wrong with it if not, what it costs, and what that is made of";

pub(crate) const REPORT_LINES: &str =
    "Of the schedule the lines `round R: H-A H-A ..` are read, with teams and rounds from 1
(docs/report.md), or a table of games as CSV (docs/spreadsheets.md). The exit status is 0 where
it is a double round robin that breaks no hard limit, and 3 where it isn't.

Example:
  (cat leagues/circular-4.json; echo sheet; ttp start < leagues/circular-4.json) | ttp report
  .. | ttp report --format html > season.html
  ttp improve season.json | ttp report season.json";

pub(crate) const LEAGUE_ABOUT: &str =
    "Reads a table of distances as CSV from standard input, and writes a league of its teams";

pub(crate) const LEAGUE_EXAMPLE: &str =
    "The teams' names stand in the table's first row, and in its first column or not
(docs/spreadsheets.md). Decimals are rounded to whole numbers.

Example:
  ttp league leagues/valley-4-distances.csv > valley.json";

pub(crate) const BOUND_ABOUT: &str =
    "Reads a league from standard input and writes what no schedule of it travels less than";

pub(crate) const BOUND_EXAMPLE: &str =
    "A line for each team tells what its tour is at least, and the last line what all travel together.
Schedules with more games in a row at home, or away, than the league allows may travel less
(docs/bound.md).

Example:
  ttp bound leagues/circular-10.json";

pub(crate) const DISTANCES_HELP: &str =
    "The file of the table, or `-` for standard input, which is read without it";

pub(crate) const SYMMETRIC_HELP: &str =
    "What is taken for two teams that are further apart one way: their mean or max";

pub(crate) const NAME_HELP: &str = "What the league is called: 1 to 80 bytes without control bytes";

pub(crate) const AT_MOST_HELP: &str =
    "How many games in a row a team may have at home, or away, 1 to 78";

pub(crate) const HARD_WEIGHT_HELP: &str =
    "What each breach of a hard limit adds to a score, 1 to 1000000";

pub(crate) const FORMAT_HELP: &str =
    "How the report is written: text, csv (the games), html (a page for a browser), names (the games in words) or json";

pub(crate) const SEPARATOR_HELP: &str = "What parts the cells of CSV: `,`, `;` or tab [default: ,]";

pub(crate) const BOM_HELP: &str =
    "A byte order mark stands before CSV, for a spreadsheet that wants one";

pub(crate) const WORKERS_HELP: &str = "How many workers search at once, 1 to 16";

pub(crate) const SEED_HELP: &str = "What the workers' draws begin with, any number of 64 bits";

pub(crate) const EFFORT_HELP: &str =
    "How many million moves the workers draw together, 0.001 to 1000000 with at most three decimals";

pub(crate) const SECONDS_HELP: &str =
    "For how many seconds improvements follow each other, 1 to 1000000, each with twice the effort of the one before and the next seed";

pub(crate) const STEPS_HELP: &str = "How many moves each worker draws, 0 to 1000000";

pub(crate) const SLACK_HELP: &str =
    "By how much a score may rise at the first step, any number of 64 bits; it falls in a line, to X / T at the last";

pub(crate) const ROOM_HELP: &str = "How many changes the board has room for, 0 to 1048576";

pub(crate) const LEAGUE_HELP: &str =
    "The file of the league, or `-` for standard input, which is read without it";

pub(crate) const SCRIPT_HELP: &str =
    "The file of the script, or `-` for standard input, which is read without it";

pub(crate) const SCHEDULE_HELP: &str =
    "The file of the schedule, or `-` for standard input, which is read without it";

pub(crate) const FROM_HELP: &str =
    "The file of a schedule at which boards begin, in place of the league's own start";

pub(crate) const OUTPUT_HELP: &str =
    "The file that has the best schedule so far alone, whole at any time";

pub(crate) const HISTORY_HELP: &str =
    "The history that leads to the best schedule stands before its last sheet, also in the file of --output";

pub(crate) const LOG_HELP: &str = "The file that gets a line of JSON for each leg; it is made anew";

pub(crate) const KEEP_HELP: &str = "Rounds of the start whose games are kept, as 1-8,12";

pub(crate) const KEEP_GAME_HELP: &str =
    "A game of the start that is kept, as 7-5; it can be given several times";

pub(crate) const NEAR_HELP: &str =
    "What a game costs that isn't in its round of the start, 0 to 1000000 [default: 0]";
