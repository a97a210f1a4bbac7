//! The command `search`.

ghost use Rattle.std.specs.Prelude.{◌≢◌, ◌≤◌, [], Err, IfErr, IfOk, IfSome, List, None, Option, option_map, ℕ};
ghost use Rattle.choices.specs.Limits.{max_room};
ghost use Rattle.fixture_board.specs.Record.{book};
ghost use Rattle.given_start.specs.declared.begun.Beginning.{Beginning as Given};
ghost use Rattle.league.specs.League.{IsLeague};
ghost use Rattle.league.specs.Limits.{max_weight};
ghost use Rattle.search.specs.Outcomes.{IsOutcome};
ghost use Rattle.commands.specs.Begun.{Begins};
ghost use Rattle.commands.specs.Outcome.{value_of, without_value, Ends, EndsOn};
ghost use Rattle.commands.specs.Find.{AnswersFind, AnswersFindOn};

use crate::begun::{begun_league, board_of};
use crate::fault::{ProgramFault, after_writing};
use crate::search_end::SearchEnd;
use crate::search_text::search_report;
use byte_streams::{Sink, Source, read_all};
use choices::SearchPlan;
use draws::{Gate, RunContext};
use given_start::Beginning;
use league::League;
use search::{Outcome, run_with};
use std::sync::Wait;
use std::thread::Threads;

/// Reads a league to the end of the source, has the plan's workers search on a board of that room, and writes the
/// search text of what they came to. The history in it, given to `play` as a script, leads to the same games and the
/// same best version. Nothing is written before all other faults are past, and no memory is taken from then on. The workers
/// pass the run context's gate, which is told how far they are.
///
/// The outcome is that of [`find_from`]. What the source became is some later state of it, which nobody can ask.
pub fn find<T: Threads + Wait + Sync, G: Gate + Sync, R: Source + Drop, W: Sink>(
    run_context: RunContext<'_, T, G>,
    mut source: R,
    sink: &mut W,
    room: u32,
    plan: SearchPlan,
) -> Result<(), ProgramFault>
    ensures { (after : R)
        × Ends R.left R.tally W.held W.tally (AnswersFind room plan) source after sink.old sink.new result }
{
    find_from(run_context, &mut source, sink, room, plan)
}

/// As [`find`], from a source that is lent.
pub fn find_from<T: Threads + Wait + Sync, G: Gate + Sync, R: Source, W: Sink>(
    run_context: RunContext<'_, T, G>,
    source: &mut R,
    sink: &mut W,
    room: u32,
    plan: SearchPlan,
) -> Result<(), ProgramFault>
    ensures { Ends R.left R.tally W.held W.tally (AnswersFind room plan)
        source.old source.new sink.old sink.new result }
{
    let input = read_all(run_context.alloc, source)?;
    match find_on(run_context, &input, None, sink, room, plan) {
        Ok(_) => Ok(()),
        Err(fault) => Err(fault),
    }
}

/// As [`find`], of a league's text that was read, where the league is to begin: at its own start, if nothing else is said. It answers
/// with how the search ended.
pub fn find_on<T: Threads + Wait + Sync, G: Gate + Sync, W: Sink>(
    run_context: RunContext<'_, T, G>,
    league: &[u8],
    beginning: Option<&Beginning<'_>>,
    sink: &mut W,
    room: u32,
    plan: SearchPlan,
) -> Result<SearchEnd, ProgramFault>
    requires near { IfSome beginning (λ b. b.now.near ≤ max_weight) }
    ensures { EndsOn W.held W.tally
        (AnswersFindOn room plan (value_of result) league.now (option_map (λ b. b.now) beginning.entry))
        sink.old sink.new (without_value result) }
{
    let begun = begun_league(run_context.alloc, league, beginning)?;
    find_in(run_context, &begun, sink, room, plan)
}

/// As [`find_on`], in a league that has begun.
fn find_in<T: Threads + Wait + Sync, G: Gate + Sync, W: Sink>(
    run_context: RunContext<'_, T, G>,
    league: &League,
    sink: &mut W,
    room: u32,
    plan: SearchPlan,
) -> Result<SearchEnd, ProgramFault>
    requires { IsLeague league.now }
    ensures { (bytes : List ℕ) (beginning : Option Given) → Begins bytes beginning league.now
        → EndsOn W.held W.tally (AnswersFindOn room plan (value_of result) bytes beginning) sink.old sink.new (without_value result) }
{
    let outcome = outcome_of(run_context, league, room, plan)?;
    let end = SearchEnd::of(&outcome.board);
    after_writing(search_report(&outcome, sink), end)
}

/// What the plan's workers come to on a new board.
fn outcome_of<T: Threads + Wait + Sync, G: Gate + Sync>(
    run_context: RunContext<'_, T, G>,
    league: &League,
    room: u32,
    plan: SearchPlan,
) -> Result<Outcome, ProgramFault>
    ensures room { IfOk result (λ _. room ≤ max_room) }
    ensures done { IfOk result (IsOutcome plan (book league.now room [])) }
    ensures fault { IfErr result (λ fault. fault ≢ ProgramFault.Memory → (bytes : List ℕ) (beginning : Option Given)
        → Begins bytes beginning league.now → AnswersFindOn room plan None bytes beginning (Err fault)) }
{
    let alloc = run_context.alloc;
    let board = board_of(alloc, league.duplicate(alloc)?, room)?;
    match run_with(run_context, league, board, plan) {
        Ok(outcome) => Ok(outcome),
        Err(refused) => Err(ProgramFault::from(refused.why)),
    }
}
