//! The command `improve`.

ghost use Rattle.std.specs.Prelude.{◌≤◌, IfSome, option_map};
ghost use Rattle.league.specs.Limits.{max_weight};
ghost use Rattle.policy.specs.Limits.{max_effort};
ghost use Rattle.commands.specs.Improve.{EndsImprove, EndsImproveOn};
ghost use Rattle.commands.specs.Outcome.{value_of, without_value};

use crate::begun::begun_league;
use crate::fault::ProgramFault;
use crate::verdict::Verdict;
use byte_streams::{Sink, Source, read_all};
use draws::{Gate, RunContext};
use given_start::Beginning;
use improvement::{ImprovePlan, NoWatcher, Watcher};
use std::sync::Wait;
use std::thread::Threads;

/// Reads a league to the end of the source, anneals its schedule in the legs of the policy, and writes a line for each leg and each
/// better schedule as soon as it is known, then the history that leads to the best. That history, given to `play` as a script,
/// leads to the same best. Nothing is written before the faults of reading and a wrong number of workers are past. After any
/// other fault what was written stands. The run context's gate is told how far the legs are. The verdict tells whether a feasible
/// schedule was found.
///
/// The outcome is that of [`improve_from`]. What the source became is some later state of it, which nobody can ask.
pub fn improve<T: Threads + Wait + Sync, G: Gate + Sync, R: Source + Drop, W: Sink>(
    run_context: RunContext<'_, T, G>,
    mut source: R,
    sink: &mut W,
    plan: ImprovePlan,
) -> Result<Verdict, ProgramFault>
    requires least { 1 ≤ plan.effort }
    requires most { plan.effort ≤ max_effort }
    ensures { (after : R)
        × EndsImprove R.left R.tally W.held W.tally plan (value_of result)
        source after sink.old sink.new (without_value result) }
{
    improve_from(run_context, &mut source, sink, plan)
}

/// As [`improve`], from a source that is lent.
pub fn improve_from<T: Threads + Wait + Sync, G: Gate + Sync, R: Source, W: Sink>(
    run_context: RunContext<'_, T, G>,
    source: &mut R,
    sink: &mut W,
    plan: ImprovePlan,
) -> Result<Verdict, ProgramFault>
    requires least { 1 ≤ plan.effort }
    requires most { plan.effort ≤ max_effort }
    ensures { EndsImprove R.left R.tally W.held W.tally plan (value_of result)
        source.old source.new sink.old sink.new (without_value result) }
{
    let input = read_all(run_context.alloc, source)?;
    improve_on(run_context, &input, None, sink, plan, NoWatcher)
}

/// As [`improve`], of a league's text that was read, where the league is to begin: at its own start, if nothing else is said. The watcher
/// is told of each leg that has ended.
pub fn improve_on<T: Threads + Wait + Sync, G: Gate + Sync, W: Sink, V: Watcher<W> + Drop>(
    run_context: RunContext<'_, T, G>,
    league: &[u8],
    beginning: Option<&Beginning<'_>>,
    sink: &mut W,
    plan: ImprovePlan,
    watcher: V,
) -> Result<Verdict, ProgramFault>
    requires least { 1 ≤ plan.effort }
    requires most { plan.effort ≤ max_effort }
    requires near { IfSome beginning (λ b. b.now.near ≤ max_weight) }
    ensures { EndsImproveOn W.held W.tally plan (value_of result) league.now (option_map (λ b. b.now) beginning.entry)
        sink.old sink.new (without_value result) }
{
    let league = begun_league(run_context.alloc, league, beginning)?;
    let best = improvement::improve(run_context, league, plan, sink, watcher)?;
    Ok(Verdict::of(best.is_some()))
}
