//! The command `start`.

ghost use Rattle.std.specs.Prelude.{◌≤◌, IfSome, option_map};
ghost use Rattle.league.specs.Limits.{max_weight};
ghost use Rattle.commands.specs.Outcome.{Ends, EndsOn};
ghost use Rattle.commands.specs.Start.{AnswersStart, AnswersStartOn};

use crate::begun::begun_league;
use crate::fault::{ProgramFault, after_writing};
use byte_streams::{Sink, Source, read_all};
use given_start::Beginning;
use std::alloc::Global;
use text_lines::sheet;

/// Reads a league to the end of the source, and writes the sheet of its start. Nothing is written before all other
/// faults are past, and no memory is taken from then on.
///
/// The outcome is that of [`start_from`]. What the source became is some later state of it, which nobody can ask.
pub fn start<R: Source + Drop, W: Sink>(
    alloc: Global,
    mut source: R,
    sink: &mut W,
) -> Result<(), ProgramFault>
    ensures { (after : R) × Ends R.left R.tally W.held W.tally AnswersStart source after sink.old sink.new result }
{
    start_from(alloc, &mut source, sink)
}

/// As [`start`], from a source that is lent.
pub fn start_from<R: Source, W: Sink>(
    alloc: Global,
    source: &mut R,
    sink: &mut W,
) -> Result<(), ProgramFault>
    ensures { Ends R.left R.tally W.held W.tally AnswersStart source.old source.new sink.old sink.new result }
{
    let input = read_all(alloc, source)?;
    start_on(alloc, &input, None, sink)
}

/// As [`start`], of a league's text that was read, where the league is to begin: at its own start, if nothing else is said.
pub fn start_on<W: Sink>(
    alloc: Global,
    league: &[u8],
    beginning: Option<&Beginning<'_>>,
    sink: &mut W,
) -> Result<(), ProgramFault>
    requires near { IfSome beginning (λ b. b.now.near ≤ max_weight) }
    ensures { EndsOn W.held W.tally (AnswersStartOn league.now (option_map (λ b. b.now) beginning.entry)) sink.old sink.new result }
{
    let league = begun_league(alloc, league, beginning)?;
    let schedule = league.start(alloc)?;
    after_writing(sheet(&schedule, &league, sink), ())
}
