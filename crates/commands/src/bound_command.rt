//! The command `bound`.

ghost use Rattle.commands.specs.Bound.{AnswersBound};
ghost use Rattle.commands.specs.Outcome.{Ends, EndsOn};

use crate::begun::begun_league;
use crate::fault::{ProgramFault, after_writing};
use bounds::LeagueBounds;
use byte_streams::{Sink, Source, read_all};
use report_bounds::write_bounds;
use std::alloc::Global;

/// Reads a league to the end of the source, and writes what no schedule of it without runs travels less than: a line for the tour of each
/// team, and one for the travel of all. Nothing is written before all other faults are past, and no memory is taken from then on.
///
/// The outcome is that of [`bound_from`]. What the source became is some later state of it, which nobody can ask.
pub fn bound<R: Source + Drop, W: Sink>(
    alloc: Global,
    mut source: R,
    sink: &mut W,
) -> Result<(), ProgramFault>
    ensures { (after : R) × Ends R.left R.tally W.held W.tally AnswersBound source after sink.old sink.new result }
{
    bound_from(alloc, &mut source, sink)
}

/// As [`bound`], from a source that is lent.
pub fn bound_from<R: Source, W: Sink>(
    alloc: Global,
    source: &mut R,
    sink: &mut W,
) -> Result<(), ProgramFault>
    ensures { Ends R.left R.tally W.held W.tally AnswersBound source.old source.new sink.old sink.new result }
{
    let input = read_all(alloc, source)?;
    bound_on(alloc, &input, sink)
}

/// As [`bound`], of a league's text that was read.
pub fn bound_on<W: Sink>(alloc: Global, league: &[u8], sink: &mut W) -> Result<(), ProgramFault>
    ensures { EndsOn W.held W.tally (AnswersBound league.now) sink.old sink.new result }
{
    let league = begun_league(alloc, league, None)?;
    let bounds = LeagueBounds::of(alloc, &league)?;
    after_writing(write_bounds(&bounds, sink), ())
}
