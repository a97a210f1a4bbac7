//! The command `league`.

ghost use Rattle.commands.specs.MadeLeague.{AnswersLeague};
ghost use Rattle.commands.specs.Outcome.{value_of, without_value, Ends, EndsOn};
ghost use Rattle.league_csv.specs.League.{AreSettings};
ghost use Rattle.league_csv.specs.LeagueText.{said_by};

use crate::fault::{ProgramFault, after_writing};
use byte_streams::{Sink, Source, read_all, write_all};
use choices::Symmetry;
use league_csv::{Settings, league_from_table};
use std::alloc::Global;

/// Reads a table of distances to the end of the source, and writes the text of a league of its teams. It gives how many distances were
/// rounded. Nothing is written before all other faults are past, and no memory is taken from then on.
///
/// The outcome is that of [`league_from`]. What the source became is some later state of it, which nobody can ask.
pub fn league<R: Source + Drop, W: Sink>(
    alloc: Global,
    mut source: R,
    sink: &mut W,
    choice: Option<Symmetry>,
    settings: Settings<'_>,
) -> Result<u64, ProgramFault>
    requires { AreSettings (said_by settings) }
    ensures { (after : R) × Ends R.left R.tally W.held W.tally (AnswersLeague choice (said_by settings.entry) (value_of result))
        source after sink.old sink.new (without_value result) }
{
    league_from(alloc, &mut source, sink, choice, settings)
}

/// As [`league`], from a source that is lent.
pub fn league_from<R: Source, W: Sink>(
    alloc: Global,
    source: &mut R,
    sink: &mut W,
    choice: Option<Symmetry>,
    settings: Settings<'_>,
) -> Result<u64, ProgramFault>
    requires { AreSettings (said_by settings) }
    ensures { Ends R.left R.tally W.held W.tally (AnswersLeague choice (said_by settings.entry) (value_of result))
        source.old source.new sink.old sink.new (without_value result) }
{
    let table = read_all(alloc, source)?;
    league_on(alloc, &table, sink, choice, settings)
}

/// As [`league`], of a table that was read.
pub fn league_on<W: Sink>(
    alloc: Global,
    table: &[u8],
    sink: &mut W,
    choice: Option<Symmetry>,
    settings: Settings<'_>,
) -> Result<u64, ProgramFault>
    requires { AreSettings (said_by settings) }
    ensures { EndsOn W.held W.tally (AnswersLeague choice (said_by settings.entry) (value_of result) table.now) sink.old sink.new (without_value result) }
{
    let made = league_from_table(alloc, table, choice, settings)?;
    after_writing(write_all(sink, &made.text), made.rounded)
}
