//! The command `play`.

ghost use Rattle.std.specs.Prelude.{◌≤◌, IfSome, option_map};
ghost use Rattle.league.specs.Limits.{max_weight};
ghost use Rattle.std.specs.Str.Lines.{lines};
ghost use Rattle.commands.specs.Outcome.{Ends, EndsOn};
ghost use Rattle.commands.specs.Play.{AnswersPlay, AnswersPlayOn};

use crate::begun::{begun_league, board_of};
use crate::fault::{ProgramFault, after_writing};
use board_texts::play_script;
use byte_streams::{Sink, Source, read_all};
use given_start::Beginning;
use std::alloc::Global;
use text_lines::split_input;

/// Reads a league and a script to the end of the source, plays the script on a board of that room, and writes the
/// play text. The history in it, given as a script, leads to the same history. Nothing is written before all other
/// faults are past, and no memory is taken from then on.
///
/// The outcome is that of [`play_from`]. What the source became is some later state of it, which nobody can ask.
pub fn play<R: Source + Drop, W: Sink>(
    alloc: Global,
    mut source: R,
    sink: &mut W,
    room: u32,
) -> Result<(), ProgramFault>
    ensures { (after : R)
        × Ends R.left R.tally W.held W.tally (AnswersPlay room) source after sink.old sink.new result }
{
    play_from(alloc, &mut source, sink, room)
}

/// As [`play`], from a source that is lent.
pub fn play_from<R: Source, W: Sink>(
    alloc: Global,
    source: &mut R,
    sink: &mut W,
    room: u32,
) -> Result<(), ProgramFault>
    ensures { Ends R.left R.tally W.held W.tally (AnswersPlay room)
        source.old source.new sink.old sink.new result }
{
    let input = read_all(alloc, source)?;
    let (league, script) = split_input(&input);
    play_on(alloc, league, script, None, sink, room)
}

/// As [`play`], of a league's text and a script that were read, where the league is to begin: at its own start, if nothing else is said.
pub fn play_on<W: Sink>(
    alloc: Global,
    league: &[u8],
    script: &[u8],
    beginning: Option<&Beginning<'_>>,
    sink: &mut W,
    room: u32,
) -> Result<(), ProgramFault>
    requires near { IfSome beginning (λ b. b.now.near ≤ max_weight) }
    ensures { EndsOn W.held W.tally (AnswersPlayOn room league.now (lines script.now) (option_map (λ b. b.now) beginning.entry)) sink.old sink.new result }
{
    let league = begun_league(alloc, league, beginning)?;
    let mut board = board_of(alloc, league, room)?;
    after_writing(play_script(&mut board, script, sink), ())
}
