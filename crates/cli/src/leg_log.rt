//! The lines that tell of the legs of an improvement as they end.

ghost use Rattle.std.specs.Prelude.{◌≡◌, OnErr, OnOk};
ghost use Rattle.std.specs.Io.KnownBytes.{Appends};
ghost use Rattle.byte_streams.specs.Sending.{AppendsPrefix};
ghost use Rattle.byte_streams.specs.Writing.{Writes};
ghost use Rattle.policy.specs.Legs.{kinds_of};
ghost use Rattle.text_lines.specs.Pieces.{text_of_piece};
ghost use Rattle.cli.specs.LegLog.{kinds_words, leg_line, new_line, number_or_null, IsAdded, IsTorn};

use byte_streams::{BufferedSink, Sink, WriteFault, WriterSink};
use commands::LegEnded;
use policy::MoveSet;
use std::io::{ErrorKind, Write};
use std::time::{Clock, Instant};
use std::{io, mem};
use text_lines::{Piece, write_pieces};

/// A line of JSON for each leg, with the seconds since the beginning.
#[derive(Drop)]
pub(crate) struct LegLog<'a, C, F> {
    clock: &'a C,
    begun: Instant,
    sink: WriterSink<'a, F>,
    /// Whether a part of a line may stand at the end.
    torn: bool,
}

impl<'a, C: Clock, F: Write + Drop> LegLog<'a, C, F> {
    /// A log that begins now, in a new file.
    pub(crate) fn new(clock: &'a C, file: F) -> io::Result<Self> {
        Ok(LegLog {
            clock,
            begun: Instant::now(clock)?,
            sink: WriterSink::new(file),
            torn: false,
        })
    }

    /// Adds the line of a leg.
    pub(crate) fn add(&mut self, leg: LegEnded) -> io::Result<()>
        ensures added { OnOk result (IsAdded ⟦<WriterSink<'a, F> as Sink>⟧.held self.old self.new leg) }
        ensures torn { OnErr result (IsTorn ⟦<WriterSink<'a, F> as Sink>⟧.held self.old self.new leg) }
    {
        let passed = Instant::now(self.clock)?.duration_since(self.begun);
        let thousandths = passed.as_millis().min(u128::from(u64::MAX)) as u64;
        let torn = mem::replace(&mut self.torn, true);
        if write_leg(&mut self.sink, torn, thousandths, leg).is_err() {
            return Err(io::Error::from(ErrorKind::WriteZero));
        }
        self.torn = false;
        Ok(())
    }
}

/// Writes the line of a leg, on a line of its own.
fn write_leg<W: Sink>(
    sink: &mut W,
    torn: bool,
    thousandths: u64,
    leg: LegEnded,
) -> Result<(), WriteFault>
    ensures ok { OnOk result (Appends (W.held sink.old) (W.held sink.new) (leg_line torn thousandths leg)) }
    ensures prefix { OnErr result (AppendsPrefix (W.held sink.old) (W.held sink.new) (leg_line torn thousandths leg)) }
{
    let mut out = BufferedSink::new(sink);
    write_line(&mut out, torn, thousandths, leg)?;
    out.flush()
}

fn write_line<W: Sink>(
    out: &mut BufferedSink<'_, W>,
    torn: bool,
    thousandths: u64,
    leg: LegEnded,
) -> Result<(), WriteFault>
    ensures { Writes W.held W.tally out.old out.new result (leg_line torn thousandths leg) }
{
    write_pieces(
        out,
        &[
            Piece::Text(new_line(torn)),
            Piece::Text(b"{\"leg\":"),
            Piece::Number(leg.number),
            Piece::Text(b",\"chain\":"),
            Piece::Number(leg.chain),
            Piece::Text(b",\"moves\":["),
            Piece::Text(words_of(leg.moves)),
            Piece::Text(b"],\"from\":"),
            Piece::Number(leg.from / 1000),
            Piece::Text(b"."),
            Piece::Number(leg.from / 100 % 10),
            Piece::Number(leg.from / 10 % 10),
            Piece::Number(leg.from % 10),
            Piece::Text(b",\"to\":"),
            Piece::Number(leg.to / 1000),
            Piece::Text(b"."),
            Piece::Number(leg.to / 100 % 10),
            Piece::Number(leg.to / 10 % 10),
            Piece::Number(leg.to % 10),
            Piece::Text(b",\"seconds\":"),
            Piece::Number(thousandths / 1000),
            Piece::Text(b"."),
            Piece::Number(thousandths / 100 % 10),
            Piece::Number(thousandths / 10 % 10),
            Piece::Number(thousandths % 10),
            Piece::Text(b",\"steps\":"),
            Piece::Number(leg.steps),
            Piece::Text(b",\"accepted\":"),
            Piece::Number(leg.accepted),
            Piece::Text(b",\"hard\":"),
            Piece::Number(leg.hard),
            Piece::Text(b",\"best\":"),
            number_or_null(leg.best),
            Piece::Text(b",\"least\":"),
            number_or_null(leg.least),
            Piece::Text(b"}\n"),
        ],
    )
}

/// The words of the kinds of moves, as strings of JSON.
fn words_of(moves: MoveSet) -> &'static [u8]
    ensures { result.now ≡ kinds_words (kinds_of moves) }
{
    match moves {
        MoveSet::Rigid => br#""homes","teams""#,
        MoveSet::Loose => br#""homes","rounds","teams""#,
        MoveSet::Full => br#""homes","rounds","teams","part-rounds","part-teams""#,
        MoveSet::Repair => br#""homes","part-rounds","part-teams""#,
        MoveSet::WideRepair => br#""homes","rounds","part-rounds","part-teams""#,
        MoveSet::Partial => br#""homes","part-rounds","part-rounds","part-teams","part-teams""#,
    }
}

/// The end of a line that was torn off.
fn new_line(torn: bool) -> &'static [u8]
    ensures { result.now ≡ new_line torn }
{
    if torn { b"\n" } else { b"" }
}

fn number_or_null(number: Option<u64>) -> Piece<'static>
    ensures { text_of_piece result ≡ number_or_null number }
{
    match number {
        Some(number) => Piece::Number(number),
        None => Piece::Text(b"null"),
    }
}
