//! What no schedule of a league travels less than, as lines.

ghost use Rattle.std.specs.Prelude.{OnErr, OnOk, length, ◌<◌};
ghost use Rattle.std.specs.Io.KnownBytes.{Appends};
ghost use Rattle.byte_streams.specs.Limits.{write_limit};
ghost use Rattle.byte_streams.specs.Pieces.{pieces_below};
ghost use Rattle.byte_streams.specs.Sending.{AppendsPrefix};
ghost use Rattle.byte_streams.specs.Tally.{FailsWriting};
ghost use Rattle.byte_streams.specs.Writing.{Writes};
ghost use Rattle.report_bounds.specs.BoundsText.{bounds_text, tour_bound_line};

use bounds::LeagueBounds;
use byte_streams::{BufferedSink, Sink, WriteFault};
use text_lines::{Piece, write_numbered, write_pieces};

/// Writes a line for each team, with the bound on its tour, and one with the bound on the travel of all. Takes no memory. After a fault a
/// prefix of the lines went out.
pub fn write_bounds<W: Sink>(bounds: &LeagueBounds, sink: &mut W) -> Result<(), WriteFault>
    ensures ok { OnOk result (Appends (W.held sink.old) (W.held sink.new)
        (bounds_text bounds.now.tours.items bounds.now.travel)) }
    ensures prefix { OnErr result (AppendsPrefix (W.held sink.old) (W.held sink.new)
        (bounds_text bounds.now.tours.items bounds.now.travel)) }
    ensures cause { OnErr result (FailsWriting write_limit (W.tally sink.old) (W.tally sink.new)) }
{
    let mut out = BufferedSink::new(sink);
    write_lines(&mut out, &bounds.tours, bounds.travel)?;
    out.flush()
}

#[tactic(auto, unfolding(crate::specs::BoundsText::bounds_text))]
fn write_lines<W: Sink>(
    out: &mut BufferedSink<'_, W>,
    tours: &[u64],
    travel: u64,
) -> Result<(), WriteFault>
    ensures { Writes W.held W.tally out.old out.new result (bounds_text tours.now travel) }
{
    write_tours(out, tours)?;
    write_numbered(out, b"bound ", travel)
}

fn write_tours<W: Sink>(out: &mut BufferedSink<'_, W>, tours: &[u64]) -> Result<(), WriteFault>
    ensures { Writes W.held W.tally out.old out.new result (pieces_below (tour_bound_line tours.now) (length tours.now)) }
{
    for team in 0..tours.len() {
        write_tour(out, tours, team)?;
    }
    Ok(())
}

fn write_tour<W: Sink>(
    out: &mut BufferedSink<'_, W>,
    tours: &[u64],
    team: usize,
) -> Result<(), WriteFault>
    requires { team < length tours.now }
    ensures { Writes W.held W.tally out.old out.new result (tour_bound_line tours.now team) }
{
    write_pieces(
        out,
        &[
            Piece::Text(b"tour "),
            Piece::Number(team as u64 + 1),
            Piece::Text(b" bound "),
            Piece::Number(tours[team]),
            Piece::Text(b"\n"),
        ],
    )
}
