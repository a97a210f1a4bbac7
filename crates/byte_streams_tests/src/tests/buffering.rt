//! Small pieces of a text, gathered before they go out.

ghost use Rattle.std.specs.Prelude.{◌<◌};

use super::checks::check_same;
use super::samples::TEXT;
use byte_streams::{BufferedSink, MemorySink, RehearsedSink, Sink, Step, WriteFault};
use std::alloc::{AllocError, Global};
use std::process::Abort;
use std::test::Fail;

/// Gathers words and numbers; an empty piece and a second flush change nothing.
fn write_small_pieces<W: Sink>(sink: &mut W) -> Result<(), WriteFault> {
    let mut out = BufferedSink::new(sink);
    out.write(b"numbers ")?;
    out.write_number(0)?;
    out.write(b"")?;
    out.write(b" and ")?;
    out.write_number(u64::MAX)?;
    out.write(b"\n")?;
    out.flush()?;
    out.flush()
}

#[test]
fn gathers_small_pieces(rt: HostRuntime) {
    let mut buffer = [0; 64];
    let mut sink = MemorySink::new(&mut buffer);
    let outcome = write_small_pieces(&mut sink);
    check_same(&rt, &(outcome, sink.tally().calls), &(Ok(()), 1));
    let text = b"numbers 0 and 18446744073709551615\n";
    check_same(&rt, &sink.held(), &text.as_slice());
}

/// Hands the pieces to the sink by a buffer.
fn write_pieces<W: Sink>(sink: &mut W, pieces: &[&[u8]]) -> Result<(), WriteFault> {
    let mut out = BufferedSink::new(sink);
    for piece in pieces {
        out.write(piece)?;
    }
    out.flush()
}

fn joined(alloc: Global, pieces: &[&[u8]]) -> Result<Vec<u8>, AllocError> {
    let mut text = Vec::new(alloc);
    for piece in pieces {
        text.extend_from_slice(piece)?;
    }
    Ok(text)
}

/// A sink with space for 12,000 bytes takes the pieces one after another, by so many calls.
fn check_pieces(rt: &impl Abort, alloc: Global, pieces: &[&[u8]], calls: u64) -> Result<(), Fail> {
    let mut buffer = vec![in alloc; 0; 12_000]?;
    let mut sink = MemorySink::new(&mut buffer);
    write_pieces(&mut sink, pieces)?;
    let text = joined(alloc, pieces)?;
    let calls_made = sink.tally().calls;
    check_same(rt, &(sink.held(), calls_made), &(text.as_slice(), calls));
    Ok(())
}

#[test]
fn sends_pieces_longer_than_what_may_wait(rt: HostRuntime) -> Result<(), Fail> {
    let long = vec![in rt.alloc(); b'x'; 5000]?;
    let short = vec![in rt.alloc(); b'y'; 3000]?;
    check_pieces(&rt, rt.alloc(), &[b"<", &long, &short, &short, b">"], 4)
}

fn write_chunks<W: Sink>(sink: &mut W, text: &[u8], size: usize) -> Result<(), WriteFault>
    requires { 0 < size }
{
    let mut out = BufferedSink::new(sink);
    for piece in text.chunks(size) {
        out.write(piece)?;
    }
    out.flush()
}

/// Two calls in a row carry more than the 4,096 bytes that may wait, whatever the pieces.
fn check_chunks(rt: &impl Abort, alloc: Global, text: &[u8], size: usize) -> Result<(), Fail>
    requires { 0 < size }
{
    let mut buffer = vec![in alloc; 0; 12_000]?;
    let mut sink = MemorySink::new(&mut buffer);
    write_chunks(&mut sink, text, size)?;
    let holds = sink.held() == text && sink.tally().calls <= 7;
    check_same(rt, &(size, holds), &(size, true));
    Ok(())
}

#[test]
fn makes_a_call_for_each_half_buffer_at_most(rt: HostRuntime) -> Result<(), Fail> {
    let text = vec![in rt.alloc(); b'x'; 12_000]?;
    for step in 1..64 {
        check_chunks(&rt, rt.alloc(), &text, step * 81)?;
    }
    Ok(())
}

/// How the text is taken, and how two flushes end.
fn write_and_flush_twice<W: Sink>(sink: &mut W) -> [Result<(), WriteFault>; 3] {
    let mut out = BufferedSink::new(sink);
    [out.write(TEXT), out.flush(), out.flush()]
}

#[test]
fn a_fault_leaves_a_front_of_the_text(rt: HostRuntime) {
    let mut buffer = [0; 16];
    let mut memory = MemorySink::new(&mut buffer);
    let steps = [Step::Moved(2), Step::Failed];
    let outcomes = write_and_flush_twice(&mut RehearsedSink::new(&mut memory, &steps));
    check_same(&rt, &outcomes, &[Ok(()), Err(WriteFault), Ok(())]);
    check_same(&rt, &memory.held(), &b"tw".as_slice());
}

/// How a short piece is taken, and then a long one.
fn write_two<W: Sink>(sink: &mut W, long: &[u8]) -> [Result<(), WriteFault>; 2] {
    let mut out = BufferedSink::new(sink);
    [out.write(b"lost"), out.write(long)]
}

#[test]
fn a_piece_that_does_not_fit_meets_a_fault_at_once(rt: HostRuntime) -> Result<(), Fail> {
    let long = vec![in rt.alloc(); b'x'; 5000]?;
    let mut buffer = [0; 16];
    let mut memory = MemorySink::new(&mut buffer);
    let outcomes = write_two(&mut RehearsedSink::new(&mut memory, &[Step::Failed]), &long);
    check_same(&rt, &outcomes, &[Ok(()), Err(WriteFault)]);
    check_same(&rt, &memory.held(), &b"".as_slice());
    Ok(())
}
