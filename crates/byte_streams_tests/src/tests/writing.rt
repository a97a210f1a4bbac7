//! Texts written to sinks that take a few bytes at each call, are interrupted, fail or are full.

use super::checks::check_same;
use super::samples::{NO_CALLS, TEXT};
use byte_streams::{
    MemorySink, RehearsedSink, Sink, Step, Tally, WriteFault, WriterSink, write_all,
};
use std::io;
use std::io::{ErrorKind, Write};
use std::process::Abort;
use std::sync::atomic::{AtomicBool, Ordering};
use std::test::Fail;

/// A write is interrupted, one takes two bytes, and all others fail with an error of this kind.
#[derive(Drop)]
struct FlakyWriter {
    calls: u8,
    kind: ErrorKind,
}

/// A writer of which nothing was asked yet.
fn flaky(kind: ErrorKind) -> FlakyWriter {
    FlakyWriter { calls: 0, kind }
}

impl Write for FlakyWriter {
    fn write(&mut self, piece: &[u8]) -> io::Result<usize> {
        self.calls = self.calls.saturating_add(1);
        match self.calls {
            1 => Err(ErrorKind::Interrupted.into()),
            2 => Ok(piece.len().min(2)),
            _ => Err(self.kind.into()),
        }
    }

    fn flush(&mut self) -> io::Result<()> {
        Ok(())
    }
}

#[test]
fn writes_to_a_writer_until_it_fails(rt: HostRuntime) {
    let mut sink = WriterSink::new(flaky(ErrorKind::BrokenPipe));
    let outcome = write_all(&mut sink, b"abc");
    let tally = Tally {
        calls: 3,
        failed: 1,
        again: 1,
        ..NO_CALLS
    };
    check_same(&rt, &(outcome, sink.tally()), &(Err(WriteFault), tally));
}

#[test]
fn writes_to_a_writer(rt: HostRuntime) -> Result<(), Fail> {
    let mut written = Vec::new(rt.alloc());
    write_all(&mut WriterSink::new(&mut written), TEXT)?;
    check_same(&rt, &written.as_slice(), &TEXT);
    Ok(())
}

/// What three pushes to a pipe answer that then fails with an error of this kind, and whether it was closed after each.
fn pushed_to_pipe(kind: ErrorKind) -> [(Step, bool); 3] {
    let is_closed = AtomicBool::new(false);
    let mut sink = WriterSink::over_pipe(flaky(kind), &is_closed);
    let first = (sink.push(b"abc"), is_closed.load(Ordering::SeqCst));
    let second = (sink.push(b"abc"), is_closed.load(Ordering::SeqCst));
    let third = (sink.push(b"abc"), is_closed.load(Ordering::SeqCst));
    [first, second, third]
}

#[test]
fn tells_of_a_pipe_that_nobody_reads(rt: HostRuntime) {
    let closed = [
        (Step::Again, false),
        (Step::Moved(2), false),
        (Step::Failed, true),
    ];
    check_same(&rt, &pushed_to_pipe(ErrorKind::BrokenPipe), &closed);
}

#[test]
fn tells_of_no_pipe_at_another_failure(rt: HostRuntime) {
    let open = [
        (Step::Again, false),
        (Step::Moved(2), false),
        (Step::Failed, false),
    ];
    check_same(&rt, &pushed_to_pipe(ErrorKind::StorageFull), &open);
}

#[test]
fn stops_at_a_sink_that_is_full(rt: HostRuntime) {
    let mut buffer = [0; 4];
    let mut sink = MemorySink::new(&mut buffer);
    let outcome = write_all(&mut sink, TEXT);
    let tally = Tally {
        calls: 2,
        empty: 1,
        ..NO_CALLS
    };
    check_same(&rt, &(outcome, sink.tally()), &(Err(WriteFault), tally));
    check_same(&rt, &sink.held(), &b"two\n".as_slice());
}

/// The outcome of a text that is written by these steps to a sink with space for it, and the sink's tally.
fn written(memory: &mut MemorySink<'_>, steps: &[Step]) -> (Result<(), WriteFault>, Tally) {
    let mut sink = RehearsedSink::new(memory, steps);
    (write_all(&mut sink, TEXT), sink.tally())
}

#[test]
fn stops_at_a_failed_write(rt: HostRuntime) {
    let mut buffer = [0; 16];
    let mut memory = MemorySink::new(&mut buffer);
    let steps = [Step::Moved(2), Step::Again, Step::Moved(3), Step::Failed];
    let tally = Tally {
        calls: 4,
        failed: 1,
        again: 1,
        ..NO_CALLS
    };
    check_same(
        &rt,
        &written(&mut memory, &steps),
        &(Err(WriteFault), tally),
    );
    check_same(&rt, &memory.held(), &b"two\nl".as_slice());
}

/// A text that is written by these steps comes to this end, and the sink holds so much of it.
fn check_steps(rt: &impl Abort, steps: &[Step], wanted: Result<(), WriteFault>, held: &[u8]) {
    let mut buffer = [0; 16];
    let mut memory = MemorySink::new(&mut buffer);
    let (outcome, _) = written(&mut memory, steps);
    check_same(rt, &(outcome, memory.held()), &(wanted, held));
}

#[test]
fn gives_up_after_a_thousand_interrupted_writes_in_a_row(rt: HostRuntime) {
    let mut steps = [Step::Again; 2000];
    steps[999] = Step::Moved(1);
    check_steps(&rt, &steps[..999], Ok(()), TEXT);
    check_steps(&rt, &steps[..1999], Ok(()), TEXT);
    check_steps(&rt, &steps, Err(WriteFault), b"t");
}

#[test]
fn hands_a_sink_with_space_the_whole_text_at_once(rt: HostRuntime) -> Result<(), Fail> {
    let text = vec![in rt.alloc(); b'x'; 12_000]?;
    let mut buffer = vec![in rt.alloc(); 0; 12_000]?;
    let mut sink = MemorySink::new(&mut buffer);
    write_all(&mut sink, &text)?;
    check_same(&rt, &sink.tally().calls, &1);
    Ok(())
}
