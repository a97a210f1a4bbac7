//! Texts read from sources that give a few bytes at each call, are interrupted, fail or end too late.

ghost use Rattle.std.specs.Prelude.{◌<◌};

use super::checks::{check_holds, check_same};
use super::samples::{NO_CALLS, TEXT};
use byte_streams::{
    INPUT_LIMIT, MemorySource, ReadFault, ReaderSource, RehearsedSource, Source, Step, Tally,
    read_all,
};
use std::alloc::Global;
use std::io;
use std::io::{ErrorKind, Read};
use std::process::Abort;
use std::test::Fail;

/// Reading gives this text.
fn check_read<S: Source>(
    rt: &impl Abort,
    alloc: Global,
    source: &mut S,
    text: &[u8],
) -> Result<(), Fail> {
    let found = read_all(alloc, source)?;
    check_same(rt, &found.as_slice(), &text);
    Ok(())
}

/// Whether reading ends with the fault of a source that can't be read.
fn is_unreadable<S: Source>(alloc: Global, source: &mut S) -> bool {
    matches!(read_all(alloc, source), Err(ReadFault::Read))
}

fn check_read_in_pieces(rt: &impl Abort, alloc: Global, most: usize) -> Result<(), Fail>
    requires { 0 < most }
{
    let found = read_all(alloc, &mut MemorySource::in_pieces(TEXT, most))?;
    check_same(rt, &(most, found.as_slice()), &(most, TEXT));
    Ok(())
}

#[test]
fn reads_all_in_pieces_of_any_size(rt: HostRuntime) -> Result<(), Fail> {
    for most in 1..12 {
        check_read_in_pieces(&rt, rt.alloc(), most)?;
    }
    Ok(())
}

#[test]
fn reads_until_a_call_gives_nothing(rt: HostRuntime) -> Result<(), Fail> {
    let mut source = MemorySource::new(TEXT);
    check_read(&rt, rt.alloc(), &mut source, TEXT)?;
    let tally = Tally {
        calls: 2,
        empty: 1,
        ..NO_CALLS
    };
    check_same(&rt, &source.tally(), &tally);
    Ok(())
}

#[test]
fn tries_an_interrupted_read_again(rt: HostRuntime) -> Result<(), Fail> {
    let steps = [Step::Again, Step::Moved(1), Step::Again, Step::Again];
    let mut source = RehearsedSource::new(MemorySource::new(TEXT), &steps);
    check_read(&rt, rt.alloc(), &mut source, TEXT)?;
    let tally = Tally {
        calls: 6,
        empty: 1,
        again: 3,
        ..NO_CALLS
    };
    check_same(&rt, &source.tally(), &tally);
    Ok(())
}

#[test]
fn stops_at_a_failed_read(rt: HostRuntime) -> Result<(), Fail> {
    let mut memory = MemorySource::new(TEXT);
    let steps = [Step::Moved(4), Step::Failed];
    let mut source = RehearsedSource::new(&mut memory, &steps);
    check_holds(&rt, is_unreadable(rt.alloc(), &mut source));
    let tally = Tally {
        calls: 2,
        failed: 1,
        ..NO_CALLS
    };
    check_same(&rt, &source.tally(), &tally);
    check_read(&rt, rt.alloc(), &mut memory, b"lines\n")
}

#[test]
fn reads_up_to_the_limit(rt: HostRuntime) -> Result<(), Fail> {
    let zeros = vec![in rt.alloc(); 0u8; INPUT_LIMIT]?;
    let text = read_all(rt.alloc(), &mut MemorySource::new(&zeros))?;
    check_same(&rt, &text.len(), &4_194_304);
    Ok(())
}

// 64 bytes at a time the read that passes the limit is the last one.
#[test]
fn stops_after_the_limit(rt: HostRuntime) -> Result<(), Fail> {
    let zeros = vec![in rt.alloc(); 0u8; INPUT_LIMIT + 3]?;
    let mut source = MemorySource::in_pieces(&zeros, 64);
    let fault = read_all(rt.alloc(), &mut source).err();
    let calls = source.tally().calls;
    check_same(&rt, &(fault, calls), &(Some(ReadFault::TooLong), 65_537));
    Ok(())
}

/// A read is interrupted, one gives two bytes, and one fails.
#[derive(Drop)]
struct FlakyReader {
    calls: u8,
}

impl Read for FlakyReader {
    fn read(&mut self, buffer: &mut [u8]) -> io::Result<usize> {
        self.calls = self.calls.saturating_add(1);
        match self.calls {
            1 => Err(ErrorKind::Interrupted.into()),
            2 => (&mut b"ab".as_slice()).read(buffer),
            _ => Err(ErrorKind::BrokenPipe.into()),
        }
    }
}

#[test]
fn reads_from_a_reader(rt: HostRuntime) -> Result<(), Fail> {
    check_read(&rt, rt.alloc(), &mut ReaderSource::new(TEXT), TEXT)
}

#[test]
fn reads_from_a_reader_until_it_fails(rt: HostRuntime) {
    let mut source = ReaderSource::new(FlakyReader { calls: 0 });
    check_holds(&rt, is_unreadable(rt.alloc(), &mut source));
    let tally = Tally {
        calls: 3,
        failed: 1,
        again: 1,
        ..NO_CALLS
    };
    check_same(&rt, &source.tally(), &tally);
}
