//! Answers and texts of commands for an input: cases in tables, and the function that walks them.

use crate::tests::checks::check_same_of;
use crate::tests::samples::NAMED;
use byte_streams::{MemorySink, MemorySource, Sink};
use commands::{Format, ProgramFault, Verdict, league, play, report, start};
use std::alloc::{AllocError, Global};
use std::process::Abort;
use std::test::Fail;

/// A command that starts no thread, and what it is asked for.
#[derive(Clone, Copy, Debug)]
pub(crate) enum Command {
    Start,
    Play { room: u32 },
    Report(Format),
    League,
}

/// A report in the form of text.
pub(crate) const TEXT_REPORT: Command = Command::Report(Format::Text);

/// A play with the room that it has by default.
pub(crate) const PLAY_OF_1024: Command = Command::Play { room: 1024 };

/// The answer of a command. A report has a verdict.
pub(crate) type Answer = Result<Option<Verdict>, ProgramFault>;

/// The answer of a command that isn't a report, and wrote its text.
pub(crate) const WRITTEN: Answer = Ok(None);

impl Command {
    fn run<W: Sink>(self, alloc: Global, input: &[u8], sink: &mut W) -> Answer {
        let source = MemorySource::new(input);
        match self {
            Command::Start => start(alloc, source, sink)?,
            Command::Play { room } => play(alloc, source, sink, room)?,
            Command::Report(format) => return Ok(Some(report(alloc, source, sink, format)?)),
            Command::League => {
                league(alloc, source, sink, None, NAMED)?;
            }
        }
        Ok(None)
    }
}

/// The answer of a command, the text that it wrote, and in how many calls.
#[derive(Drop)]
pub(crate) struct Told {
    pub(crate) answer: Answer,
    pub(crate) text: Vec<u8>,
    pub(crate) calls: u64,
}

/// The answer of the command to an input of at most 200,000 bytes of text.
pub(crate) fn tell(alloc: Global, command: Command, input: &[u8]) -> Result<Told, AllocError> {
    let mut buffer = vec![in alloc; 0; 200_000]?;
    let mut sink = MemorySink::new(&mut buffer);
    let answer = command.run(alloc, input, &mut sink);
    let calls = sink.tally().calls;
    let text = Vec::from_slice(alloc, sink.held())?;
    Ok(Told {
        answer,
        text,
        calls,
    })
}

/// The text that is wanted.
#[derive(Clone, Copy, Debug)]
pub(crate) enum Text<'a> {
    /// These parts, one after another.
    Whole(&'a [&'a str]),
    /// A text that begins with the first, has the parts somewhere, and ends with the last.
    Excerpt(&'a str, &'a [&'a str], &'a str),
}

/// No text.
pub(crate) const NOTHING: Text<'_> = Text::Whole(&[]);

impl<'a> Text<'a> {
    pub(crate) fn is_told(self, text: &[u8]) -> bool {
        let Ok(text) = str::from_utf8(text) else {
            return false;
        };
        match self {
            Text::Whole(parts) => is_made_of(text, parts),
            Text::Excerpt(first, parts, last) => {
                text.starts_with(first) && missing(text, parts).is_none() && text.ends_with(last)
            }
        }
    }

    /// The parts of a text that is known whole.
    pub(crate) fn parts(self) -> &'a [&'a str] {
        match self {
            Text::Whole(parts) => parts,
            Text::Excerpt(..) => &[],
        }
    }
}

/// Whether a text is these parts, one after another.
fn is_made_of(text: &str, parts: &[&str]) -> bool {
    let mut rest = text;
    for part in parts {
        let Some(after) = rest.strip_prefix(*part) else {
            return false;
        };
        rest = after;
    }
    rest.is_empty()
}

/// The first of the parts that the text lacks.
pub(crate) fn missing<'a>(text: &str, parts: &[&'a str]) -> Option<&'a str> {
    for part in parts {
        if !text.contains(*part) {
            return Some(*part);
        }
    }
    None
}

/// A command, its input in parts, what it answers, and what it writes.
pub(crate) type Case<'a> = (Command, &'a [&'a str], Answer, Text<'a>);

pub(crate) fn check_case(rt: &impl Abort, alloc: Global, case: &Case<'_>) -> Result<(), Fail> {
    let (command, input, answer, text) = *case;
    let bytes = input.concat(alloc)?;
    let told = tell(alloc, command, bytes.as_bytes())?;
    let is_told = text.is_told(&told.text);
    // a sink that took nothing was never called
    let is_quiet = told.text.is_empty();
    let found = (told.answer, is_told, told.calls == 0);
    let about = (command, input, str::from_utf8(&told.text));
    check_same_of(rt, &about, &found, &(answer, true, is_quiet));
    Ok(())
}

pub(crate) fn check_cases(rt: &impl Abort, alloc: Global, cases: &[Case<'_>]) -> Result<(), Fail> {
    for case in cases {
        check_case(rt, alloc, case)?;
    }
    Ok(())
}
