//! The files that the words name, read whole.

ghost use Rattle.std.specs.Prelude.{◌≡◌, codes, option_map, string_bytes, unwrap_or};

use byte_streams::{ReadFault, ReaderSource, Source, read_all};
use options::{FileWords, Job};
use std::rt::Runtime;
use std::{fs, io};

/// The word that stands for standard input.
pub(crate) const INPUT: &str = "-";

/// The texts that a request names.
#[derive(Drop)]
pub(crate) struct TextsRead {
    /// The league's text, or an input that has the second one too.
    pub(crate) input: Vec<u8>,
    /// The script or the schedule, if it was read by itself.
    pub(crate) second: Option<Vec<u8>>,
    /// The schedule at which boards begin.
    pub(crate) from: Option<Vec<u8>>,
}

/// A text that could not be read.
#[derive(Clone, Copy)]
pub(crate) struct Unread<'a> {
    /// The file's name, or `-`.
    pub(crate) name: &'a str,
    pub(crate) why: ReadFault,
}

impl Unread<'_> {
    /// Whether standard input could not be read.
    pub(crate) fn is_input(&self) -> bool {
        self.name == INPUT
    }
}

/// Whether a text is read from standard input.
pub(crate) fn reads_input(job: Job, files: &FileWords) -> bool {
    name_or_input(&files.league) == INPUT
        || second_name(job, files) == Some(INPUT)
        || name_in(&files.from) == Some(INPUT)
}

/// Reads each file to its end, and those texts from the source that the words want from standard input.
pub(crate) fn read_texts<'a, T: Runtime + AllocGlobal, R: Source>(
    rt: &T,
    job: Job,
    files: &'a FileWords,
    source: &mut R,
) -> Result<TextsRead, Unread<'a>> {
    let input = read_text(rt, name_or_input(&files.league), source)?;
    let second = read_if_named(rt, second_name(job, files), source)?;
    let from = read_if_named(rt, name_in(&files.from), source)?;
    Ok(TextsRead {
        input,
        second,
        from,
    })
}

pub(crate) fn name_in(word: &Option<String>) -> Option<&str> {
    match word {
        Some(name) => Some(name.as_str()),
        None => None,
    }
}

pub(crate) fn name_or_input(word: &Option<String>) -> &str
    ensures { result.now ≡ unwrap_or (option_map string_bytes word.now) (codes "-") }
{
    match word {
        Some(name) => name.as_str(),
        None => INPUT,
    }
}

/// Where the script or the schedule stands by itself: in the file that was named, or on standard input if the league is in a file.
fn second_name(job: Job, files: &FileWords) -> Option<&str> {
    if !matches!(job, Job::Play { .. } | Job::Report(_)) {
        return None;
    }
    match &files.second {
        Some(name) => Some(name.as_str()),
        None if name_or_input(&files.league) == INPUT => None,
        None => Some(INPUT),
    }
}

fn read_if_named<'a, T: Runtime + AllocGlobal, R: Source>(
    rt: &T,
    name: Option<&'a str>,
    source: &mut R,
) -> Result<Option<Vec<u8>>, Unread<'a>> {
    match name {
        Some(name) => Ok(Some(read_text(rt, name, source)?)),
        None => Ok(None),
    }
}

fn read_text<'a, T: Runtime + AllocGlobal, R: Source>(
    rt: &T,
    name: &'a str,
    source: &mut R,
) -> Result<Vec<u8>, Unread<'a>> {
    let text = if name == INPUT {
        read_all(rt.alloc(), source)
    } else {
        read_file(rt, name)
    };
    match text {
        Ok(text) => Ok(text),
        Err(why) => Err(Unread { name, why }),
    }
}

fn read_file<T: Runtime + AllocGlobal>(rt: &T, name: &str) -> Result<Vec<u8>, ReadFault> {
    match fs::open(rt, name) {
        Ok(file) => read_all(rt.alloc(), &mut ReaderSource::new(file)),
        Err(error) if error.kind() == io::ErrorKind::OutOfMemory => Err(ReadFault::Memory),
        Err(_) => Err(ReadFault::Read),
    }
}
