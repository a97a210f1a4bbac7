//! The file that has the best schedule so far.

ghost use Rattle.std.specs.Prelude.{◌≡◌, IfOk, OnErr, OnOk, option_map};
ghost use Rattle.std.specs.Path.{path_buf_bytes};
ghost use Rattle.std.specs.Io.KnownBytes.{Appends};
ghost use Rattle.byte_streams.specs.Sending.{AppendsPrefix};
ghost use Rattle.board_texts.specs.SearchText.{improved_text};
ghost use Rattle.cli.specs.FoundFile.{beside};

use board_texts::write_improved;
use byte_streams::{BufferedSink, Sink, WriteFault, WriterSink};
use fixture_board::Board;
use std::alloc::{AllocError, Global};
use std::fs::{File, OpenFile};
use std::io::ErrorKind;
use std::path::{Path, PathBuf};
use std::rt::Files;
use std::{fs, io};

/// How many names beside a file are tried. A run that writes at the same time has one, and one that was killed may have left one.
const MOST_BESIDE: u32 = 1_000;

/// A file that has the best schedule so far, and is whole at any time: the next text is written in a new file beside it, which takes its
/// place once it is on the disk.
#[derive(Drop)]
pub(crate) struct FoundFile<'a, R> {
    files: &'a R,
    alloc: Global,
    /// Its name or, if that is a link, where the link leads.
    name: String,
    /// Whether the history that leads to the schedule stands before it.
    history: bool,
}

impl<'a, R: Files> FoundFile<'a, R> {
    /// Such a file, if one can be written there. What stands there stays for now.
    pub(crate) fn new(files: &'a R, alloc: Global, name: &str, history: bool) -> io::Result<Self> {
        if is_no_file(files, name) || name.ends_with('/') || name.ends_with("/.") {
            return Err(io::Error::from(ErrorKind::AlreadyExists));
        }
        let name = end_of_links(files, alloc, name)?;
        let (beside, file) = new_beside(files, alloc, name.as_str())?;
        drop(file);
        fs::remove_file(files, &beside)?;
        Ok(FoundFile {
            files,
            alloc,
            name,
            history,
        })
    }

    /// Has the file have the board's best schedule. If that fails it has what it had.
    pub(crate) fn put(&self, board: &Board) -> io::Result<()> {
        let (beside, file) = new_beside(self.files, self.alloc, self.name.as_str())?;
        let outcome = self.replace(&beside, file, board);
        if outcome.is_err() {
            // what is left beside it is of no use, and may be what the disk is full of
            let _ = fs::remove_file(self.files, &beside);
        }
        outcome
    }

    fn replace(&self, beside: &PathBuf, mut file: R::File, board: &Board) -> io::Result<()> {
        if write_end(&mut WriterSink::new(&mut file), board, self.history).is_err() {
            return Err(io::Error::from(ErrorKind::WriteZero));
        }
        file.sync_all()?;
        fs::rename(self.files, beside, self.name.as_str())
    }
}

/// Whether something stands there that is no file, as a folder or a device.
fn is_no_file(files: &impl Files, name: &str) -> bool {
    match fs::metadata(files, name) {
        Ok(found) => !found.is_file(),
        Err(_) => false,
    }
}

/// Where the name leads, if it is that of a link.
fn end_of_links(files: &impl Files, alloc: Global, name: &str) -> io::Result<String> {
    match fs::symlink_metadata(files, name) {
        Ok(found) if found.is_symlink() => Ok(files.canonicalize(alloc, name)?.into_string()),
        _ => Ok(String::from_str(alloc, name)?),
    }
}

/// A new file beside the one of this name, and how it is called. What stands there is another's, and stays.
fn new_beside<R: Files>(files: &R, alloc: Global, name: &str) -> io::Result<(PathBuf, R::File)> {
    for number in 0..MOST_BESIDE {
        let Some(beside) = beside(alloc, name, number)? else {
            break;
        };
        match File::create_new(files, &beside) {
            Ok(file) => return Ok((beside, file)),
            Err(error) if error.kind() == ErrorKind::AlreadyExists => {}
            Err(error) => return Err(error),
        }
    }
    Err(io::Error::from(ErrorKind::InvalidFilename))
}

/// The hidden name with this number that goes with a file's name, in the same folder.
fn beside(alloc: Global, name: &str, number: u32) -> Result<Option<PathBuf>, AllocError>
    ensures { IfOk result (λ found. option_map path_buf_bytes found ≡ beside name.now number) }
{
    let path = Path::new(name);
    let Some(last) = path.file_name() else {
        return Ok(None);
    };
    let hidden = format!(in alloc; ".{last}.ttp-{number}")?;
    Ok(Some(path.with_file_name(alloc, hidden.as_str())?))
}

/// Writes the end of an improvement in which the board's history leads, with that history if it is wanted.
fn write_end<W: Sink>(sink: &mut W, board: &Board, history: bool) -> Result<(), WriteFault>
    ensures ok { OnOk result (Appends (W.held sink.old) (W.held sink.new) (improved_text history board.now.league board.now.history)) }
    ensures prefix { OnErr result (AppendsPrefix (W.held sink.old) (W.held sink.new)
        (improved_text history board.now.league board.now.history)) }
{
    let mut out = BufferedSink::new(sink);
    write_improved(&mut out, board, history)?;
    out.flush()
}
