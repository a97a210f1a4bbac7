//! Which of the files that words name are one, whatever they are called: by what the file system has under their names.

ghost use Rattle.std.specs.Prelude.{◌≡◌};
ghost use Rattle.options.specs.FileClash.{same_file_words, words_of_same};
ghost use Rattle.options.specs.Files.{files_of};
ghost use Rattle.cli.specs.SameFile.{first_clash, is_one, is_one_node, name_as};

use crate::texts_read::{INPUT, name_in, name_or_input};
use options::{FileRole, FileWords, SameFile};
use std::fs;
use std::fs::Metadata;
use std::io::ErrorKind;
use std::os::unix::fs::MetadataExt;
use std::path::Path;
use std::rt::Files;

/// The file that is standard input.
const INPUT_FILE: &str = "/dev/stdin";

/// A file or a folder, as the system numbers it.
#[derive(Clone, Copy)]
struct Node {
    device: u64,
    number: u64,
}

/// What a word names.
#[derive(Clone, Copy)]
enum Identity<'a> {
    /// A file that is there.
    Present(Node),
    /// None yet: a name in a folder.
    Absent(Node, &'a str),
    /// Nothing that a write could lose: no word, or a device, a pipe or a terminal; or what can't be looked up, and so can't be opened.
    Apart,
}

/// What the words name whose files are read or written.
#[derive(Clone, Copy)]
struct Identities<'a> {
    league: Identity<'a>,
    from: Identity<'a>,
    output: Identity<'a>,
    log: Identity<'a>,
}

/// Two words that name one file, though it can't be both.
#[derive(Clone, Copy)]
struct Clash {
    /// As which it is to be written.
    written: FileRole,
    other: FileRole,
}

/// The first two words that name one file, though it can't be both, as the file system has it now.
pub(crate) fn same_file<'a>(files: &impl Files, words: &'a FileWords) -> Option<SameFile<'a>> {
    if words.output.is_none() && words.log.is_none() {
        return None;
    }
    let clash = first_clash(Identities {
        league: identity_of(files, Some(name_or_input(&words.league))),
        from: identity_of(files, name_in(&words.from)),
        output: identity_of(files, name_in(&words.output)),
        log: identity_of(files, name_in(&words.log)),
    });
    match clash {
        Some(clash) => Some(told(words, clash)),
        None => None,
    }
}

/// A file that is to be written can't be one that is read, but for the best schedule in place of that at which boards begin, and one
/// can't be both of those.
fn first_clash(named: Identities<'_>) -> Option<Clash>
    ensures { result ≡ first_clash named.entry }
{
    let (written, other) = if is_one(named.output, named.league) {
        (FileRole::Output, FileRole::League)
    } else if is_one(named.log, named.league) {
        (FileRole::Log, FileRole::League)
    } else if is_one(named.log, named.from) {
        (FileRole::Log, FileRole::From)
    } else if is_one(named.log, named.output) {
        (FileRole::Log, FileRole::Output)
    } else {
        return None;
    };
    Some(Clash { written, other })
}

/// Whether both are one file, or would be if each were made.
fn is_one(named: Identity<'_>, other: Identity<'_>) -> bool
    ensures { result ≡ is_one named.entry other.entry }
{
    match (named, other) {
        (Identity::Present(node), Identity::Present(other)) => is_one_node(node, other),
        (Identity::Absent(folder, name), Identity::Absent(other, other_name)) => {
            is_one_node(folder, other) && name == other_name
        }
        _ => false,
    }
}

fn is_one_node(node: Node, other: Node) -> bool
    ensures { result ≡ is_one_node node other }
{
    node.device == other.device && node.number == other.number
}

/// The two words with their names.
fn told(words: &FileWords, clash: Clash) -> SameFile<'_>
    ensures { same_file_words result ≡ words_of_same clash.written (name_as clash.written (files_of words.now)) clash.other
        (name_as clash.other (files_of words.now)) }
{
    SameFile {
        role: clash.written,
        name: name_as(words, clash.written),
        other: clash.other,
        other_name: name_as(words, clash.other),
    }
}

/// The name by this word, or that of standard input.
fn name_as(words: &FileWords, role: FileRole) -> &str
    ensures { result.now ≡ name_as role (files_of words.now) }
{
    name_or_input(match role {
        FileRole::League => &words.league,
        FileRole::From => &words.from,
        FileRole::Output => &words.output,
        FileRole::Log => &words.log,
    })
}

fn identity_of<'a>(files: &impl Files, name: Option<&'a str>) -> Identity<'a> {
    let Some(name) = name else {
        return Identity::Apart;
    };
    let path = if name == INPUT { INPUT_FILE } else { name };
    match fs::metadata(files, path) {
        Ok(found) if found.is_file() => Identity::Present(node_of(&found)),
        Err(error) if error.kind() == ErrorKind::NotFound => absent(files, path),
        _ => Identity::Apart,
    }
}

fn absent<'a>(files: &impl Files, path: &'a str) -> Identity<'a> {
    let path = Path::new(path);
    let (Some(folder), Some(name)) = (path.parent(), path.file_name()) else {
        return Identity::Apart;
    };
    let folder = match folder.as_str() {
        "" => ".",
        folder => folder,
    };
    match fs::metadata(files, folder) {
        Ok(found) => Identity::Absent(node_of(&found), name),
        Err(_) => Identity::Apart,
    }
}

fn node_of(found: &Metadata) -> Node {
    Node {
        device: found.dev(),
        number: found.ino(),
    }
}
