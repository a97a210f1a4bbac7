//! A disk in memory, on which a call fails, with a clock and with what was said on standard error.

ghost use Rattle.std.specs.Prelude.{IsErr};

use std::alloc::{AllocError, Allocator, Global};
use std::cell::{Cell, RefCell};
use std::fmt::Display;
use std::fs::{Metadata, OpenFile, OpenOptions};
use std::io;
use std::io::{Eprint, ErrorKind, Read, Seek, SeekFrom, Write};
use std::rc::Rc;
use std::rt::Files;
use std::time::{Clock, Duration};

/// How many bytes a write takes at most.
const MOST_BYTES: usize = 64;

/// The file under a name, if there is one.
type Stored = RefCell<Option<Vec<u8>>>;

/// The names on a disk.
#[derive(Clone, Copy)]
enum Place {
    Best,
    /// Beside it.
    Next,
    Log,
}

fn place_of(name: &str) -> Place {
    match name {
        "best.txt" => Place::Best,
        "legs.txt" => Place::Log,
        _ => Place::Next,
    }
}

/// The files of a disk, and what became of it.
#[derive(Drop)]
struct Contents {
    alloc: Global,
    /// How many calls don't fail before one that does.
    good: u64,
    /// Whether all after it fail too.
    stops: bool,
    best: Stored,
    next: Stored,
    /// How much of what stands beside the best one would be left if the machine stopped.
    safe: Cell<usize>,
    log: Stored,
    calls: Cell<u64>,
    readings: Cell<u64>,
    said: Stored,
}

impl Contents {
    fn at(&self, place: Place) -> &Stored {
        match place {
            Place::Best => &self.best,
            Place::Next => &self.next,
            Place::Log => &self.log,
        }
    }

    /// A call of the disk, which may fail.
    fn call(&self) -> io::Result<()> {
        let before = self.calls.get();
        self.calls.set(before.saturating_add(1));
        if before == self.good || self.stops && self.good < before {
            return Err(io::Error::from(ErrorKind::StorageFull));
        }
        Ok(())
    }

    fn put(&self, place: Place, bytes: Option<Vec<u8>>) -> io::Result<()> {
        match self.at(place).try_replace(bytes) {
            Ok(_) => Ok(()),
            Err(_) => Err(io::Error::from(ErrorKind::ResourceBusy)),
        }
    }
}

fn copy_of(alloc: Global, stored: &Stored) -> Result<Option<Vec<u8>>, AllocError> {
    match stored.try_borrow() {
        Ok(stored) => match &*stored {
            Some(bytes) => Ok(Some(Vec::from_slice(alloc, bytes)?)),
            None => Ok(None),
        },
        Err(_) => Ok(None),
    }
}

fn add_to(alloc: Global, stored: &Stored, bytes: &[u8]) -> io::Result<()> {
    let Ok(mut stored) = stored.try_borrow_mut() else {
        return Err(io::Error::from(ErrorKind::ResourceBusy));
    };
    match &mut *stored {
        Some(before) => before.extend_from_slice(bytes)?,
        None => *stored = Some(Vec::from_slice(alloc, bytes)?),
    }
    Ok(())
}

/// A disk on which a call fails.
#[derive(Drop)]
pub(crate) struct Disk {
    contents: Rc<Contents>,
}

impl Disk {
    /// An empty disk on which so many calls don't fail before one that does, and if it stops all after that one.
    pub(crate) fn new(alloc: Global, good: u64, stops: bool) -> Result<Disk, AllocError> {
        let contents = Contents {
            alloc,
            good,
            stops,
            best: RefCell::new(None),
            next: RefCell::new(None),
            safe: Cell::new(0),
            log: RefCell::new(None),
            calls: Cell::new(0),
            readings: Cell::new(0),
            said: RefCell::new(None),
        };
        let contents = Rc::new(alloc, contents)?;
        Ok(Disk { contents })
    }

    /// A copy of what stands under the name.
    pub(crate) fn found(&self, name: &str) -> Result<Option<Vec<u8>>, AllocError> {
        copy_of(self.contents.alloc, self.contents.at(place_of(name)))
    }

    /// The text on standard error.
    pub(crate) fn said(&self) -> Result<Option<Vec<u8>>, AllocError> {
        copy_of(self.contents.alloc, &self.contents.said)
    }
}

/// A file that is written.
#[derive(Drop)]
pub(crate) struct DiskFile {
    contents: Rc<Contents>,
    place: Place,
    length: usize,
}

fn unsupported<T>() -> io::Result<T>
    ensures { IsErr result }
{
    Err(io::Error::from(ErrorKind::Unsupported))
}

impl Write for DiskFile {
    fn write(&mut self, piece: &[u8]) -> io::Result<usize> {
        self.contents.call()?;
        let taken = piece.len().min(MOST_BYTES);
        let (front, _rest) = piece.split_at(taken);
        add_to(self.contents.alloc, self.contents.at(self.place), front)?;
        self.length = self.length.saturating_add(taken);
        Ok(taken)
    }

    fn flush(&mut self) -> io::Result<()> {
        Ok(())
    }
}

impl Read for DiskFile {
    fn read(&mut self, _buf: &mut [u8]) -> io::Result<usize> {
        unsupported()
    }
}

impl Seek for DiskFile {
    fn seek(&mut self, _to: SeekFrom) -> io::Result<u64> {
        unsupported()
    }
}

impl OpenFile for DiskFile {
    fn metadata(&self) -> io::Result<Metadata> {
        unsupported()
    }

    fn set_len(&self, _size: u64) -> io::Result<()> {
        unsupported()
    }

    fn sync_all(&self) -> io::Result<()> {
        self.contents.call()?;
        self.contents.safe.set(self.length);
        Ok(())
    }

    fn sync_data(&self) -> io::Result<()> {
        unsupported()
    }
}

impl Files for Disk {
    type File = DiskFile;

    type Dir = &'static [u8];

    fn open_file(&self, how: &OpenOptions, path: &str) -> io::Result<DiskFile> {
        self.contents.call()?;
        if how.asks_create_new() && self.found(path)?.is_some() {
            return Err(io::Error::from(ErrorKind::AlreadyExists));
        }
        let place = place_of(path);
        self.contents
            .put(place, Some(Vec::new(self.contents.alloc)))?;
        self.contents.safe.set(0);
        Ok(DiskFile {
            contents: self.contents.clone()?,
            place,
            length: 0,
        })
    }

    fn open_dir(&self, _path: &str) -> io::Result<&'static [u8]> {
        unsupported()
    }

    fn metadata(&self, path: &str) -> io::Result<Metadata> {
        self.contents.call()?;
        match self.found(path)? {
            Some(bytes) => Ok(Metadata::of_file(bytes.len() as u64)),
            None => Err(io::Error::from(ErrorKind::NotFound)),
        }
    }

    fn symlink_metadata(&self, path: &str) -> io::Result<Metadata> {
        Files::metadata(self, path)
    }

    fn copy(&self, _from: &str, _to: &str) -> io::Result<u64> {
        unsupported()
    }

    /// Loses what isn't safe, as if the machine stopped at once.
    fn rename(&self, from: &str, to: &str) -> io::Result<()> {
        self.contents.call()?;
        let mut bytes = self.found(from)?;
        if let Some(bytes) = &mut bytes {
            bytes.truncate(self.contents.safe.get());
        }
        self.contents.put(place_of(to), bytes)?;
        self.contents.put(place_of(from), None)
    }

    fn remove_file(&self, path: &str) -> io::Result<()> {
        self.contents.call()?;
        self.contents.put(place_of(path), None)
    }

    fn create_dir(&self, _path: &str) -> io::Result<()> {
        unsupported()
    }

    fn remove_dir(&self, _path: &str) -> io::Result<()> {
        unsupported()
    }

    fn remove_dir_all<B: Allocator>(&self, _alloc: B, _path: &str) -> io::Result<()> {
        unsupported()
    }
}

/// A quarter of a second passes between two readings.
impl Clock for Disk {
    fn monotonic(&self) -> io::Result<Duration> {
        let before = self.contents.readings.get();
        self.contents.readings.set(before.saturating_add(1));
        Ok(Duration::from_millis(before.saturating_mul(250)))
    }

    fn since_1970(&self) -> io::Result<Duration> {
        Ok(Duration::ZERO)
    }
}

impl Eprint for Disk {
    fn eprint<D: Display + Drop>(&self, value: D) -> io::Result<()> {
        let text = format!(in self.contents.alloc; "{value}")?;
        add_to(self.contents.alloc, &self.contents.said, text.as_bytes())
    }

    fn eprintln<D: Display + Drop>(&self, value: D) -> io::Result<()> {
        self.eprint(value)?;
        self.eprint("\n")
    }
}
