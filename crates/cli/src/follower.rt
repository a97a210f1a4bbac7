//! The files that follow an improvement.

ghost use Rattle.std.specs.Prelude.{◌≡◌, ◌||◌, true, OnErr, OnOk};
ghost use Rattle.cli.specs.Followed.{has_failed, IsLogged};

use crate::found_file::FoundFile;
use crate::leg_log::LegLog;
use crate::told::tell_unwritten;
use byte_streams::WriterSink;
use commands::{LegEnded, Sink, Watcher, Written};
use fixture_board::Board;
use options::FileWords;
use std::alloc::Global;
use std::fs::File;
use std::io::Eprint;
use std::rt::Files;
use std::time::Clock;
use std::{fs, io};

/// Has files follow an improvement: one has the best schedule so far, the other a line for each leg. One that can't be written is named on
/// standard error, once. It is tried again with the next text, and the improvement goes on.
#[derive(Drop)]
pub struct Follower<'a, R: Files> {
    rt: &'a R,
    found: Option<Followed<'a, FoundFile<'a, R>>>,
    log: Option<Followed<'a, LegLog<'a, R, R::File>>>,
}

/// A file that can't be written.
#[derive(Drop)]
pub struct Unwritten<'a> {
    /// Its name.
    pub name: &'a str,
    pub why: io::Error,
}

/// A file, and what is known of it.
#[derive(Drop)]
struct Followed<'a, F> {
    name: &'a str,
    file: F,
    /// Whether the file ever couldn't be written.
    failed: bool,
}

impl<'a, R: Files + Clock + Eprint> Follower<'a, R> {
    /// The files that the words name, each of which can be written. The log is a new file. The best schedule has the history that leads to
    /// it if that is wanted.
    pub fn new(
        rt: &'a R,
        alloc: Global,
        words: &'a FileWords,
        history: bool,
    ) -> Result<Self, Unwritten<'a>> {
        let found = match &words.output {
            Some(name) => Some(opened(name, FoundFile::new(rt, alloc, name, history))?),
            None => None,
        };
        let log = match &words.log {
            Some(name) => Some(opened(name, new_log(rt, name))?),
            None => None,
        };
        Ok(Follower { rt, found, log })
    }

    /// Whether a file ever couldn't be written.
    pub fn has_failed(&self) -> bool
        ensures { result ≡ (has_failed self.now.found || has_failed self.now.log) }
    {
        has_failed(&self.found) || has_failed(&self.log)
    }
}

/// A log in the file of this name, which is emptied if it is there. A name that leads nowhere, as a link's may, isn't followed.
fn new_log<'a, R: Files + Clock>(rt: &'a R, name: &str) -> io::Result<LegLog<'a, R, R::File>> {
    let file = if fs::exists(rt, name)? {
        fs::create(rt, name)?
    } else {
        File::create_new(rt, name)?
    };
    LegLog::new(rt, file)
}

fn opened<F>(name: &str, file: io::Result<F>) -> Result<Followed<'_, F>, Unwritten<'_>> {
    match file {
        Ok(file) => Ok(Followed {
            name,
            file,
            failed: false,
        }),
        Err(why) => Err(Unwritten { name, why }),
    }
}

fn has_failed<F>(followed: &Option<Followed<'_, F>>) -> bool
    ensures { result ≡ has_failed followed.now }
{
    match followed {
        Some(followed) => followed.failed,
        None => false,
    }
}

/// Adds the line of a leg to the log, if there is one.
fn log_leg<'a, R: Files + Clock + Eprint>(
    rt: &R,
    log: &mut Option<Followed<'a, LegLog<'a, R, R::File>>>,
    leg: LegEnded,
)
    ensures { IsLogged ⟦<WriterSink<'a, R::File> as Sink>⟧.held leg log.old log.new }
{
    if let Some(log) = log {
        let outcome = log.file.add(leg);
        log.note(rt, outcome);
    }
}

impl<F> Followed<'_, F> {
    /// Notes how a write ended, and names the file if it is the first one that failed.
    fn note(&mut self, rt: &impl Eprint, outcome: io::Result<()>)
        ensures failed { OnErr outcome (self.new.failed ≡ true) }
        ensures same { OnOk outcome (self.new.failed ≡ self.old.failed) }
        ensures file { self.new.file ≡ self.old.file }
    {
        if let Err(why) = outcome {
            if !self.failed {
                tell_unwritten(rt, self.name, &why);
            }
            self.failed = true;
        }
    }
}

impl<'a, R: Files + Clock + Eprint, W: Sink> Watcher<W> for Follower<'a, R> {
    // whatever was written to the sink, and a file that couldn't be written once stays so
    fn leg_ended(&mut self, leg: LegEnded, better: Option<&Board>, _written: Written<'_, '_, W>)
        ensures found { has_failed self.old.found ≡ true → has_failed self.new.found ≡ true }
        ensures log { has_failed self.old.log ≡ true → has_failed self.new.log ≡ true }
        ensures logged { IsLogged ⟦<WriterSink<'a, R::File> as Sink>⟧.held leg self.old.log self.new.log }
    {
        log_leg(self.rt, &mut self.log, leg);
        let Some(board) = better else {
            return;
        };
        if let Some(found) = &mut self.found {
            let outcome = found.file.put(board);
            found.note(self.rt, outcome);
        }
    }
}
