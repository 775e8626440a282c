//! The program's system, which notes why a file can't be used when that is seen.

ghost use Rattle.std.specs.Prelude.{◌≡◌, option_map};
ghost use Rattle.jc_render.specs.Explanations.{noted_fault};

use crate::cause::Cause;
use crate::noting::MOST;
use jc_command_shared::{Host, System};
use jc_database::{Databases, FailedOpen, OpenFromFiles};
use jc_sequences::Fault;
use sqlite::{Connection, Error, ErrorCode};
use std::alloc::Global;
use std::cell::Cell;
use std::fs::{File, Metadata};
use std::io;
use std::io::ErrorKind;
use std::os::unix::fs::MetadataExt;
use std::path::PathBuf;

/// A file, and why it can't be used if it turns out that it can't.
#[derive(Drop)]
pub(crate) struct Noted {
    pub(crate) path: String,
    pub(crate) cause: Cause,
}

/// What was seen of files while a command ran.
#[derive(Drop)]
pub(crate) struct Seen {
    /// Of those that were asked for, the latest first.
    pub(crate) files: Vec<Noted>,
    /// Of the notes of sequences: what failed last.
    pub(crate) notes: Option<Noted>,
}

/// The program's system. It notes of files that can't be opened, and of databases, what is seen of them.
#[derive(Drop)]
pub(crate) struct Witness<'a> {
    host: Host<'a>,
    notes: Cell<Vec<Noted>>,
}

impl<'a> Witness<'a> {
    pub(crate) fn new(rt: &'a HostRuntime) -> Witness<'a> {
        Witness {
            host: Host::new(rt),
            notes: Cell::new(Vec::new(rt.alloc())),
        }
    }

    /// What is noted, beside what failed last of the notes of sequences.
    pub(crate) fn into_seen(self, fault: Option<Fault>) -> Seen
        ensures { result.notes ≡ option_map noted_fault fault }
    {
        let notes = match fault {
            Some(Fault { path, kind }) => Some(Noted {
                path,
                cause: Cause::of_fault(kind),
            }),
            None => None,
        };
        Seen {
            files: self.take_notes(),
            notes,
        }
    }

    fn take_notes(&self) -> Vec<Noted> {
        self.notes.replace(Vec::new(self.alloc()))
    }

    /// Notes this of a file, as far as there is memory.
    fn note(&self, path: &str, cause: Cause) {
        let mut notes = self.take_notes();
        notes.truncate(MOST - 1);
        if let Ok(path) = String::from_str(self.alloc(), path) {
            let _ = notes.insert(0, Noted { path, cause });
        }
        self.notes.set(notes);
    }

    /// Why the database at `path` isn't opened. Where SQLite doesn't say it, the file does.
    fn cause_of_closed(&self, path: &str, error: &Error) -> Cause {
        let found = self.host.metadata(path);
        match (error, &found) {
            (Error::SqliteFailure(ErrorCode::DatabaseBusy), _) => Cause::InUse,
            (Error::SqliteFailure(ErrorCode::NotADatabase | ErrorCode::DatabaseCorrupt), _) => {
                Cause::NotDatabase
            }
            (_, Err(error)) if error.kind() == ErrorKind::NotFound => Cause::Unmade,
            // What is no regular file isn't opened: a pipe would wait for a writer.
            (_, Ok(file)) if file.is_file() => match self.host.open(path) {
                Ok(_) => cause_of(&found),
                Err(error) => cause_of_kind(error.kind()),
            },
            _ => cause_of(&found),
        }
    }
}

impl<'a> System for Witness<'a> {
    ghost use Rattle.std.specs.Prelude.{None};

    type File = File;

    type NewFile = File;

    ghost deeds = { λ _. None };

    fn alloc(&self) -> Global {
        self.host.alloc()
    }

    fn open(&self, path: &str) -> io::Result<File> {
        let opened = self.host.open(path);
        if let Err(error) = &opened {
            self.note(path, cause_of_kind(error.kind()));
        }
        opened
    }

    fn metadata(&self, path: &str) -> io::Result<Metadata> {
        let found = self.host.metadata(path);
        let cause = match &found {
            Ok(file) if file.is_file() && file.len() <= 1 => Cause::Empty,
            _ => cause_of(&found),
        };
        self.note(path, cause);
        found
    }

    fn canonicalize(&self, path: &str) -> io::Result<PathBuf> {
        self.host.canonicalize(path)
    }

    fn create(&mut self, path: &str) -> io::Result<File> {
        self.host.create(path)
    }

    fn rename(&mut self, file: &File, from: &str, to: &str) -> io::Result<()> {
        self.host.rename(file, from, to)
    }

    fn remove_file(&mut self, path: &str) -> io::Result<()> {
        self.host.remove_file(path)
    }
}

impl<'a> Databases for Witness<'a> {
    fn open_database<F: OpenFromFiles>(
        &mut self,
        path: &str,
        start: F::Start,
    ) -> Result<Connection<F>, FailedOpen<F::Left>> {
        let opened = self.host.open_database::<F>(path, start);
        let cause = match &opened {
            Ok(_) => Cause::NoTables,
            Err(failed) => self.cause_of_closed(path, &failed.error),
        };
        self.note(path, cause);
        opened
    }
}

/// Why a file of which the system says this can't be used as a database.
fn cause_of(found: &io::Result<Metadata>) -> Cause {
    match found {
        Err(error) => cause_of_kind(error.kind()),
        Ok(file) if file.is_dir() => Cause::Folder,
        Ok(file) if !file.is_file() => Cause::NotRegular,
        Ok(file) if file.nlink() != 1 => Cause::SecondName,
        Ok(_) => Cause::Unusable,
    }
}

/// Why a file can't be used about which the system answers such an error.
fn cause_of_kind(kind: ErrorKind) -> Cause {
    match kind {
        ErrorKind::NotFound | ErrorKind::NotADirectory => Cause::Missing,
        ErrorKind::PermissionDenied => Cause::Unreadable,
        _ => Cause::Unknown,
    }
}
