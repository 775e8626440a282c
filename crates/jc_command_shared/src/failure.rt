//! Why a command stops short, and the line that says so.

ghost use Rattle.std.specs.Prelude.{◌≡◌, Some};
ghost use Rattle.jc_command_shared.specs.Failure.{status_of, stop_failure, upload_failure, line_of};
ghost use Rattle.jc_command_shared.specs.declared.failure.Failure.TheVariants.{OutOfMemory};

use crate::{Errors, Status};
use jc_base::{Code, Fault, OutOfMemory, Stop};
use jc_upload::UploadFault;
use std::alloc::{AllocError, AllocFailed};
use std::fmt;

/// Why a command stops short. Its text is one line on standard error. (own)
#[derive(Debug, Drop)]
pub enum Failure<'a> {
    /// A source's bytes have a fault, or a database has, with the number of a row, from 0, as its place.
    Bad(Fault),
    /// A source's entries no longer go on from its resume point.
    SourceChanged,
    /// A resume file has something else in it than a resume point's text.
    BadResume,
    /// The line with this number, from 1, isn't an answer.
    BadAnswer(u64),
    /// The line with this number, from 1, isn't one that a command reads.
    BadLine(u64),
    /// An id isn't 32 hexadecimal digits.
    BadId,
    /// No entry has a field of this name.
    BadFieldName,
    /// A database's name begins with `:` or with `file:`.
    BadDatabaseName,
    /// A file that is to get an export would take the place of the database or of its log.
    BadExportName,
    /// A file isn't an upload of the kind that is asked about.
    BadUpload,
    /// The file with this path can't be opened.
    CannotOpen(&'a str),
    /// A file failed while it was read.
    ReadFailed,
    /// Standard output failed while it was written.
    WriteFailed,
    /// A database failed while it was read or written.
    StoreFailed,
    /// Memory was refused.
    OutOfMemory,
    /// An argument isn't UTF-8.
    WordsAreNoText,
}

impl Failure<'_> {
    pub fn status(&self) -> Status
        ensures { result ≡ status_of self.now }
    {
        match self {
            Failure::Bad(_) | Failure::SourceChanged => Status::Refused,
            Failure::BadResume | Failure::BadAnswer(_) | Failure::BadLine(_) => Status::Refused,
            Failure::BadId | Failure::BadFieldName => Status::Misused,
            Failure::BadDatabaseName | Failure::BadExportName => Status::Misused,
            Failure::BadUpload | Failure::WordsAreNoText => Status::Misused,
            _ => Status::Failed,
        }
    }

    /// Tells it, and answers the status. If that fails too there is nowhere left to say it.
    pub fn report<E: Errors>(&self, errors: &mut E) -> Status
        ensures { result ≡ status_of self.now }
    {
        let _ = errors.failure(self);
        self.status()
    }
}

impl fmt::Display for Failure<'_> {
    ghost output = { λ failure. Some (line_of failure) };

    fn fmt<W: fmt::Write>(&self, f: &mut fmt::Formatter<W>) -> fmt::Result {
        match self {
            Failure::Bad(fault) => write!(f, "bad {} {}", fault.code, fault.place),
            Failure::SourceChanged => write!(f, "refused {}", Code::SourceChanged),
            Failure::BadResume => write!(f, "bad resume"),
            Failure::BadAnswer(line) => write!(f, "bad answer {line}"),
            Failure::BadLine(line) => write!(f, "bad line {line}"),
            Failure::BadId => write!(f, "bad id"),
            Failure::BadFieldName => write!(f, "bad field name"),
            Failure::BadDatabaseName => write!(f, "bad database name"),
            Failure::BadExportName => write!(f, "bad export name"),
            Failure::BadUpload => write!(f, "bad upload"),
            Failure::CannotOpen(path) => write!(f, "cannot open {path}"),
            Failure::ReadFailed => write!(f, "read failed"),
            Failure::WriteFailed => write!(f, "write failed"),
            Failure::StoreFailed => write!(f, "store failed"),
            Failure::OutOfMemory => write!(f, "out of memory"),
            Failure::WordsAreNoText => write!(f, "error: an argument is not UTF-8 text"),
        }
    }
}

impl From<OutOfMemory> for Failure<'_> {
    ghost from_gives = { λ _ failure. failure ≡ OutOfMemory };

    fn from(_refused: OutOfMemory) -> Self {
        Failure::OutOfMemory
    }
}

impl From<AllocError> for Failure<'_> {
    ghost from_gives = { λ _ failure. failure ≡ OutOfMemory };

    fn from(_refused: AllocError) -> Self {
        Failure::OutOfMemory
    }
}

impl<T: Drop> From<AllocFailed<T>> for Failure<'_> {
    ghost from_gives = { λ _ failure. failure ≡ OutOfMemory };

    fn from(_refused: AllocFailed<T>) -> Self {
        Failure::OutOfMemory
    }
}

impl From<Stop> for Failure<'_> {
    ghost from_gives = { λ stop failure. failure ≡ stop_failure stop };

    fn from(stop: Stop) -> Self {
        match stop {
            Stop::ReadFailed => Failure::ReadFailed,
            Stop::OutOfMemory => Failure::OutOfMemory,
        }
    }
}

impl From<UploadFault> for Failure<'_> {
    ghost from_gives = { λ fault failure. failure ≡ upload_failure fault };

    fn from(fault: UploadFault) -> Self {
        match fault {
            UploadFault::SourceChanged => Failure::SourceChanged,
            UploadFault::OutOfMemory => Failure::OutOfMemory,
        }
    }
}
