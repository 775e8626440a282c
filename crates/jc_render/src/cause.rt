//! Why a file can't be used, and what to do about failures.

ghost use Rattle.std.specs.Prelude.{◌≡◌};
ghost use Rattle.jc_render.specs.Texts.{advice_of, fault_cause, text_of};

use jc_command_shared::Failure;
use std::io::ErrorKind;

/// Why a file can't be used, and what to do about it.
#[derive(Clone, Copy)]
pub(crate) enum Cause {
    /// No file has this name, or a part of its path is no folder.
    Missing,
    /// A new database can't be made there.
    Unmade,
    Folder,
    /// It is to be a folder, or to lie in one, and something else is there.
    NotFolder,
    Unreadable,
    /// It may not be read, or not be written.
    Denied,
    /// It is a pipe, a device or a socket.
    NotRegular,
    SecondName,
    Empty,
    NotDatabase,
    /// It is a database, and has no entry's tables.
    OtherTables,
    NoTables,
    InUse,
    Full,
    ReadOnly,
    /// It is no regular file, or has a second name.
    NotPlain,
    Broken,
    /// It is a regular file that can be read, and can't be opened as a database.
    Unusable,
    Unknown,
}

impl Cause {
    /// Why a file of notes, or their folder, failed with an error of this kind.
    pub(crate) fn of_fault(kind: ErrorKind) -> Cause
        ensures { result ≡ fault_cause kind }
    {
        match kind {
            ErrorKind::NotFound => Cause::Missing,
            ErrorKind::NotADirectory => Cause::NotFolder,
            ErrorKind::PermissionDenied => Cause::Denied,
            ErrorKind::WouldBlock | ErrorKind::ResourceBusy | ErrorKind::AlreadyExists => {
                Cause::InUse
            }
            ErrorKind::StorageFull | ErrorKind::QuotaExceeded => Cause::Full,
            ErrorKind::ReadOnlyFilesystem => Cause::ReadOnly,
            ErrorKind::IsADirectory | ErrorKind::Unsupported => Cause::NotPlain,
            _ => Cause::Broken,
        }
    }

    /// What stands behind the file's name.
    pub(crate) fn text(self) -> &'static str
        ensures { result.now ≡ text_of self }
    {
        match self {
            Cause::Missing => "is missing: look at its name, and at the folders of its path",
            Cause::Unmade => {
                "is missing, and can't be made: see whether its folder is there, who may write in it, and whether the disk is read-only"
            }
            Cause::Folder => "is a folder: name a file",
            Cause::NotFolder => {
                "is to be a folder, or to lie in one, and something else is there: look at its path"
            }
            Cause::Unreadable => {
                "may not be read by this user: see the rights of the file and of its folders"
            }
            Cause::Denied => {
                "may not be read or written by this user: see its rights and those of its folders"
            }
            Cause::NotRegular => "is not a regular file: write what it gives into one first",
            Cause::SecondName => {
                "has a second name (a hard link), under which it could be changed: use a copy"
            }
            Cause::Empty => "is empty: a database is made by `collect`",
            Cause::NotDatabase => "is no SQLite database, or a damaged one: look at its name",
            Cause::OtherTables => {
                "is an SQLite database with other tables than are asked for: see the guide on code 64"
            }
            Cause::NoTables => "is a database without tables: `collect` makes them",
            Cause::InUse => "is in use by another program: wait until that one has ended",
            Cause::Full => "has no more room: look at the space on its disk",
            Cause::ReadOnly => "can't be written, since its disk is read-only: look at its mount",
            Cause::NotPlain => "is no regular file with one name: put back the one that was there",
            Cause::Broken => {
                "failed: look at its disk, and whether the process has too many files open"
            }
            Cause::Unusable => {
                "can't be opened to be written: see its rights, those of its folder and of its log, and whether SQLite's rollback journal lies beside it, which sqlite3 plays back"
            }
            Cause::Unknown => {
                "can't be opened: look at its path, and whether the process has too many files open"
            }
        }
    }
}

/// What a failure means, and what to do about it; nothing where a code says it.
pub(crate) fn advice(failure: &Failure<'_>) -> &'static str
    ensures { result.now ≡ advice_of failure.now }
{
    match failure {
        Failure::BadResume => {
            "the resume file has something else in it: remove it and take a new id"
        }
        Failure::BadAnswer(_) => {
            "this line of standard input is no answer: give `ack` what `collect` printed"
        }
        Failure::BadLine(_) => {
            "this line of standard input isn't one that the command reads: see its manual page"
        }
        Failure::BadUpload => {
            "the file is no whole upload of an export stream: name one that `upload --whole` made"
        }
        Failure::BadId => "an id is 32 hexadecimal digits: write it without dashes",
        Failure::BadFieldName => {
            "a field's name has no `=` and no newline in it, and does not begin with `__`"
        }
        Failure::BadDatabaseName => {
            "SQLite takes a name that begins with `:` or `file:` for something else: write `./` in front of it"
        }
        Failure::BadExportName => {
            "the export would take the place of the database or of its log: choose another name"
        }
        Failure::CannotOpen(_) => "the file can't be opened",
        Failure::ReadFailed =>
            "a file or standard input gave no more bytes: is it a folder, or does its disk fail?",
        Failure::WriteFailed => {
            "standard output or a file took no more bytes: is the disk full, or was a pipe closed?"
        }
        Failure::StoreFailed => {
            "the database failed while it was read or written: look at the space on its disk, and at the disk"
        }
        Failure::OutOfMemory => {
            "memory was refused: give the command more, or begin another database"
        }
        _ => "",
    }
}
