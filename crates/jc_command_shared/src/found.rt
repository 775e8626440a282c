//! What a command found.

ghost use Rattle.std.specs.Prelude.{◌≡◌, ◌⊎◌, Some};
ghost use Rattle.hex.specs.Hex.{encode_lower};
ghost use Rattle.jc_base.specs.Fault.{number_of};
ghost use Rattle.jc_command_shared.specs.Found.{found_status, found_text, last_text, reading_found, upload_text};
ghost use Rattle.jc_command_shared.specs.declared.found.Found.TheVariants.{Bad as Faulty};

use crate::Status;
use jc_base::{Ending, Fault, Id128, Key};
use std::{fmt, str};

/// What a command found. Its text is one line on standard output. (own)
#[derive(Clone, Copy)]
pub enum Found {
    /// So many entries, and how many bytes are left behind them, or how many of them aren't noted, if that is asked.
    Count { entries: u64, left: Option<u64> },
    /// What has this code is wrong at this place.
    Bad { code: u16, place: u64 },
    Upload(Upload),
}

/// What an upload has.
#[derive(Clone, Copy)]
pub struct Upload {
    pub source: Id128,
    pub start: u64,
    /// How many of its entries are complete.
    pub entries: u64,
    /// How many bytes after them are an unfinished entry.
    pub left: u64,
    /// The key of the last complete entry.
    pub last: Option<Key>,
    /// How many windows of sequences its entries are in.
    pub windows: u64,
}

impl Found {
    /// What is found by a reading of so many entries.
    pub fn by_reading(entries: u64, ending: Ending) -> Found
        ensures { result ≡ reading_found entries ending }
    {
        match ending {
            Ending::End { left } => Found::Count {
                entries,
                left: Some(left),
            },
            Ending::Bad(fault) => Found::bad(fault),
        }
    }

    pub fn bad(fault: Fault) -> Found
        ensures { result ≡ Faulty (number_of fault.code) fault.place }
    {
        Found::Bad {
            code: fault.code.number(),
            place: fault.place,
        }
    }

    pub fn status(&self) -> Status
        ensures value { result ≡ found_status self.now }
        ensures judged { (result ≡ Status.Success) ⊎ (result ≡ Status.Refused) }
    {
        match self {
            Found::Count { .. } | Found::Upload(_) => Status::Success,
            Found::Bad { .. } => Status::Refused,
        }
    }
}

impl fmt::Display for Found {
    ghost output = { λ found. Some (found_text found) };

    fn fmt<W: fmt::Write>(&self, f: &mut fmt::Formatter<W>) -> fmt::Result {
        match *self {
            Found::Count {
                entries,
                left: None,
            } => write!(f, "ok {entries}"),
            Found::Count {
                entries,
                left: Some(left),
            } => write!(f, "ok {entries} {left}"),
            Found::Bad { code, place } => write!(f, "bad {code} {place}"),
            Found::Upload(upload) => write!(f, "{upload}"),
        }
    }
}

impl fmt::Display for Upload {
    ghost output = { λ upload. Some (upload_text upload) };

    fn fmt<W: fmt::Write>(&self, f: &mut fmt::Formatter<W>) -> fmt::Result {
        let (source, last) = (Hex(self.source), Last(self.last));
        let (start, entries, left, windows) = (self.start, self.entries, self.left, self.windows);
        write!(
            f,
            "upload {source} {start} {entries} {left} {last} {windows}"
        )
    }
}

/// An id in lower-case hexadecimal digits.
#[derive(Clone, Copy)]
pub struct Hex(pub Id128);

impl fmt::Display for Hex {
    ghost output = { λ id. Some (encode_lower id.0.0) };

    fn fmt<W: fmt::Write>(&self, f: &mut fmt::Formatter<W>) -> fmt::Result {
        match str::from_utf8(&self.0.to_hex()) {
            Ok(digits) => f.write_str(digits),
            Err(_) => Err(fmt::Error),
        }
    }
}

/// The key of an upload's last entry, if it has one.
#[derive(Clone, Copy)]
struct Last(Option<Key>);

impl fmt::Display for Last {
    ghost output = { λ last. Some (last_text last.0) };

    fn fmt<W: fmt::Write>(&self, f: &mut fmt::Formatter<W>) -> fmt::Result {
        match self.0 {
            Some(Key { seqnum_id, seqnum }) => write!(f, "{} {seqnum}", Hex(seqnum_id)),
            None => write!(f, "- -"),
        }
    }
}
