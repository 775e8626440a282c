//! What is wrong with an upload, and where.

ghost use Rattle.std.specs.Prelude.{◌≡◌, Some, decimal};
ghost use Rattle.jc_base.specs.Fault.{number_of};

use std::fmt;

/// What is wrong, and with what. The comments name the numbers that answer lines and messages carry. (own)
#[derive(Clone, Copy, Debug, PartialEq, Eq)]
pub enum Code {
    /// 1: an upload has fewer bytes than a header.
    ShortHeader = 1,
    /// 2: an upload doesn't begin with the magic bytes.
    BadMagic = 2,
    /// 3: an upload's kind is unknown.
    BadKind = 3,
    /// 4: reserved bytes of an upload's header aren't as they have to be.
    BadReserved = 4,
    /// 5: an upload that is to be whole doesn't have as many entries as its header says, or ends within one.
    Incomplete = 5,
    /// 10: a field begins with `=`.
    EmptyName = 10,
    /// 11: a name is longer than the limit.
    NameTooLong = 11,
    /// 12: a value is longer than the limit.
    ValueTooLong = 12,
    /// 13: the byte after a binary value isn't a newline.
    MissingNewline = 13,
    /// 14: an entry has more fields than the limit.
    TooManyFields = 14,
    /// 15: an entry's names and values have more bytes than the limit.
    EntryTooLong = 15,
    /// 20: a known metadata name stands twice.
    DuplicateMeta = 20,
    /// 21: there is no `__REALTIME_TIMESTAMP`.
    NoRealtime = 21,
    /// 22: there is no `__MONOTONIC_TIMESTAMP`.
    NoMonotonic = 22,
    /// 23: there is no `__SEQNUM`.
    NoSeqnum = 23,
    /// 24: there is no `__SEQNUM_ID`.
    NoSeqnumId = 24,
    /// 25: a number is malformed, or over 2^63 - 1.
    BadNumber = 25,
    /// 26: the sequence id isn't 32 hexadecimal digits.
    BadId = 26,
    /// 27: the sequence number is 0.
    ZeroSeqnum = 27,
    /// 30: a journal file has fewer bytes than a header.
    FileShort = 30,
    /// 31: a journal file doesn't begin with its signature.
    BadSignature = 31,
    /// 32: a journal file's header size is too small or no multiple of 8.
    BadHeaderSize = 32,
    /// 33: a journal file has compressed objects.
    Compressed = 33,
    /// 34: a journal file is in the compact layout.
    Compact = 34,
    /// 35: a journal file has an unknown incompatible flag.
    UnknownIncompatible = 35,
    /// 36: a journal file is sealed.
    Sealed = 36,
    /// 37: a journal file's state is unknown.
    BadState = 37,
    /// 38: a journal file ends before its arena does.
    Truncated = 38,
    /// 39: a journal file's arena has no room for its number of entries.
    TooManyEntries = 39,
    /// 40: the chain of entry arrays ends before the last entry.
    ChainEnds = 40,
    /// 41: an offset isn't that of an object in the arena.
    BadOffset = 41,
    /// 42: an object has another type than its place asks for.
    BadType = 42,
    /// 43: an object's size doesn't fit its type or the arena.
    BadSize = 43,
    /// 44: an entry array begins before the end of the one before it.
    ChainBack = 44,
    /// 45: an object's payload is compressed.
    CompressedObject = 45,
    /// 46: an object's payload isn't a name, `=` and a value.
    BadData = 46,
    /// 47: a journal file is longer than the limit.
    FileTooLong = 47,
    /// 60: an entry differs from another one under the same key.
    Conflict = 60,
    /// 61: a device failed while it was read.
    ReadFailed = 61,
    /// 62: the store failed.
    StoreFailed = 62,
    /// 63: memory was refused.
    OutOfMemory = 63,
    /// 64: a database has no journal of this version.
    NotAJournal = 64,
    /// 65: a row of a database doesn't read as an entry.
    BadRow = 65,
    /// 66: a device failed while it was written.
    WriteFailed = 66,
    /// 67: a database has a journal of an older version.
    OldSchema = 67,
    /// 70: a source's entries no longer go on from the resume point.
    SourceChanged = 70,
    /// 71: an entry's sequence belongs to another machine.
    NotTheOwner = 71,
}

impl Code {
    /// The number that answer lines and messages carry.
    pub fn number(self) -> u16
        ensures { result ≡ number_of self }
    {
        self as u16
    }
}

impl fmt::Display for Code {
    ghost output = { λ code. Some (decimal (number_of code)) };

    fn fmt<W: fmt::Write>(&self, f: &mut fmt::Formatter<W>) -> fmt::Result {
        write!(f, "{}", self.number())
    }
}

/// A fault and its place. What the place counts, bytes, fields or entries, depends on what reports the fault.
#[derive(Clone, Copy, Debug, PartialEq, Eq)]
pub struct Fault {
    pub code: Code,
    pub place: u64,
}

/// How a source of entries ends.
#[derive(Clone, Copy, Debug, PartialEq, Eq)]
pub enum Ending {
    /// Without a fault. The last `left` bytes are an unfinished entry.
    End { left: u64 },
    Bad(Fault),
}
