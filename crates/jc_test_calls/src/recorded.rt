//! Spaces that keep what is asked of them.

ghost use Rattle.jc_file.specs.SpaceLaws.{nothing_known};

use crate::output::{Output, write_line};
use jc_base::ReadFailed;
use jc_file::ByteSpace;
use std::cell::Cell;

/// What was asked of a space.
#[derive(Drop)]
pub struct Asked {
    /// How many ranges.
    reads: Cell<u64>,
    /// The greatest end of a range.
    end: Cell<u64>,
    /// The bytes of all ranges that begin at a place or behind it.
    bytes: Cell<u64>,
    from: u64,
}

impl Asked {
    /// Nothing yet. Bytes will count in ranges from a place on.
    pub fn from_place(from: u64) -> Asked {
        Asked {
            reads: Cell::new(0),
            end: Cell::new(0),
            bytes: Cell::new(0),
            from,
        }
    }

    fn add(&self, place: u64, size: u64) {
        let end = place.saturating_add(size);
        self.reads.set(self.reads.get().saturating_add(1));
        self.end.set(self.end.get().max(end));
        if place >= self.from {
            self.bytes.set(self.bytes.get().saturating_add(size));
        }
    }

    pub fn reads(&self) -> u64 {
        self.reads.get()
    }

    pub fn write_to(&self, output: &mut Output) {
        write_line(output, "asked", &[self.end.get(), self.bytes.get()])
    }
}

/// The bytes of a slice, and zeros after them up to a length. No contract says which they are, so that what is known of
/// its readers holds of any space.
#[derive(Drop)]
pub struct RecordedSpace<'a> {
    bytes: &'a [u8],
    len: u64,
    asked: &'a Asked,
}

impl<'a> RecordedSpace<'a> {
    pub fn new(bytes: &'a [u8], len: u64, asked: &'a Asked) -> RecordedSpace<'a> {
        RecordedSpace { bytes, len, asked }
    }
}

impl ByteSpace for RecordedSpace<'_> {
    ghost size = { λ s. s.len };

    ghost failures = { λ _. 0 };

    ghost whole = { λ s b h. nothing_known b s.len h };

    fn len(&self) -> u64 {
        self.len
    }

    fn read_at(&mut self, place: u64, out: &mut [u8]) -> Result<(), ReadFailed> {
        self.asked.add(place, out.len() as u64);
        out.fill(0);
        let rest = self.bytes.get(place as usize..).unwrap_or(b"");
        let size = rest.len().min(out.len());
        out[..size].copy_from_slice(&rest[..size]);
        Ok(())
    }
}
