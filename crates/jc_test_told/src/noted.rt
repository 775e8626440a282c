//! What is done to files in memory.

ghost use Rattle.std.specs.Prelude.{◌≡◌, IfOk, Some};
ghost use Rattle.jc_command_shared.specs.Deeds.{changes, puts};
ghost use Rattle.jc_test_told.specs.Noted.{deed_of};

use std::alloc::Global;
use std::fs::{Metadata, OpenFile};
use std::io;
use std::io::{Error, ErrorKind, Write};

/// What was done to a file.
#[derive(Drop)]
pub enum Note {
    /// The file at this path was made, or taken away.
    Changed(Vec<u8>),
    /// A new file got another path in place of its own, and had these bytes.
    Put {
        from: Vec<u8>,
        path: Vec<u8>,
        held: Vec<u8>,
    },
}

impl Note {
    pub(crate) fn changed(alloc: Global, path: &str) -> io::Result<Note>
        ensures { IfOk result (λ note. deed_of note ≡ changes path.now) }
    {
        Ok(Note::Changed(copied(alloc, path.as_bytes())?))
    }

    pub(crate) fn put(alloc: Global, from: &str, path: &str, held: &[u8]) -> io::Result<Note>
        ensures { IfOk result (λ note. deed_of note ≡ puts from.now path.now (Some held.now)) }
    {
        Ok(Note::Put {
            from: copied(alloc, from.as_bytes())?,
            path: copied(alloc, path.as_bytes())?,
            held: copied(alloc, held)?,
        })
    }
}

fn copied(alloc: Global, bytes: &[u8]) -> io::Result<Vec<u8>>
    ensures { IfOk result (λ copy. copy.items ≡ bytes.now) }
{
    match Vec::from_slice(alloc, bytes) {
        Ok(copy) => Ok(copy),
        Err(_) => Err(Error::from(ErrorKind::OutOfMemory)),
    }
}

/// A new file in memory.
#[derive(Drop)]
pub struct WrittenFile {
    pub(crate) bytes: Vec<u8>,
}

impl WrittenFile {
    /// What it has.
    pub fn bytes(&self) -> &[u8]
        ensures { ⟦<WrittenFile as Write>⟧.contents self.now ≡ Some result.now }
    {
        &self.bytes
    }
}

impl Write for WrittenFile {
    ghost contents = { λ s. Some s.bytes.items };

    fn write(&mut self, buf: &[u8]) -> io::Result<usize> {
        self.bytes.write(buf)
    }

    fn flush(&mut self) -> io::Result<()> {
        Ok(())
    }
}

impl OpenFile for WrittenFile {
    fn metadata(&self) -> io::Result<Metadata> {
        Err(Error::from(ErrorKind::Unsupported))
    }

    fn set_len(&self, _size: u64) -> io::Result<()> {
        Err(Error::from(ErrorKind::Unsupported))
    }

    fn sync_all(&self) -> io::Result<()> {
        Ok(())
    }

    fn sync_data(&self) -> io::Result<()> {
        Ok(())
    }
}
