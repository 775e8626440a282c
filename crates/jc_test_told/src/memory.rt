//! Files in memory.

ghost use Rattle.std.specs.Prelude.{◌≡◌, ◌∷◌, ◌++◌, [], List, ℕ, OnErr, OnOk, Option as Maybe, Some, map, option_map, unwrap_or};
ghost use Rattle.jc_test_told.specs.Noted.{deed_of};

use crate::noted::{Note, WrittenFile};
use jc_command_shared::System;
use jc_file::ReadFile;
use std::alloc::Global;
use std::fs::{Metadata, OpenFile};
use std::io;
use std::io::{Error, ErrorKind, Read};
use std::marker::PhantomData;
use std::path::PathBuf;

/// What the files have, by their paths.
pub trait Told {
    ghost told: { List ℕ → Maybe (List ℕ) };

    /// The bytes of the file at a path, if there is one.
    fn find(path: &str) -> Option<&'static [u8]>
        ensures { option_map (λ bytes. bytes.now) result ≡ told path.now };
}

/// A file in memory, of which all bytes, and those behind its position, are slices.
#[derive(Drop)]
pub struct MemoryFile {
    all: &'static [u8],
    rest: &'static [u8],
}

fn unsupported<T>() -> io::Result<T> {
    Err(Error::from(ErrorKind::Unsupported))
}

impl Read for MemoryFile {
    ghost remaining = { λ s. Some s.rest.now };

    fn read(&mut self, buf: &mut [u8]) -> io::Result<usize> {
        let count = buf.len().min(self.rest.len());
        let (front, rest) = self.rest.split_at(count);
        buf[..count].copy_from_slice(front);
        self.rest = rest;
        Ok(count)
    }
}

impl OpenFile for MemoryFile {
    fn metadata(&self) -> io::Result<Metadata> {
        unsupported()
    }

    fn set_len(&self, _size: u64) -> io::Result<()> {
        unsupported()
    }

    fn sync_all(&self) -> io::Result<()> {
        unsupported()
    }

    fn sync_data(&self) -> io::Result<()> {
        unsupported()
    }
}

impl ReadFile for MemoryFile {
    ghost bytes = { λ s. Some s.all.now };

    fn size(&self) -> io::Result<u64> {
        Ok(self.all.len() as u64)
    }

    fn read_range(&self, place: u64, out: &mut [u8]) -> io::Result<()> {
        let all = self.all.len() as u64;
        if place > all || out.len() as u64 > all - place {
            return Err(Error::from(ErrorKind::UnexpectedEof));
        }
        let (_, rest) = self.all.split_at(place as usize);
        let (part, _) = rest.split_at(out.len());
        out.copy_from_slice(part);
        Ok(())
    }
}

/// A system whose files that can be read are those that `T` tells. What is done to others is noted.
#[derive(Drop)]
pub struct Memory<T: Told> {
    alloc: Global,
    notes: Vec<Note>,
    of: PhantomData<T>,
}

impl<T: Told> Memory<T> {
    /// A system with these files.
    pub fn new(alloc: Global) -> Memory<T> {
        Memory {
            alloc,
            notes: Vec::new(alloc),
            of: PhantomData,
        }
    }

    /// What was done to files, the first first.
    pub fn notes(&self) -> &[Note] {
        &self.notes
    }

    fn note(&mut self, note: Note) -> io::Result<()>
        ensures noted { OnOk result (self.new.notes.items ≡ self.old.notes.items ++ note ∷ []) }
        ensures refused { OnErr result (self.new.notes.items ≡ self.old.notes.items) }
    {
        match self.notes.push(note) {
            Ok(()) => Ok(()),
            Err(_) => Err(Error::from(ErrorKind::OutOfMemory)),
        }
    }
}

impl<T: Told> System for Memory<T> {
    type File = MemoryFile;

    type NewFile = WrittenFile;

    ghost deeds = { λ s. Some (map deed_of s.notes.items) };

    ghost told = { T.told };

    // There are no other files.
    ghost found = { λ path. Some (unwrap_or (T.told path) []) };

    fn alloc(&self) -> Global {
        self.alloc
    }

    fn open(&self, path: &str) -> io::Result<MemoryFile> {
        match T::find(path) {
            Some(bytes) => Ok(MemoryFile {
                all: bytes,
                rest: bytes,
            }),
            None => Err(Error::from(ErrorKind::NotFound)),
        }
    }

    fn metadata(&self, _path: &str) -> io::Result<Metadata> {
        unsupported()
    }

    fn canonicalize(&self, _path: &str) -> io::Result<PathBuf> {
        unsupported()
    }

    fn create(&mut self, path: &str) -> io::Result<WrittenFile> {
        let note = Note::changed(self.alloc, path)?;
        self.note(note)?;
        Ok(WrittenFile {
            bytes: Vec::new(self.alloc),
        })
    }

    fn rename(&mut self, file: &WrittenFile, from: &str, to: &str) -> io::Result<()> {
        let note = Note::put(self.alloc, from, to, &file.bytes)?;
        self.note(note)
    }

    fn remove_file(&mut self, path: &str) -> io::Result<()> {
        let note = Note::changed(self.alloc, path)?;
        self.note(note)
    }
}
