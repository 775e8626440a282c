//! What a run has of the system: memory, and files that it reads and changes.

ghost use Rattle.std.specs.Prelude.{◌≡◌, ◌∷◌, ℕ, List, [], None, Some, Option as Maybe, IfOk, IfErr, IfSome, OnOk, OnErr};
ghost use Rattle.std.specs.IoError.{error_kind};
ghost use Rattle.jc_command_shared.specs.Deeds.{Adds, Deed, MayAdd, changes, puts};

use jc_file::ReadFile;
use std::alloc::Global;
use std::fs::{File, Metadata, OpenFile};
use std::io::{ErrorKind, Read, Write};
use std::path::PathBuf;
use std::rt::Files;
use std::{fs, io};

/// Files of a system, and memory. Only an exclusive borrow of it makes, renames or removes a file, and what it does is noted:
/// so a function that has nothing else of the system says by its contract which files these are. Of a file that is open
/// its bytes, if it is a new one, and its times and permissions may be changed.
pub trait System {
    /// A file that is read.
    type File: Read + ReadFile + OpenFile + Drop;

    /// A file that is written.
    type NewFile: Write + OpenFile + Drop;

    /// What was done to files so far, where that is known.
    ghost deeds: { Self → Maybe (List Deed) };

    /// What the files have that are opened to be read, by their paths, where that is known. A function over any system is
    /// proved for whatever they have.
    ghost told: { List ℕ → Maybe (List ℕ) } = { λ _. None };

    /// What is found where a file is opened to be read, or isn't there: all that it has, or nothing. By paths, where that is
    /// known.
    ghost found: { List ℕ → Maybe (List ℕ) } = { λ _. None };

    /// The system's memory.
    fn alloc(&self) -> Global;

    /// The file at `path`, to be read.
    fn open(&self, path: &str) -> io::Result<Self::File>
        ensures stream { IfOk result (λ file. Self.File.remaining file ≡ told path.now) }
        ensures bytes { IfOk result (λ file. Self.File.bytes file ≡ told path.now) }
        ensures whole { IfOk result (λ file. IfSome (found path.now) (λ held. Self.File.remaining file ≡ Some held)) }
        // Of one that isn't there nothing is told, and nothing is found.
        ensures missing { IfErr result (λ error. error_kind error ≡ ErrorKind.NotFound → told path.now ≡ None) }
        ensures absent { IfErr result (λ error. error_kind error ≡ ErrorKind.NotFound → IfSome (found path.now) (λ held. held ≡ [])) };

    /// What the system says of the file at `path`.
    fn metadata(&self, path: &str) -> io::Result<Metadata>;

    /// The path without links that leads where `path` does.
    fn canonicalize(&self, path: &str) -> io::Result<PathBuf>;

    /// A new file at `path`, empty, to be written. A file that was there is emptied. It is noted if that succeeds, and may be
    /// noted if it fails.
    fn create(&mut self, path: &str) -> io::Result<Self::NewFile>
        ensures noted { IfOk result (λ _. Adds (deeds self.old) (deeds self.new) (changes path.now ∷ [])) }
        ensures failed { IfErr result (λ _. MayAdd (deeds self.old) (deeds self.new) (changes path.now ∷ [])) }
        // Where it is known what is done to files, it is known what a new one has.
        ensures empty { IfOk result (λ file. IfSome (deeds self.new) (λ _. Self.NewFile.contents file ≡ Some [])) };

    /// Gives `file`, the new file at `from`, the name `to`: what it has is noted. If that fails, both names are as they were.
    fn rename(&mut self, file: &Self::NewFile, from: &str, to: &str) -> io::Result<()>
        ensures noted { OnOk result (Adds (deeds self.old) (deeds self.new) (puts from.now to.now (Self.NewFile.contents file.now) ∷ [])) }
        ensures stays { OnErr result (deeds self.new ≡ deeds self.old) };

    /// Removes the file at `path`. It is noted if that succeeds, and may be noted if it fails.
    fn remove_file(&mut self, path: &str) -> io::Result<()>
        ensures noted { OnOk result (Adds (deeds self.old) (deeds self.new) (changes path.now ∷ [])) }
        ensures failed { OnErr result (MayAdd (deeds self.old) (deeds self.new) (changes path.now ∷ [])) };
}

/// The system that the program runs on. What it does to files isn't noted: a function over any system does the same here.
#[derive(Drop)]
pub struct Host<'a> {
    runtime: &'a HostRuntime,
}

impl<'a> Host<'a> {
    /// The system of this runtime.
    pub fn new(runtime: &'a HostRuntime) -> Host<'a> {
        Host { runtime }
    }

    /// The runtime of this system.
    pub fn runtime(&self) -> &'a HostRuntime {
        self.runtime
    }
}

impl<'a> System for Host<'a> {
    ghost use Rattle.std.specs.Prelude.{None};

    type File = File;

    type NewFile = File;

    ghost deeds = { λ _. None };

    fn alloc(&self) -> Global {
        self.runtime.alloc()
    }

    fn open(&self, path: &str) -> io::Result<File> {
        fs::open(self.runtime, path)
    }

    fn metadata(&self, path: &str) -> io::Result<Metadata> {
        fs::metadata(self.runtime, path)
    }

    fn canonicalize(&self, path: &str) -> io::Result<PathBuf> {
        self.runtime.canonicalize(self.runtime.alloc(), path)
    }

    fn create(&mut self, path: &str) -> io::Result<File> {
        fs::create(self.runtime, path)
    }

    fn rename(&mut self, _file: &File, from: &str, to: &str) -> io::Result<()> {
        fs::rename(self.runtime, from, to)
    }

    fn remove_file(&mut self, path: &str) -> io::Result<()> {
        fs::remove_file(self.runtime, path)
    }
}
