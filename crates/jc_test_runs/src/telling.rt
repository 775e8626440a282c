//! The program's system, but for files other than databases.

ghost use Rattle.std.specs.Prelude.{◌≡◌, ◌∷◌, [], Some};
ghost use Rattle.jc_command_shared.specs.Deeds.{Adds};
ghost use Rattle.jc_test_runs.specs.Done.{deed_of, deeds_of};

use crate::done::Done;
use jc_command_shared::{Host, System};
use jc_database::{Databases, FailedOpen, OpenFromFiles};
use jc_ledger_files::Record;
use jc_test_told::{Memory, MemoryFile, Told, WrittenFile};
use sqlite::Connection;
use std::alloc::Global;
use std::fs::Metadata;
use std::io;
use std::path::PathBuf;

/// A system that tells what its files have which are read, since these are in memory, as those are that are written. Its
/// databases are files. What is done to files is known.
#[derive(Drop)]
pub struct Telling<'a, T: Told> {
    host: Host<'a>,
    memory: Memory<T>,
    // The newest comes first.
    done: Record<Done>,
}

impl<'a, T: Told> Telling<'a, T> {
    /// The system of this runtime, with the files of `T`. Nothing was done to any.
    pub fn new(rt: &'a HostRuntime) -> Telling<'a, T>
        ensures { ⟦<Telling<'a, T> as System>⟧.deeds result ≡ Some [] }
    {
        Telling {
            host: Host::new(rt),
            memory: Memory::new(rt.alloc()),
            done: Record::new(),
        }
    }

    fn note(&mut self, done: Done)
        ensures { Adds (deeds_of self.old.done.items) (deeds_of self.new.done.items) (deed_of done ∷ []) }
    {
        self.done = self.done.with(&done);
    }
}

impl<'a, T: Told> System for Telling<'a, T> {
    type File = MemoryFile;

    type NewFile = WrittenFile;

    ghost deeds = { λ s. deeds_of s.done.items };

    ghost told = { T.told };

    ghost found = { ⟦<Memory<T> as System>⟧.found };

    fn alloc(&self) -> Global {
        self.host.alloc()
    }

    fn open(&self, path: &str) -> io::Result<MemoryFile> {
        self.memory.open(path)
    }

    fn metadata(&self, path: &str) -> io::Result<Metadata> {
        self.host.metadata(path)
    }

    fn canonicalize(&self, path: &str) -> io::Result<PathBuf> {
        self.host.canonicalize(path)
    }

    fn create(&mut self, path: &str) -> io::Result<WrittenFile> {
        let file = self.memory.create(path)?;
        self.note(Done::changed(path));
        Ok(file)
    }

    fn rename(&mut self, file: &WrittenFile, from: &str, to: &str) -> io::Result<()> {
        self.memory.rename(file, from, to)?;
        self.note(Done::put(from, to, file.bytes()));
        Ok(())
    }

    fn remove_file(&mut self, path: &str) -> io::Result<()> {
        self.memory.remove_file(path)?;
        self.note(Done::changed(path));
        Ok(())
    }
}

impl<'a, T: Told> Databases for Telling<'a, T> {
    fn open_database<F: OpenFromFiles>(
        &mut self,
        path: &str,
        start: F::Start,
    ) -> Result<Connection<F>, FailedOpen<F::Left>> {
        self.note(Done::opened(path));
        self.host.open_database::<F>(path, start)
    }
}
