//! A folder with a file for each window.

ghost use Rattle.std.specs.Prelude.{◌≡◌, ◌≢◌, ◌≤◌};
ghost use Rattle.jc_keeper.specs.declared.keeper.KeepStop.TheVariants.{ReadFailed, StoreFailed};
ghost use Rattle.jc_base.specs.Device.{Rose};
ghost use Rattle.jc_sequences.specs.Opened.{IsFound};

use crate::faults::Faults;
use crate::found_file::FoundFile;
use crate::open_files::{OpenFiles, WindowFile};
use crate::opening::Folders;
use crate::placed::Place;
use jc_keeper::KeepStop;
use jc_ledger_files::{Folder, Found, WindowName};
use sqlite_std_file::File;
use std::{fs, io};

/// A folder in which each sequence has a folder, and each of its windows a file in that one. `F` stands for what these
/// files have as they are opened.
pub type FileFolder<'a, F> = WindowFolder<'a, FoundFile<File, F>, F>;

/// The same over any files of windows.
#[derive(Drop)]
pub struct WindowFolder<'a, D: WindowFile<F> + Drop, F: Found> {
    place: Place<'a>,
    open: OpenFiles<D, F>,
    /// How often a file couldn't be opened, or was lost, up to 2^64 - 1.
    failures: u64,
    faults: &'a Faults,
}

impl<'a, D: WindowFile<F> + Drop, F: Found> WindowFolder<'a, D, F> {
    /// The folder at `path`, which is there, and what locks it. Takes no memory.
    pub(crate) fn new(
        folders: Folders<'a>,
        path: String,
        lock: Option<fs::File>,
    ) -> WindowFolder<'a, D, F>
        ensures { IsFound F.found (⟦<WindowFolder<'a, D, F> as Folder<D>>⟧.clean result)
            (⟦<WindowFolder<'a, D, F> as Folder<D>>⟧.seen result) (⟦<WindowFolder<'a, D, F> as Folder<D>>⟧.may_leave result) }
    {
        WindowFolder {
            place: Place::new(folders.runtime, path, lock),
            open: OpenFiles::new(folders.runtime.alloc()),
            failures: 0,
            faults: folders.faults,
        }
    }

    /// Why this file isn't lent or kept, which is counted and noted unless memory was refused.
    fn count(&mut self, name: WindowName, error: io::Error) -> KeepStop
        ensures never_read { result ≢ ReadFailed }
        ensures never_falls { self.old.failures ≤ self.new.failures }
        ensures store { result ≡ StoreFailed → Rose self.old.failures self.new.failures }
        ensures open { self.new.open ≡ self.old.open }
    {
        if error.kind() == io::ErrorKind::OutOfMemory {
            return KeepStop::OutOfMemory;
        }
        self.note(name, Some(error.kind()));
        self.failures = self.failures.saturating_add(1);
        KeepStop::StoreFailed
    }

    /// Notes that the file of a window failed, if it did.
    fn note(&self, name: WindowName, kind: Option<io::ErrorKind>) {
        if let Some(kind) = kind {
            self.faults.note(self.place.path_of(name).ok(), kind);
        }
    }
}

impl<'a, D: WindowFile<F> + Drop, F: Found> Folder<D> for WindowFolder<'a, D, F> {
    ghost use Rattle.std.specs.Prelude.{◌≡◌, false};
    ghost use Rattle.std.specs.BTreeMap.{get};
    ghost use Rattle.jc_base.specs.Journal.{key_cmp};
    ghost use Rattle.jc_ledger_files.specs.Files.{AreClean, files_leave, files_seen, key_named, seen_stays};

    ghost seen = { λ f. files_seen F.found D.Disk.seen f.open.kept.files };

    ghost may_leave = { λ f. files_leave F.found D.Disk.may_leave f.open.kept.files };

    // Nothing is known of a file that was lost, so nothing is claimed once one was.
    ghost clean = { λ f. (f.open.is_worn ≡ false) × AreClean D.Disk.is_clean f.open.kept.files };

    ghost failures = { λ f. f.failures };

    ghost seen_may_stay = { λ f w. seen_stays (F.found w) D.Disk.seen D.Disk.may_leave
        D.Disk.seen_may_stay (get key_cmp f.open.kept.files (key_named w)) };

    fn lend(&mut self, name: WindowName, makes: bool) -> Result<D, KeepStop> {
        match self.open.lend(&mut self.place, name, makes) {
            Ok(file) => Ok(file),
            Err(error) => Err(self.count(name, error)),
        }
    }

    fn give_back(&mut self, name: WindowName, file: D) -> Result<(), KeepStop> {
        self.note(name, file.last_error());
        match self.open.put(name, file) {
            Ok(()) => Ok(()),
            Err(error) => Err(self.count(name, error)),
        }
    }
}
