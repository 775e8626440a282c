//! Notes of sequences, opened.

ghost use Rattle.std.specs.Prelude.{◌≡◌, ◌↔◌, ◌⊎◌, IfErr, IfOk, string_bytes};
ghost use Rattle.jc_base.specs.declared.id.Id128.{Id128};
ghost use Rattle.jc_base.specs.declared.id.Key.{Key};
ghost use Rattle.jc_base.specs.LogEntry.{LogEntry};
ghost use Rattle.jc_ledger_files.specs.NotesOf.{notes_of};
ghost use Rattle.jc_ledger_files.specs.Owned.{owner_found};
ghost use Rattle.jc_ledger_files.specs.Windows.{known_in};
ghost use Rattle.jc_sequences.specs.Opened.{IsFound};

use crate::faults::{Fault, Faults};
use crate::file_folder::{FileFolder, WindowFolder};
use crate::found_file::FoundFile;
use crate::open_files::WindowFile;
use crate::placed::{make_folder, sync_folder};
use jc_command_shared::Failure;
use jc_ledger::Ledger;
use jc_ledger_files::{
    Arrivals, DiskWindows, FileLedger, Folder, Found, RecordedEntries, SteadyOwners,
};
use sqlite_disk::Disk;
use sqlite_std_file::File;
use std::alloc::Global;
use std::{fs, io};

/// The notes of sequences in the files of a folder.
pub type FileSequences<'a, F, A> = SteadyOwners<
    FileLedger<DiskWindows<FoundFile<File, F>, FileFolder<'a, F>>, RecordedEntries<A>>,
    F,
>;

/// The folders of the system in which sequences have notes. Whoever has this alone makes and changes files of notes and
/// the logs beside them, and no others.
#[derive(Clone, Copy)]
pub struct Folders<'a> {
    pub(crate) runtime: &'a HostRuntime,
    pub(crate) faults: &'a Faults,
}

impl<'a> Folders<'a> {
    /// The folders of this runtime's system. What fails of them is noted.
    pub fn new(runtime: &'a HostRuntime, faults: &'a Faults) -> Folders<'a> {
        Folders { runtime, faults }
    }

    /// What failed last. From here on nothing has.
    pub fn take_fault(self) -> Option<Fault> {
        self.faults.take()
    }

    /// Why the folder at `path` can't be opened, which is noted unless memory was refused.
    pub(crate) fn cannot_open<'p>(self, path: &'p str, error: &io::Error) -> Failure<'p>
        ensures { (result ≡ Failure.CannotOpen path.entry) ⊎ (result ≡ Failure.OutOfMemory) }
    {
        if error.kind() == io::ErrorKind::OutOfMemory {
            return Failure::OutOfMemory;
        }
        let noted = String::from_str(self.runtime.alloc(), path).ok();
        self.faults.note(noted, error.kind());
        Failure::CannotOpen(path)
    }
}

/// Opens the folder at `path`, or makes it. What is noted in it stays there. No other run opens it until this is dropped. It
/// fails with `CannotOpen` if another run has it, or there is none and none can be made that stays, and with `OutOfMemory`.
/// Whether files in it can be read isn't seen yet.
pub fn open_sequences<'a, 'p, F: Found, A: Arrivals>(
    folders: Folders<'a>,
    path: &'p str,
) -> Result<FileSequences<'a, F, A>, Failure<'p>>
    ensures sound { IfOk result (λ ledger. ⟦<FileSequences<'a, F, A> as Ledger>⟧.sound ledger) }
    // What is noted at first is what the files have as they are opened.
    ensures known { IfOk result (λ ledger. (k : Key) → ⟦<FileSequences<'a, F, A> as Ledger>⟧.known ledger k ≡ known_in (λ w. notes_of (F.found w)) k) }
    // ... and so is whom sequences belong to. Windows of owners are behind those of all entries.
    ensures owner { IfOk result (λ ledger. (s : Id128) → ⟦<FileSequences<'a, F, A> as Ledger>⟧.owner ledger s ≡ owner_found F.found s) }
    ensures came { IfOk result (λ ledger. (e : LogEntry) → ⟦<FileSequences<'a, F, A> as Ledger>⟧.came ledger e ↔ A.before e) }
    ensures failed { IfErr result (λ failure. (failure ≡ Failure.CannotOpen path.entry) ⊎ (failure ≡ Failure.OutOfMemory)) }
{
    match lock(folders, path) {
        Ok(
            Locked {
                folder,
                windows,
                owners,
            },
        ) => Ok(sequences_in::<FoundFile<File, F>, F, A>(folders, folder, windows, owners)),
        Err(failure) => Err(failure),
    }
}

type NotesOver<D, W, F, A> = SteadyOwners<FileLedger<DiskWindows<D, W>, RecordedEntries<A>>, F>;

/// The notes of sequences in the folders at these paths: of all entries, and of owners. `folder` is locked as long.
fn sequences_in<'a, D: WindowFile<F> + Drop, F: Found, A: Arrivals>(
    folders: Folders<'a>,
    folder: fs::File,
    windows: String,
    owners: String,
) -> NotesOver<D, WindowFolder<'a, D, F>, F, A>
    ensures sound { ⟦<NotesOver<D, WindowFolder<'a, D, F>, F, A> as Ledger>⟧.sound result }
    ensures known { (k : Key) → ⟦<NotesOver<D, WindowFolder<'a, D, F>, F, A> as Ledger>⟧.known result k ≡ known_in (λ w. notes_of (F.found w)) k }
    ensures owner { (s : Id128) → ⟦<NotesOver<D, WindowFolder<'a, D, F>, F, A> as Ledger>⟧.owner result s ≡ owner_found F.found s }
    ensures came { (e : LogEntry) → ⟦<NotesOver<D, WindowFolder<'a, D, F>, F, A> as Ledger>⟧.came result e ↔ A.before e }
{
    sequences_over(
        folders.runtime.alloc(),
        WindowFolder::<D, F>::new(folders, windows, Some(folder)),
        WindowFolder::<D, F>::new(folders, owners, None),
    )
}

/// The same of two folders whose files have what they had as they were opened.
fn sequences_over<D: Disk, W: Folder<D>, F: Found, A: Arrivals>(
    alloc: Global,
    windows: W,
    owners: W,
) -> NotesOver<D, W, F, A>
    requires windows { IsFound F.found (W.clean windows) (W.seen windows) (W.may_leave windows) }
    requires owners { IsFound F.found (W.clean owners) (W.seen owners) (W.may_leave owners) }
    ensures sound { ⟦<NotesOver<D, W, F, A> as Ledger>⟧.sound result }
    ensures known { (k : Key) → ⟦<NotesOver<D, W, F, A> as Ledger>⟧.known result k ≡ known_in (λ w. notes_of (F.found w)) k }
    ensures owner { (s : Id128) → ⟦<NotesOver<D, W, F, A> as Ledger>⟧.owner result s ≡ owner_found F.found s }
    ensures came { (e : LogEntry) → ⟦<NotesOver<D, W, F, A> as Ledger>⟧.came result e ↔ A.before e }
{
    let windows = DiskWindows::new(alloc, windows);
    let owners = DiskWindows::new(alloc, owners);
    let ledger = FileLedger::new(alloc, windows, owners, RecordedEntries::new());
    SteadyOwners::new(ledger)
}

/// A folder that no other run has, and its path, twice.
#[derive(Drop)]
struct Locked {
    folder: fs::File,
    windows: String,
    owners: String,
}

/// The folder, locked, or why it can't be opened.
fn lock<'p>(folders: Folders<'_>, path: &'p str) -> Result<Locked, Failure<'p>>
    ensures same { IfOk result (λ locked. (string_bytes locked.windows ≡ path.now) × (string_bytes locked.owners ≡ path.now)) }
    ensures failed { IfErr result (λ failure. (failure ≡ Failure.CannotOpen path.entry) ⊎ (failure ≡ Failure.OutOfMemory)) }
{
    match lock_folder(folders.runtime, path) {
        Ok(locked) => Ok(locked),
        Err(error) => Err(folders.cannot_open(path, &error)),
    }
}

/// Makes the folder if there is none, and locks it. It is there after a loss of power, too.
fn lock_folder(rt: &HostRuntime, path: &str) -> io::Result<Locked>
    ensures { IfOk result (λ locked. (string_bytes locked.windows ≡ path.now) × (string_bytes locked.owners ≡ path.now)) }
{
    make_lasting(rt, path)?;
    let folder = fs::open(rt, path)?;
    folder.try_lock()?;
    let windows = format!(in rt.alloc(); "{path}")?;
    let owners = format!(in rt.alloc(); "{path}")?;
    Ok(Locked {
        folder,
        windows,
        owners,
    })
}

/// Makes a folder if there is none. Its name lasts then, also if the process that made it was stopped before it saw to that.
fn make_lasting(rt: &HostRuntime, path: &str) -> io::Result<()> {
    make_folder(rt, path)?;
    let parent = format!(in rt.alloc(); "{path}/..")?;
    sync_folder(rt, &parent)
}
