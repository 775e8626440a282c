//! The files of windows that are kept open.

ghost use Rattle.std.specs.Prelude.{◌≡◌, ◌<◌, Bool, false, true, List, ℕ, IfOk, IsTrue, MatchResult, OnErr, OnOk, Option as Maybe, vec_len};
ghost use Rattle.std.specs.declared.io.ErrorKind.{ErrorKind};
ghost use Rattle.jc_ledger_files.specs.declared.window_name.WindowName.{WindowName};
ghost use Rattle.jc_ledger_files.specs.Files.{AreClean, IsAsFound, files_leave, files_seen};
ghost use Rattle.jc_ledger_files.specs.Lent.{AllStay, IsBack, IsLent, OthersStay};
ghost use Rattle.jc_sequences.specs.Closed.{IsAsked, StaysAs};

use crate::placed::Place;
use jc_ledger_files::{Found, KeptFiles, WindowName};
use sqlite_disk::Disk;
use std::alloc::Global;
use std::io;

/// How many files are kept open at most.
const MOST_FILES: usize = 64;

/// The file of a window, which is opened, closed while it is kept, and opened again.
pub trait WindowFile<F: Found>: Disk + Sized {
    /// It isn't closed.
    ghost is_open: { Self → Bool };

    /// The kind of the error of the last call that failed, if one did.
    ghost last_error: { Self → Maybe ErrorKind };

    /// The file of a window of which nothing was asked yet. It is closed.
    fn unopened(name: WindowName) -> Self
        ensures seen { Self.Disk.seen result ≡ F.found name }
        ensures crash { (c : List ℕ) → Self.Disk.may_leave result c → c ≡ F.found name }
        ensures clean { IsTrue (Self.Disk.is_clean result) }
        ensures closed { is_open result ≡ false };

    /// Opens it if it is closed. If there is none, one is made if `makes` says so, or else it is known to be empty. Fails if it
    /// may not be used any more.
    fn open(&mut self, place: &mut Place<'_>, makes: bool) -> io::Result<()>
        ensures asked { IsAsked Self.Disk.seen Self.Disk.may_leave Self.Disk.is_clean self.old self.new }
        ensures usable { OnOk result (IsTrue (Self.Disk.is_usable self.new)) };

    /// The kind of the error of its last call that failed, if one did.
    fn last_error(&self) -> Option<io::ErrorKind>
        ensures { result ≡ last_error self.now };

    /// Closes it. What it has stays known.
    fn close(&mut self)
        ensures closed { is_open self.new ≡ false }
        ensures stays { StaysAs Self.Disk.seen Self.Disk.may_leave Self.Disk.is_clean self.old self.new };
}

/// Files, of which some are kept open: the names of these, in the order of last use.
#[derive(Drop)]
pub(crate) struct OpenFiles<D: WindowFile<F> + Drop, F: Found> {
    pub kept: KeptFiles<D, F>,
    pub names: Vec<WindowName>,
    /// A file was lost.
    pub is_worn: bool,
}

impl<D: WindowFile<F> + Drop, F: Found> OpenFiles<D, F> {
    /// None is open. Takes no memory.
    pub(crate) fn new(alloc: Global) -> OpenFiles<D, F>
        ensures found { (w : WindowName) → IsAsFound (F.found w) (files_seen F.found D.Disk.seen result.kept.files w)
            (files_leave F.found D.Disk.may_leave result.kept.files w) }
        ensures clean { AreClean D.Disk.is_clean result.kept.files }
        ensures whole { result.is_worn ≡ false }
    {
        OpenFiles {
            kept: KeptFiles::new(alloc),
            names: Vec::new(alloc),
            is_worn: false,
        }
    }

    /// Lends the file of a window, open: one that was kept, or else the one that is opened. One that can't be opened stays.
    pub(crate) fn lend(
        &mut self,
        place: &mut Place<'_>,
        name: WindowName,
        makes: bool,
    ) -> io::Result<D>
        ensures file { IfOk result (λ file. IsLent (D.Disk.seen file) (D.Disk.may_leave file)
            (files_seen F.found D.Disk.seen self.old.kept.files name) (files_leave F.found D.Disk.may_leave self.old.kept.files name)) }
        ensures usable { IfOk result (λ file. IsTrue (D.Disk.is_usable file)) }
        ensures others { self.new.is_worn ≡ false → OthersStay name
            (files_seen F.found D.Disk.seen self.old.kept.files) (files_seen F.found D.Disk.seen self.new.kept.files)
            (files_leave F.found D.Disk.may_leave self.old.kept.files) (files_leave F.found D.Disk.may_leave self.new.kept.files) }
        ensures refused { OnErr result (self.new.is_worn ≡ false → AllStay (files_seen F.found D.Disk.seen self.old.kept.files) (files_seen F.found D.Disk.seen self.new.kept.files)
            (files_leave F.found D.Disk.may_leave self.old.kept.files) (files_leave F.found D.Disk.may_leave self.new.kept.files)) }
        ensures clean { self.new.is_worn ≡ false → AreClean D.Disk.is_clean self.new.kept.files
            → MatchResult result (λ file. IsTrue (D.Disk.is_clean file) → AreClean D.Disk.is_clean self.old.kept.files) (λ _. AreClean D.Disk.is_clean self.old.kept.files) }
        ensures worn { self.new.is_worn ≡ false → self.old.is_worn ≡ false }
        ensures calm { OnOk result (self.old.is_worn ≡ false → AreClean D.Disk.is_clean self.old.kept.files
            → (self.new.is_worn ≡ false) × AreClean D.Disk.is_clean self.new.kept.files) }
    {
        let mut file = self.take(name);
        match file.open(place, makes) {
            Ok(()) => Ok(file),
            Err(error) => {
                let _ = self.keep(name, file);
                Err(error)
            }
        }
    }

    /// Takes out the file of a window: one that was kept, open or closed, or else one of which nothing was asked.
    fn take(&mut self, name: WindowName) -> D
        ensures file { IsLent (D.Disk.seen result) (D.Disk.may_leave result)
            (files_seen F.found D.Disk.seen self.old.kept.files name) (files_leave F.found D.Disk.may_leave self.old.kept.files name) }
        ensures others { OthersStay name (files_seen F.found D.Disk.seen self.old.kept.files) (files_seen F.found D.Disk.seen self.new.kept.files)
            (files_leave F.found D.Disk.may_leave self.old.kept.files) (files_leave F.found D.Disk.may_leave self.new.kept.files) }
        ensures clean { AreClean D.Disk.is_clean self.new.kept.files → IsTrue (D.Disk.is_clean result) → AreClean D.Disk.is_clean self.old.kept.files }
        ensures calm { AreClean D.Disk.is_clean self.old.kept.files → IsTrue (D.Disk.is_clean result) × AreClean D.Disk.is_clean self.new.kept.files }
        ensures worn { self.new.is_worn ≡ self.old.is_worn }
    {
        self.names.retain(|open| *open != name);
        match self.kept.take(name) {
            Some(file) => file,
            None => D::unopened(name),
        }
    }

    /// Keeps a file open. If there are as many as there may be, the one is closed that wasn't used for longest. If it fails, a
    /// file may be lost.
    pub(crate) fn put(&mut self, name: WindowName, file: D) -> io::Result<()>
        ensures file { self.new.is_worn ≡ false → IsBack name (D.Disk.seen file) (D.Disk.may_leave file)
            (files_seen F.found D.Disk.seen self.new.kept.files) (files_leave F.found D.Disk.may_leave self.new.kept.files) }
        ensures others { self.new.is_worn ≡ false → OthersStay name
            (files_seen F.found D.Disk.seen self.old.kept.files) (files_seen F.found D.Disk.seen self.new.kept.files)
            (files_leave F.found D.Disk.may_leave self.old.kept.files) (files_leave F.found D.Disk.may_leave self.new.kept.files) }
        ensures clean { self.new.is_worn ≡ false → AreClean D.Disk.is_clean self.new.kept.files
            → IsTrue (D.Disk.is_clean file) × AreClean D.Disk.is_clean self.old.kept.files }
        ensures worn { self.new.is_worn ≡ false → self.old.is_worn ≡ false }
        ensures calm { OnOk result (self.old.is_worn ≡ false → AreClean D.Disk.is_clean self.old.kept.files → IsTrue (D.Disk.is_clean file)
            → (self.new.is_worn ≡ false) × AreClean D.Disk.is_clean self.new.kept.files) }
    {
        self.make_room()?;
        self.add_name(name)?;
        self.keep(name, file)
    }

    /// Closes the file that wasn't used for longest, if there are as many open as there may be. What it has stays known.
    fn make_room(&mut self) -> io::Result<()>
        ensures all { self.new.is_worn ≡ false → AllStay (files_seen F.found D.Disk.seen self.old.kept.files) (files_seen F.found D.Disk.seen self.new.kept.files)
            (files_leave F.found D.Disk.may_leave self.old.kept.files) (files_leave F.found D.Disk.may_leave self.new.kept.files) }
        ensures clean { self.new.is_worn ≡ false → AreClean D.Disk.is_clean self.new.kept.files → AreClean D.Disk.is_clean self.old.kept.files }
        ensures worn { self.new.is_worn ≡ false → self.old.is_worn ≡ false }
        ensures calm { OnOk result (self.old.is_worn ≡ false → AreClean D.Disk.is_clean self.old.kept.files
            → (self.new.is_worn ≡ false) × AreClean D.Disk.is_clean self.new.kept.files) }
        ensures lost { OnErr result (self.new.is_worn ≡ true) }
    {
        if self.names.len() >= MOST_FILES {
            return self.close_oldest();
        }
        Ok(())
    }

    fn add_name(&mut self, name: WindowName) -> io::Result<()>
        ensures kept { self.new.kept ≡ self.old.kept }
        ensures worn { self.new.is_worn ≡ false → self.old.is_worn ≡ false }
        ensures calm { OnOk result (self.new.is_worn ≡ self.old.is_worn) }
        ensures lost { OnErr result (self.new.is_worn ≡ true) }
    {
        match self.names.push(name) {
            Ok(()) => Ok(()),
            Err(_refused) => {
                self.is_worn = true;
                Err(io::ErrorKind::OutOfMemory.into())
            }
        }
    }

    fn close_oldest(&mut self) -> io::Result<()>
        requires { 0 < vec_len self.old.names }
        ensures all { self.new.is_worn ≡ false → AllStay (files_seen F.found D.Disk.seen self.old.kept.files) (files_seen F.found D.Disk.seen self.new.kept.files)
            (files_leave F.found D.Disk.may_leave self.old.kept.files) (files_leave F.found D.Disk.may_leave self.new.kept.files) }
        ensures clean { self.new.is_worn ≡ false → AreClean D.Disk.is_clean self.new.kept.files → AreClean D.Disk.is_clean self.old.kept.files }
        ensures worn { self.new.is_worn ≡ false → self.old.is_worn ≡ false }
        ensures calm { OnOk result (self.old.is_worn ≡ false → AreClean D.Disk.is_clean self.old.kept.files
            → (self.new.is_worn ≡ false) × AreClean D.Disk.is_clean self.new.kept.files) }
        ensures lost { OnErr result (self.new.is_worn ≡ true) }
    {
        let oldest = self.names.remove(0);
        match self.kept.take(oldest) {
            Some(mut file) => {
                file.close();
                self.keep(oldest, file)
            }
            None => Ok(()),
        }
    }

    /// Keeps a file, open or closed. If it fails, the file is lost.
    fn keep(&mut self, name: WindowName, file: D) -> io::Result<()>
        ensures file { self.new.is_worn ≡ false → IsBack name (D.Disk.seen file) (D.Disk.may_leave file)
            (files_seen F.found D.Disk.seen self.new.kept.files) (files_leave F.found D.Disk.may_leave self.new.kept.files) }
        ensures others { self.new.is_worn ≡ false → OthersStay name
            (files_seen F.found D.Disk.seen self.old.kept.files) (files_seen F.found D.Disk.seen self.new.kept.files)
            (files_leave F.found D.Disk.may_leave self.old.kept.files) (files_leave F.found D.Disk.may_leave self.new.kept.files) }
        ensures clean { self.new.is_worn ≡ false → AreClean D.Disk.is_clean self.new.kept.files
            → IsTrue (D.Disk.is_clean file) × AreClean D.Disk.is_clean self.old.kept.files }
        ensures worn { self.new.is_worn ≡ false → self.old.is_worn ≡ false }
        ensures calm { OnOk result (self.old.is_worn ≡ false → AreClean D.Disk.is_clean self.old.kept.files → IsTrue (D.Disk.is_clean file)
            → (self.new.is_worn ≡ false) × AreClean D.Disk.is_clean self.new.kept.files) }
        ensures lost { OnErr result (self.new.is_worn ≡ true) }
    {
        if self.kept.has(name) {
            self.is_worn = true;
            return Err(io::ErrorKind::AlreadyExists.into());
        }
        match self.kept.put(name, file) {
            Ok(()) => Ok(()),
            Err(_lost) => {
                self.is_worn = true;
                Err(io::ErrorKind::OutOfMemory.into())
            }
        }
    }
}
