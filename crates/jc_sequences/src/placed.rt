//! Where the files of windows lie.

ghost use Rattle.std.specs.Prelude.{◌≡◌, ◌∷◌, ◌++◌, IfOk, string_bytes};
ghost use Rattle.hex.specs.Hex.{encode_lower};
ghost use Rattle.jc_sequences.specs.Placed.{path_of};

use jc_base::Id128;
use jc_ledger_files::WindowName;
use sqlite_disk::Files;
use sqlite_std_file::{File, OpenError, Unknown, open};
use std::alloc::Global;
use std::collections::BTreeSet;
use std::fs::{DirBuilder, OpenFile, OpenOptions};
use std::os::unix::fs::{DirBuilderExt, OpenOptionsExt};
use std::{fs, io};

/// Makes a folder that only its owner may enter, if there is none, and says whether it did.
pub(crate) fn make_folder(rt: &HostRuntime, path: &str) -> io::Result<bool> {
    match DirBuilder::new().mode(0o700).create(rt, path) {
        Ok(()) => Ok(true),
        Err(error) if error.kind() == io::ErrorKind::AlreadyExists => Ok(false),
        Err(error) => Err(error),
    }
}

/// Has the names in a folder kept over a loss of power.
pub(crate) fn sync_folder(rt: &HostRuntime, path: &str) -> io::Result<()> {
    fs::open(rt, path)?.sync_all()
}

/// A folder in which each sequence has a folder, with a file for each window.
#[derive(Drop)]
pub struct Place<'a> {
    rt: &'a HostRuntime,
    path: String,
    /// No other run has it as long as this is open.
    lock: Option<fs::File>,
    /// The names in it are on the disk, as far as they were made before now.
    is_synced: bool,
    /// ... and so are those in the folders of these sequences.
    synced: BTreeSet<Id128>,
}

impl<'a> Place<'a> {
    /// The folder at `path`, which is there, and what locks it. Takes no memory.
    pub(crate) fn new(rt: &'a HostRuntime, path: String, lock: Option<fs::File>) -> Place<'a> {
        Place {
            rt,
            path,
            lock,
            is_synced: false,
            synced: BTreeSet::new(rt.alloc()),
        }
    }

    /// Opens the file of a window, `FOLDER/SEQUENCE/NUMBER`. It is locked until it is dropped. If there is none, it is made if
    /// `makes` says so. What is answered holds after a loss of power, too: the file is synced, and so is where its name is or
    /// would be, once for what another process left, and for each name that is made. Fails if the file `was_away` and is
    /// there, since another process has made it.
    pub(crate) fn open(
        &mut self,
        name: WindowName,
        makes: bool,
        was_away: bool,
    ) -> io::Result<Option<File>> {
        let folder = folder_of(self.rt.alloc(), &self.path, name)?;
        let path = self.path_of(name)?;
        if makes && make_folder(self.rt, &folder)? {
            self.is_synced = false;
        }
        if !self.is_synced {
            sync_folder(self.rt, &self.path)?;
            self.is_synced = true;
        }
        let is_there = is_there(self.rt, &path)?;
        if is_there && was_away {
            return Err(io::ErrorKind::AlreadyExists.into());
        }
        if !is_there && !makes {
            self.sync_in(&folder, name.sequence)?;
            return Ok(None);
        }
        if !is_there {
            make_file(self.rt, &path)?;
        }
        // The folder is synced with it.
        let file = open_file(self.rt, &path)?;
        self.synced.insert(name.sequence)?;
        Ok(Some(file))
    }

    /// The path of a window's file in it.
    pub(crate) fn path_of(&self, name: WindowName) -> io::Result<String>
        ensures { IfOk result (λ path. string_bytes path ≡ path_of (string_bytes self.now.path) name) }
    {
        window_path(self.rt.alloc(), &self.path, name)
    }

    /// Syncs the folder of a sequence, if it isn't. One that isn't there needs none.
    fn sync_in(&mut self, folder: &str, sequence: Id128) -> io::Result<()> {
        if self.synced.contains(&sequence) {
            return Ok(());
        }
        match sync_folder(self.rt, folder) {
            Ok(()) => {
                self.synced.insert(sequence)?;
                Ok(())
            }
            Err(error) if error.kind() == io::ErrorKind::NotFound => Ok(()),
            Err(error) => Err(error),
        }
    }
}

/// Whether something has this name.
fn is_there(rt: &HostRuntime, path: &str) -> io::Result<bool> {
    match fs::symlink_metadata(rt, path) {
        Ok(_) => Ok(true),
        Err(error) if error.kind() == io::ErrorKind::NotFound => Ok(false),
        Err(error) => Err(error),
    }
}

/// Makes a file. Fails if another process has made it meanwhile.
fn make_file(rt: &HostRuntime, path: &str) -> io::Result<()> {
    OpenOptions::new()
        .write(true)
        .create_new(true)
        .mode(0o644)
        .open(rt, path)?;
    Ok(())
}

/// Opens a file as the toolchain opens a database's, which syncs it and its folder, and removes the log that this makes.
fn open_file(rt: &HostRuntime, path: &str) -> io::Result<File> {
    let beside = format!(in rt.alloc(); "{path}-wal")?;
    match open(rt, path, Unknown) {
        Ok(Files { log, db }) => {
            drop(log);
            // The file is locked, so nobody else uses the log of this name, which nothing is written to.
            let _ = fs::remove_file(rt, &beside);
            Ok(db)
        }
        Err(OpenError::Io(error)) => Err(error),
        Err(OpenError::OutOfMemory) => Err(io::ErrorKind::OutOfMemory.into()),
        Err(_) => Err(io::ErrorKind::ResourceBusy.into()),
    }
}

/// The path of a window's file, whether it is there or not.
pub fn window_path(alloc: Global, folder: &str, name: WindowName) -> io::Result<String>
    ensures { IfOk result (λ path. string_bytes path ≡ path_of folder.now name) }
{
    let sequence = folder_of(alloc, folder, name)?;
    let number = name.window;
    Ok(format!(in alloc; "{sequence}/{number}")?)
}

fn folder_of(alloc: Global, folder: &str, name: WindowName) -> io::Result<String>
    ensures { IfOk result (λ path. string_bytes path ≡ folder.now ++ 47 ∷ encode_lower name.sequence.0) }
{
    let digits = hex::encode(alloc, name.sequence.as_bytes())?;
    Ok(format!(in alloc; "{folder}/{digits}")?)
}
