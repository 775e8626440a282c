//! Folders of tests, and the files in them.

use std::alloc::Global;
use std::{env, fs, io, process};

/// The path of a new folder of this process, below the system's folder for such, with a `/` at its end.
pub(super) fn new_folder(rt: &HostRuntime, name: &str) -> io::Result<String> {
    let id = process::id(rt.process());
    let path = env::temp_dir(rt)?;
    let all = path.as_str();
    let folder = format!(in rt.alloc(); "{all}/journal-collect-{id}-{name}/")?;
    fs::create_dir(rt, folder.as_str())?;
    Ok(folder)
}

/// The path of a file in a folder.
pub(super) fn path_in(alloc: Global, folder: &str, name: &str) -> io::Result<String> {
    Ok(format!(in alloc; "{folder}{name}")?)
}
