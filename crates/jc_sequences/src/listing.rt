//! Which windows of sequences have files.

ghost use Rattle.std.specs.Prelude.{◌≡◌, ◌≢◌, ◌⊎◌, IfErr, IfOk};
ghost use Rattle.std.specs.List.{AllPairs};

use crate::opening::Folders;
use jc_base::{Id128, Key};
use jc_command_shared::Failure;
use jc_ledger_files::WindowName;
use std::collections::BTreeSet;
use std::{fs, io};

/// The windows that have a file in the folder at `path`, in the order of their sequences and then of their numbers. Other
/// files say nothing.
pub fn list_windows<'p>(folders: Folders<'_>, path: &'p str) -> Result<Vec<WindowName>, Failure<'p>>
    ensures once { IfOk result (λ windows. AllPairs (λ one other. one ≢ other) windows.items) }
    ensures failed { IfErr result (λ failure. (failure ≡ Failure.CannotOpen path.entry) ⊎ (failure ≡ Failure.OutOfMemory)) }
{
    match listed(folders.runtime, path) {
        Ok(windows) => Ok(windows),
        Err(error) => Err(folders.cannot_open(path, &error)),
    }
}

fn listed(rt: &HostRuntime, path: &str) -> io::Result<Vec<WindowName>>
    ensures { IfOk result (λ windows. AllPairs (λ one other. one ≢ other) windows.items) }
{
    let mut keys = BTreeSet::new(rt.alloc());
    for entry in fs::read_dir(rt, path)? {
        let entry = entry?;
        if let Some(sequence) = sequence_of(entry.file_name()) {
            let name = entry.file_name();
            let folder = format!(in rt.alloc(); "{path}/{name}")?;
            add_windows(rt, &folder, sequence, &mut keys)?;
        }
    }
    names_of(rt, keys)
}

/// Adds the windows of a sequence that have files in its folder, if it is one.
fn add_windows(
    rt: &HostRuntime,
    path: &str,
    sequence: Id128,
    keys: &mut BTreeSet<Key>,
) -> io::Result<()> {
    if !fs::metadata(rt, path)?.is_dir() {
        return Ok(());
    }
    for entry in fs::read_dir(rt, path)? {
        let entry = entry?;
        if let Some(window) = window_of(entry.file_name()) {
            keys.insert(Key {
                seqnum_id: sequence,
                seqnum: window,
            })?;
        }
    }
    Ok(())
}

/// The windows of these keys, the number of each of which is the window's.
fn names_of(rt: &HostRuntime, mut keys: BTreeSet<Key>) -> io::Result<Vec<WindowName>>
    ensures { IfOk result (λ windows. AllPairs (λ one other. one ≢ other) windows.items) }
{
    let mut names = Vec::new(rt.alloc());
    while let Some(key) = keys.pop_first() {
        names.push(WindowName {
            sequence: key.seqnum_id,
            window: key.seqnum,
        })?;
    }
    Ok(names)
}

/// The sequence whose folder has this name, if one has.
fn sequence_of(name: &str) -> Option<Id128> {
    let id = Id128::from_hex(name.as_bytes())?;
    (id.to_hex().as_slice() == name.as_bytes()).then_some(id)
}

/// The number of the window whose file has this name, if one has.
fn window_of(name: &str) -> Option<u64> {
    if name.starts_with('+') || (name.len() > 1 && name.starts_with('0')) {
        return None;
    }
    name.parse().ok()
}
