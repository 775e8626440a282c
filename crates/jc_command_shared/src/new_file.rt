//! Files that are replaced whole.

ghost use Rattle.std.specs.Prelude.{◌≡◌, ◌⊎◌, ◌++◌, ◌∷◌, [], false, Err, Some, IfErr, IfOk, IfSome, IsOk, IsTrue, OnErr, OnOk, codes, string_bytes};
ghost use Rattle.jc_command_shared.specs.Deeds.{Adds, ChangesOnly, MayAdd, changes, puts};
ghost use Rattle.jc_command_shared.specs.Folder.{IsIn};

use crate::{Failure, System};
use std::alloc::Global;
use std::fs::OpenFile;

/// What the name of a file ends in that is to take another one's place.
pub const UNFINISHED: &str = ".new";

/// The name under which the text of the file at `path` is written before it takes that file's place.
pub fn name_beside<'a>(alloc: Global, path: &str) -> Result<String, Failure<'a>>
    ensures name { IfOk result (λ name. string_bytes name ≡ path.now ++ codes ".new") }
    ensures failed { IfErr result (λ failure. failure ≡ Failure.OutOfMemory) }
{
    Ok(format!(in alloc; "{path}{UNFINISHED}")?)
}

/// A new file at `path`, empty.
pub fn create_file<'a, Y: System>(rt: &mut Y, path: &str) -> Result<Y::NewFile, Failure<'a>>
    ensures made { IfOk result (λ _. Adds (Y.deeds rt.old) (Y.deeds rt.new) (changes path.now ∷ [])) }
    ensures unmade { IfErr result (λ _. MayAdd (Y.deeds rt.old) (Y.deeds rt.new) (changes path.now ∷ [])) }
    ensures empty { IfOk result (λ file. IfSome (Y.deeds rt.new) (λ _. Y.NewFile.contents file ≡ Some [])) }
    ensures failed { IfErr result (λ failure. failure ≡ Failure.WriteFailed) }
{
    match rt.create(path) {
        Ok(file) => Ok(file),
        Err(_) => Err(Failure::WriteFailed),
    }
}

/// Gives a file that was written at `beside` the name `path`, once it is on the disk. If it wasn't written whole, or
/// something fails here, it is taken away, and what was at `path` stays.
#[tactic(auto, using(crate::specs::DeedLaws::may_change_one, crate::specs::DeedLaws::changes_name))]
pub fn put_in_place<'a, Y: System>(
    rt: &mut Y,
    file: &Y::NewFile,
    beside: &str,
    path: &str,
    written: Result<(), Failure<'a>>,
) -> Result<(), Failure<'a>>
    ensures whole { OnOk result (IsOk written.entry) }
    ensures failed { IfErr result (λ failure. (written.entry ≡ Err failure) ⊎ (failure ≡ Failure.WriteFailed)) }
    // What the file at `path` has then is what the new one has. Else the one that was there stays.
    ensures placed { OnOk result (Adds (Y.deeds rt.old) (Y.deeds rt.new)
        (puts beside.now path.now (Y.NewFile.contents file.now) ∷ [])) }
    ensures stays { OnErr result (ChangesOnly (λ name. name ≡ beside.now) (Y.deeds rt.old) (Y.deeds rt.new)) }
    ensures touched { ChangesOnly (λ name. (name ≡ path.now) ⊎ (name ≡ beside.now)) (Y.deeds rt.old) (Y.deeds rt.new) }
{
    if let Err(failure) = written {
        take_away(rt, beside);
        return Err(failure);
    }
    if !takes_name(rt, file, beside, path) {
        take_away(rt, beside);
        return Err(Failure::WriteFailed);
    }
    Ok(())
}

/// Removes a new file. If that fails too, the one whose place it didn't take is still whole.
fn take_away<Y: System>(rt: &mut Y, beside: &str)
    ensures may { MayAdd (Y.deeds rt.old) (Y.deeds rt.new) (changes beside.now ∷ []) }
{
    let _ = rt.remove_file(beside);
}

/// Whether a file that was written at `beside` is on the disk now, and has the name `path`.
fn takes_name<Y: System>(rt: &mut Y, file: &Y::NewFile, beside: &str, path: &str) -> bool
    ensures placed { IsTrue result → Adds (Y.deeds rt.old) (Y.deeds rt.new)
        (puts beside.now path.now (Y.NewFile.contents file.now) ∷ []) }
    ensures stays { result ≡ false → Y.deeds rt.new ≡ Y.deeds rt.old }
{
    if file.sync_all().is_err() || rt.rename(file, beside, path).is_err() {
        return false;
    }
    sync_folder(rt, path);
    true
}

/// Has the file's new name kept over a loss of power, as far as the system can: a folder may be one that can't be opened or
/// synced, and the old text is whole too.
fn sync_folder<Y: System>(rt: &Y, path: &str) {
    if let Ok(folder) = rt.open(folder_and_name(path).0) {
        let _ = folder.sync_all();
    }
}

/// The path of the folder that has the file at `path`, and the file's name in it.
pub fn folder_and_name(path: &str) -> (&str, &str)
    ensures { IsIn path.now result.0.now result.1.now }
{
    let Some((folder, name)) = path.rsplit_once('/') else {
        return (".", path);
    };
    if folder.is_empty() {
        return ("/", name);
    }
    (folder, name)
}
