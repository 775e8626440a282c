//! The file of a window, replaced.

ghost use Rattle.std.specs.Prelude.{◌≡◌, ◌⊎◌, ◌++◌, ◌∷◌, [], IfErr, OnErr, OnOk};
ghost use Rattle.std.specs.Io.KnownBytes.{Appends};
ghost use Rattle.jc_command_shared.specs.Deeds.{Adds, ChangesOnly, IsReplaced, LeavesOld, Replaces};
ghost use Rattle.jc_ledger_files.specs.Blocks.{blocks};
ghost use Rattle.jc_notes.specs.Changed.{IsInFolder, replacing};
ghost use Rattle.jc_sequences.specs.Placed.{path_of};

use jc_command_shared::{Failure, System, create_file, name_beside, printed, put_in_place};
use jc_ledger_files::{WindowName, WindowNote, blocks_text};
use jc_sequences::window_path;
use std::alloc::Global;
use std::io::Write;

/// Has a window have these notes alone. Nobody may add notes meanwhile.
#[tactic(auto, using(jc_command_shared::specs::DeedLaws::nothing_changes))]
pub(crate) fn replace_notes<'p, R: System>(
    rt: &mut R,
    folder: &str,
    name: WindowName,
    notes: &[WindowNote],
) -> Result<(), Failure<'p>>
    ensures replaced { OnOk result (Adds (R.deeds rt.old) (R.deeds rt.new) (replacing (path_of folder.now name) notes.now)) }
    ensures stays { OnErr result (LeavesOld (path_of folder.now name) (R.deeds rt.old) (R.deeds rt.new)) }
    ensures touched { ChangesOnly (IsInFolder folder.now) (R.deeds rt.old) (R.deeds rt.new) }
    ensures failed { IfErr result (λ failure. (failure ≡ Failure.WriteFailed) ⊎ (failure ≡ Failure.OutOfMemory)) }
{
    let Ok(path) = window_path(rt.alloc(), folder, name) else {
        return Err(Failure::OutOfMemory);
    };
    replace_file(rt, path.as_str(), notes)
}

/// Has a file have these notes alone. They are written beside it, and take its name then: so a loss of power leaves the
/// old notes or these.
#[tactic(auto, using(jc_command_shared::specs::DeedLaws::nothing_changes, jc_command_shared::specs::DeedLaws::may_change_one))]
fn replace_file<'p, R: System>(
    rt: &mut R,
    path: &str,
    notes: &[WindowNote],
) -> Result<(), Failure<'p>>
    ensures replaced { OnOk result (Replaces path.now (blocks notes.now ++ 0 ∷ []) (R.deeds rt.old) (R.deeds rt.new)) }
    ensures stays { OnErr result (LeavesOld path.now (R.deeds rt.old) (R.deeds rt.new)) }
    ensures touched { ChangesOnly (IsReplaced path.now) (R.deeds rt.old) (R.deeds rt.new) }
    ensures failed { IfErr result (λ failure. (failure ≡ Failure.WriteFailed) ⊎ (failure ≡ Failure.OutOfMemory)) }
{
    let beside = name_beside(rt.alloc(), path)?;
    let mut file = create_file(rt, beside.as_str())?;
    let written = put_notes(rt.alloc(), &mut file, notes);
    put_in_place(rt, &file, beside.as_str(), path, written)
}

/// Writes the blocks of notes, and all of them.
fn put_notes<'p, W: Write>(
    alloc: Global,
    file: &mut W,
    notes: &[WindowNote],
) -> Result<(), Failure<'p>>
    ensures whole { OnOk result (Appends (W.contents file.old) (W.contents file.new) (blocks notes.now ++ 0 ∷ [])) }
    ensures failed { IfErr result (λ failure. (failure ≡ Failure.WriteFailed) ⊎ (failure ≡ Failure.OutOfMemory)) }
{
    let text = blocks_text(alloc, notes)?;
    let written = file.write_all(&text);
    printed(written, file)
}
