//! What commands do with the notes in a folder.

ghost use Rattle.std.specs.Prelude.{◌≢◌, IfErr, IfOk, OnOk};
ghost use Rattle.std.specs.Io.KnownBytes.{Keeps};
ghost use Rattle.jc_command_shared.specs.Failure.{status_of};
ghost use Rattle.jc_command.specs.Notes.{ChangesNotes, ChangesOwners, FolderFailsBy, ListsOwners, NotesFailBy, RenamesOwner, WorksOnNotes};

use crate::begun::Begun;
use crate::note_folders::NoteFolders;
use jc_command_args::NotesTask;
use jc_command_shared::{Failure, Status, System};
use jc_notes::{forget_after, list_owners, rename_owner, say_noted, verify_notes};
use std::io::{Read, Write};

/// Does with the notes in a folder what is to be done.
#[tactic(auto, using(crate::proofs::NotesFailing::by_lines, crate::proofs::NotesFailing::by_work, jc_command_shared::specs::DeedLaws::nothing_changes))]
pub(crate) fn work_on_notes<'w, Y: System, S: Begun, N: NoteFolders<S>, I: Read, O: Write>(
    rt: &mut Y,
    folders: &N,
    sequences: &'w str,
    task: NotesTask,
    input: &mut I,
    output: &mut O,
) -> Result<Status, Failure<'w>>
    ensures worked { IfOk result (WorksOnNotes Y.found sequences.now task (I.remaining input.old)
        (O.contents output.old) (O.contents output.new) (Y.deeds rt.old) (Y.deeds rt.new)) }
    ensures failed { IfErr result (NotesFailBy sequences.now task (I.remaining input.old)) }
    ensures untouched { IfErr result (λ failure. status_of failure ≢ Status.Failed
        → Keeps (O.contents output.old) (O.contents output.new)) }
    ensures touched { ChangesNotes Y.found sequences.now task (I.remaining input.old) (Y.deeds rt.old) (Y.deeds rt.new) }
{
    match task {
        NotesTask::Has => {
            say_noted(rt, sequences, input, output)?;
            Ok(Status::Success)
        }
        NotesTask::ForgetAfter => {
            forget_after(rt, sequences, input)?;
            Ok(Status::Success)
        }
        NotesTask::Verify => {
            let windows = folders.list(sequences)?;
            verify_notes(rt, sequences, &windows, output)
        }
    }
}

/// Lists the owners of the sequences that have notes in a folder.
#[tactic(auto, using(crate::proofs::NotesFailing::by_work))]
pub(crate) fn list_all_owners<'w, Y: System, S: Begun, N: NoteFolders<S>, O: Write>(
    rt: &Y,
    folders: &N,
    sequences: &'w str,
    output: &mut O,
) -> Result<Status, Failure<'w>>
    ensures listed { IfOk result (ListsOwners Y.found sequences.now (O.contents output.old) (O.contents output.new)) }
    ensures failed { IfErr result (FolderFailsBy sequences.now) }
    ensures untouched { IfErr result (λ failure. status_of failure ≢ Status.Failed
        → Keeps (O.contents output.old) (O.contents output.new)) }
{
    let windows = folders.list(sequences)?;
    list_owners(rt, sequences, &windows, output)
}

/// Has each sequence that has notes in a folder and is one machine's be another one's.
#[tactic(auto, using(crate::proofs::NotesFailing::by_work, jc_command_shared::specs::DeedLaws::nothing_changes))]
pub(crate) fn rename_all<'w, Y: System, S: Begun, N: NoteFolders<S>, O: Write>(
    rt: &mut Y,
    folders: &N,
    sequences: &'w str,
    old: &str,
    new: &str,
    output: &mut O,
) -> Result<(), Failure<'w>>
    ensures renamed { OnOk result (RenamesOwner Y.found sequences.now old.now new.now
        (O.contents output.old) (O.contents output.new) (Y.deeds rt.old) (Y.deeds rt.new)) }
    ensures failed { IfErr result (FolderFailsBy sequences.now) }
    ensures untouched { IfErr result (λ failure. status_of failure ≢ Status.Failed
        → Keeps (O.contents output.old) (O.contents output.new)) }
    ensures touched { ChangesOwners Y.found sequences.now old.now new.now (Y.deeds rt.old) (Y.deeds rt.new) }
{
    let windows = folders.list(sequences)?;
    rename_owner(rt, sequences, &windows, old, new, output)
}
