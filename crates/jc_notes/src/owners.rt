//! `owners`: which sequence is which machine's.

ghost use Rattle.std.specs.Prelude.{◌≡◌, ◌⊎◌, ◌≢◌, IfErr, IfOk, OnErr, OnOk};
ghost use Rattle.std.specs.Io.KnownBytes.{Appends, Keeps};
ghost use Rattle.jc_command_shared.specs.Deeds.{ChangesOnly};
ghost use Rattle.jc_command_shared.specs.Failure.{status_of};
ghost use Rattle.jc_command_shared.specs.Ids.{IsIdText};
ghost use Rattle.jc_ledger.specs.Owners.{machine_named};
ghost use Rattle.jc_ledger_files.specs.Owned.{owner_of, owner_window};
ghost use Rattle.jc_notes.specs.Changed.{IsInFolder};
ghost use Rattle.jc_notes.specs.Each.{GivesUp, MayWork, PrintsEach, Works, WorksEach};
ghost use Rattle.jc_notes.specs.Failing.{NamedFails, WorkFails};
ghost use Rattle.jc_notes.specs.Printed.{IsListedIf, IsOwnerToldIf, IsRelease, IsRenaming, IsRenamingIf, OfSequence, Prints, owner_note};
ghost use Rattle.jc_notes.specs.Texts.{free_line, owner_line, owner_text};
ghost use Rattle.jc_sequences.specs.Placed.{path_of};

use crate::reading::{digest_of, notes_in};
use crate::replacing::replace_notes;
use crate::texts::{free_line, owner_line, put};
use crate::verifying::{judged, print_bad};
use jc_base::{Id128, NUMBER_END};
use jc_command_shared::{Failure, Status, System, printed, source_id};
use jc_ledger::{EntryDigest, MachineDigest};
use jc_ledger_files::{WindowName, WindowNote, owner_window};
use std::alloc::Global;
use std::io::Write;

/// Prints a line for each sequence among these windows that is a machine's: `SEQUENCE SHA256`, with the digest of the
/// machine's name; or `bad SEQUENCE WINDOW`, if the note can't be read.
pub fn list_owners<'p, R: System, O: Write>(
    rt: &R,
    folder: &str,
    windows: &[WindowName],
    output: &mut O,
) -> Result<Status, Failure<'p>>
    ensures printed { IfOk result (λ status. PrintsEach (IsListedIf R.found folder.now)
        windows.now status (O.contents output.old) (O.contents output.new)) }
    ensures judged { IfOk result (λ status. (status ≡ Status.Success) ⊎ (status ≡ Status.Refused)) }
    ensures failed { IfErr result WorkFails }
{
    let mut status = Status::Success;
    for name in windows {
        let is_read = list_one(rt, folder, *name, output)?;
        status = judged(status, is_read);
    }
    printed(Ok(()), output)?;
    Ok(status)
}

/// Prints the line of a sequence, if its owner is noted in this window. False if the note can't be read.
fn list_one<'p, R: System, O: Write>(
    rt: &R,
    folder: &str,
    name: WindowName,
    output: &mut O,
) -> Result<bool, Failure<'p>>
    ensures printed { IfOk result (λ is_read.
        Prints (IsListedIf R.found folder.now name is_read) (O.contents output.old) (O.contents output.new)) }
    ensures failed { IfErr result WorkFails }
{
    if name.window != owner_window(name.sequence).window {
        return Ok(true);
    }
    print_one(rt, folder, name, output)
}

/// Prints the line of a sequence whose owner is noted in this window. False if the note can't be read.
fn print_one<'p, R: System, O: Write>(
    rt: &R,
    folder: &str,
    name: WindowName,
    output: &mut O,
) -> Result<bool, Failure<'p>>
    ensures printed { IfOk result (λ is_read.
        Prints (IsOwnerToldIf (R.found (path_of folder.now name)) name is_read) (O.contents output.old) (O.contents output.new)) }
    ensures failed { IfErr result WorkFails }
{
    match notes_in(rt, folder, name) {
        Ok(notes) => {
            print_if_owned(rt.alloc(), name.sequence, owner_of(&notes), output)?;
            Ok(true)
        }
        Err(Failure::OutOfMemory) => Err(Failure::OutOfMemory),
        Err(_) => {
            print_bad(rt.alloc(), name, output)?;
            Ok(false)
        }
    }
}

/// Has each sequence among these windows that is one machine's be another one's, and prints its line.
#[tactic(auto, using(jc_command_shared::specs::DeedLaws::nothing_changes, jc_command_shared::specs::DeedLaws::changes_then))]
pub fn rename_owner<'p, R: System, O: Write>(
    rt: &mut R,
    folder: &str,
    windows: &[WindowName],
    old: &str,
    new: &str,
    output: &mut O,
) -> Result<(), Failure<'p>>
    ensures renamed { OnOk result (WorksEach (IsRenamingIf R.found folder.now (machine_named old.now) (machine_named new.now)) windows.now
        (O.contents output.old) (O.contents output.new) (R.deeds rt.old) (R.deeds rt.new)) }
    // A failure comes behind the first of these windows.
    ensures stopped { OnErr result (GivesUp (IsRenamingIf R.found folder.now (machine_named old.now) (machine_named new.now))
        (path_of folder.now) windows.now (R.deeds rt.old) (R.deeds rt.new)) }
    ensures touched { ChangesOnly (IsInFolder folder.now) (R.deeds rt.old) (R.deeds rt.new) }
    ensures failed { IfErr result WorkFails }
{
    let from = MachineDigest::of(old.as_bytes());
    let to = MachineDigest::of(new.as_bytes());
    rename_each(rt, folder, windows, from, to, output)?;
    printed(Ok(()), output)
}

/// The same by the digests of the machines' names.
#[tactic(auto, using(jc_command_shared::specs::DeedLaws::nothing_changes, jc_command_shared::specs::DeedLaws::changes_then))]
fn rename_each<'p, R: System, O: Write>(
    rt: &mut R,
    folder: &str,
    windows: &[WindowName],
    from: MachineDigest,
    to: MachineDigest,
    output: &mut O,
) -> Result<(), Failure<'p>>
    ensures renamed { OnOk result (WorksEach (IsRenamingIf R.found folder.now from to) windows.now
        (O.contents output.old) (O.contents output.new) (R.deeds rt.old) (R.deeds rt.new)) }
    ensures stopped { OnErr result (GivesUp (IsRenamingIf R.found folder.now from to) (path_of folder.now) windows.now
        (R.deeds rt.old) (R.deeds rt.new)) }
    ensures touched { ChangesOnly (IsInFolder folder.now) (R.deeds rt.old) (R.deeds rt.new) }
    ensures failed { IfErr result WorkFails }
{
    for name in windows {
        rename_one(rt, folder, *name, from, to, output)?;
    }
    Ok(())
}

/// The same of the sequence whose owner may be noted in this window.
#[tactic(auto, using(jc_command_shared::specs::DeedLaws::nothing_changes))]
fn rename_one<'p, R: System, O: Write>(
    rt: &mut R,
    folder: &str,
    name: WindowName,
    from: MachineDigest,
    to: MachineDigest,
    output: &mut O,
) -> Result<(), Failure<'p>>
    ensures renamed { OnOk result (Works (IsRenamingIf R.found folder.now from to name)
        (O.contents output.old) (O.contents output.new) (R.deeds rt.old) (R.deeds rt.new)) }
    ensures stopped { OnErr result (MayWork (IsRenamingIf R.found folder.now from to name) (path_of folder.now name)
        (R.deeds rt.old) (R.deeds rt.new)) }
    ensures touched { ChangesOnly (IsInFolder folder.now) (R.deeds rt.old) (R.deeds rt.new) }
    ensures failed { IfErr result WorkFails }
{
    if name.window != owner_window(name.sequence).window {
        return Ok(());
    }
    rename_noted(rt, folder, name, from, to, output)
}

/// The same of the sequence whose owner is noted in this window.
#[tactic(auto, using(jc_command_shared::specs::DeedLaws::nothing_changes, jc_command_shared::specs::DeedLaws::changes_then))]
fn rename_noted<'p, R: System, O: Write>(
    rt: &mut R,
    folder: &str,
    name: WindowName,
    from: MachineDigest,
    to: MachineDigest,
    output: &mut O,
) -> Result<(), Failure<'p>>
    ensures renamed { OnOk result (Works (IsRenaming R.found folder.now from to name)
        (O.contents output.old) (O.contents output.new) (R.deeds rt.old) (R.deeds rt.new)) }
    ensures stopped { OnErr result (MayWork (IsRenaming R.found folder.now from to name) (path_of folder.now name)
        (R.deeds rt.old) (R.deeds rt.new)) }
    ensures touched { ChangesOnly (IsInFolder folder.now) (R.deeds rt.old) (R.deeds rt.new) }
    ensures failed { IfErr result WorkFails }
{
    let notes = notes_in(rt, folder, name)?;
    if owner_of(&notes) != Some(from) {
        return Ok(());
    }
    replace_notes(rt, folder, name, &[owner_note(to)])?;
    print_owner(rt.alloc(), name.sequence, to, output)
}

/// Has a sequence be nobody's, and prints its line, if it was a machine's.
#[tactic(auto, using(crate::proofs::Failures::work_failed))]
pub fn release_sequence<'p, R: System, O: Write>(
    rt: &mut R,
    folder: &str,
    sequence: &'p str,
    output: &mut O,
) -> Result<(), Failure<'p>>
    ensures released { OnOk result (OfSequence sequence.entry.now (λ s. Works (IsRelease R.found folder.now s)
        (O.contents output.old) (O.contents output.new) (R.deeds rt.old) (R.deeds rt.new))) }
    // A failure leaves all as it was, or the file of this sequence's owner, or comes behind its release.
    ensures stopped { OnErr result ((R.deeds rt.new ≡ R.deeds rt.old) ⊎ OfSequence sequence.entry.now
        (λ s. MayWork (IsRelease R.found folder.now s) (path_of folder.now (owner_window s)) (R.deeds rt.old) (R.deeds rt.new))) }
    ensures bad { IfErr result (λ failure. failure ≡ Failure.BadId → ¬ IsIdText sequence.entry.now) }
    ensures unchanged { IfErr result (λ failure. status_of failure ≢ Status.Failed → R.deeds rt.new ≡ R.deeds rt.old) }
    ensures touched { ChangesOnly (IsInFolder folder.now) (R.deeds rt.old) (R.deeds rt.new) }
    ensures failed { IfErr result NamedFails }
    ensures untouched { IfErr result (λ failure. status_of failure ≢ Status.Failed
        → Keeps (O.contents output.old) (O.contents output.new)) }
{
    let sequence = source_id(sequence)?;
    release_one(rt, folder, sequence, output)?;
    printed(Ok(()), output)
}

/// The same of the sequence with this id.
#[tactic(auto, using(jc_command_shared::specs::DeedLaws::nothing_changes, jc_command_shared::specs::DeedLaws::changes_then))]
fn release_one<'p, R: System, O: Write>(
    rt: &mut R,
    folder: &str,
    sequence: Id128,
    output: &mut O,
) -> Result<(), Failure<'p>>
    ensures released { OnOk result (Works (IsRelease R.found folder.now sequence)
        (O.contents output.old) (O.contents output.new) (R.deeds rt.old) (R.deeds rt.new)) }
    ensures stopped { OnErr result (MayWork (IsRelease R.found folder.now sequence) (path_of folder.now (owner_window sequence))
        (R.deeds rt.old) (R.deeds rt.new)) }
    ensures touched { ChangesOnly (IsInFolder folder.now) (R.deeds rt.old) (R.deeds rt.new) }
    ensures failed { IfErr result WorkFails }
{
    let name = owner_window(sequence);
    let notes = notes_in(rt, folder, name)?;
    if owner_of(&notes).is_none() {
        return Ok(());
    }
    replace_notes(rt, folder, name, &[])?;
    print_free(rt.alloc(), sequence, output)
}

/// The machine that is noted as an owner, if one is.
fn owner_of(notes: &[WindowNote]) -> Option<MachineDigest>
    ensures { result ≡ owner_of notes.now }
{
    let digest = digest_of(notes, NUMBER_END)?;
    Some(MachineDigest(digest.0))
}

/// The note that a sequence is this machine's.
fn owner_note(machine: MachineDigest) -> WindowNote
    ensures { result ≡ owner_note machine }
{
    WindowNote {
        number: NUMBER_END,
        digest: EntryDigest(machine.0),
    }
}

fn print_if_owned<'p, O: Write>(
    alloc: Global,
    sequence: Id128,
    owner: Option<MachineDigest>,
    output: &mut O,
) -> Result<(), Failure<'p>>
    ensures printed { OnOk result (Appends (O.contents output.old) (O.contents output.new) (owner_text sequence owner)) }
    ensures failed { IfErr result WorkFails }
{
    match owner {
        Some(machine) => print_owner(alloc, sequence, machine, output),
        None => Ok(()),
    }
}

fn print_owner<'p, O: Write>(
    alloc: Global,
    sequence: Id128,
    machine: MachineDigest,
    output: &mut O,
) -> Result<(), Failure<'p>>
    ensures printed { OnOk result (Appends (O.contents output.old) (O.contents output.new) (owner_line sequence machine)) }
    ensures failed { IfErr result WorkFails }
{
    let line = owner_line(alloc, sequence, machine)?;
    put(output, line.as_bytes())
}

fn print_free<'p, O: Write>(
    alloc: Global,
    sequence: Id128,
    output: &mut O,
) -> Result<(), Failure<'p>>
    ensures printed { OnOk result (Appends (O.contents output.old) (O.contents output.new) (free_line sequence)) }
    ensures failed { IfErr result WorkFails }
{
    let line = free_line(alloc, sequence)?;
    put(output, line.as_bytes())
}
