//! `notes forget-after`: windows keep their first notes.

ghost use Rattle.std.specs.Prelude.{◌≡◌, ◌≢◌, ◌⊎◌, ℕ, None, IfErr, IfSome, OnErr, OnOk};
ghost use Rattle.jc_command_shared.specs.Deeds.{ChangesOnly, LeavesOld};
ghost use Rattle.jc_command_shared.specs.Failure.{status_of};
ghost use Rattle.jc_notes.specs.Changed.{IsInFolder, IsKeptFront};
ghost use Rattle.jc_notes.specs.Each.{GivesUp, Works, WorksEach};
ghost use Rattle.jc_notes.specs.Failing.{LinesFail, WorkFails};
ghost use Rattle.jc_notes.specs.Lines.{IsFirstBadFront, NameOnce, OfFronts};
ghost use Rattle.jc_sequences.specs.Placed.{path_of};

use crate::lines::{Front, fronts_in};
use crate::reading::notes_in;
use crate::replacing::replace_notes;
use jc_command_shared::{Failure, Status, System, read_whole};
use std::io::Read;

/// Has each window on standard input, a line `SEQUENCE WINDOW COUNT`, keep its first notes alone. One that has no more
/// stays as it is. Each is named once: what is found of a file is what it had before all of this.
#[tactic(auto, using(jc_command_shared::specs::DeedLaws::nothing_changes, crate::proofs::Failures::work_failed))]
pub fn forget_after<'p, R: System, I: Read>(
    rt: &mut R,
    folder: &str,
    input: &mut I,
) -> Result<(), Failure<'p>>
    // Of each window that a known text names.
    ensures kept { OnOk result (IfSome (I.remaining input.old) (OfFronts
        (λ fronts. WorksEach (IsKeptFront R.found folder.now) fronts None None (R.deeds rt.old) (R.deeds rt.new)))) }
    // A failure leaves all as it was, or comes behind the first of these windows.
    ensures stopped { OnErr result ((R.deeds rt.new ≡ R.deeds rt.old) ⊎ IfSome (I.remaining input.old) (OfFronts
        (λ fronts. GivesUp (IsKeptFront R.found folder.now) (λ front. path_of folder.now front.window) fronts (R.deeds rt.old) (R.deeds rt.new)))) }
    ensures bad { IfErr result (λ failure. (line : ℕ) → failure ≡ Failure.BadLine line
        → IfSome (I.remaining input.old) (λ text. IsFirstBadFront text line)) }
    ensures unchanged { IfErr result (λ failure. status_of failure ≢ Status.Failed → R.deeds rt.new ≡ R.deeds rt.old) }
    ensures touched { ChangesOnly (IsInFolder folder.now) (R.deeds rt.old) (R.deeds rt.new) }
    ensures failed { IfErr result LinesFail }
{
    let text = read_whole(rt.alloc(), input)?;
    let fronts = fronts_in(rt.alloc(), &text)?;
    keep_fronts(rt, folder, &fronts)
}

/// Has each of these windows keep its first notes alone.
#[tactic(auto, using(jc_command_shared::specs::DeedLaws::nothing_changes, jc_command_shared::specs::DeedLaws::changes_then))]
fn keep_fronts<'p, R: System>(rt: &mut R, folder: &str, fronts: &[Front]) -> Result<(), Failure<'p>>
    ensures kept { OnOk result (WorksEach (IsKeptFront R.found folder.now) fronts.now None None (R.deeds rt.old) (R.deeds rt.new)) }
    ensures stopped { OnErr result (GivesUp (IsKeptFront R.found folder.now) (λ front. path_of folder.now front.window) fronts.now
        (R.deeds rt.old) (R.deeds rt.new)) }
    ensures touched { ChangesOnly (IsInFolder folder.now) (R.deeds rt.old) (R.deeds rt.new) }
    ensures failed { IfErr result WorkFails }
{
    for front in fronts {
        keep_front(rt, folder, *front)?;
    }
    Ok(())
}

#[tactic(auto, using(jc_command_shared::specs::DeedLaws::nothing_changes))]
fn keep_front<'p, R: System>(rt: &mut R, folder: &str, front: Front) -> Result<(), Failure<'p>>
    ensures kept { OnOk result (Works (IsKeptFront R.found folder.now front) None None (R.deeds rt.old) (R.deeds rt.new)) }
    ensures stays { OnErr result (LeavesOld (path_of folder.now front.window) (R.deeds rt.old) (R.deeds rt.new)) }
    ensures touched { ChangesOnly (IsInFolder folder.now) (R.deeds rt.old) (R.deeds rt.new) }
    ensures failed { IfErr result WorkFails }
{
    let mut notes = notes_in(rt, folder, front.window)?;
    if notes.len() as u64 <= front.count {
        return Ok(());
    }
    notes.truncate(front.count as usize);
    replace_notes(rt, folder, front.window, &notes)
}
