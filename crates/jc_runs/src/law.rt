//! What holds after any list of runs.

ghost use Rattle.std.specs.Prelude.{◌≡◌, List, Option};
ghost use Rattle.std.specs.List.{Contains};
ghost use Rattle.jc_base.specs.declared.id.Id128.{Id128};
ghost use Rattle.jc_base.specs.declared.id.Key.{Key};
ghost use Rattle.jc_base.specs.LogEntry.{IsKey};
ghost use Rattle.jc_ledger.specs.declared.owner.MachineDigest.{MachineDigest};
ghost use Rattle.jc_ledger.specs.Kept.{IsKept, NoneCollide};
ghost use Rattle.jc_runs.specs.Between.{Between, Fate, nothing};
ghost use Rattle.jc_runs.specs.Forgotten.{FrontsAreKept, MayKeepFirst, WindowsGo};
ghost use Rattle.jc_runs.specs.Limited.{CollectsWithin};
ghost use Rattle.jc_runs.specs.Next.{BeginsUnopened, FirstBegins};
ghost use Rattle.jc_runs.specs.Renamed.{OwnersAreChanged};
ghost use Rattle.jc_runs.specs.Safe.{DeletesSafely, TellsAll};
ghost use Rattle.jc_runs.specs.Stands.{Keeps, Stands};
ghost use Rattle.jc_runs.specs.Steps.{Leads, LeadsOn, Step, Turn, renames, with_owner};
ghost use Rattle.jc_runs.specs.Starts.{AreStarts};
ghost use Rattle.jc_runs.specs.Worked.{IsWorked};
ghost use Rattle.jc_runs.specs.WorkedFront.{KeepsNoNote};
ghost use Rattle.jc_runs.specs.WorkedOwners.{AreRenamed};

use jc_base::Limits;
use jc_collect::{acknowledged_stored, each_stored};
use jc_ledger::union_laws;
use jc_ledger_files::owners_are_no_harm;
use jc_upload::one_saying;

/// What is acknowledged is kept, once, and owners stay, whatever runs end or are stopped, databases take turns, are set aside
/// or go for their age, and windows of notes go, in any order. Does nothing.
pub fn runs_keep()
    // At first there is nothing, and a run may begin.
    ensures begins { Stands nothing }
    // It begins with no file, whichever tables it makes.
    ensures first { FirstBegins }
    ensures unopened { BeginsUnopened }
    ensures keeps { (b c : Between) (steps : List Step) → LeadsOn b steps c → NoneCollide (Contains c.came) → Stands b → Keeps b steps c }
    // Behind a run that ended a turn leaves no note unmade.
    ensures turns { (fate : Fate) (b c : Between) → Turn fate b c → IsKept b.known b.past b.now (Contains b.came)
        → (k : Key) → IsKey k → c.forgotten k ≡ b.forgotten k }
    // If `acknowledged` ends with 0, a line acknowledges all of the upload, and all that this reads as is kept.
    ensures tells { TellsAll }
    ensures deletes { DeletesSafely }
    // All that is kept of uploads which are read so is within the limits, as it has to be for an export to be read back.
    ensures limited { (limits : Limits) → CollectsWithin limits }
    // `owners` finds whose a sequence is where the next run does, and what it changes there is such a step.
    ensures owners { OwnersAreChanged }
    // So it is where files of windows go, and where `notes forget-after` has windows keep their first notes, as may any that have
    // one note of a number.
    ensures windows_go { WindowsGo }
    ensures fronts { FrontsAreKept }
    ensures may_keep { MayKeepFirst }
    // Whose a sequence is may be changed at any time.
    ensures renames { (b : Between) (s : Id128) (machine : Option MachineDigest) → Leads (renames s) b (with_owner s machine b) }
    // There are such lists, and such uploads.
    ensures worked { (c : Between) × IsWorked c }
    // Behind some of their steps a run begins, with files of notes that have something.
    ensures starts { AreStarts }
    // Behind four of them two sequences are renamed, one after the other.
    ensures both_renamed { (b : Between) × AreRenamed b }
    // So is a window that keeps none of its notes.
    ensures keeps_no_note { (b : Between) × KeepsNoNote b }
{
    acknowledged_stored();
    each_stored();
    one_saying();
    union_laws();
    let _limits = Limits::default();
    jc_export::one_reading();
    jc_export::canonical_texts_read_back();
    jc_upload::one_head();
    jc_upload::one_answer();
    jc_ledger_files::one_reading();
    owners_are_no_harm();
}
