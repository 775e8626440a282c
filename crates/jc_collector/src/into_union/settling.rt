//! What waits to be noted of a union is noted once the uploads are answered.

ghost use Rattle.std.specs.Prelude.{◌≡◌, ◌⊎◌, [], Ok, Err, IfOk, IfErr, OnOk};
ghost use Rattle.jc_ledger.specs.Kept.{IsKept};
ghost use Rattle.jc_ledger.specs.Storing.{LeavesLedger};

use jc_command_shared::{Failure, Status};
use jc_keeper::{KeepStop, Keeper};
use jc_ledger::{Ledger, Shelf, UnionKeeper};

/// Notes what waits, whatever was answered, since printed answers acknowledge what is noted once the run ends. If both fail,
/// the first failure is told.
pub(super) fn settle_after<'a, K: Keeper, L: Ledger, S: Shelf>(
    union: &mut UnionKeeper<K, L, S>,
    answered: Result<Status, Failure<'a>>,
) -> Result<Status, Failure<'a>>
    ensures answered { IfOk result (λ status. answered.entry ≡ Ok status) }
    ensures failed { IfErr result (λ failure. (answered.entry ≡ Err failure) ⊎ ((failure ≡ Failure.StoreFailed) ⊎ (failure ≡ Failure.OutOfMemory))) }
    // No failure has shut the notes.
    ensures sound { L.clean union.new.ledger → OnOk result (L.sound union.new.ledger) }
    ensures none { union.new.waiting.entries ≡ [] }
    // What is noted is what the databases have.
    ensures noted { union.old.pending.items ≡ [] → ⟦<UnionKeeper<K, L, S> as Keeper>⟧.made union.old → ⟦<UnionKeeper<K, L, S> as Keeper>⟧.sound union.new
        → IsKept (L.known union.new.ledger) (S.journal union.new.shelf) (K.journal union.new.present) (L.came union.new.ledger) }
    ensures made { union.old.pending.items ≡ [] → ⟦<UnionKeeper<K, L, S> as Keeper>⟧.made union.old → ⟦<UnionKeeper<K, L, S> as Keeper>⟧.made union.new }
    ensures recovers { union.old.pending.items ≡ [] → ⟦<UnionKeeper<K, L, S> as Keeper>⟧.clean union.new
        → ⟦<UnionKeeper<K, L, S> as Keeper>⟧.leaves_journals union.old → ⟦<UnionKeeper<K, L, S> as Keeper>⟧.leaves_journals union.new }
    ensures ledger { LeavesLedger L.clean L.sound L.came L.owner union.old.ledger union.new.ledger }
    ensures present { union.new.present ≡ union.old.present }
    ensures pending { union.new.pending ≡ union.old.pending }
    ensures shelf { union.new.shelf ≡ union.old.shelf }
{
    let settled = union.note_waiting();
    let status = answered?;
    match settled {
        Ok(()) => Ok(status),
        Err(KeepStop::OutOfMemory) => Err(Failure::OutOfMemory),
        Err(KeepStop::StoreFailed | KeepStop::ReadFailed) => Err(Failure::StoreFailed),
    }
}
