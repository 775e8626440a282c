//! What waits to be noted of a union is noted.

ghost use Rattle.std.specs.Prelude.{◌≡◌, ◌≢◌, [], Err, OnErr, OnOk};
ghost use Rattle.jc_keeper.specs.declared.keeper.KeepStop.TheVariants.{ReadFailed};
ghost use Rattle.jc_keeper.specs.Keeping.{StoreHasCause};
ghost use Rattle.jc_ledger.specs.Kept.{IsKept};
ghost use Rattle.jc_ledger.specs.Storing.{LeavesLedger};

use crate::ledger::Ledger;
use crate::shelf::Shelf;
use crate::union_keeper::UnionKeeper;
use crate::waiting::{begin_or_shut, note_all};
use jc_keeper::{KeepStop, Keeper};

impl<K: Keeper, L: Ledger, S: Shelf> UnionKeeper<K, L, S> {
    /// Notes what waits, and answers once a crash leaves it. Then another database may become the present one. No entry may be
    /// pending: `Keeper::settle` sees to that. A failure shuts the ledger.
    pub fn note_waiting(&mut self) -> Result<(), KeepStop>
        ensures none { self.new.waiting.entries ≡ [] }
        // What is noted is what the databases have.
        ensures noted { self.old.pending.items ≡ [] → ⟦<UnionKeeper<K, L, S> as Keeper>⟧.made self.old → ⟦<UnionKeeper<K, L, S> as Keeper>⟧.sound self.new
            → IsKept (L.known self.new.ledger) (S.journal self.new.shelf) (K.journal self.new.present) (L.came self.new.ledger) }
        ensures made { self.old.pending.items ≡ [] → ⟦<UnionKeeper<K, L, S> as Keeper>⟧.made self.old → ⟦<UnionKeeper<K, L, S> as Keeper>⟧.made self.new }
        ensures recovers { self.old.pending.items ≡ [] → ⟦<UnionKeeper<K, L, S> as Keeper>⟧.clean self.new
            → ⟦<UnionKeeper<K, L, S> as Keeper>⟧.leaves_journals self.old → ⟦<UnionKeeper<K, L, S> as Keeper>⟧.leaves_journals self.new }
        ensures ledger { LeavesLedger L.clean L.sound L.came L.owner self.old.ledger self.new.ledger }
        // A ledger that a failure has shut fails, whether any note waits or not.
        ensures answered { L.clean self.new.ledger → OnOk result (L.sound self.new.ledger) }
        ensures shut { OnErr result (L.sound self.new.ledger → ⊥) }
        ensures present { self.new.present ≡ self.old.present }
        ensures pending { self.new.pending ≡ self.old.pending }
        ensures refusals { self.new.refusals ≡ self.old.refusals }
        ensures shelf { self.new.shelf ≡ self.old.shelf }
        ensures machine { self.new.machine ≡ self.old.machine }
        ensures store { StoreHasCause (L.failures self.old.ledger) (L.failures self.new.ledger) result }
        ensures never_read { result ≢ Err ReadFailed }
    {
        if self.waiting.is_empty() {
            return begin_or_shut(&mut self.ledger);
        }
        note_all(self.alloc, &mut self.ledger, &mut self.waiting)
    }
}
