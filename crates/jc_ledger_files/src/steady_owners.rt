//! Sequences that stay whose they are.

ghost use Rattle.std.specs.Prelude.{◌≡◌};
ghost use Rattle.jc_base.specs.declared.id.Id128.{Id128};
ghost use Rattle.jc_ledger.specs.Owners.{StayOwned, StayOwnedAfter};
ghost use Rattle.jc_ledger_files.specs.Owned.{owner_found};

use crate::found::Found;
use jc_base::{Entry, Id128};
use jc_keeper::KeepStop;
use jc_ledger::{EntryDigest, Ledger, MachineDigest, Notes};
use std::marker::PhantomData;

/// A ledger in which each sequence that belonged to a machine when its files were found belongs to it. Whoever calls it, and
/// in whatever order, none is taken from its owner: that holds of every value of this type.
#[derive(Drop)]
pub struct SteadyOwners<L: Ledger, F: Found> {
    pub ledger: L,
    pub found: PhantomData<F>,
    ghost stay: { L.sound ledger → StayOwned (owner_found F.found) (L.owner ledger) },
    ghost stay_after: { L.clean ledger → StayOwnedAfter (owner_found F.found) (L.may_own ledger) },
}

impl<L: Ledger, F: Found> SteadyOwners<L, F> {
    /// A ledger that was opened over these files.
    pub fn new(ledger: L) -> SteadyOwners<L, F>
        requires sound { L.sound ledger }
        requires owners { (s : Id128) → L.owner ledger s ≡ owner_found F.found s }
        ensures { result.ledger ≡ ledger }
    {
        SteadyOwners {
            ledger,
            found: PhantomData,
        }
    }
}

impl<L: Ledger, F: Found> Ledger for SteadyOwners<L, F> {
    ghost known = { λ l. L.known l.ledger };

    ghost came = { λ l. L.came l.ledger };

    ghost clean = { λ l. L.clean l.ledger };

    ghost sound = { λ l. L.sound l.ledger };

    ghost may_leave = { λ l. L.may_leave l.ledger };

    ghost owner = { λ l. L.owner l.ledger };

    ghost may_own = { λ l. L.may_own l.ledger };

    ghost failures = { λ l. L.failures l.ledger };

    ghost clean_if_sound = { λ l. L.clean_if_sound l.ledger };

    ghost durable = { λ l. L.durable l.ledger };

    ghost owners_stay = { λ l. L.owners_stay l.ledger };

    fn begin(&mut self) -> Result<(), KeepStop> {
        self.ledger.begin()
    }

    fn find(&mut self, entry: &Entry) -> Result<Option<EntryDigest>, KeepStop> {
        self.ledger.find(entry)
    }

    fn note(&mut self, notes: Notes) -> Result<(), KeepStop> {
        self.ledger.note(notes)
    }

    fn owner_of(&mut self, sequence: Id128) -> Result<Option<MachineDigest>, KeepStop> {
        self.ledger.owner_of(sequence)
    }

    fn claim(&mut self, sequence: Id128, machine: MachineDigest) -> Result<(), KeepStop> {
        self.ledger.claim(sequence, machine)
    }

    fn shut(&mut self) {
        self.ledger.shut();
    }
}
