//! A keeper over a database in memory.

ghost use Rattle.std.specs.Prelude.{◌≡◌, ◌≢◌, Err, IfOk};
ghost use Rattle.std.specs.FinMap as finite;
ghost use Rattle.sqlite.specs.Steps.{over_memory};
ghost use Rattle.jc_keeper.specs.declared.keeper.KeepStop.TheVariants.{ReadFailed};
ghost use Rattle.jc_store.specs.Meaning.{AreMade, journal_of};

use jc_base::{Code, Entry, EntrySource, Key};
use jc_keeper::{Absorbed, KeepStop, Keeper};
use jc_store::{AdoptFault, Layout, TableKeeper, memory_is_sound};
use sqlite::{Connection, MemStore};
use std::alloc::Global;
use std::marker::Model;

/// Keeps a journal in the tables of a database in memory, laid out as `L` says, which nothing but keepers has written to.
#[derive(Drop)]
pub struct MemoryKeeper<L: Layout> {
    keeper: TableKeeper<MemStore, L>,
}

impl<L: Layout> Model for MemoryKeeper<L> {
    ghost use Rattle.sqlite.specs.Steps.{over_memory};
    ghost use Rattle.jc_store.specs.Meaning.{AreMade, journal_of};
    ghost use Rattle.jc_theorems.specs.InMemory.{InMemory, in_memory_code};

    ghost Value = { InMemory };

    ghost coded = { in_memory_code };

    ghost view = { λ m. record { journal = journal_of L.meaning over_memory m.keeper.conn; failures = m.keeper.failures } };

    ghost invariant = { λ m. AreMade L.meaning over_memory m.keeper.conn };
}

impl<L: Layout> MemoryKeeper<L> {
    /// A keeper of the empty journal, in a database of its own.
    pub fn new(alloc: Global) -> Result<MemoryKeeper<L>, KeepStop>
        ensures empty { IfOk result (λ m. m ≡ record { journal = finite.empty; failures = 0 }) }
        ensures never_read { result ≢ Err ReadFailed }
    {
        // Does nothing: from its contract the proof has that the database is sound.
        memory_is_sound();
        let Ok(conn) = Connection::open_in_memory(alloc) else {
            return Err(KeepStop::OutOfMemory);
        };
        match TableKeeper::create(alloc, conn) {
            Ok(keeper) => Ok(MemoryKeeper { keeper }),
            Err((fault, _conn)) => Err(stop_for(fault)),
        }
    }

    /// The keeper of its database. Takes no memory.
    pub fn into_keeper(self) -> TableKeeper<MemStore, L>
        ensures journal { journal_of L.meaning over_memory result.conn ≡ self.journal }
        ensures failures { result.failures ≡ self.failures }
        ensures made { AreMade L.meaning over_memory result.conn }
    {
        self.keeper
    }
}

impl<L: Layout> Keeper for MemoryKeeper<L> {
    ghost use Rattle.std.specs.Prelude.{⊤};

    ghost journal = { λ m. m.journal };

    ghost clean = { λ _. ⊤ };

    ghost sound = { λ _. ⊤ };

    ghost made = { λ _. ⊤ };

    // A crash leaves nothing of it.
    ghost may_leave = { λ _ _. ⊥ };

    ghost leaves_journals = { λ _. ⊤ };

    ghost failures = { λ m. m.failures };

    ghost has_owners = { ⊥ };

    ghost clean_if_sound = { λ m sound. sound };

    ghost durable = { λ m found sound made settled left. absurd left };

    ghost settled_at_once = { λ once m. once };

    ghost recovers_if_sound = { λ m sound made. sound };

    fn brought_by(&mut self, _machine: Option<&[u8]>) {}

    fn absorb<S: EntrySource>(&mut self, source: &mut S) -> Result<Absorbed, KeepStop> {
        memory_is_sound();
        self.keeper.absorb(source)
    }

    fn settle(&mut self) -> Result<(), KeepStop> {
        Ok(())
    }

    fn get(&mut self, key: &Key) -> Result<Option<Entry>, KeepStop> {
        memory_is_sound();
        self.keeper.get(key)
    }
}

/// Why no tables were made, as a keeper's stop.
fn stop_for(fault: AdoptFault) -> KeepStop
    ensures { result ≢ ReadFailed }
{
    match fault.code {
        Code::OutOfMemory => KeepStop::OutOfMemory,
        _ => KeepStop::StoreFailed,
    }
}
