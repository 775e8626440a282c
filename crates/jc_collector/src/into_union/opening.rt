//! The union of databases, opened.

ghost use Rattle.std.specs.Prelude.{◌≡◌, ◌≢◌, ◌⊎◌, [], Err, IfErr, OnOk};
ghost use Rattle.sqlite.specs.Held.{state};
ghost use Rattle.sqlite.specs.State.{HasCleanDisk};
ghost use Rattle.jc_base.specs.Device.{Rose};
ghost use Rattle.jc_base.specs.Journal.{Journal};
ghost use Rattle.jc_ledger.specs.Kept.{ComesToo, NoneCollide};
ghost use Rattle.jc_store.specs.Crash.{MayLeave};
ghost use Rattle.jc_store.specs.Meaning.{IsSound, KeepsJournal, journal_of};
ghost use Rattle.jc_collector.specs.UnionOpened.{MayOpen, MayStop};

use super::listing::list_present;
use super::noting::note_listed;
use jc_base::Fault;
use jc_keeper::{KeepStop, Keeper};
use jc_ledger::{Elsewhere, Ledger, Past, UnionKeeper};
use jc_store::{Listed, TableKeeper};
use sqlite::Alter;
use std::alloc::Global;
use std::collections::{BTreeMap, VecDeque};

/// The keeper of a union whose present database is in tables, and whose finished ones lie elsewhere.
pub type TableUnion<S, T, L, P> = UnionKeeper<TableKeeper<S, T>, L, Elsewhere<P>>;

/// Why a union isn't opened.
#[derive(Clone, Copy)]
pub enum OpenStop {
    /// The present database or the ledger failed, or memory was refused.
    Stopped(KeepStop),
    /// The entry of this number in the present database, from 0 in the order of keys, isn't the one that is noted under
    /// its key.
    Differs { index: u64 },
    /// An entry of the present database is over the limits.
    Faulty(Fault),
}

/// A union, and whether it was opened. If it wasn't, its notes may lag behind its present database.
#[derive(Drop)]
pub struct OpenedUnion<U: Drop> {
    pub union: U,
    pub opened: Result<(), OpenStop>,
}

/// The union of the databases that are finished and the present one. What a stop left stored, but not noted, is noted.
pub fn open_union<S: Alter + Drop, T: Listed + Drop, L: Ledger + Drop, P: Past>(
    alloc: Global,
    present: TableKeeper<S, T>,
    mut ledger: L,
) -> OpenedUnion<TableUnion<S, T, L, P>>
    // It is made, if the notes are of the finished databases and of some entries of the present one.
    ensures made { MayOpen T.meaning S.Store present.conn (L.known ledger) P.journal (L.came ledger)
        → NoneCollide (L.came result.union.ledger) → OnOk result.opened (⟦<TableUnion<S, T, L, P> as Keeper>⟧.made result.union) }
    ensures sound { ⟦<TableUnion<S, T, L, P> as Keeper>⟧.clean result.union
        → OnOk result.opened (⟦<TableUnion<S, T, L, P> as Keeper>⟧.sound result.union) }
    // Opened or not, a union is made again of what a crash leaves then, and so of what one leaves meanwhile.
    ensures recovers { ⟦<TableUnion<S, T, L, P> as Keeper>⟧.clean result.union
        → MayOpen T.meaning S.Store present.conn (L.known ledger) P.journal (L.came ledger) → L.sound ledger
        → ⟦<TableUnion<S, T, L, P> as Keeper>⟧.leaves_journals result.union }
    ensures left { HasCleanDisk (state S.Store result.union.present.conn)
        → MayOpen T.meaning S.Store present.conn (L.known ledger) P.journal (L.came ledger)
        → (found : Journal) → MayLeave T.meaning S.Store result.union.present.conn found → found ≡ journal_of T.meaning S.Store present.conn }
    ensures none { result.union.pending.items ≡ [] }
    ensures settled { result.union.waiting.entries ≡ [] }
    ensures journal { KeepsJournal T.meaning S.Store present.conn result.union.present.conn }
    ensures before { IsSound S.Store result.union.present.conn → IsSound S.Store present.conn }
    ensures ledger { L.sound result.union.ledger → L.sound ledger }
    ensures owners { L.sound result.union.ledger → L.owner result.union.ledger ≡ L.owner ledger }
    ensures clean { ⟦<TableUnion<S, T, L, P> as Keeper>⟧.clean result.union → HasCleanDisk (state S.Store present.conn) × L.clean ledger }
    ensures comes { ComesToo (L.came ledger) (L.came result.union.ledger) }
    // Then no entry differs from its note, and a fault is that of an entry over the limits.
    ensures failed { ⟦<TableUnion<S, T, L, P> as Keeper>⟧.clean result.union
        → MayOpen T.meaning S.Store present.conn (L.known ledger) P.journal (L.came ledger)
        → IfErr result.opened (MayStop (journal_of T.meaning S.Store present.conn)) }
    ensures store { result.opened ≡ Err (OpenStop.Stopped KeepStop.StoreFailed)
        → Rose present.failures result.union.present.failures ⊎ Rose (L.failures ledger) (L.failures result.union.ledger) }
    ensures never_read { result.opened ≢ Err (OpenStop.Stopped KeepStop.ReadFailed) }
{
    let (present, text) = list_present::<S, T>(alloc, present);
    let opened = note_listed(alloc, &mut ledger, text);
    let pending = VecDeque::new(alloc);
    let waiting = BTreeMap::new(alloc);
    OpenedUnion {
        union: UnionKeeper {
            present,
            ledger,
            pending,
            waiting,
            refusals: 0,
            shelf: Elsewhere::new(),
            machine: None,
            alloc,
        },
        opened,
    }
}
