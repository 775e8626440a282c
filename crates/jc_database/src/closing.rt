//! The files of a database, closed, and what a run leaves of them that is stopped.

ghost use Rattle.std.specs.Prelude.{◌≡◌, IfOk, IfErr, IsTrue};
ghost use Rattle.sqlite.specs.View.{IsClean};
ghost use Rattle.sqlite.specs.Held.{state};
ghost use Rattle.sqlite.specs.State.{HasCleanDisk};
ghost use Rattle.jc_base.specs.Journal.{Journal};
ghost use Rattle.jc_store.specs.Meaning.{AreMade, IsSound, journal_of};
ghost use Rattle.jc_store.specs.Crash.{LeavesJournals, MayLeave};
ghost use Rattle.jc_database.specs.Files.{AreLawful, IsCopied, IsGivenBack, KeepsAlways};
ghost use Rattle.jc_database.specs.Left.{IsLeftOf, StopsIn, StopsOnly};

use crate::store_in_files::StoreInFiles;
use jc_store::{Layout, TableKeeper};
use sqlite::Connection;
use sqlite_trees::error::StoreError;

/// Why a database wasn't closed, and what is left of it.
#[derive(Drop)]
pub struct FailedClose<S: Drop> {
    pub error: StoreError,
    pub store: S,
}

/// Closes the database of a keeper: the log is copied into the database file, and the files are given back.
pub fn close_keeper<F: StoreInFiles, L: Layout>(
    keeper: TableKeeper<F, L>,
) -> Result<F::Files, FailedClose<F>>
    ensures keeps { AreMade L.meaning F.Store keeper.conn → IfOk result (λ files. F.in_files.clean files
        → KeepsAlways L.meaning F.in_files files (journal_of L.meaning F.Store keeper.conn)) }
    ensures sound { IfOk result (λ files. F.in_files.clean files → IsSound F.Store keeper.conn) }
    // If the close fails, a crash leaves a journal that it might have left before.
    ensures left { IfErr result (λ failed. IsTrue (F.Store.view failed.store).is_numbered
        → StopsIn L.meaning F.Store F.in_files keeper.conn failed.store) }
    ensures clean { IfErr result (λ failed. IsClean (F.Store.view failed.store) → HasCleanDisk (state F.Store keeper.conn)) }
{
    let conn = keeper.into_connection();
    // Its contract has that the database obeys its schema.
    let _schema = conn.schema();
    close_connection(conn)
}

/// Closes a connection. What isn't committed is lost.
pub(crate) fn close_connection<F: StoreInFiles>(
    conn: Connection<F>,
) -> Result<F::Files, FailedClose<F>>
    ensures copied { IfOk result (λ files. F.in_files.clean files → IsCopied F.Store F.in_files conn files) }
    ensures failed { IfErr result (λ failed. IsGivenBack F.Store conn failed.store) }
{
    conn.into_store().into_files()
}

/// What may be left of the database of a keeper that is sound is its journal. Does nothing: a proof has it from the contract.
pub fn sound_leaves_journals<F: StoreInFiles, L: Layout>(keeper: &TableKeeper<F, L>)
    ensures journals { IsSound F.Store keeper.now.conn → AreMade L.meaning F.Store keeper.now.conn
        → LeavesJournals L.meaning F.Store keeper.now.conn }
    ensures durable { IsSound F.Store keeper.now.conn → AreMade L.meaning F.Store keeper.now.conn
        → (found : Journal) → MayLeave L.meaning F.Store keeper.now.conn found
        → found ≡ journal_of L.meaning F.Store keeper.now.conn }
{
    let _ = keeper;
}

/// What is left of the database of a keeper whose run is stopped.
pub fn stop_keeper<F: StoreInFiles, L: Layout>(keeper: TableKeeper<F, L>) -> F
    ensures left { AreLawful L.meaning → LeavesJournals L.meaning F.Store keeper.conn
        → StopsOnly F.Store F.in_files result (IsLeftOf L.meaning F.Store keeper.conn) }
    ensures clean { IsClean (F.Store.view result) → HasCleanDisk (state F.Store keeper.conn) }
{
    keeper.into_connection().into_store()
}
