//! Connections that no keeper was made of, closed.

ghost use Rattle.sqlite.specs.Recovery.{Image};
ghost use Rattle.jc_database.specs.Left.{HaveLeft, IfMade, IfNoMore, LeavesAsBefore, LeavesAsBeforeOr, LeavesOnly};

use crate::closing::close_connection;
use crate::store_in_files::StoreInFiles;
use jc_store::Layout;
use sqlite::Connection;

/// Closes a database whose tables were refused.
pub fn close_refused<F: StoreInFiles>(refused: Connection<F>) -> F::Left
    ensures left { IfNoMore F.Store refused (λ before. LeavesAsBefore F.in_files before result) }
{
    hand_back(refused)
}

/// Closes a database in which no tables could be made.
pub fn close_unmade<F: StoreInFiles, L: Layout>(unmade: Connection<F>) -> F::Left
    ensures left { IfMade F.Store L.meaning unmade (λ before. LeavesAsBeforeOr F.in_files L.meaning before result) }
{
    hand_back(unmade)
}

/// Closes a connection of which no more is wanted than what is left of its files.
fn hand_back<F: StoreInFiles>(conn: Connection<F>) -> F::Left
    ensures { (before : Image) → LeavesOnly F.in_files (HaveLeft F.Store conn) before result }
{
    match close_connection(conn) {
        Ok(files) => F::left_files(files),
        Err(failed) => failed.store.left_store(),
    }
}
