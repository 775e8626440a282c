//! The files of a database, opened.

ghost use Rattle.std.specs.Prelude.{◌≡◌, ◌∷◌, [], false, None, IfOk, IfErr, IfSome};
ghost use Rattle.sqlite.specs.State.{HasCleanDisk};
ghost use Rattle.sqlite.specs.Files.{file_state, over_files};
ghost use Rattle.sqlite.specs.Held.{state};
ghost use Rattle.sqlite.specs.WalFiles.{image_at};
ghost use Rattle.jc_command_shared.specs.Deeds.{Adds, opens};
ghost use Rattle.jc_database.specs.Files.{IsFound};
ghost use Rattle.jc_database.specs.Left.{IsEarly, LeavesAsBefore};
ghost use Rattle.jc_database.specs.OverDisk.{over_disk};

use crate::store_in_files::OpenFromFiles;
use jc_command_shared::{Host, System};
use sqlite::{Connection, Error, FileFrom, FileStore, Leftover, Start};
use sqlite_disk::Disk;

/// Why a database wasn't opened, and what is left of its files, if they were.
#[derive(Drop)]
pub struct FailedOpen<L: Drop> {
    pub error: Error,
    pub left: Option<L>,
}

/// A system that has databases in its files.
pub trait Databases: System {
    /// Opens the database file at `path` and the log beside it, or makes them. `start` stands for what they hold. That it was
    /// opened is noted, whether that succeeds or not.
    fn open_database<F: OpenFromFiles>(
        &mut self,
        path: &str,
        start: F::Start,
    ) -> Result<Connection<F>, FailedOpen<F::Left>>
        ensures noted { Adds (Self.deeds self.old) (Self.deeds self.new) (opens path.now ∷ []) }
        ensures found { IfOk result (λ conn. HasCleanDisk (state F.Store conn) → IsFound F.Store F.first conn) }
        ensures autocommit { IfOk result (λ conn. conn.in_transaction ≡ false) }
        ensures early { IfErr result (λ failed. failed.left ≡ None → IsEarly failed.error) }
        // Whatever a crash leaves, each database that the files had is there, and none if they had none.
        ensures stays { IfErr result (λ failed. IfSome failed.left (LeavesAsBefore F.in_files F.first)) };
}

impl<'a> Databases for Host<'a> {
    fn open_database<F: OpenFromFiles>(
        &mut self,
        path: &str,
        start: F::Start,
    ) -> Result<Connection<F>, FailedOpen<F::Left>> {
        match F::open(self.runtime(), path, start) {
            Ok(conn) => Ok(conn.into()),
            Err(failed) => Err(failed),
        }
    }
}

/// Opens the database file at `path` and the log beside it, or makes them. `start` stands for what they hold.
pub fn open_files<S: Start>(
    rt: &HostRuntime,
    path: &str,
    start: S,
) -> Result<Connection<FileStore<FileFrom<S>>>, FailedOpen<Leftover<FileFrom<S>>>>
    ensures found { IfOk result (λ conn. HasCleanDisk (file_state conn) → IsFound over_files (image_at S.Start) conn) }
    ensures autocommit { IfOk result (λ conn. conn.in_transaction ≡ false) }
    ensures early { IfErr result (λ failed. failed.left ≡ None → IsEarly failed.error) }
    ensures stays { IfErr result (λ failed. IfSome failed.left (LeavesAsBefore (over_disk ⟦<FileFrom<S> as Disk>⟧) (image_at S.Start))) }
{
    match Connection::open_from(rt, path, false, start) {
        Ok(conn) => Ok(conn),
        Err((error, left)) => Err(FailedOpen { error, left }),
    }
}
