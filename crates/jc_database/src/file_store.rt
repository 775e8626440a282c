//! SQLite's store of a database in files: the database file and the log beside it.

ghost use Rattle.std.specs.Prelude.{◌≡◌, false, None, IfOk, IfErr, IfSome};
ghost use Rattle.sqlite.proofs.Theorems.{opens_again};
ghost use Rattle.sqlite.specs.Recovery.{Image};
ghost use Rattle.sqlite.specs.Held.{Held};
ghost use Rattle.sqlite.specs.State.{HasCleanDisk};
ghost use Rattle.sqlite.specs.Files.{file_state, over_files};
ghost use Rattle.sqlite.specs.WalFiles.{image_at};
ghost use Rattle.jc_database.specs.Files.{IsFound};
ghost use Rattle.jc_database.specs.Left.{IsEarly, LeavesAsBefore};
ghost use Rattle.jc_database.specs.OverDisk.{over_disk};
ghost use Rattle.jc_database.specs.OverDiskLaws.{clean_if_left_at, leaves_some_at};

use crate::closing::FailedClose;
use crate::opening::{FailedOpen, open_files};
use crate::store_in_files::{OpenFromFiles, StoreInFiles};
use sqlite::{Connection, FileFrom, FileStore, Files, Leftover, Start};
use sqlite_disk::Disk;
use sqlite_trees::store::Store;

impl<D: Disk + Drop> StoreInFiles for FileStore<D> {
    type Files = Files<D>;

    type Left = Leftover<D>;

    ghost in_files = { over_disk D.Disk };

    fn into_files(self) -> Result<Files<D>, FailedClose<FileStore<D>>> {
        let mut store = self;
        store.rollback();
        match store.checkpoint() {
            Ok(()) => Ok(store.close()),
            Err(error) => Err(FailedClose { error, store }),
        }
    }

    fn left_files(files: Files<D>) -> Leftover<D> {
        Leftover::Files(files)
    }

    fn left_store(self) -> Leftover<D> {
        Leftover::Store(self)
    }

    ghost opens_again = { opens_again };

    ghost leaves_some = { leaves_some_at D.Disk.seen_may_stay };

    ghost clean_if_left = { clean_if_left_at };
}

/// A disk that has a database's files.
pub trait OpenDisk: Disk + Sized + Drop {
    /// What stands for what the files hold as they are opened.
    type Start: Drop;

    /// What becomes a connection over the files. An `impl` puts `Connection<FileStore<Self>>` here, which no method of a trait
    /// can name.
    type Conn: Into<Connection<FileStore<Self>>>;

    // What the files hold as they are opened.
    ghost first: { Image };

    /// Opens the database file at `path` and the log beside it, or makes them. `start` stands for what they hold.
    fn open_files(
        rt: &HostRuntime,
        path: &str,
        start: Self::Start,
    ) -> Result<Self::Conn, FailedOpen<Leftover<Self>>>
        ensures found { IfOk result (λ conn. (c : Held _) → Self.Conn.converts conn c
            → HasCleanDisk (file_state c) → IsFound over_files first c) }
        ensures autocommit { IfOk result (λ conn. (c : Held _) → Self.Conn.converts conn c → c.in_transaction ≡ false) }
        ensures early { IfErr result (λ failed. failed.left ≡ None → IsEarly failed.error) }
        ensures stays { IfErr result (λ failed. IfSome failed.left (LeavesAsBefore (over_disk Self.Disk) first)) };
}

impl<S: Start> OpenDisk for FileFrom<S> {
    type Start = S;

    type Conn = Connection<FileStore<FileFrom<S>>>;

    ghost first = { image_at S.Start };

    fn open_files(
        rt: &HostRuntime,
        path: &str,
        start: S,
    ) -> Result<Connection<FileStore<FileFrom<S>>>, FailedOpen<Leftover<FileFrom<S>>>> {
        open_files(rt, path, start)
    }
}

impl<D: OpenDisk> OpenFromFiles for FileStore<D> {
    type Start = D::Start;

    type Conn = Connection<FileStore<D>>;

    ghost first = { D.first };

    fn open(
        rt: &HostRuntime,
        path: &str,
        start: D::Start,
    ) -> Result<Connection<FileStore<D>>, FailedOpen<Leftover<D>>> {
        match D::open_files(rt, path, start) {
            Ok(conn) => Ok(conn.into()),
            Err(failed) => Err(failed),
        }
    }
}
