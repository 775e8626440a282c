//! Stores whose pages stand in a database's files.

ghost use Rattle.std.specs.Prelude.{◌≡◌, false, None, IfOk, IfErr, IfSome, IsTrue};
ghost use Rattle.sqlite.specs.Recovery.{Image};
ghost use Rattle.sqlite.specs.Tree.{Trees};
ghost use Rattle.sqlite.specs.View.{IsClean};
ghost use Rattle.sqlite.specs.Held.{AreDatabases, Held, state};
ghost use Rattle.sqlite.specs.State.{HasCleanDisk};
ghost use Rattle.sqlite.specs.Files.{HoldsDatabase};
ghost use Rattle.sqlite_trees.specs.View.{IsQuiet};
ghost use Rattle.jc_database.specs.Files.{InFiles, IsFound, IsSoundStore, IsWritten};
ghost use Rattle.jc_database.specs.Left.{IsEarly, LeavesAsBefore, LeavesSome};

use crate::closing::FailedClose;
use crate::opening::FailedOpen;
use sqlite::{Alter, Connection};

/// A store whose pages stand in a database's files. What is said of any such store is cheap to prove, and holds of
/// `FileStore`, which is the program's.
pub trait StoreInFiles: Alter + Sized + Drop {
    /// The files, closed.
    type Files: Drop;

    /// What a call that failed hands back of the files.
    type Left: Drop;

    // What is seen of the files.
    ghost in_files: { InFiles Self Self.Files Self.Left };

    /// Copies what is committed into the database file, and gives the files back. The rest is lost.
    fn into_files(self) -> Result<Self::Files, FailedClose<Self>>
        ensures written { IsSoundStore Self.Store self → IfOk result (λ files. in_files.clean files
            → IsWritten Self.Store in_files self files) }
        ensures quiet { IfErr result (λ failed. IsQuiet Self.Store.view Self.Store.faults Self.Store.recovers
            Self.Store.is_shielded self failed.store) };

    /// Files that a call which failed hands back.
    fn left_files(files: Self::Files) -> Self::Left
        ensures clean { in_files.is_clean_left result → in_files.clean files }
        ensures usual { (before : Image) → in_files.is_usual before result }
        ensures outcomes { (image : Image) → in_files.may_be_left result image → in_files.outcomes files image };

    /// The same of a store that is still open.
    fn left_store(self) -> Self::Left
        ensures clean { in_files.is_clean_left result → IsClean (Self.Store.view self) }
        ensures usual { (before : Image) → in_files.is_usual before result → IsTrue (Self.Store.view self).is_numbered }
        ensures outcomes { (image : Image) → in_files.may_be_left result image → in_files.may_leave self image };

    // Whatever a crash leaves of the files of a store that is numbered has a database that the store allows, if it allows
    // databases alone.
    ghost opens_again: { (s : Self) → IsTrue (Self.Store.view s).is_numbered → AreDatabases (Self.Store.recovers s)
        → (image : Image) → in_files.may_leave s image
        → ∥ ((db : Trees) × Self.Store.recovers s db × HoldsDatabase image db) ∥₁ };

    // What is said of whatever a crash leaves is said of something.
    ghost leaves_some: { LeavesSome Self.Store in_files };

    // Nothing is left of a store whose disk hasn't returned what was written.
    ghost clean_if_left: { (s : Self) (db : Trees) → Self.Store.recovers s db → IsClean (Self.Store.view s) };
}

/// A store that is opened from a database's files.
pub trait OpenFromFiles: StoreInFiles {
    /// What stands for what the files hold as they are opened.
    type Start: Drop;

    /// What becomes a connection over the store. An `impl` puts `Connection<Self>` here, which no method of a trait can name.
    type Conn: Into<Connection<Self>>;

    // What the files hold as they are opened.
    ghost first: { Image };

    /// Opens the database file at `path` and the log beside it, or makes them. `start` stands for what they hold.
    fn open(
        rt: &HostRuntime,
        path: &str,
        start: Self::Start,
    ) -> Result<Self::Conn, FailedOpen<Self::Left>>
        ensures found { IfOk result (λ conn. (c : Held Self) → Self.Conn.converts conn c
            → HasCleanDisk (state Self.Store c) → IsFound Self.Store first c) }
        ensures autocommit { IfOk result (λ conn. (c : Held Self) → Self.Conn.converts conn c → c.in_transaction ≡ false) }
        ensures early { IfErr result (λ failed. failed.left ≡ None → IsEarly failed.error) }
        // Whatever a crash leaves, each database that the files had is there, and none if they had none.
        ensures stays { IfErr result (λ failed. IfSome failed.left (LeavesAsBefore Self.in_files first)) };
}
