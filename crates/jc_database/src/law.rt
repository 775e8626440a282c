//! What a run begins with whose files stayed as they were.

ghost use Rattle.std.specs.Prelude.{◌≢◌};
ghost use Rattle.sqlite.specs.Recovery.{Image};
ghost use Rattle.sqlite.specs.Files.{IsNothing};
ghost use Rattle.sqlite.specs.declared.file.Leftover.{Leftover};
ghost use Rattle.sqlite.specs.declared.file.Leftover.TheVariants.{Store};
ghost use Rattle.jc_base.specs.Journal.{Journal};
ghost use Rattle.jc_database.specs.Files.{BeginsWith, HoldsJournal};
ghost use Rattle.jc_database.specs.Left.{HaveTables, StaysAs, StaysOrIsMade};
ghost use Rattle.jc_database.specs.OverDisk.{over_disk};

use jc_store::Layout;
use sqlite_disk::Disk;

/// A run begins with the journal that it would have begun with, if its files stayed as they were or tables of an empty
/// journal were made where there were none. Does nothing.
pub fn beginning_stays<L: Layout>()
    ensures journal { (before left : Image) → StaysAs before left → (found : Journal)
        → HoldsJournal L.meaning before found → HoldsJournal L.meaning left found }
    ensures beginning { (before left : Image) → StaysAs before left → (found : Journal)
        → BeginsWith L.meaning before found → BeginsWith L.meaning left found }
    ensures made { (before left : Image) → StaysOrIsMade L.meaning before left → HaveTables L.meaning → (found : Journal)
        → BeginsWith L.meaning before found → ∥ BeginsWith L.meaning left found ∥₁ }
{}

/// Of files in which no database has been made yet all that is handed back is usual, but of a store its numbers aren't
/// known. Does nothing.
pub fn new_files_are_usual<D: Disk>()
    ensures { (image : Image) → IsNothing image → (left : Leftover D D.Disk) → ((store : _) → left ≢ Store store)
        → (over_disk D.Disk).is_usual image left }
{}
