//! Notes that stand in files, and what is found in these later.

ghost use Rattle.std.specs.Prelude.{◌≡◌, List, ℕ};
ghost use Rattle.jc_base.specs.declared.id.Id128.{Id128};
ghost use Rattle.jc_base.specs.declared.id.Key.{Key};
ghost use Rattle.jc_base.specs.LogEntry.{IsKey};
ghost use Rattle.jc_ledger.specs.Known.{Known};
ghost use Rattle.jc_ledger_files.specs.declared.window_name.WindowName.{WindowName};
ghost use Rattle.jc_ledger_files.specs.NotesOf.{notes_of};
ghost use Rattle.jc_ledger_files.specs.Owned.{owner_found};
ghost use Rattle.jc_ledger_files.specs.Windows.{known_in};

use crate::disk_windows::DiskWindows;
use crate::file_ledger::FileLedger;
use crate::folder::Folder;
use crate::found::Found;
use crate::law::next_run_over_files;
use crate::steady_owners::SteadyOwners;
use crate::witness::Witness;
use jc_ledger::Ledger;
use sqlite_disk::Disk;

/// A ledger whose notes stand in files.
pub trait LedgerInFiles: Ledger {
    /// What the file of a window may have after a crash at this moment, or if the process ends.
    ghost files_leave: { Self → WindowName → List ℕ → Type 0 };

    /// Some files are left, as they read now: they tell what the ledger knows. Whatever is left of them tells of entries what a
    /// crash may leave of the ledger, and whom sequences belong to. Does nothing.
    fn show_files(&self)
        ensures some { (files : WindowName → List ℕ) × (((w : WindowName) → files_leave self.now w (files w))
            × (((k : Key) → IsKey k → known_in (λ w. notes_of (files w)) k ≡ Self.Ledger.known self.now k)
            × ((s : Id128) → owner_found files s ≡ Self.Ledger.owner self.now s))) }
        ensures known { (files : WindowName → List ℕ) → ((w : WindowName) → files_leave self.now w (files w))
            → (left : Known) × (Self.Ledger.may_leave self.now left × ((k : Key) → IsKey k → known_in (λ w. notes_of (files w)) k ≡ left k)) }
        ensures owners { (files : WindowName → List ℕ) → ((w : WindowName) → files_leave self.now w (files w))
            → (s : Id128) → Self.Ledger.may_own self.now s (owner_found files s) };
}

impl<D: Disk, F: Folder<D>, T: Witness> LedgerInFiles for FileLedger<DiskWindows<D, F>, T> {
    ghost use Rattle.jc_ledger_files.specs.LeftFiles.{EachLeaves};

    // Two values stand for the one folder: that of entries says nothing of windows of owners, since the other writes to them.
    ghost files_leave = { λ l. EachLeaves (F.may_leave l.windows.folder) (F.may_leave l.owners.folder) };

    fn show_files(&self) {
        next_run_over_files(self);
    }
}

impl<L: LedgerInFiles, F: Found> LedgerInFiles for SteadyOwners<L, F> {
    ghost files_leave = { λ l. L.files_leave l.ledger };

    fn show_files(&self) {
        self.ledger.show_files();
    }
}
