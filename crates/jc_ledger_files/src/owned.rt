//! Which machine a sequence belongs to, as a note.

ghost use Rattle.std.specs.Prelude.{◌≡◌, List};
ghost use Rattle.jc_ledger_files.specs.declared.window_note.WindowNote.{WindowNote};
ghost use Rattle.jc_ledger_files.specs.Noted.{IsTable};
ghost use Rattle.jc_ledger_files.specs.Owned.{owner_of, owner_window};

use crate::table::WindowTable;
use crate::window_name::{WINDOW, WindowName};
use jc_base::{Id128, NUMBER_END};
use jc_ledger::MachineDigest;

/// The machine that a sequence belongs to, if it belongs to one.
#[derive(Clone, Copy)]
pub struct Owned {
    pub sequence: Id128,
    pub machine: Option<MachineDigest>,
}

/// The window in which the owner of a sequence is noted, under its first number. It is behind the windows of all entries.
pub fn owner_window(sequence: Id128) -> WindowName
    ensures { result ≡ owner_window sequence }
{
    WindowName {
        sequence,
        window: NUMBER_END / WINDOW,
    }
}

/// The machine that is noted in such a window, if one is.
pub(crate) fn machine_in(table: &WindowTable) -> Option<MachineDigest>
    ensures { (notes : List WindowNote) → IsTable table.now notes → result ≡ owner_of notes }
{
    match table.get(&NUMBER_END) {
        Some(digest) => Some(MachineDigest(digest.0)),
        None => None,
    }
}
