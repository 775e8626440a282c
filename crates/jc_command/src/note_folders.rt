//! The notes of sequences, as a run opens them.

ghost use Rattle.std.specs.Prelude.{◌≡◌, ◌≢◌, ◌↔◌, IfErr, IfOk};
ghost use Rattle.std.specs.List.{AllPairs};
ghost use Rattle.jc_base.specs.declared.id.Id128.{Id128};
ghost use Rattle.jc_base.specs.declared.id.Key.{Key};
ghost use Rattle.jc_base.specs.LogEntry.{LogEntry};
ghost use Rattle.jc_ledger.specs.Owners.{StayOwned, StayOwnedAfter};
ghost use Rattle.jc_ledger_files.specs.NotesOf.{notes_of};
ghost use Rattle.jc_ledger_files.specs.Owned.{owner_found};
ghost use Rattle.jc_ledger_files.specs.Windows.{known_in};
ghost use Rattle.jc_command.specs.Failed.{IsUnopened};
ghost use Rattle.jc_command.specs.Run.{CameAsList};

use crate::begun::{Begun, BegunBy};
use jc_command_shared::Failure;
use jc_ledger::Ledger;
use jc_ledger_files::WindowName;
use jc_sequences::{FileSequences, Folders, list_windows, open_sequences};

/// The notes of sequences in files, of which `S` says what they had.
pub type Sequences<'a, S> = FileSequences<'a, BegunBy<S>, BegunBy<S>>;

/// Why no notes were opened, and the folders in which they might have been.
#[derive(Drop)]
pub struct UnopenedNotes<'p, N: Drop> {
    pub failure: Failure<'p>,
    pub folders: N,
}

/// What opens the notes of sequences in a folder, of which `S` says what they have. A run is proved for any: what stands in
/// for the files of `Folders` is large, and each contract that named it would be dear.
pub trait NoteFolders<S: Begun>: Sized + Drop {
    /// The notes of one folder.
    type Notes: Ledger + Drop;

    /// Opens the folder at `path`, or makes it. What is noted in it stays there. It fails with `CannotOpen` if there is
    /// none and none can be made that stays, and with `OutOfMemory`. Whether files in it can be read isn't seen yet.
    // Whoever has the folders back has opened no notes.
    fn open<'p>(self, path: &'p str) -> Result<Self::Notes, UnopenedNotes<'p, Self>>
        ensures sound { IfOk result (λ notes. Self.Notes.sound notes) }
        // What is noted at first is what the files have as they are opened, and so is whom sequences belong to.
        ensures known { IfOk result (λ notes. (k : Key) → Self.Notes.known notes k ≡ known_in (λ w. notes_of (S.windows w)) k) }
        ensures owner { IfOk result (λ notes. (s : Id128) → Self.Notes.owner notes s ≡ owner_found S.windows s) }
        ensures came { IfOk result (λ notes. (e : LogEntry) → Self.Notes.came notes e ↔ S.came e) }
        ensures failed { IfErr result (λ it. IsUnopened path.entry it.failure) }
        ensures unopened { IfErr result (λ it. it.folders ≡ self) };

    /// The windows of sequences that have files in the folder at `path`, in the order of their sequences and then of their
    /// numbers, each once. Nothing is changed.
    fn list<'p>(&self, path: &'p str) -> Result<Vec<WindowName>, Failure<'p>>
        ensures once { IfOk result (λ windows. AllPairs (λ one other. one ≢ other) windows.items) }
        ensures failed { IfErr result (IsUnopened path.entry) };

    /// Whatever was called of these notes, each sequence that belonged to a machine at first belongs to it, if they are
    /// sound, and after a crash, if their disk returned what was written. What came in their run is a list. Does nothing.
    fn show_steady(notes: &Self::Notes)
        ensures stay { Self.Notes.sound notes.now → StayOwned (owner_found S.windows) (Self.Notes.owner notes.now) }
        ensures stay_after { Self.Notes.clean notes.now → StayOwnedAfter (owner_found S.windows) (Self.Notes.may_own notes.now) }
        ensures came { CameAsList S.came (Self.Notes.came notes.now) };
}

impl<'a, S: Begun> NoteFolders<S> for Folders<'a> {
    type Notes = Sequences<'a, S>;

    fn open<'p>(self, path: &'p str) -> Result<Sequences<'a, S>, UnopenedNotes<'p, Self>> {
        match open_sequences::<BegunBy<S>, BegunBy<S>>(self, path) {
            Ok(notes) => Ok(notes),
            Err(failure) => Err(UnopenedNotes {
                failure,
                folders: self,
            }),
        }
    }

    fn list<'p>(&self, path: &'p str) -> Result<Vec<WindowName>, Failure<'p>> {
        list_windows(*self, path)
    }

    fn show_steady(notes: &Sequences<'a, S>) {}
}
