//! What the next run finds.

ghost use Rattle.std.specs.Prelude.{ℕ, ◌↔◌, List, Option};
ghost use Rattle.std.specs.List.{Contains};
ghost use Rattle.jc_base.specs.LogEntry.{LogEntry};
ghost use Rattle.jc_keeper.specs.declared.form.Shape.{Shape};
ghost use Rattle.jc_command.specs.Run.{begins_with, devices};
ghost use Rattle.jc_command_shared.specs.Deeds.{Deed};
ghost use Rattle.jc_runs.specs.Between.{Between};
ghost use Rattle.jc_runs.specs.Next.{BegunMayBegin, ComeAsList, EndIsStep, FailLeadsOn, NextBegins, StopIsStep};

use jc_command::{Begun, NoteFolders};
use jc_database::OpenFromFiles;
use jc_ledger::Ledger;
use jc_ledger_files::LedgerInFiles;

/// What `run_command` says of a run of `collect --sequences` is a step of a run that ended, whether the next run finds the files
/// of its database as they read then, or as a crash leaves them. Of the files of notes it finds whatever may be left: what they
/// read is among that. Does nothing.
pub fn next_run<F: OpenFromFiles, S: Begun, N: NoteFolders<S>>(files: &F::Files, notes: &N::Notes)
where
    N::Notes: LedgerInFiles,
    ensures ended { (told found : List ℕ → Option (List ℕ)) (deeds : Option (List Deed)) (shape : Shape) → EndIsStep (begins_with F.first S.windows S.finished S.aside S.came told found deeds shape) (devices F.in_files ⟦<N::Notes as Ledger>⟧)
        N.Notes.files_leave notes.now files.now }
{
    notes.show_files();
}

/// What the next run finds behind one that handed back no closed files. What `collect_into_union_and_stop` says is a step of a
/// run that was stopped, where it finds the files of its database as the stop left them. Does nothing.
pub fn next_run_over_notes<F: OpenFromFiles, S: Begun, N: NoteFolders<S>>(notes: &N::Notes)
where
    N::Notes: LedgerInFiles,
    ensures stopped { (told found : List ℕ → Option (List ℕ)) (deeds : Option (List Deed)) (shape : Shape) → StopIsStep (begins_with F.first S.windows S.finished S.aside S.came told found deeds shape) (devices F.in_files ⟦<N::Notes as Ledger>⟧)
        N.Notes.files_leave notes.now }
    // Behind a run that failed before its database was opened the next one begins as it did.
    ensures failed { (told found : List ℕ → Option (List ℕ)) (deeds : Option (List Deed)) (shape : Shape)
        → FailLeadsOn (begins_with F.first S.windows S.finished S.aside S.came told found deeds shape)
        (devices F.in_files ⟦<N::Notes as Ledger>⟧) N.Notes.files_leave notes.now }
    // What came is a list, if what had come before was one.
    ensures come { (b : Between) → ((e : LogEntry) → S.came e ↔ Contains b.came e) → ComeAsList (⟦<N::Notes as Ledger>⟧.came notes.now) b }
    ensures begins { NextBegins }
    // What `failed` of `run_command` and `each` of `collect_into_union_and_stop` suppose is so of a run that begins so.
    ensures may_begin { BegunMayBegin }
{
    notes.show_files();
    N::show_steady(notes);
}
