//! A run of the program, as a step.

ghost use Rattle.std.specs.Prelude.{◌≡◌, ◌↔◌, ℕ, IfSome, IsSome, List, Option, map, string_bytes};
ghost use Rattle.std.specs.List.{Contains};
ghost use Rattle.jc_base.specs.LogEntry.{LogEntry};
ghost use Rattle.jc_keeper.specs.declared.form.Shape.{Shape};
ghost use Rattle.jc_command.specs.Run.{begins_with, devices, leaves};
ghost use Rattle.jc_command_shared.specs.Deeds.{Deed};
ghost use Rattle.jc_command_shared.specs.Status.{number_of};
ghost use Rattle.jc_runs.specs.Asked.{EndsInStep};
ghost use Rattle.jc_runs.specs.Between.{Between, MayBegin};
ghost use Rattle.jc_runs.specs.Next.{ComeAsList, EndIsStep};

use crate::next::{next_run, next_run_over_notes};
use jc_command::{Begun, Ended, NoteFolders, run_command};
use jc_command_shared::{Errors, Output, Status};
use jc_database::{Databases, OpenFromFiles};
use jc_ledger::Ledger;
use jc_ledger_files::LedgerInFiles;
use std::io::Read;

/// Does what the arguments ask for, as `run_command` does. Where that is a run over a union that ends, it is a step from
/// wherever it may have begun.
pub fn run_as_step<
    Y: Databases,
    F: OpenFromFiles,
    S: Begun,
    N: NoteFolders<S>,
    I: Read,
    O: Output,
    E: Errors,
>(
    rt: &mut Y,
    folders: N,
    start: F::Start,
    words: Vec<String>,
    input: &mut I,
    output: &mut O,
    errors: &mut E,
) -> Ended<F::Files, F::Left, N::Notes, N>
where
    N::Notes: LedgerInFiles,
    ensures step { (b : Between) → MayBegin b → ((e : LogEntry) → S.came e ↔ Contains b.came e)
        → (status : Status) → (status ≡ Status.Failed → IsSome result.files) → result.status ≡ number_of status
        → EndsInStep (begins_with F.first S.windows S.finished S.aside S.came Y.told Y.found (Y.deeds rt.old) (O.entry_shape output.old))
        (devices F.in_files ⟦<N::Notes as Ledger>⟧) N.Notes.files_leave b (leaves result.files result.ledger (Y.deeds rt.new))
        (map string_bytes words.items) (I.remaining input.old) (O.contents output.old) (O.contents output.new) status }
{
    let ended = run_command::<_, F, S, N, _, _, _>(
        rt, folders, start, words, input, output, errors,
    );
    follow::<F, S, N>(&ended);
    ended
}

/// What a run handed back the next one finds. Does nothing.
fn follow<F: OpenFromFiles, S: Begun, N: NoteFolders<S>>(
    ended: &Ended<F::Files, F::Left, N::Notes, N>,
)
where
    N::Notes: LedgerInFiles,
    ensures ended { (told found : List ℕ → Option (List ℕ)) (deeds : Option (List Deed)) (shape : Shape) → IfSome ended.now.files (λ files. IfSome ended.now.ledger (λ notes.
        EndIsStep (begins_with F.first S.windows S.finished S.aside S.came told found deeds shape) (devices F.in_files ⟦<N::Notes as Ledger>⟧)
        N.Notes.files_leave notes files)) }
    ensures come { (b : Between) → ((e : LogEntry) → S.came e ↔ Contains b.came e)
        → IfSome ended.now.files (λ files. IfSome ended.now.ledger (λ notes. ComeAsList (⟦<N::Notes as Ledger>⟧.came notes) b)) }
{
    match (&ended.files, &ended.ledger) {
        (Some(files), Some(notes)) => {
            next_run::<F, S, N>(files, notes);
            next_run_over_notes::<F, S, N>(notes);
        }
        _ => {}
    }
}
