//! A stopped run, as a step.

ghost use Rattle.std.specs.Prelude.{IfOk};
ghost use Rattle.jc_command.specs.Run.{begins_with, devices};
ghost use Rattle.jc_runs.specs.Stopped.{StopLeadsOn};

use crate::next::next_run_over_notes;
use jc_collector_answers::ReadyLines;
use jc_command::{Begun, BegunBy, NoteFolders};
use jc_command_args::Tables;
use jc_command_shared::{Errors, Failure, Output};
use jc_database::{Databases, OpenFromFiles};
use jc_ledger::Ledger;
use jc_ledger_files::LedgerInFiles;
use jc_theorems::{StoppedUnion, collect_into_union_and_stop};

/// Opens the notes at `sequences`, and does over them what `collect --sequences` does of the uploads that lines name, until it
/// is stopped before it closes its database. The next run finds a step behind the one that this run began with.
pub fn stopped_run_as_step<
    'a,
    Y: Databases,
    F: OpenFromFiles,
    S: Begun,
    N: NoteFolders<S>,
    R: ReadyLines,
    O: Output,
    E: Errors,
>(
    rt: &mut Y,
    folders: N,
    sequences: &'a str,
    start: F::Start,
    database: &'a str,
    tables: Tables,
    then_export: Option<&'a str>,
    names: &mut R,
    most_windows: Option<u64>,
    output: &mut O,
    errors: &mut E,
) -> Result<StoppedUnion<'a, F, N::Notes>, Failure<'a>>
where
    N::Notes: LedgerInFiles,
    ensures step { IfOk result (λ run. StopLeadsOn (begins_with F.first S.windows S.finished S.aside S.came Y.told Y.found (Y.deeds rt.old) (O.entry_shape output.old))
        (devices F.in_files ⟦<N::Notes as Ledger>⟧) N.Notes.files_leave F.Store tables (R.remaining names.old) most_windows
        run.files.value run.ledger run.answered (O.contents output.old) (O.contents output.new)) }
{
    match folders.open(sequences) {
        Ok(notes) => match collect_into_union_and_stop::<_, F, N::Notes, BegunBy<S>, _, _, _>(
            rt,
            start,
            notes,
            database,
            tables,
            then_export,
            names,
            most_windows,
            output,
            errors,
        ) {
            Ok(run) => {
                next_run_over_notes::<F, S, N>(&run.ledger);
                Ok(run)
            }
            Err(failure) => Err(failure),
        },
        Err(unopened) => Err(unopened.failure),
    }
}
