//! A run that begins behind steps of the worked list.

ghost use Rattle.std.specs.Prelude.{◌≡◌, IsSome, map, string_bytes};
ghost use Rattle.std.specs.FinMap.{empty};
ghost use Rattle.std.specs.List.{Contains};
ghost use Rattle.jc_command.specs.Run.{begins_with, devices, leaves};
ghost use Rattle.jc_command_args.specs.declared.request.Tables.{Tables};
ghost use Rattle.jc_command_shared.specs.Status.{number_of};
ghost use Rattle.jc_collector.specs.Kinds.{BeginsIn};
ghost use Rattle.jc_runs.specs.Asked.{EndsInStep};
ghost use Rattle.jc_runs.specs.Between.{Between};
ghost use Rattle.jc_runs.specs.Next.{BeganWith};
ghost use Rattle.jc_runs.specs.Starts.{StartsNoted, only_other, worked_came, worked_past};
ghost use Rattle.jc_runs.specs.WorkedNotes.{worked_windows};

use crate::asked::run_as_step;
use crate::law::runs_keep;
use jc_command::{Begun, Ended, NoteFolders};
use jc_command_shared::{Errors, Output, Status};
use jc_database::{Databases, OpenFromFiles};
use jc_ledger::Ledger;
use jc_ledger_files::LedgerInFiles;
use std::io::Read;

/// What a run begins with behind four steps of the worked list: each machine's sequence is its own, and its entry is noted.
#[derive(Drop)]
pub struct BehindFour;

impl Begun for BehindFour {
    ghost use Rattle.std.specs.FinMap.{empty};
    ghost use Rattle.std.specs.List.{Contains};
    ghost use Rattle.jc_runs.specs.Starts.{worked_came, worked_past};
    ghost use Rattle.jc_runs.specs.WorkedNotes.{worked_windows};

    ghost windows = { worked_windows };

    ghost finished = { worked_past };

    ghost aside = { empty };

    ghost came = { Contains worked_came };
}

/// Does what the arguments ask for over notes as they are behind four steps of the worked list. A run over a union that ends
/// makes a fifth one, if its database has what the present one has then.
pub fn run_behind_four<
    Y: Databases,
    F: OpenFromFiles,
    N: NoteFolders<BehindFour>,
    I: Read,
    O: Output,
    E: Errors,
>(
    rt: &mut Y,
    folders: N,
    start: F::Start,
    words: Vec<String>,
    input: &mut I,
    output: &mut O,
    errors: &mut E,
) -> Ended<F::Files, F::Left, N::Notes, N>
where
    N::Notes: LedgerInFiles,
    ensures step { (b : Between) × StartsNoted 4 b × (b.now ≡ only_other)
        × ((made kind : Tables) → BeginsIn made kind F.first b.now → BeganWith made kind
        (begins_with F.first worked_windows worked_past empty (Contains worked_came) Y.told Y.found (Y.deeds rt.old) (O.entry_shape output.old)) b)
        × ((status : Status) → (status ≡ Status.Failed → IsSome result.files) → result.status ≡ number_of status
        → EndsInStep (begins_with F.first worked_windows worked_past empty (Contains worked_came) Y.told Y.found (Y.deeds rt.old) (O.entry_shape output.old))
        (devices F.in_files ⟦<N::Notes as Ledger>⟧) N.Notes.files_leave b (leaves result.files result.ledger (Y.deeds rt.new))
        (map string_bytes words.items) (I.remaining input.old) (O.contents output.old) (O.contents output.new) status) }
{
    runs_keep();
    run_as_step::<_, F, BehindFour, N, _, _, _>(rt, folders, start, words, input, output, errors)
}
