//! A run over a union of databases that is stopped.

ghost use Rattle.std.specs.Prelude.{IfOk, option_map};
ghost use Rattle.sqlite.specs.State.{HasCleanDisk};
ghost use Rattle.sqlite.specs.Held.{state};
ghost use Rattle.sqlite.specs.View.{IsClean};
ghost use Rattle.jc_collector_answers.specs.Collected.{those_named, told_within};
ghost use Rattle.jc_collector_answers.specs.Kept.{HoldsPrinted};
ghost use Rattle.jc_collector_answers.specs.PrintedLaws.{named};
ghost use Rattle.jc_collector.specs.Exported.{MayReplaceIf, OpensAndMayReplace};
ghost use Rattle.jc_database.specs.Files.{AreLawful};
ghost use Rattle.jc_ledger.specs.Kept.{NoneCollide};
ghost use Rattle.jc_ledger.specs.Lagging.{MayCatchUp};
ghost use Rattle.jc_store.specs.Meaning.{journal_of};
ghost use Rattle.jc_collector.specs.UnionOpened.{MayOpen};
ghost use Rattle.jc_collector.specs.Kinds.{meaning_of};
ghost use Rattle.jc_theorems.specs.Stopped.{AnyLeft};
ghost use Rattle.jc_collector.specs.UnionLeft.{LeavesNoted};
ghost use Rattle.jc_theorems.specs.StoppedUnion.{WhenNoted};

use crate::stopping::let_go;
use jc_collector::{AnsweredUnion, Opened, join_open, open_or_make};
use jc_collector_answers::{NameLines, ReadyLines};
use jc_command_args::Tables;
use jc_command_shared::{Errors, Failure, Output, Status, System};
use jc_database::{Databases, OpenFromFiles, StoreInFiles, stop_keeper};
use jc_ledger::{Ledger, Past, UnionKeeper};
use jc_schema_three::SchemaThree;
use jc_schema_two::SchemaTwo;
use jc_store::{Listed, TableKeeper};
use std::snapshot::Snapshot;

/// What a run over a union had answered when it was stopped, what it left of the files of its present database, which proofs
/// alone see, and the notes as they were then.
#[derive(Drop)]
pub struct StoppedUnion<'a, S, L: Ledger + Drop> {
    pub answered: Result<Status, Failure<'a>>,
    pub files: Snapshot<S>,
    pub ledger: L,
}

/// Does what `collect --sequences` does of the uploads that lines name up to where it closes its present database, and then
/// is stopped: what a crash may leave of the files and of the notes is what it may leave at this moment.
#[tactic(auto, using(jc_collector::specs::ExportedLaws::opens_alone, jc_collector::specs::ExportedLaws::opens_then))]
pub fn collect_into_union_and_stop<
    'a,
    Y: Databases,
    F: OpenFromFiles,
    L: Ledger + Drop,
    P: Past,
    N: ReadyLines,
    O: Output,
    E: Errors,
>(
    rt: &mut Y,
    start: F::Start,
    ledger: L,
    database: &'a str,
    tables: Tables,
    then_export: Option<&'a str>,
    names: &mut N,
    most_windows: Option<u64>,
    output: &mut O,
    errors: &mut E,
) -> Result<StoppedUnion<'a, F, L>, Failure<'a>>
    // If what was noted is what the finished databases have, and some of what the present one had: what the printed lines
    // acknowledge, before a failure too, is stored in the union, whatever a crash leaves, and it may be caught up again.
    ensures each { IfOk result (λ run. WhenNoted F.Store tables F.first run.files.value
        (λ before. MayCatchUp (L.known ledger) P.journal before (L.came ledger) × L.sound ledger × L.clean run.ledger × NoneCollide (L.came run.ledger))
        (λ kind before. HoldsPrinted (named (N.remaining names.old)) (λ answers. AnyLeft F.in_files run.files.value
        (LeavesNoted (those_named (told_within most_windows Y.told) NameLines.MachinesAndUploads (N.remaining names.old)) (meaning_of kind) P.journal before (L.came run.ledger) (L.may_leave run.ledger) answers))
        run.answered (O.contents output.old) (O.contents output.new))) }
    ensures touched { OpensAndMayReplace database.now (option_map (λ name. name.now) then_export.entry)
        (Y.deeds rt.old) (Y.deeds rt.new) }
{
    match open_or_make(rt, database, start, tables)? {
        Opened::ByKey(keeper) => Ok(stop_over::<_, F, SchemaTwo, L, P, _, _, _>(
            rt,
            keeper,
            ledger,
            then_export,
            names,
            most_windows,
            output,
            errors,
        )),
        Opened::ByNumber(keeper) => Ok(stop_over::<_, F, SchemaThree, L, P, _, _, _>(
            rt,
            keeper,
            ledger,
            then_export,
            names,
            most_windows,
            output,
            errors,
        )),
    }
}

/// The same over the keeper of the present database, which was opened.
fn stop_over<
    'a,
    Y: System,
    F: StoreInFiles,
    T: Listed + Drop,
    L: Ledger + Drop,
    P: Past,
    N: ReadyLines,
    O: Output,
    E: Errors,
>(
    rt: &mut Y,
    present: TableKeeper<F, T>,
    ledger: L,
    then_export: Option<&'a str>,
    names: &mut N,
    most_windows: Option<u64>,
    output: &mut O,
    errors: &mut E,
) -> StoppedUnion<'a, F, L>
    ensures each { AreLawful T.meaning → IsClean (F.Store.view result.files.value) → L.clean result.ledger → NoneCollide (L.came result.ledger)
        → MayOpen T.meaning F.Store present.conn (L.known ledger) P.journal (L.came ledger) → L.sound ledger
        → HoldsPrinted (named (N.remaining names.old)) (λ answers. AnyLeft F.in_files result.files.value
        (LeavesNoted (those_named (told_within most_windows Y.told) NameLines.MachinesAndUploads (N.remaining names.old)) T.meaning P.journal (journal_of T.meaning F.Store present.conn) (L.came result.ledger) (L.may_leave result.ledger) answers))
        result.answered (O.contents output.old) (O.contents output.new) }
    ensures clean { IsClean (F.Store.view result.files.value) → L.clean result.ledger → NoneCollide (L.came result.ledger)
        → HasCleanDisk (state F.Store present.conn) }
    ensures touched { MayReplaceIf (option_map (λ name. name.now) then_export.entry) (Y.deeds rt.old) (Y.deeds rt.new) }
{
    let AnsweredUnion { answered, union } = join_open::<_, F, T, L, P, _, _, _>(
        rt,
        present,
        ledger,
        then_export,
        names,
        most_windows,
        output,
        errors,
    );
    let UnionKeeper {
        present,
        ledger,
        pending: _,
        waiting: _,
        refusals: _,
        shelf: _,
        machine: _,
        alloc: _,
    } = union;
    StoppedUnion {
        answered,
        files: let_go(stop_keeper(present)),
        ledger,
    }
}
