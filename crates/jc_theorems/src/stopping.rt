//! A run that is stopped, and the one after it.

ghost use Rattle.std.specs.Prelude.{◌≡◌, Err, IfOk, IfErr, OnOk, length, map, option_map};
ghost use Rattle.sqlite.specs.State.{HasCleanDisk};
ghost use Rattle.sqlite.specs.Held.{state};
ghost use Rattle.sqlite.specs.View.{IsClean};
ghost use Rattle.jc_collect.specs.Delivered.{of_delivery};
ghost use Rattle.jc_store.specs.Crash.{LeavesJournals};
ghost use Rattle.jc_database.specs.Left.{IsLeftOf, StopsOnly};
ghost use Rattle.jc_collector_answers.specs.Answered.{KeepsPrinted};
ghost use Rattle.jc_collector_answers.specs.Collected.{just, those_named};
ghost use Rattle.jc_collector_answers.specs.Tied.{NamedWith, PrintsFront, PrintsWith};
ghost use Rattle.jc_collector.specs.CollectLeft.{LeavesEach};
ghost use Rattle.jc_collector.specs.Exported.{OpensAndMayReplace};
ghost use Rattle.jc_collector.specs.Kinds.{conn_of, journal_in, kind_of, meaning_of};
ghost use Rattle.jc_theorems.specs.Stopped.{AnyLeft, FindsEach, LeavesFirst, LeavesPrinted, WhenBegun, WhenStopped};

use jc_base::ByteStream;
use jc_collect::Delivery;
use jc_collector::{
    Answered, Opened, OpenedFiles, Unopened, answer_deliveries, answer_lines, open_or_make,
};
use jc_collector_answers::{NameLines, ReadyLines};
use jc_command_args::Tables;
use jc_command_shared::{Errors, Failure, Output, Status};
use jc_database::{Databases, OpenFromFiles, StoreInFiles, stop_keeper};
use jc_file::ByteSpace;
use std::snapshot::Snapshot;

/// What a run had answered when it was stopped, and what it left of its database's files, which proofs alone see.
#[derive(Drop)]
pub struct Stopped<'a, S> {
    pub answered: Result<Status, Failure<'a>>,
    pub files: Snapshot<S>,
}

/// Does what `collect` does of deliveries up to where it closes its database, and then is stopped: what a crash may leave
/// of the files is what it may leave at this moment. It is a journal with what was stored, all that was acknowledged, and
/// all of one more upload at most.
pub fn collect_and_stop<'a, Y: Databases, F: OpenFromFiles, R: ByteStream, B: ByteSpace, O: Output>(
    rt: &mut Y,
    start: F::Start,
    database: &'a str,
    tables: Tables,
    then_export: Option<&'a str>,
    deliveries: &mut [Delivery<R, B>],
    output: &mut O,
) -> Result<Stopped<'a, F>, Failure<'a>>
    ensures each { IfOk result (λ run. WhenBegun F.Store tables F.first run.files.value (λ kind before. IfOk run.answered (λ status.
        PrintsWith (λ answers. AnyLeft F.in_files run.files.value (LeavesEach (just (map (of_delivery R.remaining B.bytes) deliveries.old)) kind before answers)) (length deliveries.old) status
        (O.contents output.old) (O.contents output.new)))) }
    ensures each_failed { IfOk result (λ run. WhenBegun F.Store tables F.first run.files.value (λ kind before. IfErr run.answered (λ _.
        PrintsFront (λ answers. AnyLeft F.in_files run.files.value (LeavesEach (just (map (of_delivery R.remaining B.bytes) deliveries.old)) kind before answers))
        (O.contents output.old) (O.contents output.new)))) }
    // If the deliveries' bytes are known, these are the uploads that it says.
    ensures printed { IfOk result (λ run.
        WhenStopped F.Store F.in_files tables F.first (map (of_delivery R.remaining B.bytes) deliveries.old) run.files.value
        (λ kind uploads before left. OnOk run.answered
        (∥ LeavesPrinted kind uploads before (O.contents output.old) (O.contents output.new) left ∥₁))) }
    ensures unprinted { IfOk result (λ run.
        WhenStopped F.Store F.in_files tables F.first (map (of_delivery R.remaining B.bytes) deliveries.old) run.files.value
        (λ kind uploads before left. run.answered ≡ Err Failure.WriteFailed
        → ∥ LeavesFirst kind uploads before (O.contents output.old) (O.contents output.new) left ∥₁)) }
    ensures touched { OpensAndMayReplace database.now (option_map (λ name. name.now) then_export.entry)
        (Y.deeds rt.old) (Y.deeds rt.new) }
{
    let Answered { done, keeper } = answer_deliveries(
        rt,
        start,
        database,
        tables,
        then_export,
        deliveries,
        output,
    )?;
    let files = stop_opened(keeper);
    Ok(Stopped {
        answered: done,
        files,
    })
}

/// The same of the uploads that lines name, but that there may be more of the next ones, each whole, and in order.
pub fn collect_lines_and_stop<
    'a,
    Y: Databases,
    F: OpenFromFiles,
    L: ReadyLines,
    O: Output,
    E: Errors,
>(
    rt: &mut Y,
    start: F::Start,
    database: &'a str,
    tables: Tables,
    then_export: Option<&'a str>,
    names: &mut L,
    output: &mut O,
    errors: &mut E,
) -> Result<Stopped<'a, F>, Failure<'a>>
    ensures each { IfOk result (λ run. WhenBegun F.Store tables F.first run.files.value (λ kind before. IfOk run.answered (λ status.
        NamedWith (λ answers. AnyLeft F.in_files run.files.value (LeavesEach (those_named Y.told NameLines.Uploads (L.remaining names.old)) kind before answers)) (L.remaining names.old) status
        (O.contents output.old) (O.contents output.new)))) }
    ensures each_failed { IfOk result (λ run. WhenBegun F.Store tables F.first run.files.value (λ kind before. IfErr run.answered (λ _.
        PrintsFront (λ answers. AnyLeft F.in_files run.files.value (LeavesEach (those_named Y.told NameLines.Uploads (L.remaining names.old)) kind before answers))
        (O.contents output.old) (O.contents output.new)))) }
    ensures touched { OpensAndMayReplace database.now (option_map (λ name. name.now) then_export.entry)
        (Y.deeds rt.old) (Y.deeds rt.new) }
{
    let Answered { done, keeper } = answer_lines(
        rt,
        start,
        database,
        tables,
        then_export,
        names,
        output,
        errors,
    )?;
    let files = stop_opened(keeper);
    Ok(Stopped {
        answered: done,
        files,
    })
}

/// A run over deliveries that is stopped, and then the next run opens the database: if its files hold what the crash left,
/// it has that journal.
pub fn open_after_stop<
    'a,
    Y: Databases,
    F: OpenFromFiles,
    G: OpenFromFiles,
    R: ByteStream,
    B: ByteSpace,
    O: Output,
>(
    rt: &mut Y,
    start: F::Start,
    next: G::Start,
    database: &'a str,
    tables: Tables,
    then_export: Option<&'a str>,
    deliveries: &mut [Delivery<R, B>],
    output: &mut O,
) -> Result<
    (
        Stopped<'a, F>,
        Result<OpenedFiles<G>, Unopened<'a, G::Left>>,
    ),
    Failure<'a>,
>
    ensures each { IfOk result (λ runs. WhenBegun F.Store tables F.first runs.0.files.value (λ kind before. IfOk runs.0.answered (λ status.
        PrintsWith (λ answers. AnyLeft F.in_files runs.0.files.value (λ left. left ≡ G.first → IfOk runs.1 (FindsEach G.Store (just (map (of_delivery R.remaining B.bytes) deliveries.old)) before answers)))
        (length deliveries.old) status (O.contents output.old) (O.contents output.new)))) }
    ensures found { IfOk result (λ runs. WhenStopped F.Store F.in_files tables F.first (map (of_delivery R.remaining B.bytes) deliveries.old) runs.0.files.value
        (λ kind uploads before left. left ≡ G.first → OnOk runs.0.answered
        (IfOk runs.1 (λ opened. HasCleanDisk (state G.Store (conn_of opened))
        → ∥ KeepsPrinted uploads before (O.contents output.old) (O.contents output.new) (journal_in G.Store opened) ∥₁)))) }
{
    let stopped = collect_and_stop(rt, start, database, tables, then_export, deliveries, output)?;
    Ok((stopped, open_or_make::<_, G>(rt, database, next, tables)))
}

/// A run over the uploads that lines name, which is stopped, and the next one.
pub fn open_after_lines<
    'a,
    Y: Databases,
    F: OpenFromFiles,
    G: OpenFromFiles,
    L: ReadyLines,
    O: Output,
    E: Errors,
>(
    rt: &mut Y,
    start: F::Start,
    next: G::Start,
    database: &'a str,
    tables: Tables,
    then_export: Option<&'a str>,
    names: &mut L,
    output: &mut O,
    errors: &mut E,
) -> Result<
    (
        Stopped<'a, F>,
        Result<OpenedFiles<G>, Unopened<'a, G::Left>>,
    ),
    Failure<'a>,
>
    ensures { IfOk result (λ runs. WhenBegun F.Store tables F.first runs.0.files.value (λ kind before. IfOk runs.0.answered (λ status.
        NamedWith (λ answers. AnyLeft F.in_files runs.0.files.value (λ left. left ≡ G.first → IfOk runs.1 (FindsEach G.Store (those_named Y.told NameLines.Uploads (L.remaining names.old)) before answers)))
        (L.remaining names.old) status (O.contents output.old) (O.contents output.new)))) }
{
    let stopped = collect_lines_and_stop(
        rt,
        start,
        database,
        tables,
        then_export,
        names,
        output,
        errors,
    )?;
    Ok((stopped, open_or_make::<_, G>(rt, database, next, tables)))
}

/// What is left of the database of a keeper whose run is stopped. The files are let go as they are: while they are held, no
/// other run can open them.
fn stop_opened<F: StoreInFiles>(opened: OpenedFiles<F>) -> Snapshot<F>
    ensures left { LeavesJournals (meaning_of (kind_of opened)) F.Store (conn_of opened)
        → StopsOnly F.Store F.in_files result.value (IsLeftOf (meaning_of (kind_of opened)) F.Store (conn_of opened)) }
    ensures clean { IsClean (F.Store.view result.value) → HasCleanDisk (state F.Store (conn_of opened)) }
{
    match opened {
        Opened::ByKey(keeper) => let_go(stop_keeper(keeper)),
        Opened::ByNumber(keeper) => let_go(stop_keeper(keeper)),
    }
}

/// Closes files as they are, and keeps for proofs what they were.
pub(crate) fn let_go<T: Drop>(value: T) -> Snapshot<T>
    ensures { result.value ≡ value }
{
    Snapshot::of(&value)
}
