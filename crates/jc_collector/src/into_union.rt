//! `collect --sequences`: uploads that a list names, taken up into the union of finished databases and the present one.

ghost use Rattle.std.specs.Prelude.{◌≡◌, ◌≢◌, ◌⊎◌, ◌∷◌, [], IfOk, IfErr, OnOk, option_map};
ghost use Rattle.std.specs.Io.KnownBytes.{Keeps as KeepsBytes};
ghost use Rattle.sqlite.specs.Recovery.{Image};
ghost use Rattle.jc_command_args.specs.declared.request.Tables.{Tables as Kind};
ghost use Rattle.jc_command_shared.specs.Failure.{status_of};
ghost use Rattle.jc_collector_answers.specs.Brought.{CollectsText};
ghost use Rattle.jc_collector_answers.specs.Collected.{those_named, told_within};
ghost use Rattle.jc_collector_answers.specs.Named.{PrintsNamed};
ghost use Rattle.jc_collector_answers.specs.Tied.{NamedWith};
ghost use Rattle.jc_database.specs.Files.{AreLawful};
ghost use Rattle.jc_ledger.specs.Kept.{NoneCollide};
ghost use Rattle.jc_ledger.specs.Lagging.{MayCatchUp};
ghost use Rattle.jc_ledger.specs.Owners.{whose_by};
ghost use Rattle.jc_ledger.specs.Union.{union};
ghost use Rattle.jc_store.specs.Meaning.{IsSound, journal_of};
ghost use Rattle.jc_collector.specs.UnionAnswered.{AnswersNoted};
ghost use Rattle.jc_collector.specs.Database.{DatabaseFailsBy};
ghost use Rattle.jc_collector.specs.IntoUnion.{LeadsIf, UnionFailsBy, UnionStopsBy};
ghost use Rattle.jc_collector.specs.UnionRun.{IsFoundAs, RunsFromList, RunsNoted, RunsNotedOrNot};
ghost use Rattle.jc_collector.specs.Exported.{MayReplaceIf, OpensAndExports, OpensAndMayReplace, ReplacesIf};
ghost use Rattle.jc_collector.specs.UnionOpened.{MayOpen};
ghost use Rattle.jc_keeper.specs.Listing.{export_text};

mod closing;
mod listing;
mod noting;
mod opening;
mod settling;

use self::closing::{close_union, why_no_union};
use self::settling::settle_after;
use crate::database::{Opened, open_or_make};
use crate::from_list::list_source;
use crate::target::Target;
use crate::then_export::{check_names, export_after};
use crate::unopened::Unopened;
pub use closing::{AnsweredUnion, FailedRun, NotedLeft, NotedRun};
use jc_collector_answers::{NameLines, ReadyLines, answer_names_within};
use jc_command_args::Tables;
use jc_command_shared::{Errors, Failure, Output, Status, System};
use jc_database::{Databases, OpenFromFiles, StoreInFiles};
use jc_keeper::Keeper;
use jc_ledger::{Ledger, Past};
use jc_schema_three::SchemaThree;
use jc_schema_two::SchemaTwo;
use jc_store::{Listed, TableKeeper};
pub(crate) use listing::list_present;
pub use opening::{OpenStop, OpenedUnion, TableUnion, open_union};
use sqlite::Alter;
use std::io::{BufReader, Read};

/// Takes the uploads that the lines of a list name up into the union of the databases that are finished and the present
/// one, which is made if there is none, and prints an answer for each line. The export and the status are as
/// `collect_from_list` has them, and so is the list, but that a line may name the machine before a tab. It fails besides with
/// a fault if an entry of the present database isn't the one that is noted, or is over the limits. If windows of sequences
/// are bounded, an upload that touches more is refused. If the present database isn't opened, the ledger goes back as it came.
pub fn collect_into_union<
    'a,
    Y: Databases,
    F: OpenFromFiles,
    L: Ledger + Drop,
    P: Past,
    I: Read,
    O: Output,
    E: Errors,
>(
    rt: &mut Y,
    start: F::Start,
    ledger: L,
    database: &'a str,
    tables: Tables,
    list: &'a str,
    most_windows: Option<u64>,
    then_export: Option<&'a str>,
    input: &mut I,
    output: &mut O,
    errors: &mut E,
) -> Result<NotedRun<F::Files, L>, FailedRun<'a, F::Left, L>>
    // Line by line the answers are those to the uploads in the files that the lines name, and what they acknowledge is stored in
    // the union and noted. If it fails, what the lines acknowledge that were printed before is in what is left.
    ensures runs { RunsFromList F.in_files L.Ledger tables F.first Y.told most_windows P.journal ledger database.now list.now (I.remaining input.old)
        result (O.contents output.old) (O.contents output.new) (E.contents errors.old) (E.contents errors.new) (Y.deeds rt.old) (Y.deeds rt.new) }
    // If so, the present database's journal was exported, if a path is given.
    ensures exported { IfOk result (λ run. LeadsIf tables F.first F.in_files run.files
        (λ before. MayCatchUp (L.known ledger) P.journal before (L.came ledger) × L.clean run.ledger × NoneCollide (L.came run.ledger))
        (λ _. OpensAndExports database.now (option_map (λ name. name.now) then_export.entry) (Y.deeds rt.old) (Y.deeds rt.new))) }
    ensures failed { IfErr result (λ run. UnionFailsBy database.now (list.now ∷ [])
        (option_map (λ name. name.now) then_export.entry) run.failure) }
    ensures touched { OpensAndMayReplace database.now (option_map (λ name. name.now) then_export.entry)
        (Y.deeds rt.old) (Y.deeds rt.new) }
{
    if let Err(failure) = check_names(rt, database, then_export) {
        return Err(FailedRun::unopened(Unopened::early(failure), ledger));
    }
    let source = match list_source(rt, list, &mut *input) {
        Ok(source) => source,
        Err(failure) => return Err(FailedRun::unopened(Unopened::early(failure), ledger)),
    };
    let target = Target {
        start,
        database,
        tables,
        then_export,
    };
    join_lines::<_, F, L, P, _, _, _>(rt, target, ledger, source, most_windows, output, errors)
}

/// Takes up the uploads that the lines of a reader name, which are read through a buffer.
#[tactic(auto, using(crate::specs::ExportedLaws::does_nothing))]
fn join_lines<
    'a,
    Y: Databases,
    F: OpenFromFiles,
    L: Ledger + Drop,
    P: Past,
    N: Read + Drop,
    O: Output,
    E: Errors,
>(
    rt: &mut Y,
    target: Target<'a, F::Start>,
    ledger: L,
    list: N,
    most_windows: Option<u64>,
    output: &mut O,
    errors: &mut E,
) -> Result<NotedRun<F::Files, L>, FailedRun<'a, F::Left, L>>
    ensures runs { RunsNotedOrNot F.in_files L.Ledger target.entry.tables F.first (told_within most_windows Y.told) P.journal ledger target.entry.database.now (N.remaining list)
        result (O.contents output.old) (O.contents output.new) (E.contents errors.old) (E.contents errors.new) (Y.deeds rt.old) (Y.deeds rt.new) }
    ensures exported { IfOk result (λ run. LeadsIf target.entry.tables F.first F.in_files run.files
        (λ before. MayCatchUp (L.known ledger) P.journal before (L.came ledger) × L.clean run.ledger × NoneCollide (L.came run.ledger))
        (λ _. OpensAndExports target.entry.database.now (option_map (λ name. name.now) target.entry.then_export) (Y.deeds rt.old) (Y.deeds rt.new))) }
    ensures failed { IfErr result (λ run. UnionStopsBy run.failure ⊎ DatabaseFailsBy target.entry.database.now run.failure) }
    ensures touched { OpensAndMayReplace target.entry.database.now (option_map (λ name. name.now) target.entry.then_export)
        (Y.deeds rt.old) (Y.deeds rt.new) }
{
    let Ok(mut names) = BufReader::new(rt.alloc(), list) else {
        let early = Unopened::early(Failure::OutOfMemory);
        return Err(FailedRun::unopened(early, ledger));
    };
    join_names::<_, F, L, P, _, _, _>(rt, target, ledger, &mut names, most_windows, output, errors)
}

/// Takes up the uploads that lines name.
fn join_names<
    'a,
    Y: Databases,
    F: OpenFromFiles,
    L: Ledger + Drop,
    P: Past,
    N: ReadyLines,
    O: Output,
    E: Errors,
>(
    rt: &mut Y,
    target: Target<'a, F::Start>,
    ledger: L,
    names: &mut N,
    most_windows: Option<u64>,
    output: &mut O,
    errors: &mut E,
) -> Result<NotedRun<F::Files, L>, FailedRun<'a, F::Left, L>>
    ensures runs { RunsNotedOrNot F.in_files L.Ledger target.entry.tables F.first (told_within most_windows Y.told) P.journal ledger target.entry.database.now (N.remaining names.old)
        result (O.contents output.old) (O.contents output.new) (E.contents errors.old) (E.contents errors.new) (Y.deeds rt.old) (Y.deeds rt.new) }
    ensures exported { IfOk result (λ run. LeadsIf target.entry.tables F.first F.in_files run.files
        (λ before. MayCatchUp (L.known ledger) P.journal before (L.came ledger) × L.clean run.ledger × NoneCollide (L.came run.ledger))
        (λ _. OpensAndExports target.entry.database.now (option_map (λ name. name.now) target.entry.then_export) (Y.deeds rt.old) (Y.deeds rt.new))) }
    ensures failed { IfErr result (λ run. UnionStopsBy run.failure ⊎ DatabaseFailsBy target.entry.database.now run.failure) }
    ensures touched { OpensAndMayReplace target.entry.database.now (option_map (λ name. name.now) target.entry.then_export)
        (Y.deeds rt.old) (Y.deeds rt.new) }
{
    let Target {
        start,
        database,
        tables,
        then_export,
    } = target;
    let opened = match open_or_make::<_, F>(rt, database, start, tables) {
        Ok(opened) => opened,
        Err(unopened) => return Err(FailedRun::unopened(unopened, ledger)),
    };
    match opened {
        Opened::ByKey(keeper) => join_over::<_, F, SchemaTwo, L, P, _, _, _>(
            rt,
            keeper,
            ledger,
            then_export,
            names,
            most_windows,
            output,
            errors,
        ),
        Opened::ByNumber(keeper) => join_over::<_, F, SchemaThree, L, P, _, _, _>(
            rt,
            keeper,
            ledger,
            then_export,
            names,
            most_windows,
            output,
            errors,
        ),
    }
}

/// The same over the keeper of the present database, which is closed.
fn join_over<
    'a,
    Y: System,
    F: StoreInFiles,
    T: Listed + Drop,
    L: Ledger + Drop,
    P: Past,
    N: ReadyLines,
    O: Output,
    E: Errors,
>(
    rt: &mut Y,
    present: TableKeeper<F, T>,
    ledger: L,
    then_export: Option<&'a str>,
    names: &mut N,
    most_windows: Option<u64>,
    output: &mut O,
    errors: &mut E,
) -> Result<NotedRun<F::Files, L>, FailedRun<'a, F::Left, L>>
    // Whatever files the present database was found in.
    ensures runs { AreLawful T.meaning → (made : Kind) (first : Image) → IsFoundAs T.meaning F.Store made first present.conn
        → RunsNoted F.in_files L.Ledger made first (told_within most_windows Y.told) P.journal ledger (N.remaining names.old)
        result (O.contents output.old) (O.contents output.new) (E.contents errors.old) (E.contents errors.new) }
    ensures exported { (made : Kind) (first : Image) → IsFoundAs T.meaning F.Store made first present.conn
        → IfOk result (λ run. LeadsIf made first F.in_files run.files
        (λ before. MayCatchUp (L.known ledger) P.journal before (L.came ledger) × L.clean run.ledger × NoneCollide (L.came run.ledger))
        (λ _ after. ReplacesIf (option_map (λ name. name.now) then_export.entry) (export_text after) (Y.deeds rt.old) (Y.deeds rt.new))) }
    ensures failed { IfErr result (λ run. UnionStopsBy run.failure) }
    ensures touched { MayReplaceIf (option_map (λ name. name.now) then_export.entry) (Y.deeds rt.old) (Y.deeds rt.new) }
{
    let AnsweredUnion { answered, union } = join_open::<_, F, T, L, P, _, _, _>(
        rt,
        present,
        ledger,
        then_export,
        names,
        most_windows,
        output,
        errors,
    );
    close_union(union, answered)
}

/// All of it before the present database is closed: the union is opened, the uploads are taken up, what waits is noted, and
/// the present database's journal is exported, if a path is given. What a crash leaves of a run is what it leaves of this union.
#[tactic(auto, using(crate::specs::ExportedLaws::may_stay))]
pub fn join_open<
    'a,
    Y: System,
    S: Alter + Drop,
    T: Listed + Drop,
    L: Ledger + Drop,
    P: Past,
    N: ReadyLines,
    O: Output,
    E: Errors,
>(
    rt: &mut Y,
    present: TableKeeper<S, T>,
    ledger: L,
    then_export: Option<&'a str>,
    names: &mut N,
    most: Option<u64>,
    output: &mut O,
    errors: &mut E,
) -> AnsweredUnion<'a, TableUnion<S, T, L, P>>
    // Line by line the answers are those to the uploads in the files that the lines name, by what is told of these. What they
    // acknowledge is stored and noted, and found after a crash.
    ensures answers { AnswersNoted T.meaning S.Store L.Ledger ⟦<TableUnion<S, T, L, P> as Keeper>⟧ P.journal (λ Holds. NamedWith Holds (N.remaining names.old))
        (those_named (told_within most Y.told) NameLines.MachinesAndUploads (N.remaining names.old)) present.conn ledger result.union result.union.present.conn result.union.ledger result.answered (O.contents output.old) (O.contents output.new) }
    // What is new of each line belongs to the machine that the line names. What is told to be another machine's is. A sequence
    // comes to belong to a machine only by a line that names it.
    ensures brought { ⟦<TableUnion<S, T, L, P> as Keeper>⟧.sound result.union → MayOpen T.meaning S.Store present.conn (L.known ledger) P.journal (L.came ledger)
        → IfOk result.answered (λ status. NamedWith (CollectsText (told_within most Y.told) NameLines.MachinesAndUploads (whose_by (L.owner ledger)) (whose_by (L.owner result.union.ledger)) (N.remaining names.old)
        (union P.journal (journal_of T.meaning S.Store present.conn)) (union P.journal (journal_of T.meaning S.Store result.union.present.conn)))
        (N.remaining names.old) status (O.contents output.old) (O.contents output.new)) }
    // No failure has shut the notes.
    ensures noted { L.clean result.union.ledger → OnOk result.answered (L.sound result.union.ledger) }
    // The present database's journal was exported, if a path is given.
    ensures exported { ⟦<TableUnion<S, T, L, P> as Keeper>⟧.clean result.union → MayOpen T.meaning S.Store present.conn (L.known ledger) P.journal (L.came ledger)
        → OnOk result.answered (IsSound S.Store result.union.present.conn → ReplacesIf (option_map (λ name. name.now) then_export.entry)
        (export_text (journal_of T.meaning S.Store result.union.present.conn)) (Y.deeds rt.old) (Y.deeds rt.new)) }
    // No entry is pending, and no note waits any more.
    ensures none { result.union.pending.items ≡ [] }
    ensures settled { result.union.waiting.entries ≡ [] }
    ensures printed { IfOk result.answered (λ status. PrintsNamed (N.remaining names.old) status (O.contents output.old) (O.contents output.new)) }
    ensures quiet { IfOk result.answered (λ status. status ≡ Status.Success → KeepsBytes (E.contents errors.old) (E.contents errors.new)) }
    ensures failed { IfErr result.answered UnionStopsBy }
    ensures untouched { IfErr result.answered (λ failure. status_of failure ≢ Status.Failed
        → KeepsBytes (O.contents output.old) (O.contents output.new)) }
    ensures touched { MayReplaceIf (option_map (λ name. name.now) then_export.entry) (Y.deeds rt.old) (Y.deeds rt.new) }
{
    let OpenedUnion { mut union, opened } = open_union::<S, T, L, P>(rt.alloc(), present, ledger);
    match opened {
        Ok(()) => {
            let lines = NameLines::MachinesAndUploads;
            let answered = answer_names_within(rt, &mut union, names, lines, most, output, errors);
            let settled = settle_after(&mut union, answered);
            let done = export_after(rt, &mut union.present, settled, then_export);
            AnsweredUnion {
                answered: done,
                union,
            }
        }
        Err(stop) => AnsweredUnion {
            answered: Err(why_no_union(stop)),
            union,
        },
    }
}
