//! Uploads answered over a database that is opened or made: all that `collect` does before the database is closed.

ghost use Rattle.std.specs.Prelude.{◌≡◌, ℕ, List, Some, IfOk, IfErr, OnOk, length, map, option_map, ⊤};
ghost use Rattle.std.specs.Io.KnownBytes.{Keeps};
ghost use Rattle.sqlite.specs.State.{HasCleanDisk};
ghost use Rattle.sqlite.specs.Held.{state};
ghost use Rattle.jc_collect.specs.Delivered.{of_delivery};
ghost use Rattle.jc_collector_answers.specs.Answered.{PrintsAnswers};
ghost use Rattle.jc_collector_answers.specs.Collected.{just, those_named};
ghost use Rattle.jc_collector_answers.specs.Named.{PrintsNamed};
ghost use Rattle.jc_collector_answers.specs.Tied.{NamedWith, PrintsWith};
ghost use Rattle.jc_collector.specs.AnsweredOver.{AnswersIn, AnswersOver, CollectsIn, CollectsOver};
ghost use Rattle.jc_collector.specs.Counted.{PrintsCounted};
ghost use Rattle.jc_collector.specs.Database.{DatabaseFailsBy, IsOutFailure, MayEndNames, MayStop};
ghost use Rattle.jc_collector.specs.Exported.{MayReplaceIf, OpensAndExports, OpensAndMayReplace, ReplacesIf};
ghost use Rattle.jc_keeper.specs.Listing.{export_text};
ghost use Rattle.jc_collector.specs.Open.{Begun, HasKind, StandsIn, StandsOver};
ghost use Rattle.jc_collector.specs.Unopened.{IsLeftUnopened};

use crate::database::{Opened, OpenedFiles, open_or_make};
use crate::target::Target;
use crate::then_export::export_after;
use crate::unopened::Unopened;
use crate::uploads::{Deliveries, NamedUploads, Uploads};
use jc_base::ByteStream;
use jc_collect::Delivery;
use jc_collector_answers::{NameLines, ReadyLines};
use jc_command_args::Tables;
use jc_command_shared::{Errors, Failure, Output, Status, System};
use jc_database::{Databases, OpenFromFiles, StoreInFiles, sound_leaves_journals};
use jc_file::ByteSpace;
use jc_store::{Listed, TableKeeper};

/// What a run answered, and the keeper of its database, which is still open.
#[derive(Drop)]
pub struct Answered<'a, K: Drop> {
    pub done: Result<Status, Failure<'a>>,
    pub keeper: K,
}

/// Takes deliveries up into the journal of a database, which is made if there is none, and prints an answer for each. Then
/// the journal goes to a file, if one is named.
pub fn answer_deliveries<
    'a,
    Y: Databases,
    F: OpenFromFiles,
    R: ByteStream,
    B: ByteSpace,
    O: Output,
>(
    rt: &mut Y,
    start: F::Start,
    database: &'a str,
    tables: Tables,
    then_export: Option<&'a str>,
    deliveries: &mut [Delivery<R, B>],
    output: &mut O,
) -> Result<Answered<'a, OpenedFiles<F>>, Unopened<'a, F::Left>>
    ensures kind { IfOk result (λ run. HasKind F.Store run.keeper tables F.first) }
    // The answers are those to these uploads. What the printed lines acknowledge is stored, and found after a crash.
    ensures answers { IfOk result (λ run. AnswersIn F.Store run.keeper tables F.first (λ Holds. PrintsWith Holds (length deliveries.old))
        (just (map (of_delivery R.remaining B.bytes) deliveries.old)) run.done (O.contents output.old) (O.contents output.new)) }
    // What becomes of uploads whose bytes are known.
    ensures collected { (uploads : List (List ℕ)) → map (of_delivery R.remaining B.bytes) deliveries.old ≡ map (λ u. Some u) uploads
        → IfOk result (λ run. CollectsIn F.Store run.keeper tables F.first uploads run.done (O.contents output.old) (O.contents output.new)) }
    ensures printed { IfOk result (λ run. IfOk run.done (λ status.
        PrintsAnswers (length deliveries.old) status (O.contents output.old) (O.contents output.new))) }
    ensures stopped { IfOk result (λ run. IfErr run.done IsOutFailure) }
    ensures failed { IfErr result (λ unopened. DatabaseFailsBy database.now unopened.failure) }
    ensures unopened { IfErr result (λ unopened. IsLeftUnopened F.in_files tables database.now F.first unopened.failure
        (Y.deeds rt.old) (Y.deeds rt.new) unopened.left) }
    ensures untouched { IfErr result (λ _. Keeps (O.contents output.old) (O.contents output.new)) }
    ensures touched { OpensAndMayReplace database.now (option_map (λ name. name.now) then_export.entry)
        (Y.deeds rt.old) (Y.deeds rt.new) }
{
    let target = Target {
        start,
        database,
        tables,
        then_export,
    };
    answer_uploads::<_, F, _, _, _>(rt, target, Deliveries { deliveries }, output, &mut ())
}

/// The same of the uploads that lines name. Those whose names wait are stored together, and then answered.
pub fn answer_lines<'a, Y: Databases, F: OpenFromFiles, L: ReadyLines, O: Output, E: Errors>(
    rt: &mut Y,
    start: F::Start,
    database: &'a str,
    tables: Tables,
    then_export: Option<&'a str>,
    names: &mut L,
    output: &mut O,
    errors: &mut E,
) -> Result<Answered<'a, OpenedFiles<F>>, Unopened<'a, F::Left>>
    ensures kind { IfOk result (λ run. HasKind F.Store run.keeper tables F.first) }
    // The answers are those to these uploads. What the printed lines acknowledge is stored, and found after a crash.
    ensures answers { IfOk result (λ run. AnswersIn F.Store run.keeper tables F.first (λ Holds. NamedWith Holds (L.remaining names.old))
        (those_named Y.told NameLines.Uploads (L.remaining names.old)) run.done (O.contents output.old) (O.contents output.new)) }
    ensures printed { IfOk result (λ run. IfOk run.done (λ status.
        PrintsNamed (L.remaining names.old) status (O.contents output.old) (O.contents output.new))) }
    ensures quiet { IfOk result (λ run. IfOk run.done (λ status. status ≡ Status.Success
        → Keeps (E.contents errors.old) (E.contents errors.new))) }
    ensures stopped { IfOk result (λ run. IfErr run.done MayEndNames) }
    ensures failed { IfErr result (λ unopened. DatabaseFailsBy database.now unopened.failure) }
    ensures unopened { IfErr result (λ unopened. IsLeftUnopened F.in_files tables database.now F.first unopened.failure
        (Y.deeds rt.old) (Y.deeds rt.new) unopened.left) }
    ensures untouched { IfErr result (λ _. Keeps (O.contents output.old) (O.contents output.new)) }
    ensures touched { OpensAndMayReplace database.now (option_map (λ name. name.now) then_export.entry)
        (Y.deeds rt.old) (Y.deeds rt.new) }
{
    let target = Target {
        start,
        database,
        tables,
        then_export,
    };
    answer_uploads::<_, F, _, _, _>(rt, target, NamedUploads { names }, output, errors)
}

/// Answers uploads over a database, which is made if there is none. Then its journal goes to a file, if one is named.
#[tactic(auto, using(crate::specs::ExportedLaws::opens_alone, crate::specs::ExportedLaws::opens_then))]
pub(crate) fn answer_uploads<
    'a,
    Y: Databases,
    F: OpenFromFiles,
    E,
    U: Uploads<E> + Drop,
    O: Output,
>(
    rt: &mut Y,
    target: Target<'a, F::Start>,
    uploads: U,
    output: &mut O,
    errors: &mut E,
) -> Result<Answered<'a, OpenedFiles<F>>, Unopened<'a, F::Left>>
    ensures kind { IfOk result (λ run. HasKind F.Store run.keeper target.entry.tables F.first) }
    ensures answers { IfOk result (λ run. AnswersIn F.Store run.keeper target.entry.tables F.first (PrintsCounted (U.counts uploads))
        (U.are Y.told uploads) run.done (O.contents output.old) (O.contents output.new)) }
    ensures collected { (known : List (List ℕ)) → U.have uploads known → IfOk result (λ run.
        CollectsIn F.Store run.keeper target.entry.tables F.first known run.done (O.contents output.old) (O.contents output.new)) }
    ensures printed { IfOk result (λ run. IfOk run.done (λ status.
        PrintsCounted (U.counts uploads) (λ _. ⊤) status (O.contents output.old) (O.contents output.new))) }
    ensures quiet { IfOk result (λ run. IfOk run.done (λ status. status ≡ Status.Success → U.keeps_quiet errors.old errors.new)) }
    ensures stopped { IfOk result (λ run. IfErr run.done (MayStop U.are_read)) }
    // The journal that is there then was exported, if a path is given.
    ensures exported { IfOk result (λ run. OnOk run.done (StandsIn F.Store run.keeper target.entry.tables F.first (λ _.
        OpensAndExports target.entry.database.now (option_map (λ name. name.now) target.entry.then_export) (Y.deeds rt.old) (Y.deeds rt.new)))) }
    ensures failed { IfErr result (λ unopened. DatabaseFailsBy target.entry.database.now unopened.failure) }
    ensures unopened { IfErr result (λ unopened. IsLeftUnopened F.in_files target.entry.tables target.entry.database.now F.first unopened.failure
        (Y.deeds rt.old) (Y.deeds rt.new) unopened.left) }
    ensures untouched { IfErr result (λ _. Keeps (O.contents output.old) (O.contents output.new)) }
    ensures touched { OpensAndMayReplace target.entry.database.now (option_map (λ name. name.now) target.entry.then_export)
        (Y.deeds rt.old) (Y.deeds rt.new) }
{
    let Target {
        start,
        database,
        tables,
        then_export,
    } = target;
    // The checker doesn't cover a `?` here.
    let opened = match open_or_make::<_, F>(rt, database, start, tables) {
        Ok(opened) => opened,
        Err(unopened) => return Err(unopened),
    };
    match opened {
        Opened::ByKey(mut keeper) => {
            let done = answer_over(rt, &mut keeper, then_export, uploads, output, errors);
            Ok(Answered {
                done,
                keeper: Opened::ByKey(keeper),
            })
        }
        Opened::ByNumber(mut keeper) => {
            let done = answer_over(rt, &mut keeper, then_export, uploads, output, errors);
            Ok(Answered {
                done,
                keeper: Opened::ByNumber(keeper),
            })
        }
    }
}

/// The same over a keeper.
fn answer_over<'a, Y: System, F: StoreInFiles, L: Listed, E, U: Uploads<E>, O: Output>(
    rt: &mut Y,
    keeper: &mut TableKeeper<F, L>,
    then_export: Option<&'a str>,
    uploads: U,
    output: &mut O,
    errors: &mut E,
) -> Result<Status, Failure<'a>>
    ensures clean { HasCleanDisk (state F.Store keeper.new.conn) → HasCleanDisk (state F.Store keeper.old.conn) }
    ensures answers { AnswersOver L.meaning F.Store keeper.new.conn (Begun L.meaning F.Store keeper.old.conn) (PrintsCounted (U.counts uploads))
        (U.are Y.told uploads) result (O.contents output.old) (O.contents output.new) }
    ensures collected { (known : List (List ℕ)) → U.have uploads known
        → CollectsOver L.meaning F.Store keeper.new.conn (Begun L.meaning F.Store keeper.old.conn) known result
        (O.contents output.old) (O.contents output.new) }
    ensures printed { IfOk result (λ status.
        PrintsCounted (U.counts uploads) (λ _. ⊤) status (O.contents output.old) (O.contents output.new)) }
    ensures quiet { IfOk result (λ status. status ≡ Status.Success → U.keeps_quiet errors.old errors.new) }
    ensures stopped { IfErr result (MayStop U.are_read) }
    ensures exported { OnOk result (StandsOver L.meaning F.Store keeper.new.conn (Begun L.meaning F.Store keeper.old.conn) (λ _ after.
        ReplacesIf (option_map (λ name. name.now) then_export.entry) (export_text after) (Y.deeds rt.old) (Y.deeds rt.new))) }
    ensures touched { MayReplaceIf (option_map (λ name. name.now) then_export.entry) (Y.deeds rt.old) (Y.deeds rt.new) }
{
    // Does nothing: from its contract the proof has what might have been left before.
    sound_leaves_journals(keeper);
    let answered = uploads.answer(rt, keeper, output, errors);
    export_after(rt, keeper, answered, then_export)
}
