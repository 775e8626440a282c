//! One run of the program.

ghost use Rattle.std.specs.Prelude.{◌≡◌, ◌≢◌, ◌⊎◌, ◌≤◌, None, Some, IsSome, Ok, Err, OnOk, IfOk, IfErr, map, string_bytes};
ghost use Rattle.std.specs.Io.KnownBytes.{Appends, Keeps};
ghost use Rattle.clap.specs.Words.{kind_of};
ghost use Rattle.jc_command_args.specs.Answer.{IsAskedFor};
ghost use Rattle.jc_command_shared.specs.Failure.{status_of};
ghost use Rattle.jc_command_shared.specs.Status.{number_of};
ghost use Rattle.jc_command.specs.Failed.{FailsAsked, FailsWithin, HasFailed};
ghost use Rattle.jc_command.specs.Run.{AskToOpenNotes, DoesAsked, DoesFor, Ends, EndsWithin, HasPerformed, OpensNotes, PerformsAsked, Stops, begins_with, devices, leaves};

use crate::begun::{Begun, BegunBy};
use crate::done::Done;
use crate::note_folders::{NoteFolders, Sequences};
use crate::notes::{list_all_owners, rename_all, work_on_notes};
use clap::error::ErrorKind;
use jc_collect::Bounds;
use jc_collector::{
    FailedRun, NotedLeft, check, check_noted, collect, collect_from_list, collect_into_union,
    export, inspect, migrate, show,
};
use jc_command_args::{CODES, Request, parse};
use jc_command_shared::{Errors, Failure, Output, Status, printed};
use jc_database::{Databases, OpenFromFiles};
use jc_ledger::Ledger;
use jc_notes::release_sequence;
use jc_sender::{ack, acknowledged, upload, verify};
use jc_sequences::Folders;
use std::io::Read;

/// What a run ended with: its status, and the files of its database, closed, if it had one open, with the notes of
/// sequences, if it had those. Of a run over a union that failed it has what is left of both. Of one that opened no notes it
/// has their folders.
#[derive(Drop)]
pub struct Ended<C: Drop, R: Drop, L: Ledger + Drop, N: Drop> {
    pub status: u8,
    pub files: Option<C>,
    pub ledger: Option<L>,
    pub left: Option<NotedLeft<R, L>>,
    pub folders: Option<N>,
}

/// Does what the arguments ask for, as `run_command` does, and answers the status to end with.
pub fn command<'a, Y: Databases, F: OpenFromFiles, S: Begun, I: Read, O: Output, E: Errors>(
    rt: &mut Y,
    folders: Folders<'a>,
    start: F::Start,
    words: Vec<String>,
    input: &mut I,
    output: &mut O,
    errors: &mut E,
) -> u8
    ensures status { result ≤ 4 }
    ensures ended { (status : Status) → status ≢ Status.Failed → result ≡ number_of status
        → EndsWithin (begins_with F.first S.windows S.finished S.aside S.came Y.told Y.found (Y.deeds rt.old) (O.entry_shape output.old))
        (devices F.in_files ⟦<Sequences<'a, S> as Ledger>⟧) (Y.deeds rt.new) (map string_bytes words.items) (I.remaining input.old)
        (O.contents output.old) (O.contents output.new) (E.contents errors.old) (E.contents errors.new) status }
    // Whatever the status is, what was asked for is performed, or it fails and leaves that.
    ensures failed { (status : Status) → result ≡ number_of status
        → FailsWithin (begins_with F.first S.windows S.finished S.aside S.came Y.told Y.found (Y.deeds rt.old) (O.entry_shape output.old))
        (devices F.in_files ⟦<Sequences<'a, S> as Ledger>⟧) folders.entry (Y.deeds rt.new) (map string_bytes words.items) (I.remaining input.old)
        (O.contents output.old) (O.contents output.new) status }
    // However it ends, this alone was done to files.
    ensures touched { DoesAsked Y.found (map string_bytes words.items) (I.remaining input.old) (Y.deeds rt.old) (Y.deeds rt.new) }
{
    run_command::<_, F, S, _, _, _, _>(rt, folders, start, words, input, output, errors).status
}

/// Does what the arguments ask for. The first argument is the program's name.
///
/// What is asked for goes to `output`. A failure, or what is wrong with the arguments, goes to `errors`. With status 3
/// something failed: no clause says what went to `errors` then, and of `output` one does if files come back, or what is left of a
/// union. `input` has the answers for `ack`, and for `collect` the upload if none is named, or their names if the list is `-`.
/// `start` stands for what a database's files hold as they are opened, and the files that come back are those. `folders` opens
/// the notes of sequences, and `S` says what is in them.
pub fn run_command<
    Y: Databases,
    F: OpenFromFiles,
    S: Begun,
    N: NoteFolders<S>,
    I: Read,
    O: Output,
    E: Errors,
>(
    rt: &mut Y,
    folders: N,
    start: F::Start,
    words: Vec<String>,
    input: &mut I,
    output: &mut O,
    errors: &mut E,
) -> Ended<F::Files, F::Left, N::Notes, N>
    ensures status { result.status ≤ 4 }
    // Where something failed, it says so only if files come back: what was stored and printed before is there too.
    ensures ended { (status : Status) → (status ≡ Status.Failed → IsSome result.files) → result.status ≡ number_of status
        → Ends (begins_with F.first S.windows S.finished S.aside S.came Y.told Y.found (Y.deeds rt.old) (O.entry_shape output.old))
        (devices F.in_files ⟦<N::Notes as Ledger>⟧) (leaves result.files result.ledger (Y.deeds rt.new)) (map string_bytes words.items) (I.remaining input.old)
        (O.contents output.old) (O.contents output.new) (E.contents errors.old) (E.contents errors.new) status }
    // Whatever the status is, either what was asked for is performed, or nothing was begun and nothing comes back. Or a union fails,
    // and what is left of it has what was printed, or is as it was opened; or another request, of which nothing comes back. A fault
    // that a union fails with is one of its present database, or of an entry in it that is over the limits.
    ensures failed { (status : Status) → result.status ≡ number_of status
        → PerformsAsked (begins_with F.first S.windows S.finished S.aside S.came Y.told Y.found (Y.deeds rt.old) (O.entry_shape output.old))
        (devices F.in_files ⟦<N::Notes as Ledger>⟧) (leaves result.files result.ledger (Y.deeds rt.new)) (map string_bytes words.items) (I.remaining input.old)
        (O.contents output.old) (O.contents output.new) status
        ⊎ FailsAsked (begins_with F.first S.windows S.finished S.aside S.came Y.told Y.found (Y.deeds rt.old) (O.entry_shape output.old))
        (devices F.in_files ⟦<N::Notes as Ledger>⟧) (map string_bytes words.items) (I.remaining input.old)
        (O.contents output.old) (O.contents output.new) (Y.deeds rt.new) (result.folders ≡ Some folders) status result.left }
    // However it ends, no notes were opened if their folders come back, and they do unless it is a run over a union.
    ensures unopened { AskToOpenNotes (map string_bytes words.items) ⊎ (result.folders ≡ Some folders) }
    // However it ends, this alone was done to files.
    ensures touched { DoesAsked Y.found (map string_bytes words.items) (I.remaining input.old) (Y.deeds rt.old) (Y.deeds rt.new) }
{
    let mut folders = Some(folders);
    match answered::<_, F, S, _, _, _, _>(
        rt,
        &mut folders,
        start,
        words.as_slice(),
        input,
        output,
        errors,
    ) {
        Ok(done) => Ended {
            status: done.status.number(),
            files: done.files,
            ledger: done.ledger,
            left: None,
            folders,
        },
        Err(run) => Ended {
            status: run.failure.report(errors).number(),
            files: None,
            ledger: None,
            left: run.left,
            folders,
        },
    }
}

/// Does what the arguments ask for, up to a failure.
fn answered<
    'w,
    Y: Databases,
    F: OpenFromFiles,
    S: Begun,
    N: NoteFolders<S>,
    I: Read,
    O: Output,
    E: Errors,
>(
    rt: &mut Y,
    folders: &mut Option<N>,
    start: F::Start,
    words: &'w [String],
    input: &mut I,
    output: &mut O,
    errors: &mut E,
) -> Result<Done<F::Files, N::Notes>, FailedRun<'w, F::Left, N::Notes>>
    requires { IsSome folders.old }
    ensures ended { IfOk result (λ done. Ends (begins_with F.first S.windows S.finished S.aside S.came Y.told Y.found (Y.deeds rt.old) (O.entry_shape output.old))
        (devices F.in_files ⟦<N::Notes as Ledger>⟧) (leaves done.files done.ledger (Y.deeds rt.new)) (map string_bytes words.entry.now) (I.remaining input.old)
        (O.contents output.old) (O.contents output.new) (E.contents errors.old) (E.contents errors.new) done.status) }
    ensures stopped { IfErr result (λ run. Stops Y.told (map string_bytes words.entry.now) (I.remaining input.old) (O.contents output.old)
        (O.contents output.new) run.failure) }
    // It performs what was asked for, or begins nothing.
    ensures performed { IfOk result (λ done. PerformsAsked (begins_with F.first S.windows S.finished S.aside S.came Y.told Y.found (Y.deeds rt.old) (O.entry_shape output.old))
        (devices F.in_files ⟦<N::Notes as Ledger>⟧) (leaves done.files done.ledger (Y.deeds rt.new)) (map string_bytes words.entry.now) (I.remaining input.old)
        (O.contents output.old) (O.contents output.new) done.status
        ⊎ FailsAsked (begins_with F.first S.windows S.finished S.aside S.came Y.told Y.found (Y.deeds rt.old) (O.entry_shape output.old))
        (devices F.in_files ⟦<N::Notes as Ledger>⟧) (map string_bytes words.entry.now) (I.remaining input.old)
        (O.contents output.old) (O.contents output.new) (Y.deeds rt.new) (folders.new ≡ folders.old) done.status None) }
    ensures left { IfErr result (λ run. FailsAsked (begins_with F.first S.windows S.finished S.aside S.came Y.told Y.found (Y.deeds rt.old) (O.entry_shape output.old))
        (devices F.in_files ⟦<N::Notes as Ledger>⟧) (map string_bytes words.entry.now) (I.remaining input.old)
        (O.contents output.old) (O.contents output.new) (Y.deeds rt.new) (folders.new ≡ folders.old) (status_of run.failure) run.left) }
    ensures unopened { AskToOpenNotes (map string_bytes words.entry.now) ⊎ (folders.new ≡ folders.old) }
    ensures touched { DoesAsked Y.found (map string_bytes words.entry.now) (I.remaining input.old) (Y.deeds rt.old) (Y.deeds rt.new) }
{
    match parse(rt.alloc(), words) {
        Ok(request) => perform::<_, F, S, _, _, _, _>(
            rt, folders, start, request, input, output, errors,
        ),
        Err(answer) => Done::without(answer_words(&answer, output, errors)),
    }
}

#[tactic(auto, using(jc_collector::specs::ExportedLaws::does_nothing))]
fn perform<
    'w,
    Y: Databases,
    F: OpenFromFiles,
    S: Begun,
    N: NoteFolders<S>,
    I: Read,
    O: Output,
    E: Errors,
>(
    rt: &mut Y,
    folders: &mut Option<N>,
    start: F::Start,
    request: Request<'w>,
    input: &mut I,
    output: &mut O,
    errors: &mut E,
) -> Result<Done<F::Files, N::Notes>, FailedRun<'w, F::Left, N::Notes>>
    requires { IsSome folders.old }
    ensures performed { IfOk result (λ done. HasPerformed (begins_with F.first S.windows S.finished S.aside S.came Y.told Y.found (Y.deeds rt.old) (O.entry_shape output.old))
        (devices F.in_files ⟦<N::Notes as Ledger>⟧) (leaves done.files done.ledger (Y.deeds rt.new)) request.entry (I.remaining input.old)
        (O.contents output.old) (O.contents output.new) (E.contents errors.old) (E.contents errors.new) done.status) }
    ensures failed { IfErr result (HasFailed (begins_with F.first S.windows S.finished S.aside S.came Y.told Y.found (Y.deeds rt.old) (O.entry_shape output.old))
        (devices F.in_files ⟦<N::Notes as Ledger>⟧) request.entry (I.remaining input.old) (O.contents output.old) (O.contents output.new) (Y.deeds rt.new) (folders.new ≡ folders.old)) }
    ensures unopened { OpensNotes request.entry ⊎ (folders.new ≡ folders.old) }
    // However it ends, this alone was done to files.
    ensures touched { DoesFor Y.found request.entry (I.remaining input.old) (Y.deeds rt.old) (Y.deeds rt.new) }
{
    match request {
        Request::Verify { kind, file } => Done::without(verify(rt, kind, file, output)),
        Request::Inspect {
            file,
            most_entries,
            most_fields,
            most_bytes,
            most_windows,
        } => {
            let bounds = Bounds {
                entries: most_entries,
                fields: most_fields,
                bytes: most_bytes,
                windows: most_windows,
            };
            Done::without(inspect(rt, file, &bounds, output))
        }
        Request::Upload {
            source,
            limit,
            most_bytes,
            whole,
        } => Done::succeeded(upload(rt, source, limit, most_bytes, whole, output)),
        Request::Ack { source } => Done::succeeded(ack(rt, source, input, output)),
        Request::Acknowledged { upload } => Done::without(acknowledged(rt, upload, input, output)),
        Request::Collect {
            database,
            tables,
            uploads,
            then_export,
        } => {
            let uploads = uploads.as_slice();
            let closed = collect::<_, F, _, _>(
                rt,
                start,
                database,
                tables,
                uploads,
                then_export,
                input,
                output,
            );
            Done::closed(closed)
        }
        Request::CollectListed {
            database,
            tables,
            list,
            then_export,
        } => {
            let closed = collect_from_list::<_, F, _, _, _>(
                rt,
                start,
                database,
                tables,
                list,
                then_export,
                input,
                output,
                errors,
            );
            Done::closed(closed)
        }
        Request::CollectIntoUnion {
            database,
            tables,
            list,
            sequences,
            most_windows,
            then_export,
        } => {
            let ledger = match folders.take().unwrap().open(sequences) {
                Ok(ledger) => ledger,
                Err(unopened) => {
                    *folders = Some(unopened.folders);
                    return Err(FailedRun::from(unopened.failure));
                }
            };
            let run = collect_into_union::<_, F, _, BegunBy<S>, _, _, _>(
                rt,
                start,
                ledger,
                database,
                tables,
                list,
                most_windows,
                then_export,
                input,
                output,
                errors,
            )?;
            N::show_steady(&run.ledger);
            Ok(Done::noted(run))
        }
        Request::Export { database } => {
            let closed = export::<_, F, _>(rt, start, database, output);
            Done::listed(closed)
        }
        Request::Show {
            database,
            field,
            id,
            first,
            last,
        } => {
            let closed = show::<_, F, _>(rt, start, database, field, id, first, last, output);
            Done::listed(closed)
        }
        Request::Check { database } => {
            let examined = check::<_, F, _>(rt, start, database, output);
            Done::examined(examined, None)
        }
        Request::CheckNoted {
            database,
            sequences,
        } => {
            let examined = check_noted::<_, F, _>(rt, start, database, sequences, output);
            Done::examined(examined, None)
        }
        Request::Notes { sequences, task } => {
            let folders = folders.as_ref().unwrap();
            Done::without(work_on_notes::<_, S, _, _, _>(
                rt, folders, sequences, task, input, output,
            ))
        }
        Request::ListOwners { sequences } => {
            let folders = folders.as_ref().unwrap();
            Done::without(list_all_owners::<_, S, _, _>(rt, folders, sequences, output))
        }
        Request::RenameOwner {
            sequences,
            old,
            new,
        } => {
            let folders = folders.as_ref().unwrap();
            Done::succeeded(rename_all::<_, S, _, _>(rt, folders, sequences, old, new, output))
        }
        Request::ReleaseSequence {
            sequences,
            sequence,
        } => Done::succeeded(release_sequence(rt, sequences, sequence, output)),
        Request::Migrate { database, tables } => {
            let examined = migrate::<_, F, _>(rt, start, database, tables, output);
            Done::examined(examined, None)
        }
        Request::ListCodes => Done::succeeded(list_codes(output)),
    }
}

/// Prints what each code means.
fn list_codes<'a, O: Output>(output: &mut O) -> Result<(), Failure<'a>>
    ensures printed { OnOk result (Appends (O.contents output.old) (O.contents output.new) CODES.now) }
    ensures failed { IfErr result (λ failure. failure ≡ Failure.WriteFailed) }
{
    let written = output.codes(CODES);
    printed(written, output)
}

/// Prints what `clap` answers in place of a request.
fn answer_words<'a, O: Output, E: Errors>(
    answer: &clap::Error,
    output: &mut O,
    errors: &mut E,
) -> Result<Status, Failure<'a>>
    ensures asked { IsAskedFor (kind_of answer.now) → IfOk result (λ status. status ≡ Status.Success)
        × IfErr result (λ failure. failure ≡ Failure.WriteFailed)
        × Keeps (E.contents errors.old) (E.contents errors.new) }
    ensures mistaken { ¬ IsAskedFor (kind_of answer.now) → kind_of answer.now ≢ ErrorKind.OutOfMemory
        → (result ≡ Ok Status.Misused) × Keeps (O.contents output.old) (O.contents output.new) }
    ensures memory { kind_of answer.now ≡ ErrorKind.OutOfMemory → (result ≡ Err Failure.OutOfMemory)
        × Keeps (O.contents output.old) (O.contents output.new) }
{
    if answer.kind() == ErrorKind::OutOfMemory {
        return Err(Failure::OutOfMemory);
    }
    if answer.use_stderr() {
        // If this fails too there is nowhere left to say it.
        let _ = write!(errors, "{answer}");
        return Ok(Status::Misused);
    }
    let written = write!(output, "{answer}");
    printed(written, output)?;
    Ok(Status::Success)
}
