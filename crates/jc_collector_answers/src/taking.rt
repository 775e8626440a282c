//! An upload that a line names is taken up, and its answer is kept until it is stored.

ghost use Rattle.std.specs.Prelude.{◌≡◌, ◌∷◌, ◌++◌, [], None, OnErr, OnOk, false};
ghost use Rattle.std.specs.Io.KnownBytes.{Keeps};
ghost use Rattle.std.specs.List.{list_any};
ghost use Rattle.jc_base.specs.declared.fault.Code.TheVariants.{ReadFailed};
ghost use Rattle.jc_base.specs.Fault.{number_of};
ghost use Rattle.jc_collect.specs.Delivered.{of_delivery};
ghost use Rattle.jc_collect.specs.Gathered.{answers_in};
ghost use Rattle.jc_collect.specs.Together.{TakesUp};
ghost use Rattle.jc_upload.specs.declared.answer.Answer.TheVariants.{No};
ghost use Rattle.jc_collector_answers.specs.Answered.{is_refusal};
ghost use Rattle.jc_collector_answers.specs.Collected.{told_within};
ghost use Rattle.jc_collector_answers.specs.Grouped.{known_within};

use crate::uploads::{Upload, open_upload};
use jc_base::{ByteStream, Code, FromRead, Limits, OutOfMemory};
use jc_collect::{Delivery, Gathered, refuse_wide};
use jc_command_shared::{Errors, Failure, System, write_front};
use jc_file::{ByteSpace, FileSpace, PagedSpace, ReadFile};
use jc_keeper::Keeper;
use jc_upload::{Answer, one_saying};
use std::alloc::Global;
use std::io::Read;
use std::str;

/// Takes up the upload in the file with this name. If it can't be opened, that is told, and nothing could be read.
pub(crate) fn take_name<R: System, K: Keeper, E: Errors>(
    rt: &R,
    keeper: &mut K,
    name: &[u8],
    most_windows: Option<u64>,
    limits: &Limits,
    gathered: &mut Gathered,
    errors: &mut E,
) -> Result<(), OutOfMemory>
    ensures took { OnOk result (TakesUp K.Keeper limits.now (told_within most_windows R.told name.now) keeper.old keeper.new
        (answers_in gathered.old) (answers_in gathered.new)) }
    ensures untouched { OnErr result (keeper.new ≡ keeper.old) }
    ensures others { OnErr result (answers_in gathered.new ≡ answers_in gathered.old) }
    // Where something is told, there is a refusal.
    ensures quiet { OnOk result (list_any is_refusal (answers_in gathered.new) ≡ false
        → Keeps (E.contents errors.old) (E.contents errors.new)) }
{
    let Ok(path) = str::from_utf8(name) else {
        report_unopened(name, errors);
        return put_unread(gathered);
    };
    match open_upload(rt, path) {
        Ok(upload) => take_upload(rt.alloc(), keeper, upload, most_windows, limits, gathered),
        Err(Failure::OutOfMemory) => Err(OutOfMemory),
        Err(failure) => {
            failure.report(errors);
            put_unread(gathered)
        }
    }
}

/// Takes up an upload that was opened, unless it touches more windows of sequences than these, if they are bounded.
fn take_upload<K: Keeper, F: Read + ReadFile + Drop>(
    alloc: Global,
    keeper: &mut K,
    upload: Upload<F>,
    most_windows: Option<u64>,
    limits: &Limits,
    gathered: &mut Gathered,
) -> Result<(), OutOfMemory>
    ensures took { OnOk result (TakesUp K.Keeper limits.now
        (known_within most_windows (of_delivery ⟦<FromRead<F> as ByteStream>⟧.remaining ⟦<PagedSpace<FileSpace<F>> as ByteSpace>⟧.bytes upload))
        keeper.old keeper.new (answers_in gathered.old) (answers_in gathered.new)) }
    ensures untouched { OnErr result (keeper.new ≡ keeper.old) }
    ensures others { OnErr result (answers_in gathered.new ≡ answers_in gathered.old) }
{
    match most_windows {
        Some(most) => take_bounded(alloc, keeper, upload, most, limits, gathered),
        None => {
            let mut upload = upload;
            gathered.take(alloc, keeper, &mut upload, limits)
        }
    }
}

/// Takes it up where they are bounded. One that is in no regular file can't be looked at before, and is answered as one that
/// can't be read.
fn take_bounded<K: Keeper, F: Read + ReadFile + Drop>(
    alloc: Global,
    keeper: &mut K,
    upload: Upload<F>,
    most_windows: u64,
    limits: &Limits,
    gathered: &mut Gathered,
) -> Result<(), OutOfMemory>
    ensures took { OnOk result (TakesUp K.Keeper limits.now None keeper.old keeper.new (answers_in gathered.old) (answers_in gathered.new)) }
    ensures untouched { OnErr result (keeper.new ≡ keeper.old) }
    ensures others { OnErr result (answers_in gathered.new ≡ answers_in gathered.old) }
{
    // Does nothing: from its contract the proof has that no upload says two things.
    one_saying();
    let Delivery::Space(mut space) = upload else {
        return put_unread(gathered);
    };
    match refuse_wide(alloc, &mut space, limits, most_windows) {
        Some(refusal) => gathered.put(refusal),
        None => {
            let mut upload = Upload::<F>::Space(space);
            gathered.take(alloc, keeper, &mut upload, limits)
        }
    }
}

/// Keeps the answer to an upload of which nothing could be read.
fn put_unread(gathered: &mut Gathered) -> Result<(), OutOfMemory>
    ensures put { OnOk result (answers_in gathered.new ≡ answers_in gathered.old ++ No None (number_of ReadFailed) 0 ∷ []) }
    ensures others { OnErr result (answers_in gathered.new ≡ answers_in gathered.old) }
{
    gathered.put(Answer::No {
        of: None,
        code: Code::ReadFailed.number(),
        place: 0,
    })
}

/// Prints, byte by byte, that the file with this name can't be opened: the name isn't UTF-8.
fn report_unopened<E: Errors>(name: &[u8], errors: &mut E) {
    // If this fails there is nowhere left to say it.
    write_front(errors, b"cannot open ");
    write_front(errors, name);
    write_front(errors, b"\n");
}
