//! What the bytes of a source say.

ghost use Rattle.std.specs.Prelude.{◌≡◌, ◌⊎◌, ◌+◌, IfOk, IfErr, IfSome, OnOk, take};
ghost use Rattle.jc_base.specs.Reading.{Reading};
ghost use Rattle.jc_sender.specs.Source.{HasEntriesOf, ReadsWell, WhyNoEntries, most_file_bytes};

use crate::entries::{all_entries, count_entries};
use jc_base::{Ending, Entry, Limits};
use jc_command_args::{InputKind, Source};
use jc_command_shared::{Failure, System, open_file, read_front};
use jc_file::{FileEntries, SliceSpace};
use std::alloc::Global;
use std::io::Read;

/// The file of a source.
pub(crate) fn open_source<'a, R: System>(rt: &R, source: Source<'a>) -> Result<R::File, Failure<'a>>
    ensures stream { IfOk result (λ file. R.File.remaining file ≡ R.told source.entry.file.now) }
    ensures failed { IfErr result (λ failure. failure ≡ Failure.CannotOpen source.entry.file) }
{
    open_file(rt, source.file)
}

/// The bytes of a journal file, read up to one byte over the limit of a file: more would change nothing.
pub(crate) fn file_bytes<'a, F: Read + Drop>(alloc: Global, file: F) -> Result<Vec<u8>, Failure<'a>>
    ensures front { IfOk result (λ bytes. IfSome (F.remaining file) (λ held. bytes.items ≡ take (most_file_bytes + 1) held)) }
    ensures failed { IfErr result (λ failure. (failure ≡ Failure.ReadFailed) ⊎ (failure ≡ Failure.OutOfMemory)) }
{
    read_front(alloc, file, Limits::default().file + 1)
}

/// The complete entries of a journal file with these bytes, which has no fault.
pub(crate) fn file_entries<'a>(alloc: Global, bytes: &[u8]) -> Result<Vec<Entry>, Failure<'a>>
    ensures entries { IfOk result (λ entries. HasEntriesOf InputKind.File bytes.now entries.items) }
    ensures failed { IfErr result (WhyNoEntries InputKind.File bytes.now) }
{
    let mut source = FileEntries::new(alloc, SliceSpace { bytes }, Limits::default());
    let (entries, ending) = all_entries(alloc, &mut source)?;
    match ending {
        Ending::End { left: _ } => Ok(entries),
        Ending::Bad(fault) => Err(Failure::Bad(fault)),
    }
}

/// Fails if these bytes have a fault as a journal file. No entry is kept.
pub(crate) fn check_file<'a>(alloc: Global, bytes: &[u8]) -> Result<(), Failure<'a>>
    ensures well { OnOk result ((reading : Reading) × ReadsWell InputKind.File bytes.now reading) }
    ensures failed { IfErr result (WhyNoEntries InputKind.File bytes.now) }
{
    let mut source = FileEntries::new(alloc, SliceSpace { bytes }, Limits::default());
    let (_, ending) = count_entries(&mut source)?;
    match ending {
        Ending::End { left: _ } => Ok(()),
        Ending::Bad(fault) => Err(Failure::Bad(fault)),
    }
}
