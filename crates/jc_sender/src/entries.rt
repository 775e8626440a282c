//! What a source of entries gives, up to its end.

ghost use Rattle.std.specs.Prelude.{◌≡◌, Err, IfOk};
ghost use Rattle.jc_base.specs.declared.source.Stop.TheVariants.{ReadFailed};
ghost use Rattle.jc_sender.specs.Gathered.{FailedAtDevice, HasCount, HasEntries};
ghost use Rattle.jc_sender.specs.Reads.{EndsAs};

use crate::input_source::InputSource;
use jc_base::{Ending, Entry, EntrySource, Step, Stop};
use std::alloc::Global;

/// How many entries the source gives, and how they end. No entry is kept.
pub fn count_entries<S: InputSource>(source: &mut S) -> Result<(u64, Ending), Stop>
    ensures counted { IfOk result (λ found. HasCount (S.remaining source.old) found.0 found.1) }
    ensures ending { IfOk result (λ found. EndsAs S.kind (S.limits source.old) found.1) }
    ensures failed { result ≡ Err ReadFailed → FailedAtDevice (S.last source.old) (S.failures source.old)
        (S.failures source.new) }
{
    let mut count = 0;
    'entries: loop {
        let step = source.next_step()?;
        match step {
            Step::Entry(_) => count += 1,
            Step::End { left } => return Ok((count, Ending::End { left })),
            Step::Bad(fault) => return Ok((count, Ending::Bad(fault))),
        }
    }
}

/// The entries that the source gives, and how they end.
pub fn all_entries<S: EntrySource>(
    alloc: Global,
    source: &mut S,
) -> Result<(Vec<Entry>, Ending), Stop>
    ensures all { IfOk result (λ found. HasEntries (S.remaining source.old) found.0.items found.1) }
    ensures failed { result ≡ Err ReadFailed → FailedAtDevice (S.last source.old) (S.failures source.old)
        (S.failures source.new) }
{
    let mut entries = Vec::new(alloc);
    'entries: loop {
        let step = source.next()?;
        match step {
            Step::Entry(entry) => {
                if entries.push(entry).is_err() {
                    return Err(Stop::OutOfMemory);
                }
            }
            Step::End { left } => return Ok((entries, Ending::End { left })),
            Step::Bad(fault) => return Ok((entries, Ending::Bad(fault))),
        }
    }
}
