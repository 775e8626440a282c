//! What is found in bytes that are given to a world.

ghost use Rattle.std.specs.Prelude.{◌≡◌, ◌↔◌, Err, IfOk, IsTrue, MatchOption, Some, map};
ghost use Rattle.std.specs.List.{Contains};
ghost use Rattle.jc_base.specs.declared.source.Stop.TheVariants.{ReadFailed};
ghost use Rattle.jc_base.specs.Reading.{Reading};
ghost use Rattle.jc_upload.specs.declared.head.UploadHead.{UploadHead};
ghost use Rattle.jc_world.specs.Event.{IsAlien};
ghost use Rattle.jc_world.specs.Given.{BeginsWith, FailedAtDevice, FileReadsFront, ReadsFront, StandsAt};
ghost use Rattle.jc_world.specs.State.{source_of};

use crate::machine::Machine;
use jc_base::{Entry, EntrySource, Id128, Limits, OutOfMemory, Step, Stop};
use jc_file::{FileEntries, SliceSpace};
use jc_upload::{UploadHead, one_head};
use std::alloc::Global;

/// Whether a journal file with these bytes reads without a fault as the first of these entries.
pub(crate) fn reads_front(
    alloc: Global,
    file: &[u8],
    entries: &[Entry],
    limits: &Limits,
) -> Result<bool, OutOfMemory>
    ensures { IfOk result (λ front. IsTrue front ↔ FileReadsFront limits.now file.now entries.now) }
{
    jc_file::one_reading();
    let mut source = FileEntries::new(alloc, SliceSpace { bytes: file }, *limits);
    match gives_front(&mut source, entries) {
        Ok(front) => Ok(front),
        Err(Stop::OutOfMemory) => Err(OutOfMemory),
        Err(Stop::ReadFailed) => unreachable!(),
    }
}

/// Whether a source gives the first of these entries, and then its end with no bytes left over.
fn gives_front<S: EntrySource>(source: &mut S, entries: &[Entry]) -> Result<bool, Stop>
    ensures front { IfOk result (λ front. (reading : Reading) → S.remaining source.old ≡ Some reading →
        IsTrue front ↔ ReadsFront entries.now reading) }
    ensures failed { result ≡ Err ReadFailed → FailedAtDevice (S.last source.old) (S.failures source.old)
        (S.failures source.new) }
{
    let mut rest = entries;
    'entries: loop {
        let step = source.next()?;
        match step {
            Step::Entry(entry) => {
                let Some((first, others)) = rest.split_first() else {
                    return Ok(false);
                };
                if !first.same(&entry) {
                    return Ok(false);
                }
                rest = others;
            }
            Step::End { left } => return Ok(left == 0),
            Step::Bad(_) => return Ok(false),
        }
    }
}

/// Whether bytes don't begin with a header that names the source of one of the machines.
pub(crate) fn is_alien(machines: &[Machine], bytes: &[u8]) -> bool
    ensures { IsTrue result ↔ IsAlien (map source_of machines.now) bytes.now }
{
    one_head();
    match head_of(bytes) {
        Some(head) => place_of(machines, head.source).is_none(),
        None => true,
    }
}

/// The header that bytes begin with.
fn head_of(bytes: &[u8]) -> Option<UploadHead>
    ensures { MatchOption result ((head : UploadHead) → ¬ BeginsWith bytes.now head) (BeginsWith bytes.now) }
{
    one_head();
    let first = bytes.first_chunk::<48>()?;
    UploadHead::read(first).ok()
}

/// The place of the machine with this source.
pub(crate) fn place_of(machines: &[Machine], source: Id128) -> Option<usize>
    ensures { MatchOption result (¬ Contains (map source_of machines.now) source) (StandsAt machines.now source) }
{
    for (place, machine) in machines.iter().enumerate() {
        if machine.source() == source {
            return Some(place);
        }
    }
    None
}
