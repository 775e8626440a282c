//! What an upload says, without its being taken up.

ghost use Rattle.std.specs.Prelude.{◌≡◌, ℕ, List, Ok, Option, Some, IfOk};
ghost use Rattle.std.specs.Option.{option_map};
ghost use Rattle.jc_upload.specs.declared.head.Kind.TheVariants.{Export, File};
ghost use Rattle.jc_upload.specs.Says.{reading_under};
ghost use Rattle.jc_collect.specs.Begun.{BeginsUpload};
ghost use Rattle.jc_collect.specs.Delivered.{of_delivery};
ghost use Rattle.jc_collect.specs.Inspected.{EndsInFormat, HasBody, HasFormatCode, IsInspected, SaysBodyOf, inspected_of, inspected_unread};
ghost use Rattle.jc_collect.specs.Part.{known_from};

use crate::borrowed_device::BorrowedPart;
use crate::gather::read_whole;
use crate::head::{HEAD_LENGTH, Unread, read_head, read_head_at};
use crate::space_stream::SpaceStream;
use crate::touched::Touched;
use crate::{Bounds, Delivery, Whole};
use jc_base::{ByteStream, Ending, EntrySource, Fault, Id128, Key, Limits, Step, Stop};
use jc_file::{ByteSpace, FileEntries, SliceSpace};
use jc_stream::Stream;
use jc_upload::{Kind, UploadHead, Version};
use std::alloc::Global;

/// What an upload says.
#[derive(Clone, Copy, Debug, PartialEq, Eq)]
pub enum Inspected {
    /// It can be taken up, by itself.
    Upload {
        source: Id128,
        start: u64,
        /// How many of its entries are complete.
        count: u64,
        /// How many bytes after them are an unfinished entry.
        left: u64,
        /// The key of the last complete entry.
        last: Option<Key>,
        /// How many windows of sequences its entries are in.
        windows: u64,
    },
    /// What is wrong with its header or its body.
    Bad(Fault),
    /// The place, from 0, of the first of its entries with which it passes a bound.
    Over(u64),
}

/// What the body of an upload says, as far as it is read.
#[derive(Clone, Copy)]
struct Body {
    count: u64,
    last: Option<Key>,
    windows: u64,
    ending: BodyEnding,
}

/// Why a body isn't read further.
#[derive(Clone, Copy)]
enum BodyEnding {
    Ended(Ending),
    /// The next entry passes a bound.
    OverBounds,
}

/// Reads an upload to its end, or up to the first entry with which it passes a bound, and keeps no more than one of its
/// entries.
pub fn inspect_one<R: ByteStream + Drop, B: ByteSpace + Drop>(
    alloc: Global,
    delivery: Delivery<R, B>,
    limits: &Limits,
    bounds: &Bounds,
) -> Result<Inspected, Stop>
    ensures says { (upload : List ℕ) → of_delivery R.remaining B.bytes delivery ≡ Some upload
        → IfOk result (IsInspected limits.now bounds.now upload) }
    // If its bytes aren't known, a fault is one that some upload has.
    ensures format { IfOk result HasFormatCode }
{
    match delivery {
        Delivery::Stream(device) => inspect_stream(alloc, device, limits, bounds),
        Delivery::Space(space) => inspect_space(alloc, space, limits, bounds),
    }
}

fn inspect_stream<R: ByteStream + Drop>(
    alloc: Global,
    mut device: R,
    limits: &Limits,
    bounds: &Bounds,
) -> Result<Inspected, Stop>
    ensures says { (upload : List ℕ) → R.remaining device ≡ Some upload → IfOk result (IsInspected limits.now bounds.now upload) }
    ensures format { IfOk result HasFormatCode }
{
    let head = match read_head(&mut device) {
        Ok(head) => head,
        Err(unread) => return inspect_unread(unread),
    };
    match head.kind {
        Kind::Export => {
            let body = export_body(alloc, device, limits, bounds, head.version)?;
            Ok(as_inspected(head, body))
        }
        Kind::File => {
            let body = gathered_body(alloc, device, limits, bounds, head.version)?;
            Ok(as_inspected(head, body))
        }
    }
}

fn inspect_space<B: ByteSpace + Drop>(
    alloc: Global,
    mut space: B,
    limits: &Limits,
    bounds: &Bounds,
) -> Result<Inspected, Stop>
    ensures says { (upload : List ℕ) → B.bytes space ≡ Some upload → IfOk result (IsInspected limits.now bounds.now upload) }
    ensures format { IfOk result HasFormatCode }
{
    let head = match read_head_at(&mut space) {
        Ok(head) => head,
        Err(unread) => return inspect_unread(unread),
    };
    let part = BorrowedPart::new(&mut space, HEAD_LENGTH);
    inspect_part(alloc, head, part, limits, bounds)
}

/// What an upload with this header says whose body a space has.
pub(crate) fn inspect_part<B: ByteSpace + Drop>(
    alloc: Global,
    head: UploadHead,
    part: B,
    limits: &Limits,
    bounds: &Bounds,
) -> Result<Inspected, Stop>
    ensures says { (upload : List ℕ) (before : Option (List ℕ)) → before ≡ Some upload → BeginsUpload before (B.bytes part) (Ok head)
        → IfOk result (IsInspected limits.now bounds.now upload) }
    ensures format { IfOk result HasFormatCode }
{
    match head.kind {
        Kind::Export => {
            let body = export_body(alloc, SpaceStream::new(part), limits, bounds, head.version)?;
            Ok(as_inspected(head, body))
        }
        Kind::File => {
            let body = file_body(alloc, part, limits, bounds, head.version)?;
            Ok(as_inspected(head, body))
        }
    }
}

/// What an upload says whose header can't be read.
fn inspect_unread(unread: Unread) -> Result<Inspected, Stop>
    ensures { result ≡ inspected_unread unread }
{
    match unread {
        Unread::Fault(fault) => Ok(Inspected::Bad(fault)),
        Unread::ReadFailed => Err(Stop::ReadFailed),
    }
}

/// What an upload with this header and this body says.
fn as_inspected(head: UploadHead, body: Body) -> Inspected
    ensures { result ≡ inspected_of head body }
{
    let UploadHead { source, start, .. } = head;
    let Body {
        count,
        last,
        windows,
        ending,
    } = body;
    match ending {
        BodyEnding::Ended(Ending::End { left }) => Inspected::Upload {
            source,
            start,
            count,
            left,
            last,
            windows,
        },
        BodyEnding::Ended(Ending::Bad(fault)) => Inspected::Bad(fault),
        BodyEnding::OverBounds => Inspected::Over(count),
    }
}

/// What a stream gives from here on, as the export stream of an upload of this version.
fn export_body<R: ByteStream + Drop>(
    alloc: Global,
    device: R,
    limits: &Limits,
    bounds: &Bounds,
    version: Version,
) -> Result<Body, Stop>
    ensures says { IfOk result (SaysBodyOf limits.now bounds.now version Export (R.remaining device)) }
    ensures format { IfOk result EndsInFormat }
{
    let stream = Stream::new(alloc, device, *limits)?;
    read_body(alloc, stream, bounds, version)
}

/// What a space has, as the journal file of an upload of this version.
fn file_body<B: ByteSpace + Drop>(
    alloc: Global,
    space: B,
    limits: &Limits,
    bounds: &Bounds,
    version: Version,
) -> Result<Body, Stop>
    ensures says { IfOk result (SaysBodyOf limits.now bounds.now version File (B.bytes space)) }
    ensures format { IfOk result EndsInFormat }
{
    let entries = FileEntries::new(alloc, space, *limits);
    read_body(alloc, entries, bounds, version)
}

/// What a stream gives from here on, as the journal file of an upload of this version. It is read whole first, up to one
/// byte more than a file may have.
fn gathered_body<R: ByteStream + Drop>(
    alloc: Global,
    mut device: R,
    limits: &Limits,
    bounds: &Bounds,
    version: Version,
) -> Result<Body, Stop>
    ensures says { IfOk result (SaysBodyOf limits.now bounds.now version File (R.remaining device)) }
    ensures format { IfOk result EndsInFormat }
{
    let bytes = read_whole(alloc, &mut device, limits.file + 1)?;
    file_body(alloc, SliceSpace { bytes: &bytes }, limits, bounds, version)
}

/// What a source gives, as the body of an upload of this version.
fn read_body<S: EntrySource + Drop>(
    alloc: Global,
    mut source: S,
    bounds: &Bounds,
    version: Version,
) -> Result<Body, Stop>
    ensures has { IfOk result (HasBody bounds.now (option_map (reading_under version) (S.remaining source))) }
    ensures format { IfOk result EndsInFormat }
{
    match version.whole_entries() {
        Some(entries) => body_of(alloc, &mut Whole::new(source, entries), bounds),
        None => body_of(alloc, &mut source, bounds),
    }
}

/// How many entries a source gives, the last of them, and how they end, up to the first one that passes a bound.
fn body_of<S: EntrySource>(alloc: Global, source: &mut S, bounds: &Bounds) -> Result<Body, Stop>
    ensures has { IfOk result (HasBody bounds.now (S.remaining source.old)) }
    ensures format { IfOk result EndsInFormat }
{
    let mut room = *bounds;
    let mut count = 0;
    let mut last = None;
    let mut touched = Touched::new(alloc);
    let mut windows = 0;
    'entries: loop {
        let step = source.next()?;
        match step {
            Step::Entry(entry) => {
                let touching = touched.touch(&entry)?;
                match room.behind_within(&entry, touching, bounds.windows) {
                    Some(less) => {
                        room = less;
                        windows = touching;
                        count += 1;
                        last = Some(entry.key());
                    }
                    None => {
                        return Ok(Body {
                            count,
                            last,
                            windows,
                            ending: BodyEnding::OverBounds,
                        });
                    }
                }
            }
            Step::End { left } => {
                return Ok(Body {
                    count,
                    last,
                    windows,
                    ending: BodyEnding::Ended(Ending::End { left }),
                });
            }
            Step::Bad(fault) => {
                return Ok(Body {
                    count,
                    last,
                    windows,
                    ending: BodyEnding::Ended(Ending::Bad(fault)),
                });
            }
        }
    }
}
