//! Uploads that touch too many windows of sequences.

ghost use Rattle.std.specs.Prelude.{◌≡◌, ◌≢◌, ◌≤◌, ℕ, List, Option, Ok, Err, Some, IfSome, IsTrue, MatchOption};
ghost use Rattle.jc_base.specs.declared.fault.Code.TheVariants.{NotTheOwner, StoreFailed};
ghost use Rattle.jc_base.specs.Fault.{number_of};
ghost use Rattle.jc_base.specs.declared.limits.Limits.{Limits as LimitsValue};
ghost use Rattle.jc_collect.specs.Answer.{is_failure_code, named_by};
ghost use Rattle.jc_collect.specs.Begun.{BeginsUpload};
ghost use Rattle.jc_collect.specs.Inspected.{IsInspected};
ghost use Rattle.jc_collect.specs.Part.{known_from};
ghost use Rattle.jc_collect.specs.declared.bounds.Bounds.{Bounds as BoundsValue};
ghost use Rattle.jc_collect.specs.Wide.{IsRefusal, KeepsBounds, RefusesOver, windows_alone};
ghost use Rattle.jc_upload.specs.declared.answer.Answer.TheVariants.{No};

use crate::borrowed_device::BorrowedPart;
use crate::head::{HEAD_LENGTH, Unread, read_head_at};
use crate::inspect::inspect_part;
use crate::{Bounds, Inspected};
use jc_base::{Code, Limits, Stop};
use jc_file::ByteSpace;
use jc_upload::{Answer, UploadHead};
use std::alloc::Global;

/// The code of an upload that passes a bound. It is no fault of a format.
const OVER_BOUNDS: u16 = 6;

/// The answer to an upload that touches more windows of sequences than these, or of which that can't be found out. `None`
/// if it touches no more as far as it reads: then what is wrong with it, if something is, isn't said here.
pub fn refuse_wide<B: ByteSpace>(
    alloc: Global,
    space: &mut B,
    limits: &Limits,
    most_windows: u64,
) -> Option<Answer>
    ensures says { (upload : List ℕ) → B.bytes space.old ≡ Some upload
        → MatchOption result (KeepsBounds limits.now (windows_alone most_windows) upload)
        (RefusesOver limits.now (windows_alone most_windows) upload) }
    ensures refuses { IfSome result IsRefusal }
{
    match read_head_at(space) {
        Ok(head) => refuse_behind(alloc, head, space, limits, most_windows),
        Err(unread) => refuse_unread(unread),
    }
}

/// The same of one whose header can't be read.
fn refuse_unread(unread: Unread) -> Option<Answer>
    ensures says { (limits : LimitsValue) (bounds : BoundsValue) (upload : List ℕ) (before behind : Option (List ℕ)) → before ≡ Some upload
        → BeginsUpload before behind (Err unread)
        → MatchOption result (KeepsBounds limits bounds upload) (RefusesOver limits bounds upload) }
    ensures refuses { IfSome result IsRefusal }
{
    match unread {
        Unread::Fault(_) => None,
        Unread::ReadFailed => Some(unread.answer()),
    }
}

/// The same of one with this header.
fn refuse_behind<B: ByteSpace>(
    alloc: Global,
    head: UploadHead,
    space: &mut B,
    limits: &Limits,
    most_windows: u64,
) -> Option<Answer>
    requires { HEAD_LENGTH ≤ B.size space.old }
    ensures says { (upload : List ℕ) (before : Option (List ℕ)) → before ≡ Some upload
        → BeginsUpload before (known_from HEAD_LENGTH (B.bytes space.old)) (Ok head)
        → MatchOption result (KeepsBounds limits.now (windows_alone most_windows) upload)
        (RefusesOver limits.now (windows_alone most_windows) upload) }
    ensures refuses { IfSome result IsRefusal }
{
    let bounds = Bounds {
        entries: u64::MAX,
        fields: u64::MAX,
        bytes: u64::MAX,
        windows: most_windows,
    };
    let part = BorrowedPart::new(space, HEAD_LENGTH);
    match inspect_part(alloc, head, part, limits, &bounds) {
        Ok(inspected) => refusal_of(head, inspected),
        Err(stop) => Some(no(head, stop_code(stop), 0)),
    }
}

/// The refusal of an upload with this header that says this, if it passes its bounds.
fn refusal_of(head: UploadHead, inspected: Inspected) -> Option<Answer>
    ensures says { (limits : LimitsValue) (bounds : BoundsValue) (upload : List ℕ) → IsInspected limits bounds upload inspected
        → MatchOption result (KeepsBounds limits bounds upload) (RefusesOver limits bounds upload) }
    ensures refuses { IfSome result IsRefusal }
{
    match inspected {
        Inspected::Over(place) => Some(no(head, OVER_BOUNDS, place)),
        Inspected::Upload { .. } => None,
        Inspected::Bad(_) => None,
    }
}

/// The code of an upload that couldn't be read.
fn stop_code(stop: Stop) -> u16
    ensures failed { IsTrue (is_failure_code result) }
    ensures other { result ≢ number_of NotTheOwner }
    ensures stored { result ≢ number_of StoreFailed }
{
    match stop {
        Stop::ReadFailed => Code::ReadFailed.number(),
        Stop::OutOfMemory => Code::OutOfMemory.number(),
    }
}

fn no(head: UploadHead, code: u16, place: u64) -> Answer
    ensures { result ≡ No (Some (named_by head)) code place }
{
    let UploadHead { source, start, .. } = head;
    Answer::No {
        of: Some((source, start)),
        code,
        place,
    }
}
