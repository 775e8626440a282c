//! Which entries an upload has room for whose bytes are bounded.

ghost use Rattle.std.specs.Prelude.{◌+◌, ℕ, length, take, IfOk, OnOk};
ghost use Rattle.jc_sender.specs.Within.{IsGreatest, IsKept, IsRoom, upload_size};

use jc_base::{Entry, OutOfMemory};
use jc_export::canonical;
use std::alloc::Global;

/// The bytes of an upload's header.
const HEAD_LENGTH: u64 = 48;

/// Keeps as many of the first entries as an upload has room for, if its bytes are bounded; one in any case.
pub(crate) fn keep_within(
    alloc: Global,
    entries: &mut Vec<Entry>,
    most_bytes: Option<u64>,
) -> Result<(), OutOfMemory>
    ensures { OnOk result (IsKept most_bytes entries.old.items entries.new.items) }
{
    if let Some(most) = most_bytes {
        let count = count_within(alloc, entries, most)?;
        entries.truncate(count);
    }
    Ok(())
}

/// How many of these entries an upload of at most so many bytes has room for, and at least one if there is one.
fn count_within(alloc: Global, entries: &[Entry], most: u64) -> Result<usize, OutOfMemory>
    ensures { IfOk result (IsGreatest most (length entries.now) (λ n. upload_size (take n entries.now))) }
{
    let mut room = most.checked_sub(HEAD_LENGTH);
    let mut count: usize = 0;
    for entry in entries {
        let text = canonical(alloc, entry)?;
        room = room_behind(room, text.len() as u64);
        if room.is_none() {
            return Ok(count.max(1));
        }
        count += 1;
    }
    Ok(count)
}

/// What is left of some room behind so many bytes more.
fn room_behind(room: Option<u64>, size: u64) -> Option<u64>
    ensures { (most before : ℕ) → IsRoom most before room → IsRoom most (before + size) result }
{
    room?.checked_sub(size)
}
