//! Spaces with a journal file and zeros after it, as far as they go.

use crate::output::{Output, write_bytes, write_line};
use crate::readings::write_reading;
use crate::recorded::{Asked, RecordedSpace};
use jc_base::Limits;
use jc_file::{ByteSpace, FileEntries, PagedSpace, payload};
use std::alloc::Global;

/// Reads a journal file by ranges, and writes how many arrays were visited and what was asked of the space.
pub fn file(alloc: Global, bytes: &[u8], limits: Limits, output: &mut Output) {
    long(alloc, bytes, &[bytes.len() as u64, 0], limits, output)
}

/// The same in a space of a length. Of the bytes those count that were asked for from a place on.
pub fn long(alloc: Global, bytes: &[u8], numbers: &[u64], limits: Limits, output: &mut Output) {
    let [len, from] = numbers else {
        return output.no_meaning();
    };
    let asked = Asked::from_place(*from);
    let space = RecordedSpace::new(bytes, *len, &asked);
    write_steps(alloc, FileEntries::new(alloc, space, limits), output);
    asked.write_to(output)
}

fn write_steps<B: ByteSpace + Drop>(
    alloc: Global,
    mut source: FileEntries<B>,
    output: &mut Output,
) {
    write_reading(alloc, &mut source, false, output);
    write_line(output, "steps", &[source.steps()])
}

/// Reads eight bytes at one place after another of a space of a length, by pages. Writes after each how often the space
/// was read by now, and the bytes.
pub fn parts(alloc: Global, bytes: &[u8], numbers: &[u64], output: &mut Output) {
    let [len, places @ ..] = numbers else {
        return output.no_meaning();
    };
    let asked = Asked::from_place(0);
    let space = RecordedSpace::new(bytes, *len, &asked);
    write_parts(PagedSpace::new(alloc, space), places, &asked, output)
}

fn write_parts<B: ByteSpace + Drop>(
    mut space: B,
    places: &[u64],
    asked: &Asked,
    output: &mut Output,
) {
    for place in places {
        let part = part_at(&mut space, *place);
        write_line(output, "reads", &[asked.reads()]);
        output.put(&part);
    }
}

/// Eight bytes of a space, or `no bytes` if it can't give them.
fn part_at<B: ByteSpace>(space: &mut B, place: u64) -> [u8; 8] {
    let mut part = [1; 8];
    match place.checked_add(8) {
        Some(end) if end <= space.len() && space.read_at(place, &mut part).is_ok() => part,
        _ => *b"no bytes",
    }
}

/// Writes the payload of the object at an offset of a journal file.
pub fn object(bytes: &[u8], numbers: &[u64], output: &mut Output) {
    let [offset] = numbers else {
        return output.no_meaning();
    };
    match payload(bytes, *offset) {
        Some(part) => write_bytes(output, "payload", part),
        None => write_line(output, "none", &[]),
    }
}
