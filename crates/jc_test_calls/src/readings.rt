//! Readings of export streams and of journal files.

use crate::collecting::PIECE;
use crate::output::{Output, write_end, write_line, write_text, write_words};
use jc_base::faulty::FailStream;
use jc_base::{
    ByteStream, Ending, Entry, EntrySource, FromRead, Limits, OutOfMemory, SliceStream, Step, Stop,
};
use jc_export::{canonical, read_all};
use jc_file::{FileEntries, PagedSpace, SliceSpace};
use jc_stream::{Scanner, Stream};
use jc_test_samples::Pieces;
use std::alloc::Global;

/// So many fields of a scanner are written.
const FIELDS: usize = 3;

/// Reads an export stream at once.
pub fn read(alloc: Global, bytes: &[u8], limits: &Limits, output: &mut Output) {
    match read_all(alloc, bytes, limits) {
        Ok(reading) => write_end(output, reading.entries.len() as u64, Ok(reading.end)),
        Err(OutOfMemory) => write_end(output, 0, Err(Stop::OutOfMemory)),
    }
}

/// Reads an export stream from a reader.
pub fn reader(alloc: Global, bytes: &[u8], limits: Limits, spells: bool, output: &mut Output) {
    read_stream(alloc, FromRead::new(bytes), limits, spells, output)
}

/// Reads an export stream entry by entry, from a device that gives at most so many bytes at each read and fails once,
/// after so many reads; or in small pieces.
pub fn entries(
    alloc: Global,
    bytes: &[u8],
    numbers: &[u64],
    limits: Limits,
    spells: bool,
    output: &mut Output,
) {
    let (most, reads) = match numbers {
        [most, reads] => (*most as usize, *reads),
        _ => (PIECE, u64::MAX),
    };
    let pieces = Pieces {
        inner: SliceStream::new(bytes),
        most: most.max(1),
    };
    read_stream(
        alloc,
        FailStream::new(pieces, reads),
        limits,
        spells,
        output,
    )
}

fn read_stream<R: ByteStream + Drop>(
    alloc: Global,
    device: R,
    limits: Limits,
    spells: bool,
    output: &mut Output,
) {
    match Stream::new(alloc, device, limits) {
        Ok(mut source) => write_reading(alloc, &mut source, spells, output),
        Err(OutOfMemory) => write_end(output, 0, Err(Stop::OutOfMemory)),
    }
}

/// Reads an export stream by a scanner, in pieces of a size.
pub fn scan(alloc: Global, bytes: &[u8], limits: &Limits, size: usize, output: &mut Output) {
    let most = limits.entry + limits.name + limits.value + 16;
    scan_by(&mut Scanner::new(alloc, *limits), bytes, size, most, output)
}

/// Reads an export stream by a scanner, which may hold so many bytes at most.
fn scan_by(scanner: &mut Scanner, bytes: &[u8], size: usize, most: u64, output: &mut Output) {
    let mut rest = bytes;
    let mut count: u64 = 0;
    for _ in 0..u64::MAX {
        let (piece, _) = rest.split_at(rest.len().min(size));
        let Ok(used) = feed(scanner, piece) else {
            return write_end(output, count, Err(Stop::OutOfMemory));
        };
        if scanner.held() > most {
            return write_line(output, "held", &[scanner.held()]);
        }
        rest = rest.split_at(used.min(rest.len())).1;
        match scanner.take() {
            Ok(Some(Step::Entry(_))) => count = count.saturating_add(1),
            Ok(Some(Step::Bad(fault))) => return write_end(output, count, Ok(Ending::Bad(fault))),
            Ok(_) => {
                if rest.is_empty() {
                    break;
                }
            }
            Err(OutOfMemory) => return write_end(output, count, Err(Stop::OutOfMemory)),
        }
    }
    match scanner.finish() {
        Some(Step::End { left }) => write_end(output, count, Ok(Ending::End { left })),
        _ => write_end(output, count, Err(Stop::ReadFailed)),
    }
}

/// Feeds an export stream to a scanner as long as it takes bytes, and writes what each call answers.
pub fn feed_whole(alloc: Global, bytes: &[u8], limits: &Limits, output: &mut Output) {
    let mut scanner = Scanner::new(alloc, *limits);
    let mut rest = bytes;
    for _ in 0..u64::MAX {
        let used = feed_once(&mut scanner, rest, output);
        if used == 0 {
            break;
        }
        rest = rest.split_at(used.min(rest.len())).1;
    }
}

/// Feeds bytes to a scanner, and writes what the calls answer. Answers how many it took: none once it was refused memory.
fn feed_once(scanner: &mut Scanner, bytes: &[u8], output: &mut Output) -> usize {
    let Ok(used) = feed(scanner, bytes) else {
        write_line(output, "refused", &[]);
        return 0;
    };
    write_words(output, "feed", &[used as u64]);
    write_words(output, " held", &[scanner.held()]);
    write_held(output, scanner);
    match scanner.take() {
        Ok(taken) => {
            write_taken(output, taken);
            used
        }
        Err(OutOfMemory) => {
            write_line(output, " refused", &[]);
            0
        }
    }
}

/// Writes the first field that a scanner holds, and how the stream would end here.
fn write_held(output: &mut Output, scanner: &Scanner) {
    if let Some((name, value)) = scanner.field_at(0) {
        write_words(output, " field", &[name.len() as u64, value.len() as u64]);
    }
    write_finish(output, scanner.finish())
}

fn write_finish(output: &mut Output, end: Option<Step>) {
    match end {
        Some(Step::End { left }) => write_words(output, " left", &[left]),
        Some(Step::Bad(fault)) => {
            write_words(output, " bad", &[fault.code.number() as u64, fault.place])
        }
        _ => write_words(output, " waits", &[]),
    }
}

fn write_taken(output: &mut Output, taken: Option<Step>) {
    match taken {
        Some(Step::Entry(_)) => write_line(output, " entry", &[]),
        Some(_) => write_line(output, " fault", &[]),
        None => write_line(output, " none", &[]),
    }
}

/// Feeds pieces to a scanner, one after the other; an empty one has it give what it found. Writes what each call answers,
/// and the place and the first fields of the scanner after each piece.
pub fn feed_each(alloc: Global, pieces: &[Vec<u8>], limits: &Limits, output: &mut Output) {
    let mut scanner = Scanner::new(alloc, *limits);
    for piece in pieces {
        feed_one(&mut scanner, piece, output);
    }
}

fn feed_one(scanner: &mut Scanner, piece: &[u8], output: &mut Output) {
    if piece.is_empty() {
        return match scanner.take() {
            Ok(taken) => write_taken(output, taken),
            Err(OutOfMemory) => write_line(output, " refused", &[]),
        };
    }
    match feed(scanner, piece) {
        Ok(used) => write_fed(output, scanner, used as u64),
        Err(OutOfMemory) => write_line(output, " refused", &[]),
    }
}

fn write_fed(output: &mut Output, scanner: &Scanner, used: u64) {
    write_line(output, "takes", &[used, scanner.position()]);
    for place in 0..FIELDS {
        write_field(output, scanner.field_at(place));
    }
}

fn write_field(output: &mut Output, field: Option<(&[u8], &[u8])>) {
    let Some((name, value)) = field else {
        return;
    };
    write_line(output, "field", &[name.len() as u64, value.len() as u64]);
    output.put(name);
    output.put(value)
}

/// Feeds a piece to a scanner, if the bytes can be counted.
fn feed(scanner: &mut Scanner, piece: &[u8]) -> Result<usize, OutOfMemory> {
    if u64::MAX - scanner.position() < piece.len() as u64 {
        return Ok(0);
    }
    scanner.feed(piece)
}

/// Reads a journal file by pages.
pub fn pages(alloc: Global, bytes: &[u8], limits: Limits, spells: bool, output: &mut Output) {
    let space = PagedSpace::new(alloc, SliceSpace { bytes });
    write_reading(
        alloc,
        &mut FileEntries::new(alloc, space, limits),
        spells,
        output,
    )
}

/// Reads a source to its end and once more, and writes how it ended; the second time that has to be the same. Before that
/// it writes the texts of its entries, if it `spells`.
pub fn write_reading<S: EntrySource>(
    alloc: Global,
    source: &mut S,
    spells: bool,
    output: &mut Output,
) {
    let (count, end) = read_out(alloc, source, spells, output);
    let (more, again) = read_out(alloc, source, spells, output);
    if more > 0 || again != end {
        write_line(output, "another end", &[]);
    }
    write_end(output, count, end)
}

fn read_out<S: EntrySource>(
    alloc: Global,
    source: &mut S,
    spells: bool,
    output: &mut Output,
) -> (u64, Result<Ending, Stop>) {
    for count in 0..u64::MAX {
        match entry_of(source.next()) {
            Ok(entry) => {
                if spells {
                    write_text(output, "entry", canonical(alloc, &entry));
                }
            }
            Err(end) => return (count, end),
        }
    }
    (u64::MAX, Err(Stop::ReadFailed))
}

/// The entry that a step gives, or how the source ended.
fn entry_of(step: Result<Step, Stop>) -> Result<Entry, Result<Ending, Stop>> {
    match step {
        Ok(Step::Entry(entry)) => Ok(entry),
        Ok(Step::End { left }) => Err(Ok(Ending::End { left })),
        Ok(Step::Bad(fault)) => Err(Ok(Ending::Bad(fault))),
        Err(stop) => Err(Err(stop)),
    }
}
