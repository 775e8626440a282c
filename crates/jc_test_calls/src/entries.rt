//! Copies and texts of entries, and uploads that are made of them.

use crate::output::{Output, write_code, write_line, write_refused, write_text};
use jc_base::{Entry, Field, Id128, Limits, OutOfMemory};
use jc_export::{canonical, fields_text, read_all, read_fields};
use jc_test_samples::SOURCE_ID;
use jc_upload::{Answer, Resume, UploadFault, Uploader, file_upload};
use std::alloc::Global;

/// More entries than an upload has.
const ALL: u64 = u64::MAX;

/// Copies and spells each entry of an export stream, and writes the canonical text of what came of it.
pub fn copies(alloc: Global, bytes: &[u8], limits: &Limits, output: &mut Output) {
    let Ok(reading) = read_all(alloc, bytes, limits) else {
        return output.no_memory();
    };
    for entry in &reading.entries {
        write_copies(alloc, output, entry, limits);
    }
}

fn write_copies(alloc: Global, output: &mut Output, entry: &Entry, limits: &Limits) {
    write_text(output, "canonical", canonical(alloc, entry));
    write_text(output, "fields", fields_text(alloc, entry));
    write_entry(alloc, output, "clone", entry.try_clone());
    write_read_back(alloc, output, entry);
    write_pairs(alloc, output, entry, limits);
    write_field_copies(output, alloc, entry)
}

/// Writes an entry's canonical text. Another refusal, of the memory for that text, is a failure of the program.
fn write_entry(alloc: Global, output: &mut Output, name: &str, made: Result<Entry, OutOfMemory>) {
    let Ok(entry) = made else {
        return write_refused(output, name);
    };
    match canonical(alloc, &entry) {
        Ok(text) => write_text(output, name, Ok(text)),
        Err(OutOfMemory) => output.no_memory(),
    }
}

/// An entry of the text of another one's fields.
fn write_read_back(alloc: Global, output: &mut Output, entry: &Entry) {
    let text = entry.fields_text();
    match Entry::from_text(
        alloc,
        entry.key(),
        entry.realtime(),
        entry.monotonic(),
        text,
    ) {
        Ok(Some(read)) => write_entry(alloc, output, "read back", Ok(read)),
        Ok(None) => write_line(output, "read back none", &[]),
        Err(OutOfMemory) => write_refused(output, "read back"),
    }
}

/// An entry of the fields that another one's text has.
fn write_pairs(alloc: Global, output: &mut Output, entry: &Entry, limits: &Limits) {
    let fields = match read_fields(alloc, entry.fields_text()) {
        Ok(Some(fields)) => fields,
        Ok(None) => return write_line(output, "pairs none", &[]),
        Err(OutOfMemory) => return write_refused(output, "pairs"),
    };
    let (key, realtime, monotonic) = (entry.key(), entry.realtime(), entry.monotonic());
    match Entry::from_pairs(alloc, key, realtime, monotonic, fields, limits) {
        Ok(Ok(made)) => write_entry(alloc, output, "pairs", Ok(made)),
        Ok(Err(fault)) => write_code(output, "pairs", fault.code, fault.place),
        Err(OutOfMemory) => write_refused(output, "pairs"),
    }
}

/// Copies of an entry's fields.
fn write_field_copies(output: &mut Output, alloc: Global, entry: &Entry) {
    for field in entry.fields() {
        match Field::copied(alloc, field.name(), field.value()) {
            Ok(copy) => write_same(output, &copy),
            Err(OutOfMemory) => write_refused(output, "field"),
        }
    }
}

fn write_same(output: &mut Output, field: &Field) {
    match field.try_clone() {
        Ok(copy) => {
            let lengths = [copy.name().len() as u64, copy.value().len() as u64];
            write_line(output, "field", &lengths)
        }
        Err(OutOfMemory) => write_refused(output, "field"),
    }
}

/// Makes the first upload of an export stream's entries.
pub fn upload(alloc: Global, bytes: &[u8], limits: &Limits, output: &mut Output) {
    let Ok(reading) = read_all(alloc, bytes, limits) else {
        return output.no_memory();
    };
    let uploader = Uploader::new(Id128(SOURCE_ID), Resume::default());
    write_upload(output, uploader.next_upload(alloc, &reading.entries, ALL))
}

fn write_upload(output: &mut Output, made: Result<Vec<u8>, UploadFault>) {
    match made {
        Ok(upload) => write_text(output, "upload", Ok(upload)),
        Err(UploadFault::OutOfMemory) => write_text(output, "upload", Err(OutOfMemory)),
        Err(_) => write_line(output, "upload changed", &[]),
    }
}

/// An uploader at a point: the files are an export stream, the point's text, and lines of answers. Writes whether the
/// stream's entries are its own, its next upload of at most so many entries in either version, and of each answer whether
/// the point moves and where it is then.
pub fn uploader(
    alloc: Global,
    files: &[Vec<u8>],
    numbers: &[u64],
    limits: &Limits,
    output: &mut Output,
) {
    let [stream, point, answers @ ..] = files else {
        return output.no_meaning();
    };
    let Some(resume) = Resume::read(point) else {
        return output.no_meaning();
    };
    let Ok(reading) = read_all(alloc, stream, limits) else {
        return output.no_memory();
    };
    let uploader = Uploader::new(Id128(SOURCE_ID), resume);
    write_uploads(alloc, &uploader, &reading.entries, numbers, output);
    take_answers(alloc, uploader, &reading.entries, answers, output)
}

fn write_uploads(
    alloc: Global,
    uploader: &Uploader,
    entries: &[Entry],
    numbers: &[u64],
    output: &mut Output,
) {
    let [limit] = numbers else {
        return output.no_meaning();
    };
    let agrees = uploader.agrees(entries);
    write_line(output, if agrees { "yes" } else { "no" }, &[]);
    write_upload(output, uploader.next_upload(alloc, entries, *limit));
    write_upload(output, uploader.next_upload2(alloc, entries, *limit, true))
}

fn take_answers(
    alloc: Global,
    mut uploader: Uploader,
    entries: &[Entry],
    answers: &[Vec<u8>],
    output: &mut Output,
) {
    for answer in answers {
        take_answer(alloc, &mut uploader, entries, answer, output);
    }
}

fn take_answer(
    alloc: Global,
    uploader: &mut Uploader,
    entries: &[Entry],
    line: &[u8],
    output: &mut Output,
) {
    let Some(answer) = Answer::read(line) else {
        return output.no_meaning();
    };
    let moves = uploader.on_answer(entries, &answer);
    let name = if moves { "moves" } else { "stays" };
    write_text(output, name, uploader.resume().text(alloc))
}

/// Makes an upload of a journal file.
pub fn send(alloc: Global, bytes: &[u8], output: &mut Output) {
    write_text(
        output,
        "upload",
        file_upload(alloc, Id128(SOURCE_ID), bytes),
    )
}

/// Writes the text of a resume point that was read from one.
pub fn resume(alloc: Global, bytes: &[u8], output: &mut Output) {
    match Resume::read(bytes) {
        Some(point) => write_text(output, "resume", point.text(alloc)),
        None => write_line(output, "none", &[]),
    }
}
