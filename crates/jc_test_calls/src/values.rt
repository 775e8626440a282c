//! What bytes are that stand by themselves: the text of fields, headers, lines of answers, and values.

use crate::output::{Output, write_code, write_line, write_refused, write_text};
use jc_base::faulty::FailSink;
use jc_base::{Entry, Field, Id128, Key, Limits, OutOfMemory, ToWrite, VecSink, is_text};
use jc_export::{fields_text, read_fields, write_entry};
use jc_test_samples::{SEQNUM_ID, Slow};
use jc_upload::{Answer, UploadHead, Version};
use std::alloc::Global;

/// Writes how many fields a text has.
pub fn fields(alloc: Global, bytes: &[u8], output: &mut Output) {
    match read_fields(alloc, bytes) {
        Ok(Some(fields)) => write_line(output, "some", &[fields.len() as u64]),
        Ok(None) => write_line(output, "none", &[]),
        Err(OutOfMemory) => write_refused(output, "fields"),
    }
}

/// Reads a header, and writes its source, the header that is written for it, and what else it says.
pub fn head(bytes: &[u8], output: &mut Output) {
    let Some(bytes) = bytes.first_chunk::<48>() else {
        return write_line(output, "short", &[]);
    };
    match UploadHead::read(bytes) {
        Ok(head) => write_head(&head, output),
        Err(fault) => write_code(output, "bad", fault.code, fault.place),
    }
}

fn write_head(head: &UploadHead, output: &mut Output) {
    output.put(&head.source.0);
    output.put(&head.write());
    let kind = head.kind as u64;
    match head.version {
        Version::V1 => write_line(output, "first", &[kind, head.start]),
        Version::V2 { whole, entries } => {
            write_line(
                output,
                "second",
                &[kind, head.start, u64::from(whole), entries],
            )
        }
    }
}

/// Writes the line of the answer that a line is.
pub fn answer(bytes: &[u8], output: &mut Output) {
    match Answer::read(bytes) {
        Some(answer) => output.put(answer.line().bytes()),
        None => write_line(output, "none", &[]),
    }
}

const KEY: Key = Key {
    seqnum_id: Id128(SEQNUM_ID),
    seqnum: 1,
};

/// Writes whether a value is a text, and what is spelled of an entry with it: the text of its fields, and its canonical
/// text by a writer and by a sink that takes one byte at each call and fails after so many.
pub fn value(alloc: Global, bytes: &[u8], numbers: &[u64], limits: &Limits, output: &mut Output) {
    let ([calls], Ok(Some(entry))) = (numbers, entry_with(alloc, bytes, limits)) else {
        return output.no_meaning();
    };
    write_line(output, if is_text(bytes) { "yes" } else { "no" }, &[]);
    write_text(output, "fields", fields_text(alloc, &entry));
    write_whole(alloc, &entry, output);
    write_front(alloc, &entry, *calls, output)
}

/// The entry of the first number that has a field `MESSAGE` of this value.
fn entry_with(alloc: Global, value: &[u8], limits: &Limits) -> Result<Option<Entry>, OutOfMemory> {
    let name = Vec::from_slice(alloc, b"MESSAGE")?;
    let value = Vec::from_slice(alloc, value)?;
    let Some(field) = Field::new(name, value) else {
        return Ok(None);
    };
    let fields = Vec::from_array(alloc, [field])?;
    let made = Entry::from_pairs(alloc, KEY, 1_000_000, 5, fields, limits)?;
    Ok(made.ok())
}

fn write_whole(alloc: Global, entry: &Entry, output: &mut Output) {
    let mut sink = ToWrite::new(Vec::new(alloc));
    match write_entry(entry, &mut sink) {
        Ok(()) => write_text(output, "put", Ok(sink.into_writer())),
        Err(written) => write_line(output, "failed", &[written.bytes]),
    }
}

/// Writes what the sink has, after its length: of a `front`, as is said where the sink fails.
fn write_front(alloc: Global, entry: &Entry, calls: u64, output: &mut Output) {
    let inner = Slow {
        inner: VecSink::new(alloc),
    };
    let mut sink = FailSink::new(inner, calls);
    let put = write_entry(entry, &mut sink);
    let text = sink.inner.inner.bytes();
    match put {
        Ok(()) => write_line(output, "whole", &[text.len() as u64]),
        Err(written) => write_line(output, "front", &[written.bytes]),
    }
    output.put(text)
}
