//! What is done to a journal.
//!
//! | Step | |
//! |---|---|
//! | `collect U:M R` | upload U is collected, from a device that fails after R reads |
//! | `run W U:M..` | a run over uploads, to a sink that takes one byte at each write and fails after W of them |
//! | `add E` | the export stream E's entries are added; then the next one that their reading gives is written |
//! | `stored` | the entries that are stored under the numbers 1 to 4 |
//! | `machine NAME` | the machine of this name brings what comes next |
//! | `nobody` | no machine is named |
//!
//! A device gives M bytes at most at each read. If M is 0 it is a space.

use crate::deliveries::{Upload, collect_all, collect_delivery, delivered};
use crate::operands::{number_in, numbered};
use crate::output::{Output, write_bytes, write_code, write_line, write_text};
use jc_base::{Ending, EntrySource, Id128, Key, Limits, ListSource, OutOfMemory, Step};
use jc_collect::RunEnd;
use jc_export::{canonical, read_all};
use jc_keeper::{Absorbed, KeepStop, Keeper};
use jc_test_samples::SEQNUM_ID;
use std::alloc::Global;
use std::collections::VecDeque;

/// What steps take their bytes from, by numbers, and the limits of what they collect.
#[derive(Clone, Copy)]
pub struct Given<'a> {
    pub alloc: Global,
    pub files: &'a [Vec<u8>],
    pub limits: Limits,
}

impl<'a> Given<'a> {
    fn named(&self, digits: &str) -> Option<&'a [u8]> {
        let number = number_in(digits)?;
        Some(self.files.get(number as usize)?)
    }

    /// Upload U from a device that gives M bytes at most and fails after so many reads, named as `U:M`.
    fn upload(&self, named: &str, passes: u64) -> Option<Upload<'a>> {
        let (digits, most) = numbered(named)?;
        let bytes = self.named(digits)?;
        Some(delivered(bytes, most, passes))
    }

    /// Uploads from devices that don't fail, with spaces between them.
    fn uploads(&self, named: &str) -> Option<Vec<Upload<'a>>> {
        let mut uploads = Vec::new(self.alloc);
        for one in named.split_whitespace() {
            uploads.push(self.upload(one, u64::MAX)?).ok()?;
        }
        Some(uploads)
    }

    /// A source of the entries of the export stream that has this number.
    pub fn source(&self, digits: &str) -> Option<ListSource> {
        source_of(self.alloc, self.named(digits)?)
    }
}

/// A source of an export stream's entries, if there is memory for them.
fn source_of(alloc: Global, bytes: &[u8]) -> Option<ListSource> {
    let reading = read_all(alloc, bytes, &Limits::default()).ok()?;
    let entries = VecDeque::from(reading.entries);
    Some(ListSource::new(entries, Ending::End { left: 0 }))
}

/// Takes a step, and writes what came of it.
pub fn take_step<K: Keeper>(given: Given<'_>, keeper: &mut K, step: &str, output: &mut Output) {
    let (word, operands) = step.split_once(' ').unwrap_or((step, ""));
    match word {
        "collect" => collect(given, keeper, operands, output),
        "run" => run(given, keeper, operands, output),
        "add" => add(given, keeper, operands, output),
        "stored" => write_stored(given.alloc, keeper, output),
        "machine" => brought(keeper, Some(operands.as_bytes())),
        "nobody" => brought(keeper, None),
        _ => output.no_meaning(),
    }
}

/// What comes next comes from this machine. What calls this has nothing of `brought_by`'s contract to prove with.
fn brought<K: Keeper>(keeper: &mut K, machine: Option<&[u8]>) {
    keeper.brought_by(machine)
}

fn collect<K: Keeper>(given: Given<'_>, keeper: &mut K, operands: &str, output: &mut Output) {
    let (named, digits) = operands.split_once(' ').unwrap_or((operands, ""));
    let Some(passes) = number_in(digits) else {
        return output.no_meaning();
    };
    let Some(mut delivery) = given.upload(named, passes) else {
        return output.no_meaning();
    };
    let answer = collect_delivery(given.alloc, keeper, &mut delivery, &given.limits);
    output.put(answer.line().bytes())
}

fn run<K: Keeper>(given: Given<'_>, keeper: &mut K, operands: &str, output: &mut Output) {
    let (digits, named) = operands.split_once(' ').unwrap_or((operands, ""));
    let Some(passes) = number_in(digits) else {
        return output.no_meaning();
    };
    let Some(mut uploads) = given.uploads(named) else {
        return output.no_meaning();
    };
    let (end, lines) = collect_all(given.alloc, keeper, &mut uploads, passes, &given.limits);
    write_text(output, "lines", Ok(lines));
    match end {
        RunEnd::Done => write_line(output, "done", &[]),
        RunEnd::Stopped { done, written } => write_line(output, "stopped", &[done, written]),
    }
}

fn add<K: Keeper>(given: Given<'_>, keeper: &mut K, digits: &str, output: &mut Output) {
    let Some(mut reading) = given.source(digits) else {
        return output.no_meaning();
    };
    write_absorbed(output, absorb(keeper, &mut reading));
    match reading.next() {
        Ok(Step::Entry(entry)) => write_text(output, "next", canonical(given.alloc, &entry)),
        Ok(_) | Err(_) => write_line(output, "next none", &[]),
    }
}

/// What becomes of a reading. What calls this has nothing of `absorb`'s contract to prove with.
fn absorb<K: Keeper>(keeper: &mut K, reading: &mut ListSource) -> Result<Absorbed, KeepStop> {
    keeper.absorb(reading)
}

fn write_absorbed(output: &mut Output, absorbed: Result<Absorbed, KeepStop>) {
    match absorbed {
        Ok(Absorbed::Taken { count, new, left }) => write_line(
            output,
            "taken",
            &[count, new, left],
        ),
        Ok(Absorbed::Conflict { index }) => write_line(output, "conflict", &[index]),
        Ok(Absorbed::NotTheOwner { index }) => write_line(output, "another's", &[index]),
        Ok(Absorbed::Bad(fault)) => write_code(output, "bad", fault.code, fault.place),
        Err(stop) => write_code(output, "stop", stop.code(), 0),
    }
}

/// Writes the texts of the entries that are stored under the numbers 1 to 4, one after the other.
fn write_stored<K: Keeper>(alloc: Global, keeper: &mut K, output: &mut Output) {
    let mut texts = Output::new(alloc);
    for seqnum in 1..=4 {
        add_stored(alloc, keeper, seqnum, &mut texts);
    }
    match texts.into_bytes() {
        Ok(texts) => write_bytes(output, "stored", &texts),
        Err(_) => output.no_memory(),
    }
}

/// Adds the text of the entry with this number, if one is stored.
fn add_stored<K: Keeper>(alloc: Global, keeper: &mut K, seqnum: u64, texts: &mut Output) {
    let seqnum_id = Id128(SEQNUM_ID);
    let Ok(stored) = keeper.get(&Key { seqnum_id, seqnum }) else {
        return texts.no_memory();
    };
    match stored.map(|entry| canonical(alloc, &entry)) {
        Some(Ok(text)) => texts.put(&text),
        Some(Err(OutOfMemory)) => texts.no_memory(),
        None => {}
    }
}
