//! What is printed of the answers of calls.

use jc_base::{Code, Ending, OutOfMemory, Stop};
use jc_collect::RunEnd;
use std::alloc::Global;
use std::io;
use std::io::Write;

/// What is to be printed; and the first failure of the program itself, after which nothing is. So no call has to look
/// whether the one before it failed: each such look makes a function longer to prove.
#[derive(Drop)]
pub struct Output {
    bytes: Vec<u8>,
    failure: Option<io::ErrorKind>,
}

impl Output {
    /// Nothing yet.
    pub fn new(alloc: Global) -> Output {
        Output {
            bytes: Vec::new(alloc),
            failure: None,
        }
    }

    /// What is to be printed, or the failure.
    pub fn into_bytes(self) -> io::Result<Vec<u8>> {
        match self.failure {
            None => Ok(self.bytes),
            Some(kind) => Err(io::Error::from(kind)),
        }
    }

    pub fn put(&mut self, bytes: &[u8]) {
        if self.bytes.extend_from_slice(bytes).is_err() {
            self.no_memory();
        }
    }

    /// Adds what another one has, or its failure.
    pub fn add(&mut self, other: &Output) {
        self.put(&other.bytes);
        if let Some(kind) = other.failure {
            self.fail(kind);
        }
    }

    /// Whether another one has the same, and neither failed.
    pub fn is_same(&self, other: &Output) -> bool {
        self.failure.is_none() && other.failure.is_none() && self.bytes == other.bytes
    }

    /// The failure of words that mean nothing.
    pub fn no_meaning(&mut self) {
        self.fail(io::ErrorKind::InvalidInput);
    }

    /// The failure of the program itself when memory is refused to it.
    pub fn no_memory(&mut self) {
        self.fail(io::ErrorKind::OutOfMemory);
    }

    fn fail(&mut self, kind: io::ErrorKind) {
        if self.failure.is_none() {
            self.failure = Some(kind);
        }
    }

    fn put_number(&mut self, number: u64) {
        if write!(self.bytes, " {number}").is_err() {
            self.no_memory();
        }
    }
}

/// A line of a name and numbers, with a space between each and the next.
pub fn write_line(output: &mut Output, name: &str, numbers: &[u64]) {
    write_words(output, name, numbers);
    output.put(b"\n");
}

/// The name and numbers of such a line, without the newline.
pub fn write_words(output: &mut Output, name: &str, numbers: &[u64]) {
    output.put(name.as_bytes());
    for number in numbers {
        output.put_number(*number);
    }
}

/// A line of a name, a code and what comes with it.
pub fn write_code(output: &mut Output, name: &str, code: Code, number: u64) {
    write_line(output, name, &[code.number() as u64, number]);
}

/// A text after its name and its length, or that memory for it was refused.
pub fn write_text(output: &mut Output, name: &str, made: Result<Vec<u8>, OutOfMemory>) {
    match made {
        Ok(text) => write_bytes(output, name, &text),
        Err(OutOfMemory) => write_refused(output, name),
    }
}

/// Bytes after their name and their length.
pub fn write_bytes(output: &mut Output, name: &str, bytes: &[u8]) {
    write_line(output, name, &[bytes.len() as u64]);
    output.put(bytes);
    output.put(b"\n");
}

/// That memory for what has this name was refused.
pub fn write_refused(output: &mut Output, name: &str) {
    write_words(output, name, &[]);
    output.put(b" refused\n");
}

/// How a reading ended, after this many entries.
pub fn write_end(output: &mut Output, count: u64, end: Result<Ending, Stop>) {
    match end {
        Ok(Ending::End { left }) => write_line(output, "ok", &[count, left]),
        Ok(Ending::Bad(fault)) => write_code(output, "bad", fault.code, fault.place),
        Err(Stop::OutOfMemory) => write_line(output, "refused", &[]),
        Err(Stop::ReadFailed) => write_line(output, "failed", &[]),
    }
}

/// What a run wrote, or that it stopped.
pub fn write_run(output: &mut Output, end: RunEnd, written: &[u8]) {
    match end {
        RunEnd::Done => output.put(written),
        RunEnd::Stopped { done, written } => write_line(output, "stopped", &[done, written]),
    }
}
