//! A standard output that fails when it is flushed.

ghost use Rattle.std.specs.Prelude.{Some};

use std::alloc::Global;
use std::io;
use std::io::Write;

/// More flushes than there are.
pub(super) const ALWAYS: u64 = u64::MAX;

/// Keeps all that is written, and is flushed only so often: a disk that fails.
#[derive(Drop)]
pub(super) struct Output {
    pub kept: Vec<u8>,
    flushes: u64,
}

impl Output {
    /// A writer that can be flushed so often.
    pub(super) fn new(alloc: Global, flushes: u64) -> Output {
        Output {
            kept: Vec::new(alloc),
            flushes,
        }
    }
}

impl Write for Output {
    ghost contents = { λ s. Some s.kept.items };

    fn write(&mut self, buf: &[u8]) -> io::Result<usize> {
        self.kept.write(buf)
    }

    fn flush(&mut self) -> io::Result<()> {
        if self.flushes < 1 {
            return Err(io::Error::from(io::ErrorKind::Other));
        }
        self.flushes -= 1;
        Ok(())
    }
}
