//! Lines that can be read without waiting.

use memchr::memchr;
use std::alloc::Allocator;
use std::io::{BufRead, BufReader, Read};

/// A reader that knows what it has read ahead.
pub trait ReadyLines: BufRead {
    /// Whether the next line is there to its end, so that reading it doesn't wait.
    fn has_line(&self) -> bool;
}

impl<R: Read, A: Allocator> ReadyLines for BufReader<R, A> {
    fn has_line(&self) -> bool {
        memchr(b'\n', self.buffer()).is_some()
    }
}

impl ReadyLines for &[u8] {
    fn has_line(&self) -> bool {
        memchr(b'\n', self).is_some()
    }
}

impl<L: ReadyLines> ReadyLines for &mut L {
    fn has_line(&self) -> bool {
        (**self).has_line()
    }
}
