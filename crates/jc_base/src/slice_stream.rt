//! A stream in memory.

ghost use Rattle.std.specs.Prelude.{◌≡◌, ◌<◌, ◌^◌, Some, length};

use crate::{ByteStream, ReadFailed};

/// A stream over bytes in memory. It never fails.
#[derive(Drop)]
pub struct SliceStream<'a> {
    rest: &'a [u8],
    ghost small: { length rest.now < 2 ^ 64 },
}

impl<'a> SliceStream<'a> {
    pub fn new(bytes: &'a [u8]) -> SliceStream<'a>
        ensures { ⟦<SliceStream<'a> as ByteStream>⟧.remaining result ≡ Some bytes.now }
    {
        SliceStream { rest: bytes }
    }
}

impl ByteStream for SliceStream<'_> {
    ghost remaining = { λ s. Some s.rest.now };

    ghost bound = { λ s. length s.rest.now };

    ghost failures = { λ _. 0 };

    ghost small = { λ s. s.small };

    fn read(&mut self, out: &mut [u8]) -> Result<usize, ReadFailed> {
        let count = out.len().min(self.rest.len());
        let (front, rest) = self.rest.split_at(count);
        out[..count].copy_from_slice(front);
        self.rest = rest;
        Ok(count)
    }
}
