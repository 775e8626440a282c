//! A stream over a reader.

ghost use Rattle.std.specs.Prelude.{◌≡◌, ◌<◌, ◌-◌, ◌^◌};

use crate::failure::count_failure;
use crate::{ByteStream, ReadFailed};
use std::io::Read;

/// A stream over a reader. It fails if the reader does, whatever the reader's error, and after 2^64 - 1 bytes.
#[derive(Drop)]
pub struct FromRead<R> {
    reader: R,
    left: u64,
    failures: u64,
    ghost small: { left < 2 ^ 64 },
}

impl<R: Read> FromRead<R> {
    pub fn new(reader: R) -> FromRead<R>
        ensures bytes { ⟦<FromRead<R> as ByteStream>⟧.remaining result ≡ R.remaining reader }
        ensures bound { ⟦<FromRead<R> as ByteStream>⟧.bound result ≡ 2 ^ 64 - 1 }
        ensures failures { ⟦<FromRead<R> as ByteStream>⟧.failures result ≡ 0 }
    {
        FromRead {
            reader,
            left: u64::MAX,
            failures: 0,
        }
    }
}

impl<R: Read> ByteStream for FromRead<R> {
    ghost remaining = { λ s. R.remaining s.reader };

    ghost bound = { λ s. s.left };

    ghost failures = { λ s. s.failures };

    ghost small = { λ s. s.small };

    fn read(&mut self, out: &mut [u8]) -> Result<usize, ReadFailed> {
        let room = usize::try_from(self.left).unwrap_or(usize::MAX);
        let end = out.len().min(room);
        match self.reader.read(&mut out[..end]) {
            Ok(count) if room > 0 => {
                self.left -= count as u64;
                Ok(count)
            }
            _ => {
                count_failure(&mut self.failures);
                Err(ReadFailed)
            }
        }
    }
}
