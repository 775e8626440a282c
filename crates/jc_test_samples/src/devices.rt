//! Devices that take small steps.

ghost use Rattle.std.specs.Prelude.{◌<◌};

use jc_base::{ByteSink, ByteStream, ReadFailed, WriteFailed};

/// A stream that gives at most this many bytes of another one at each read.
#[derive(Drop)]
pub struct Pieces<R> {
    pub inner: R,
    pub most: usize,
    ghost some: { 0 < most },
}

impl<R: ByteStream> ByteStream for Pieces<R> {
    ghost remaining = { λ s. R.remaining s.inner };

    ghost bound = { λ s. R.bound s.inner };

    ghost failures = { λ s. R.failures s.inner };

    ghost borrowed_device = { λ s. R.borrowed_device s.inner };

    ghost small = { λ s. R.small s.inner };

    fn read(&mut self, out: &mut [u8]) -> Result<usize, ReadFailed> {
        let end = out.len().min(self.most);
        self.inner.read(&mut out[..end])
    }
}

/// A sink that takes one byte at each write.
#[derive(Drop)]
pub struct Slow<W> {
    pub inner: W,
}

impl<W: ByteSink> ByteSink for Slow<W> {
    ghost written = { λ s. W.written s.inner };

    ghost failures = { λ s. W.failures s.inner };

    ghost borrowed_device = { λ s. W.borrowed_device s.inner };

    fn write(&mut self, piece: &[u8]) -> Result<usize, WriteFailed> {
        let end = piece.len().min(1);
        self.inner.write(&piece[..end])
    }
}
