//! A sink in memory.

ghost use Rattle.std.specs.Prelude.{◌≡◌, [], Some};

use crate::failure::count_failure;
use crate::{ByteSink, WriteFailed};
use std::alloc::Global;

/// A sink that keeps the bytes. A refused growth is its failure.
#[derive(Drop)]
pub struct VecSink {
    bytes: Vec<u8>,
    failures: u64,
}

impl VecSink {
    pub fn new(alloc: Global) -> VecSink
        ensures bytes { ⟦<VecSink as ByteSink>⟧.written result ≡ Some [] }
        ensures failures { ⟦<VecSink as ByteSink>⟧.failures result ≡ 0 }
    {
        VecSink {
            bytes: Vec::new(alloc),
            failures: 0,
        }
    }

    pub fn bytes(&self) -> &[u8]
        ensures { ⟦<VecSink as ByteSink>⟧.written self.now ≡ Some result.now }
    {
        &self.bytes
    }

    pub fn into_bytes(self) -> Vec<u8>
        ensures { ⟦<VecSink as ByteSink>⟧.written self ≡ Some result.items }
    {
        self.bytes
    }
}

impl ByteSink for VecSink {
    ghost written = { λ s. Some s.bytes.items };

    ghost failures = { λ s. s.failures };

    fn write(&mut self, piece: &[u8]) -> Result<usize, WriteFailed> {
        match self.bytes.extend_from_slice(piece) {
            Ok(()) => Ok(piece.len()),
            Err(_) => {
                count_failure(&mut self.failures);
                Err(WriteFailed)
            }
        }
    }
}
