//! A sink over a writer.

ghost use Rattle.std.specs.Prelude.{◌≡◌};

use crate::failure::count_failure;
use crate::{ByteSink, WriteFailed};
use std::io::Write;

/// A sink over a writer. It fails if the writer does, or if the writer takes nothing of a piece that isn't empty.
#[derive(Drop)]
pub struct ToWrite<W> {
    writer: W,
    failures: u64,
}

impl<W: Write> ToWrite<W> {
    pub fn new(writer: W) -> ToWrite<W>
        ensures bytes { ⟦<ToWrite<W> as ByteSink>⟧.written result ≡ W.contents writer }
        ensures failures { ⟦<ToWrite<W> as ByteSink>⟧.failures result ≡ 0 }
    {
        ToWrite {
            writer,
            failures: 0,
        }
    }

    pub fn into_writer(self) -> W
        ensures { ⟦<ToWrite<W> as ByteSink>⟧.written self ≡ W.contents result }
    {
        self.writer
    }
}

impl<W: Write> ByteSink for ToWrite<W> {
    ghost written = { λ s. W.contents s.writer };

    ghost failures = { λ s. s.failures };

    fn write(&mut self, piece: &[u8]) -> Result<usize, WriteFailed> {
        match self.writer.write(piece) {
            Ok(count) if count > 0 || piece.is_empty() => Ok(count),
            _ => {
                count_failure(&mut self.failures);
                Err(WriteFailed)
            }
        }
    }
}
