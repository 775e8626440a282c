//! Sinks of bytes.

ghost use Rattle.std.specs.Prelude.{◌≡◌, ◌<◌, List, ℕ, [], Option, None, length, OnOk, IfOk, IfErr};
ghost use Rattle.std.specs.Io.{WritesAtMost};
ghost use Rattle.std.specs.Io.KnownBytes.{WriteAppends, Appends};
ghost use Rattle.std.specs.Borrow.{GName};
ghost use Rattle.jc_base.specs.Device.{CountsFailure, WentOut};

use crate::WriteFailed;

/// A sink of bytes, which are written once and in order.
pub trait ByteSink {
    /// The bytes that the sink has taken, where it tells them.
    ghost written: { Self → Option (List ℕ) } = { λ _. None };

    /// How often the sink has failed; the count stays at 2^64 - 1.
    ghost failures: { Self → ℕ };

    /// The borrowed device behind it, where it is only lent.
    ghost borrowed_device: { Self → List GName } = { λ _. [] };

    /// Takes a front of the piece and answers its length: at least one byte of a piece that isn't empty.
    fn write(&mut self, piece: &[u8]) -> Result<usize, WriteFailed>
        ensures within { WritesAtMost result piece.now }
        ensures takes { IfOk result (λ count. 0 < length piece.now → 0 < count) }
        ensures bytes { WriteAppends (written self.old) (written self.new) result piece.now }
        ensures failures { CountsFailure (failures self.old) (failures self.new) result }
        ensures stays { OnOk result (failures self.new ≡ failures self.old) }
        ensures borrowed_device { borrowed_device self.new ≡ borrowed_device self.old };
}

/// How many bytes of a text went out before a sink failed.
#[derive(Clone, Copy, Debug, PartialEq, Eq)]
pub struct Written {
    pub bytes: u64,
}

/// Writes a whole text, in as many pieces as the sink likes. Takes no memory.
///
/// At an `Err` the sink has failed, and the bytes that went out are the front of the text of that length.
pub fn write_all<W: ByteSink>(sink: &mut W, text: &[u8]) -> Result<(), Written>
    ensures ok { OnOk result (Appends (W.written sink.old) (W.written sink.new) text.now) }
    ensures err { IfErr result (λ out. WentOut (W.written sink.old) (W.written sink.new) text.now out.bytes) }
    ensures failures { CountsFailure (W.failures sink.old) (W.failures sink.new) result }
    ensures stays { OnOk result (W.failures sink.new ≡ W.failures sink.old) }
    ensures borrowed_device { W.borrowed_device sink.new ≡ W.borrowed_device sink.old }
{
    let mut at = 0;
    while at < text.len() {
        match sink.write(&text[at..]) {
            Ok(count) => at += count,
            Err(_) => return Err(Written { bytes: at as u64 }),
        }
    }
    Ok(())
}
