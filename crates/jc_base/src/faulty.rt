//! Devices that fail once, for tests of what stands on them.

ghost use Rattle.std.specs.Prelude.{◌≡◌, ◌<◌, ◌↔◌, Some, IsTrue, IsErr, IfOk, OnOk, length};
ghost use Rattle.std.specs.Io.{ReadsAtMost, WritesAtMost};
ghost use Rattle.std.specs.Io.KnownBytes.{ReadConsumes, WriteAppends};
ghost use Rattle.jc_base.specs.Device.{CountsFailure, BoundFalls};
ghost use Rattle.jc_base.specs.Turn.{TakesTurn, count_with};

use crate::{ByteSink, ByteStream, ReadFailed, WriteFailed};

/// A device that passes some calls on, fails the next one, and passes all later ones on.
#[derive(Drop)]
pub struct FailOnce<D> {
    /// The device that calls are passed on to.
    pub inner: D,
    /// How many calls are still passed on before the one that fails; `None` once that one came.
    pub passes: Option<u64>,
}

/// A stream that fails once.
pub type FailStream<R> = FailOnce<R>;

/// A sink that fails once.
pub type FailSink<W> = FailOnce<W>;

impl<D> FailOnce<D> {
    /// The call behind the first `passes` ones fails.
    pub fn new(inner: D, passes: u64) -> FailOnce<D>
        ensures inner { result.inner ≡ inner }
        ensures passes { result.passes ≡ Some passes }
    {
        FailOnce {
            inner,
            passes: Some(passes),
        }
    }
}

impl<R: ByteStream> ByteStream for FailOnce<R> {
    ghost remaining = { λ s. R.remaining s.inner };

    ghost bound = { λ s. R.bound s.inner };

    ghost failures = { λ s. count_with (R.failures s.inner) s.passes };

    ghost borrowed_device = { λ s. R.borrowed_device s.inner };

    ghost small = { λ s. R.small s.inner };

    fn read(&mut self, out: &mut [u8]) -> Result<usize, ReadFailed>
        ensures within { ReadsAtMost result out.new }
        ensures bytes { ReadConsumes (R.remaining self.old.inner) (R.remaining self.new.inner) result out.new }
        ensures bound { BoundFalls (R.bound self.old.inner) (R.bound self.new.inner) result }
        ensures failures { CountsFailure (count_with (R.failures self.old.inner) self.old.passes)
            (count_with (R.failures self.new.inner) self.new.passes) result }
        ensures stays { OnOk result (count_with (R.failures self.new.inner) self.new.passes
            ≡ count_with (R.failures self.old.inner) self.old.passes) }
        ensures borrowed_device { R.borrowed_device self.new.inner ≡ R.borrowed_device self.old.inner }

        // The call that fails is the one behind those that are passed on, and it reaches no inner stream.
        ensures turn { TakesTurn self.old.passes self.new.passes }
        ensures fails { self.old.passes ≡ Some 0 → IsErr result × (self.new.inner ≡ self.old.inner) }
    {
        if turn(&mut self.passes) {
            return Err(ReadFailed);
        }
        self.inner.read(out)
    }
}

impl<W: ByteSink> ByteSink for FailOnce<W> {
    ghost written = { λ s. W.written s.inner };

    ghost failures = { λ s. count_with (W.failures s.inner) s.passes };

    ghost borrowed_device = { λ s. W.borrowed_device s.inner };

    fn write(&mut self, piece: &[u8]) -> Result<usize, WriteFailed>
        ensures within { WritesAtMost result piece.now }
        ensures takes { IfOk result (λ count. 0 < length piece.now → 0 < count) }
        ensures bytes { WriteAppends (W.written self.old.inner) (W.written self.new.inner) result piece.now }
        ensures failures { CountsFailure (count_with (W.failures self.old.inner) self.old.passes)
            (count_with (W.failures self.new.inner) self.new.passes) result }
        ensures stays { OnOk result (count_with (W.failures self.new.inner) self.new.passes
            ≡ count_with (W.failures self.old.inner) self.old.passes) }
        ensures borrowed_device { W.borrowed_device self.new.inner ≡ W.borrowed_device self.old.inner }

        // The call that fails is the one behind those that are passed on, and it reaches no inner sink.
        ensures turn { TakesTurn self.old.passes self.new.passes }
        ensures fails { self.old.passes ≡ Some 0 → IsErr result × (self.new.inner ≡ self.old.inner) }
    {
        if turn(&mut self.passes) {
            return Err(WriteFailed);
        }
        self.inner.write(piece)
    }
}

/// Counts a call, and answers whether it is the one that fails.
pub fn turn(passes: &mut Option<u64>) -> bool
    ensures counted { TakesTurn passes.old passes.new }
    ensures fails { IsTrue result ↔ (passes.old ≡ Some 0) }
{
    match *passes {
        None => false,
        Some(0) => {
            *passes = None;
            true
        }
        Some(left) => {
            *passes = Some(left - 1);
            false
        }
    }
}
