//! Streams of bytes.

ghost use Rattle.std.specs.Prelude.{◌≡◌, ◌<◌, ◌^◌, List, ℕ, [], Option, None, OnOk};
ghost use Rattle.std.specs.Io.{ReadsAtMost};
ghost use Rattle.std.specs.Io.KnownBytes.{ReadConsumes};
ghost use Rattle.std.specs.Borrow.{GName};
ghost use Rattle.jc_base.specs.Device.{CountsFailure, BoundFalls};

use crate::ReadFailed;

/// A stream of bytes, which is read once and in order.
pub trait ByteStream {
    /// The bytes still to come, where the stream tells them.
    ghost remaining: { Self → Option (List ℕ) } = { λ _. None };

    /// A bound on their number.
    ghost bound: { Self → ℕ };

    /// How often the stream has failed; the count stays at 2^64 - 1.
    ghost failures: { Self → ℕ };

    /// The borrowed device behind it, where it is only lent.
    ghost borrowed_device: { Self → List GName } = { λ _. [] };

    /// Reads into `out` and answers how many bytes came, as many as the stream likes but at least one. 0 says that
    /// the stream has ended, or that `out` is empty.
    fn read(&mut self, out: &mut [u8]) -> Result<usize, ReadFailed>
        ensures within { ReadsAtMost result out.new }
        ensures bytes { ReadConsumes (remaining self.old) (remaining self.new) result out.new }
        ensures bound { BoundFalls (bound self.old) (bound self.new) result }
        ensures failures { CountsFailure (failures self.old) (failures self.new) result }
        ensures stays { OnOk result (failures self.new ≡ failures self.old) }
        ensures borrowed_device { borrowed_device self.new ≡ borrowed_device self.old };

    ghost small: { (s : Self) → bound s < 2 ^ 64 };
}
