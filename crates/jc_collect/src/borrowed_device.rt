//! Devices that are only borrowed.

ghost use Rattle.std.specs.Prelude.{◌≡◌, ◌∷◌, ◌+◌, ◌≤◌, ◌<◌, ◌^◌};
ghost use Rattle.jc_collect.specs.Part.{known_from, length_from};

use jc_base::{ByteStream, ReadFailed};
use jc_file::ByteSpace;

/// A stream that is borrowed.
#[derive(Drop)]
pub(crate) struct BorrowedStream<'a, R> {
    pub(crate) device: &'a mut R,
}

impl<R: ByteStream> ByteStream for BorrowedStream<'_, R> {
    ghost remaining = { λ s. R.remaining s.device.now };

    ghost bound = { λ s. R.bound s.device.now };

    ghost failures = { λ s. R.failures s.device.now };

    ghost borrowed_device = { λ s. s.device.ghost_name ∷ R.borrowed_device s.device.now };

    ghost small = { λ s. R.small s.device.now };

    fn read(&mut self, out: &mut [u8]) -> Result<usize, ReadFailed> {
        self.device.read(out)
    }
}

/// A space that is borrowed from a place on.
#[derive(Drop)]
pub(crate) struct BorrowedPart<'a, B: ByteSpace> {
    pub(crate) space: &'a mut B,
    start: u64,
    len: u64,
    ghost whole: { start + len ≡ B.size space.now },
    ghost small: { start + len < 2 ^ 64 },
}

impl<'a, B: ByteSpace> BorrowedPart<'a, B> {
    pub(crate) fn new(space: &'a mut B, start: u64) -> BorrowedPart<'a, B>
        requires { start ≤ B.size space.old }
        ensures same_reference { result.space.ghost_name ≡ space.entry.ghost_name }
        ensures space { result.space.now ≡ space.old }
        ensures bytes { ⟦<BorrowedPart<'a, B> as ByteSpace>⟧.bytes result ≡ known_from start (B.bytes space.old) }
    {
        let len = space.len() - start;
        BorrowedPart { space, start, len }
    }
}

impl<B: ByteSpace> ByteSpace for BorrowedPart<'_, B> {
    ghost bytes = { λ s. known_from s.start (B.bytes s.space.now) };

    ghost size = { λ s. s.len };

    ghost failures = { λ s. B.failures s.space.now };

    ghost borrowed_device = { λ s. s.space.ghost_name ∷ B.borrowed_device s.space.now };

    ghost whole = { λ s b h. length_from s.start s.len (B.size s.space.now) (B.bytes s.space.now) s.whole (B.whole s.space.now) b h };

    fn len(&self) -> u64 {
        self.len
    }

    fn read_at(&mut self, place: u64, out: &mut [u8]) -> Result<(), ReadFailed> {
        self.space.read_at(self.start + place, out)
    }
}

/// Takes back what was borrowed, as it was left. It is used once more so that a proof knows what became of it.
pub(crate) fn take_back<D>(device: &mut D)
    ensures { device.new ≡ device.old }
{}
