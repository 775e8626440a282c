//! A space as a stream.

ghost use Rattle.std.specs.Prelude.{◌≡◌, ◌-◌, ◌≤◌, ◌<◌, ◌^◌};
ghost use Rattle.jc_collect.specs.Part.{known_from, small_rest};

use jc_base::{ByteStream, ReadFailed};
use jc_file::ByteSpace;

/// The bytes of a space, read in order.
#[derive(Drop)]
pub(crate) struct SpaceStream<B: ByteSpace> {
    pub(crate) space: B,
    place: u64,
    len: u64,
    ghost whole: { len ≡ B.size space },
    ghost inside: { place ≤ len },
    ghost small: { len < 2 ^ 64 },
}

impl<B: ByteSpace> SpaceStream<B> {
    pub(crate) fn new(space: B) -> SpaceStream<B>
        ensures space { result.space ≡ space }
        ensures remaining { ⟦<SpaceStream<B> as ByteStream>⟧.remaining result ≡ B.bytes space }
    {
        let len = space.len();
        SpaceStream {
            space,
            place: 0,
            len,
        }
    }
}

impl<B: ByteSpace> ByteStream for SpaceStream<B> {
    ghost remaining = { λ s. known_from s.place (B.bytes s.space) };

    ghost bound = { λ s. s.len - s.place };

    ghost failures = { λ s. B.failures s.space };

    ghost borrowed_device = { λ s. B.borrowed_device s.space };

    ghost small = { λ s. small_rest s.len s.place s.small };

    fn read(&mut self, out: &mut [u8]) -> Result<usize, ReadFailed> {
        let left = self.len - self.place;
        if left == 0 {
            return Ok(0);
        }
        let count = (out.len() as u64).min(left) as usize;
        self.space.read_at(self.place, &mut out[..count])?;
        self.place += count as u64;
        Ok(count)
    }
}
