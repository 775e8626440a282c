//! The limits of an entry as a whole.

ghost use Rattle.std.specs.Prelude.{◌≡◌, ◌≤◌};
ghost use Rattle.jc_base.specs.Limit.{size_passed};

use crate::{Code, Limits};

impl Limits {
    /// The limit that an entry passes with one more field that counts, the smallest code first. So many fields that count
    /// stand before it, of so many bytes, and its own name and value have `weight` bytes. Takes no memory.
    pub fn size_passed(&self, number: u64, bytes: u64, weight: u64) -> Option<Code>
        requires { bytes ≤ self.now.entry }
        ensures { result ≡ size_passed self.now number bytes weight }
    {
        if number >= self.fields {
            Some(Code::TooManyFields)
        } else if weight > self.entry - bytes {
            Some(Code::EntryTooLong)
        } else {
            None
        }
    }
}
