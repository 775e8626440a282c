//! Files with the uploads of two machines, each all of a source of its own, and with a list of one.

ghost use Rattle.std.specs.Prelude.{◌≡◌};
ghost use Rattle.jc_test_told.specs.Machines.{told_of_machines};

use crate::memory::Told;

/// An upload that is to be whole, of one entry, with the number 1.
pub(crate) const ONE: &[u8] = b"JCUPLD02\x01\x01\0\0\0\0\0\0\
    \x01\0\0\0\0\0\0\0\0\0\0\0\0\0\0\0\
    \0\0\0\0\0\0\0\0\x01\0\0\0\0\0\0\0\
    __REALTIME_TIMESTAMP=1\n__MONOTONIC_TIMESTAMP=1\n\
    __SEQNUM=1\n__SEQNUM_ID=01000000000000000000000000000000\n\n";

/// Another machine's, of one entry in the 65th window of its sequence.
pub(crate) const OTHER: &[u8] = b"JCUPLD02\x01\x01\0\0\0\0\0\0\
    \x02\0\0\0\0\0\0\0\0\0\0\0\0\0\0\0\
    \0\0\0\0\0\0\0\0\x01\0\0\0\0\0\0\0\
    __REALTIME_TIMESTAMP=1\n__MONOTONIC_TIMESTAMP=1\n\
    __SEQNUM=262145\n__SEQNUM_ID=02000000000000000000000000000000\n\n";

/// One more of that machine, of the entry behind it.
pub(crate) const LOST: &[u8] = b"JCUPLD02\x01\x01\0\0\0\0\0\0\
    \x03\0\0\0\0\0\0\0\0\0\0\0\0\0\0\0\
    \0\0\0\0\0\0\0\0\x01\0\0\0\0\0\0\0\
    __REALTIME_TIMESTAMP=1\n__MONOTONIC_TIMESTAMP=1\n\
    __SEQNUM=262146\n__SEQNUM_ID=02000000000000000000000000000000\n\n";

/// A list with the first one's upload, and the machine that brings it.
pub(crate) const LIST: &[u8] = b"\x01\t1\n";

/// Files whose names begin with `1`, `2`, `3` or `l`: these uploads, and the list. There are no others.
pub struct Machines;

impl Told for Machines {
    ghost told = { told_of_machines };

    fn find(path: &str) -> Option<&'static [u8]> {
        match path.as_bytes().first() {
            Some(b'1') => Some(ONE),
            Some(b'2') => Some(OTHER),
            Some(b'3') => Some(LOST),
            Some(b'l') => Some(LIST),
            _ => None,
        }
    }
}
