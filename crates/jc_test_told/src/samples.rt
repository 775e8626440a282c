//! Files of a machine: uploads, its journal and its resume point.

ghost use Rattle.std.specs.Prelude.{◌≡◌};
ghost use Rattle.jc_test_told.specs.Samples.{told_by_letter};

use crate::memory::Told;

/// An upload of one entry, with the number 1.
pub(crate) const FIRST: &[u8] = b"JCUPLD01\x01\0\0\0\0\0\0\0\
    \xa0\xa1\xa2\xa3\xa4\xa5\xa6\xa7\xa8\xa9\xaa\xab\xac\xad\xae\xaf\
    \x00\0\0\0\0\0\0\0\0\0\0\0\0\0\0\0\
    __REALTIME_TIMESTAMP=1000000\n__MONOTONIC_TIMESTAMP=5\n\
    __SEQNUM=1\n__SEQNUM_ID=000102030405060708090a0b0c0d0e0f\nMESSAGE=hi\n\n";

/// An upload of one entry, with the number 2, before which one came.
pub(crate) const SECOND: &[u8] = b"JCUPLD01\x01\0\0\0\0\0\0\0\
    \xa0\xa1\xa2\xa3\xa4\xa5\xa6\xa7\xa8\xa9\xaa\xab\xac\xad\xae\xaf\
    \x01\0\0\0\0\0\0\0\0\0\0\0\0\0\0\0\
    __REALTIME_TIMESTAMP=1000000\n__MONOTONIC_TIMESTAMP=5\n\
    __SEQNUM=2\n__SEQNUM_ID=000102030405060708090a0b0c0d0e0f\nMESSAGE=hi\n\n";

/// An upload that is cut off within its first entry, before which two came.
pub(crate) const CUT: &[u8] = b"JCUPLD01\x01\0\0\0\0\0\0\0\
    \xa0\xa1\xa2\xa3\xa4\xa5\xa6\xa7\xa8\xa9\xaa\xab\xac\xad\xae\xaf\
    \x02\0\0\0\0\0\0\0\0\0\0\0\0\0\0\0\
    __REALTIME_TIMESTAMP=1000000\n__MONOTONIC_TIMESTAMP=5\n";

/// An upload of an entry with the number 1 that differs from that of the first.
pub(crate) const CHANGED: &[u8] = b"JCUPLD01\x01\0\0\0\0\0\0\0\
    \xa0\xa1\xa2\xa3\xa4\xa5\xa6\xa7\xa8\xa9\xaa\xab\xac\xad\xae\xaf\
    \x00\0\0\0\0\0\0\0\0\0\0\0\0\0\0\0\
    __REALTIME_TIMESTAMP=1000000\n__MONOTONIC_TIMESTAMP=5\n\
    __SEQNUM=1\n__SEQNUM_ID=000102030405060708090a0b0c0d0e0f\nMESSAGE=ho\n\n";

/// An export stream of the entry of the first.
pub(crate) const STREAM: &[u8] = b"__REALTIME_TIMESTAMP=1000000\n__MONOTONIC_TIMESTAMP=5\n\
    __SEQNUM=1\n__SEQNUM_ID=000102030405060708090a0b0c0d0e0f\nMESSAGE=hi\n\n";

/// The resume text of a source whose first entry is that of the first.
pub(crate) const RESUME: &[u8] = b"resume 1 000102030405060708090a0b0c0d0e0f 1\n";

/// Files whose names begin with `a`, `b`, `c`, `d`, `e` or `f`: the texts above in their order. There are no others.
pub struct Samples;

impl Told for Samples {
    ghost told = { told_by_letter };

    fn find(path: &str) -> Option<&'static [u8]> {
        match path.as_bytes().first() {
            Some(b'a') => Some(FIRST),
            Some(b'b') => Some(SECOND),
            Some(b'c') => Some(CUT),
            Some(b'd') => Some(CHANGED),
            Some(b'e') => Some(STREAM),
            Some(b'f') => Some(RESUME),
            _ => None,
        }
    }
}
