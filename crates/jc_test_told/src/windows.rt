//! A folder of notes.

ghost use Rattle.std.specs.Prelude.{◌≡◌};
ghost use Rattle.jc_test_told.specs.Windows.{told_of_windows};

use crate::memory::Told;

/// The text of one note, of the number 1, and the closed gate behind it.
pub(crate) const FIRST: &[u8] = b"\x01\x01\0\0\0\0\0\0\0\
    \x07\x07\x07\x07\x07\x07\x07\x07\x07\x07\x07\x07\x07\x07\x07\x07\
    \x07\x07\x07\x07\x07\x07\x07\x07\x07\x07\x07\x07\x07\x07\x07\x07\0";

/// Two notes, of the numbers 20480 and 20481.
pub(crate) const FIFTH: &[u8] = b"\x01\0\x50\0\0\0\0\0\0\
    \x08\x08\x08\x08\x08\x08\x08\x08\x08\x08\x08\x08\x08\x08\x08\x08\
    \x08\x08\x08\x08\x08\x08\x08\x08\x08\x08\x08\x08\x08\x08\x08\x08\
    \x01\x01\x50\0\0\0\0\0\0\
    \x09\x09\x09\x09\x09\x09\x09\x09\x09\x09\x09\x09\x09\x09\x09\x09\
    \x09\x09\x09\x09\x09\x09\x09\x09\x09\x09\x09\x09\x09\x09\x09\x09\0";

/// The note that the sequence is the machine's whose name is `web`.
pub(crate) const OWNER: &[u8] = b"\x01\0\0\0\0\0\0\0\x80\
    \x4b\x5e\x57\xf6\xeb\x2f\x42\xb9\x03\x9b\x3d\x1e\x13\x92\x92\x95\
    \xf2\x31\x74\x9c\x51\x0c\xbe\x34\x1c\xd6\x80\x36\xd9\xaf\x97\xe2\0";

/// The files of three windows of a sequence in the folder `n`: these notes. There are no others.
pub struct Windows;

impl Told for Windows {
    ghost told = { told_of_windows };

    fn find(path: &str) -> Option<&'static [u8]> {
        match path {
            "n/000102030405060708090a0b0c0d0e0f/0" => Some(FIRST),
            "n/000102030405060708090a0b0c0d0e0f/5" => Some(FIFTH),
            "n/000102030405060708090a0b0c0d0e0f/2251799813685248" => Some(OWNER),
            _ => None,
        }
    }
}
