//! Upload headers.

ghost use Rattle.std.specs.Prelude.{◌≡◌, slice_index_or};

/// The id of the source that the headers name, in digits, and its bytes.
pub(crate) const SOURCE: &str = "a0a1a2a3a4a5a6a7a8a9aaabacadaeaf";

pub const SOURCE_ID: [u8; 16] =
    *b"\xa0\xa1\xa2\xa3\xa4\xa5\xa6\xa7\xa8\xa9\xaa\xab\xac\xad\xae\xaf";

/// The header of an upload of an export stream, before which no entries come.
pub(crate) const EXPORT: [u8; 48] = *b"JCUPLD01\x01\0\0\0\0\0\0\0\
    \xa0\xa1\xa2\xa3\xa4\xa5\xa6\xa7\xa8\xa9\xaa\xab\xac\xad\xae\xaf\
    \0\0\0\0\0\0\0\0\0\0\0\0\0\0\0\0";

/// The header of an upload of this kind, before which this many entries come.
pub(crate) fn head(kind: u8, start: u8) -> [u8; 48]
    ensures kind { slice_index_or result 8 0 ≡ kind }
    ensures start { slice_index_or result 32 0 ≡ start }
{
    let mut head = EXPORT;
    head[8] = kind;
    head[32] = start;
    head
}
