//! The names of fields, as a command line has them.

ghost use Rattle.std.specs.Prelude.{◌≡◌, ◌↔◌, IsTrue, IfOk, IfErr};
ghost use Rattle.jc_command_shared.specs.Names.{IsFieldName};

use crate::Failure;
use memchr::memchr2;

/// The bytes of a name that a field of an entry can have: it isn't empty, has neither `=` nor a newline in it, and
/// doesn't begin with `__`.
///
/// Source: systemd's Journal Export Format.
pub fn field_name<'a>(name: &'a str) -> Result<&'a [u8], Failure<'a>>
    ensures name { IfOk result (λ bytes. (bytes.now ≡ name.entry.now) × IsFieldName name.entry.now) }
    ensures bad { IfErr result (λ failure. (failure ≡ Failure.BadFieldName) × (¬ IsFieldName name.entry.now)) }
{
    let bytes = name.as_bytes();
    if is_field_name(bytes) {
        Ok(bytes)
    } else {
        Err(Failure::BadFieldName)
    }
}

fn is_field_name(name: &[u8]) -> bool
    ensures { IsTrue result ↔ IsFieldName name.now }
{
    !name.is_empty() && memchr2(b'=', b'\n', name).is_none() && !name.starts_with(b"__")
}
