//! What commands print.

ghost use Rattle.std.specs.Prelude.{◌≡◌, ◌⊎◌, ◌≤◌, Ok, OnOk, IfOk, IfErr, length, take};
ghost use Rattle.std.specs.Io.KnownBytes.{Appends, Keeps};
ghost use Rattle.jc_command_shared.specs.Found.{PrintsFound};

use crate::{Failure, Found, Output, Status};
use std::io;
use std::io::Write;

/// Flushes the output after what was written to it.
pub fn printed<'a, O: Write>(written: io::Result<()>, output: &mut O) -> Result<(), Failure<'a>>
    ensures whole { OnOk result ((written ≡ Ok tt) × Keeps (O.contents output.old) (O.contents output.new)) }
    ensures failed { IfErr result (λ failure. failure ≡ Failure.WriteFailed) }
{
    if written.is_err() || output.flush().is_err() {
        return Err(Failure::WriteFailed);
    }
    Ok(())
}

/// Tells what was found, and answers its status.
pub fn print_found<'a, O: Output>(found: &Found, output: &mut O) -> Result<Status, Failure<'a>>
    ensures printed { IfOk result (λ status. PrintsFound found.now status (O.contents output.old) (O.contents output.new)) }
    ensures judged { IfOk result (λ status. (status ≡ Status.Success) ⊎ (status ≡ Status.Refused)) }
    ensures failed { IfErr result (λ failure. failure ≡ Failure.WriteFailed) }
{
    let written = output.found(found);
    printed(written, output)?;
    Ok(found.status())
}

/// Writes as much of a text as a writer takes, and answers how much that was.
pub fn write_front<O: Write>(output: &mut O, text: &[u8]) -> usize
    ensures within { result ≤ length text.now }
    ensures front { Appends (O.contents output.old) (O.contents output.new) (take result text.now) }
{
    let mut at = 0;
    while at < text.len() {
        match output.write(&text[at..]) {
            Ok(count) if count > 0 => at += count,
            _ => return at,
        }
    }
    at
}
