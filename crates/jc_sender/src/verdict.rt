//! `verify`: how a file reads.

ghost use Rattle.std.specs.Prelude.{◌≡◌, ◌≢◌, ◌⊎◌, ℕ, List, Some, IfOk, IfErr};
ghost use Rattle.std.specs.Io.KnownBytes.{Keeps};
ghost use Rattle.jc_sender.specs.Verdict.{PrintsSomeReading, PrintsReadingIn, PrintsReadingOf};

use crate::entries::count_entries;
use crate::source::file_bytes;
use jc_base::{ByteStream, FromRead, Limits};
use jc_command_args::InputKind;
use jc_command_shared::{
    Failure, Found, Output, Status, System, is_regular, open_file, print_found,
};
use jc_export::one_reading;
use jc_file::{ByteSpace, FileEntries, FileSpace, PagedSpace, ReadFile, SliceSpace};
use jc_stream::Stream;
use std::alloc::Global;
use std::fs::OpenFile;
use std::io::Read;

/// Prints how the file reads, under the default limits.
pub fn verify<'a, R: System, O: Output>(
    rt: &R,
    kind: InputKind,
    file: &'a str,
    output: &mut O,
) -> Result<Status, Failure<'a>>
    ensures printed { IfOk result (λ status.
        PrintsSomeReading kind status (O.contents output.old) (O.contents output.new)) }
    // If it is told what the file has, it is that which is read.
    ensures told { (held : List ℕ) → R.told file.now ≡ Some held → IfOk result (λ status.
        PrintsReadingIn kind held status (O.contents output.old) (O.contents output.new)) }
    ensures failed { IfErr result (λ failure. (failure ≡ Failure.CannotOpen file.entry) ⊎ (failure ≡ Failure.ReadFailed)
        ⊎ (failure ≡ Failure.WriteFailed) ⊎ (failure ≡ Failure.OutOfMemory)) }
    ensures untouched { IfErr result (λ failure. failure ≢ Failure.WriteFailed
        → Keeps (O.contents output.old) (O.contents output.new)) }
{
    match kind {
        InputKind::Export => {
            let device = FromRead::new(open_file(rt, file)?);
            verify_export(rt.alloc(), device, output)
        }
        InputKind::File => verify_file(rt.alloc(), open_file(rt, file)?, output),
    }
}

/// Prints how what a device gives reads as an export stream.
fn verify_export<'a, R: ByteStream + Drop, O: Output>(
    alloc: Global,
    device: R,
    output: &mut O,
) -> Result<Status, Failure<'a>>
    ensures printed { IfOk result (λ status.
        PrintsSomeReading InputKind.Export status (O.contents output.old) (O.contents output.new)) }
    ensures bytes { (bytes : List ℕ) → R.remaining device ≡ Some bytes → IfOk result (λ status.
        PrintsReadingOf InputKind.Export bytes status (O.contents output.old) (O.contents output.new)) }
    ensures failed { IfErr result (λ failure. (failure ≡ Failure.ReadFailed) ⊎ (failure ≡ Failure.WriteFailed)
        ⊎ (failure ≡ Failure.OutOfMemory)) }
    ensures untouched { IfErr result (λ failure. failure ≢ Failure.WriteFailed
        → Keeps (O.contents output.old) (O.contents output.new)) }
{
    // Does nothing: the proof has from it that the bytes have no other reading.
    one_reading();
    let mut entries = Stream::new(alloc, device, Limits::default())?;
    let (count, ending) = count_entries(&mut entries)?;
    print_found(&Found::by_reading(count, ending), output)
}

/// Prints how a file reads as a journal file. If it isn't a regular file, its ranges can't be read, and it is read whole.
fn verify_file<'a, F: Read + ReadFile + OpenFile + Drop, O: Output>(
    alloc: Global,
    file: F,
    output: &mut O,
) -> Result<Status, Failure<'a>>
    ensures printed { IfOk result (λ status.
        PrintsSomeReading InputKind.File status (O.contents output.old) (O.contents output.new)) }
    ensures told { (held : List ℕ) → F.Read.remaining file ≡ Some held → F.ReadFile.bytes file ≡ Some held → IfOk result (λ status.
        PrintsReadingIn InputKind.File held status (O.contents output.old) (O.contents output.new)) }
    ensures failed { IfErr result (λ failure. (failure ≡ Failure.ReadFailed) ⊎ (failure ≡ Failure.WriteFailed)
        ⊎ (failure ≡ Failure.OutOfMemory)) }
    ensures untouched { IfErr result (λ failure. failure ≢ Failure.WriteFailed
        → Keeps (O.contents output.old) (O.contents output.new)) }
{
    if !is_regular(&file) {
        let bytes = file_bytes(alloc, file)?;
        return verify_space(alloc, SliceSpace { bytes: &bytes }, output);
    }
    match FileSpace::new(file) {
        Ok(space) => verify_space(alloc, PagedSpace::new(alloc, space), output),
        Err(_) => Err(Failure::ReadFailed),
    }
}

/// Prints how the bytes of a space read as a journal file.
fn verify_space<'a, B: ByteSpace + Drop, O: Output>(
    alloc: Global,
    space: B,
    output: &mut O,
) -> Result<Status, Failure<'a>>
    ensures printed { IfOk result (λ status.
        PrintsSomeReading InputKind.File status (O.contents output.old) (O.contents output.new)) }
    ensures bytes { (bytes : List ℕ) → B.bytes space ≡ Some bytes → IfOk result (λ status.
        PrintsReadingOf InputKind.File bytes status (O.contents output.old) (O.contents output.new)) }
    ensures failed { IfErr result (λ failure. (failure ≡ Failure.ReadFailed) ⊎ (failure ≡ Failure.WriteFailed)
        ⊎ (failure ≡ Failure.OutOfMemory)) }
    ensures untouched { IfErr result (λ failure. failure ≢ Failure.WriteFailed
        → Keeps (O.contents output.old) (O.contents output.new)) }
{
    let mut entries = FileEntries::new(alloc, space, Limits::default());
    let (count, ending) = count_entries(&mut entries)?;
    print_found(&Found::by_reading(count, ending), output)
}
