//! Files that are read whole.

ghost use Rattle.std.specs.Prelude.{◌≡◌, ◌⊎◌, IfOk, IfErr, IfSome, take};

use crate::{Failure, System};
use std::alloc::Global;
use std::fs::OpenFile;
use std::io;
use std::io::Read;

/// The file at `path`, to be read.
pub fn open_file<'a, Y: System>(rt: &Y, path: &'a str) -> Result<Y::File, Failure<'a>>
    ensures stream { IfOk result (λ file. Y.File.remaining file ≡ Y.told path.now) }
    ensures bytes { IfOk result (λ file. Y.File.bytes file ≡ Y.told path.now) }
    ensures failed { IfErr result (λ failure. failure ≡ Failure.CannotOpen path.entry) }
{
    match rt.open(path) {
        Ok(file) => Ok(file),
        Err(_) => Err(Failure::CannotOpen(path)),
    }
}

/// Whether ranges of the file can be read: a pipe gives its bytes once, and a folder none.
pub fn is_regular<F: OpenFile>(file: &F) -> bool {
    file.metadata().is_ok_and(|metadata| metadata.is_file())
}

/// The first `most` bytes of a reader, or all of them if it has no more.
pub fn read_front<'a, F: Read + Drop>(
    alloc: Global,
    file: F,
    most: u64,
) -> Result<Vec<u8>, Failure<'a>>
    ensures front { IfOk result (λ bytes. IfSome (F.remaining file) (λ held. bytes.items ≡ take most held)) }
    ensures err { IfErr result (λ failure. (failure ≡ Failure.ReadFailed) ⊎ (failure ≡ Failure.OutOfMemory)) }
{
    read_whole(alloc, &mut file.take(most))
}

/// The bytes that a reader has left.
pub fn read_whole<'a, F: Read>(alloc: Global, file: &mut F) -> Result<Vec<u8>, Failure<'a>>
    ensures whole { IfOk result (λ bytes. IfSome (F.remaining file.old) (λ held. bytes.items ≡ held)) }
    ensures err { IfErr result (λ failure. (failure ≡ Failure.ReadFailed) ⊎ (failure ≡ Failure.OutOfMemory)) }
{
    let mut bytes = Vec::new(alloc);
    match file.read_to_end(&mut bytes) {
        Ok(_) => Ok(bytes),
        Err(refusal) if refusal.kind() == io::ErrorKind::OutOfMemory => Err(Failure::OutOfMemory),
        Err(_) => Err(Failure::ReadFailed),
    }
}
