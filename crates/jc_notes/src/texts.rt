//! The lines of `notes` and `owners`.

ghost use Rattle.std.specs.Prelude.{◌≡◌, IfErr, IfOk, OnOk, string_bytes};
ghost use Rattle.std.specs.Io.KnownBytes.{Appends};
ghost use Rattle.sha2.specs.Sha256.{sha256};
ghost use Rattle.jc_ledger_files.specs.Blocks.{blocks};
ghost use Rattle.jc_notes.specs.Texts.{bad_line, free_line, name_text, owner_line, window_line};

use jc_base::Id128;
use jc_command_shared::Failure;
use jc_ledger::MachineDigest;
use jc_ledger_files::{WindowName, WindowNote, blocks_text};
use sha2::{Digest, Sha256};
use std::alloc::Global;
use std::io::Write;

/// Prints a text.
pub(crate) fn put<'p, O: Write>(output: &mut O, text: &[u8]) -> Result<(), Failure<'p>>
    ensures printed { OnOk result (Appends (O.contents output.old) (O.contents output.new) text.now) }
    ensures failed { IfErr result (λ failure. failure ≡ Failure.WriteFailed) }
{
    match output.write_all(text) {
        Ok(()) => Ok(()),
        Err(_) => Err(Failure::WriteFailed),
    }
}

fn name_text<'p>(alloc: Global, name: WindowName) -> Result<String, Failure<'p>>
    ensures text { IfOk result (λ text. string_bytes text ≡ name_text name) }
    ensures failed { IfErr result (λ failure. failure ≡ Failure.OutOfMemory) }
{
    let digits = hex::encode(alloc, name.sequence.as_bytes())?;
    let window = name.window;
    Ok(format!(in alloc; "{digits} {window}")?)
}

/// `SEQUENCE WINDOW COUNT SHA256`: how many notes a window has, and the sum of their blocks.
pub(crate) fn window_line<'p>(
    alloc: Global,
    name: WindowName,
    notes: &[WindowNote],
) -> Result<String, Failure<'p>>
    ensures text { IfOk result (λ text. string_bytes text ≡ window_line name notes.now) }
    ensures failed { IfErr result (λ failure. failure ≡ Failure.OutOfMemory) }
{
    let name = name_text(alloc, name)?;
    let count = notes.len();
    let sum = sum_of(alloc, notes)?;
    let digits = hex::encode(alloc, sum.as_slice())?;
    Ok(format!(in alloc; "{name} {count} {digits}\n")?)
}

/// The SHA-256 digest of the blocks of notes.
fn sum_of<'p>(alloc: Global, notes: &[WindowNote]) -> Result<[u8; 32], Failure<'p>>
    ensures sum { IfOk result (λ sum. sum ≡ sha256 (blocks notes.now)) }
    ensures failed { IfErr result (λ failure. failure ≡ Failure.OutOfMemory) }
{
    let mut text = blocks_text(alloc, notes)?;
    // The closed gate behind them is none of theirs.
    text.pop();
    let mut hasher = Sha256::new();
    hasher.update(&text);
    Ok(hasher.finalize())
}

/// `bad SEQUENCE WINDOW`: a window's notes can't be read.
pub(crate) fn bad_line<'p>(alloc: Global, name: WindowName) -> Result<String, Failure<'p>>
    ensures text { IfOk result (λ text. string_bytes text ≡ bad_line name) }
    ensures failed { IfErr result (λ failure. failure ≡ Failure.OutOfMemory) }
{
    let name = name_text(alloc, name)?;
    Ok(format!(in alloc; "bad {name}\n")?)
}

/// `SEQUENCE SHA256`: a sequence is this machine's.
pub(crate) fn owner_line<'p>(
    alloc: Global,
    sequence: Id128,
    machine: MachineDigest,
) -> Result<String, Failure<'p>>
    ensures text { IfOk result (λ text. string_bytes text ≡ owner_line sequence machine) }
    ensures failed { IfErr result (λ failure. failure ≡ Failure.OutOfMemory) }
{
    let digits = hex::encode(alloc, sequence.as_bytes())?;
    let digest = hex::encode(alloc, machine.0.as_slice())?;
    Ok(format!(in alloc; "{digits} {digest}\n")?)
}

/// `SEQUENCE -`: a sequence is nobody's now.
pub(crate) fn free_line<'p>(alloc: Global, sequence: Id128) -> Result<String, Failure<'p>>
    ensures text { IfOk result (λ text. string_bytes text ≡ free_line sequence) }
    ensures failed { IfErr result (λ failure. failure ≡ Failure.OutOfMemory) }
{
    let digits = hex::encode(alloc, sequence.as_bytes())?;
    Ok(format!(in alloc; "{digits} -\n")?)
}
