//! `notes verify`: how many notes each window has, and their sum.

ghost use Rattle.std.specs.Prelude.{◌≡◌, ◌⊎◌, ◌↔◌, if◌then◌else◌, IfErr, IfOk, IsTrue, OnOk};
ghost use Rattle.std.specs.Io.KnownBytes.{Appends};
ghost use Rattle.std.specs.List.{All};
ghost use Rattle.jc_notes.specs.Each.{PrintsEach};
ghost use Rattle.jc_notes.specs.Failing.{WorkFails};
ghost use Rattle.jc_notes.specs.Printed.{IsOf, IsSummedIf, Prints};
ghost use Rattle.jc_notes.specs.Texts.{bad_line, window_line};
ghost use Rattle.jc_sequences.specs.Placed.{path_of};

use crate::reading::notes_in;
use crate::texts::{bad_line, put, window_line};
use jc_command_shared::{Failure, Status, System, printed};
use jc_ledger_files::{WINDOW, WindowName, WindowNote};
use std::alloc::Global;
use std::io::Write;

/// Prints a line for each of these windows: `SEQUENCE WINDOW COUNT SHA256`, the sum of its notes' blocks; or `bad SEQUENCE
/// WINDOW`, if its file can't be read, or has a note of another window.
pub fn verify_notes<'p, R: System, O: Write>(
    rt: &R,
    folder: &str,
    windows: &[WindowName],
    output: &mut O,
) -> Result<Status, Failure<'p>>
    ensures printed { IfOk result (λ status. PrintsEach (λ name. IsSummedIf (R.found (path_of folder.now name)) name)
        windows.now status (O.contents output.old) (O.contents output.new)) }
    ensures judged { IfOk result (λ status. (status ≡ Status.Success) ⊎ (status ≡ Status.Refused)) }
    ensures failed { IfErr result WorkFails }
{
    let mut status = Status::Success;
    for name in windows {
        let is_read = verify_one(rt, folder, *name, output)?;
        status = judged(status, is_read);
    }
    printed(Ok(()), output)?;
    Ok(status)
}

/// The status so far, and after one that is well or isn't.
pub(crate) fn judged(status: Status, is_well: bool) -> Status
    ensures { result ≡ (if is_well then status else Status.Refused) }
{
    if is_well { status } else { Status::Refused }
}

/// Prints the line of a window. False if its notes can't be read.
fn verify_one<'p, R: System, O: Write>(
    rt: &R,
    folder: &str,
    name: WindowName,
    output: &mut O,
) -> Result<bool, Failure<'p>>
    ensures printed { IfOk result (λ is_read.
        Prints (IsSummedIf (R.found (path_of folder.now name)) name is_read) (O.contents output.old) (O.contents output.new)) }
    ensures failed { IfErr result WorkFails }
{
    match notes_in(rt, folder, name) {
        Ok(notes) if are_of(name, &notes) => {
            print_window(rt.alloc(), name, &notes, output)?;
            Ok(true)
        }
        Err(Failure::OutOfMemory) => Err(Failure::OutOfMemory),
        _ => {
            print_bad(rt.alloc(), name, output)?;
            Ok(false)
        }
    }
}

/// Whether each of these notes is of this window.
fn are_of(name: WindowName, notes: &[WindowNote]) -> bool
    ensures { IsTrue result ↔ All (IsOf name) notes.now }
{
    notes.iter().all(|note| note.number / WINDOW == name.window)
}

fn print_window<'p, O: Write>(
    alloc: Global,
    name: WindowName,
    notes: &[WindowNote],
    output: &mut O,
) -> Result<(), Failure<'p>>
    ensures printed { OnOk result (Appends (O.contents output.old) (O.contents output.new) (window_line name notes.now)) }
    ensures failed { IfErr result WorkFails }
{
    let line = window_line(alloc, name, notes)?;
    put(output, line.as_bytes())
}

/// Prints that a window's notes can't be read.
pub(crate) fn print_bad<'p, O: Write>(
    alloc: Global,
    name: WindowName,
    output: &mut O,
) -> Result<(), Failure<'p>>
    ensures printed { OnOk result (Appends (O.contents output.old) (O.contents output.new) (bad_line name)) }
    ensures failed { IfErr result WorkFails }
{
    let line = bad_line(alloc, name)?;
    put(output, line.as_bytes())
}
