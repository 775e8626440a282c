//! The notes of a window, read.

ghost use Rattle.std.specs.Prelude.{◌≡◌, IfErr, IfOk};
ghost use Rattle.jc_ledger_files.specs.Noted.{noted};
ghost use Rattle.jc_notes.specs.Failing.{ReadingFails};
ghost use Rattle.jc_notes.specs.Found.{AreRead};
ghost use Rattle.jc_sequences.specs.Placed.{path_of};

use jc_command_shared::{Failure, System, read_whole};
use jc_ledger::EntryDigest;
use jc_ledger_files::{WindowName, WindowNote, read_notes};
use jc_sequences::window_path;
use std::alloc::Global;
use std::io;
use std::io::Read;

/// The notes of a window, which has none if it has no file.
pub(crate) fn notes_in<'p, R: System>(
    rt: &R,
    folder: &str,
    name: WindowName,
) -> Result<Vec<WindowNote>, Failure<'p>>
    ensures notes { IfOk result (λ notes. AreRead (R.found (path_of folder.now name)) notes.items) }
    ensures failed { IfErr result ReadingFails }
{
    let Ok(path) = window_path(rt.alloc(), folder, name) else {
        return Err(Failure::OutOfMemory);
    };
    match rt.open(path.as_str()) {
        Ok(file) => notes_of(rt.alloc(), file),
        Err(refusal) if refusal.kind() == io::ErrorKind::NotFound => Ok(Vec::new(rt.alloc())),
        Err(_) => Err(Failure::ReadFailed),
    }
}

/// The notes of a file.
fn notes_of<'p, F: Read + Drop>(alloc: Global, mut file: F) -> Result<Vec<WindowNote>, Failure<'p>>
    ensures notes { IfOk result (λ notes. AreRead (F.remaining file) notes.items) }
    ensures failed { IfErr result ReadingFails }
{
    let bytes = read_whole(alloc, &mut file)?;
    Ok(read_notes(alloc, &bytes)?)
}

/// The digest of a number's last note, if there is one.
pub(crate) fn digest_of(notes: &[WindowNote], number: u64) -> Option<EntryDigest>
    ensures { result ≡ noted notes.now number }
{
    let mut found = None;
    for note in notes {
        if note.number == number {
            found = Some(note.digest);
        }
    }
    found
}
