//! Resume files: how many of a source's entries are acknowledged.

ghost use Rattle.std.specs.Prelude.{◌≡◌, ◌⊎◌, Err, IfOk, IfErr, OnErr, OnOk};
ghost use Rattle.std.specs.Io.KnownBytes.{Appends};
ghost use Rattle.jc_command_shared.specs.Deeds.{LeavesOld, Replaces};
ghost use Rattle.jc_sender.specs.Sent.{IsKept, KeepsNone};
ghost use Rattle.jc_upload.specs.Resume.{IsPoint, resume_text};

use jc_command_shared::{
    Failure, System, create_file, name_beside, printed, put_in_place, read_front,
};
use jc_upload::Resume;
use std::alloc::Global;
use std::io;
use std::io::{Read, Write};

/// More bytes than a resume point's text has.
const TEXT: u64 = 129;

/// The resume point in the file at `path`: position 0 if there is no such file.
pub(crate) fn read_resume<'a, R: System>(rt: &R, path: &'a str) -> Result<Resume, Failure<'a>>
    ensures lawful { IfOk result IsPoint }
    ensures kept { IfOk result (λ point. IsKept (R.told path.now) point) }
    ensures none { result ≡ Err Failure.BadResume → KeepsNone (R.told path.now) }
    ensures failed { IfErr result (λ failure. (failure ≡ Failure.CannotOpen path.entry) ⊎ (failure ≡ Failure.ReadFailed)
        ⊎ (failure ≡ Failure.OutOfMemory) ⊎ (failure ≡ Failure.BadResume)) }
{
    match rt.open(path) {
        Ok(file) => resume_in(rt.alloc(), file),
        Err(refusal) if refusal.kind() == io::ErrorKind::NotFound => Ok(Resume::default()),
        Err(_) => Err(Failure::CannotOpen(path)),
    }
}

/// The resume point whose text a reader gives.
fn resume_in<'a, F: Read + Drop>(alloc: Global, file: F) -> Result<Resume, Failure<'a>>
    ensures lawful { IfOk result IsPoint }
    ensures point { IfOk result (λ point. IsKept (F.remaining file) point) }
    ensures none { result ≡ Err Failure.BadResume → KeepsNone (F.remaining file) }
    ensures failed { IfErr result (λ failure. (failure ≡ Failure.ReadFailed) ⊎ (failure ≡ Failure.OutOfMemory)
        ⊎ (failure ≡ Failure.BadResume)) }
{
    let text = read_front(alloc, file, TEXT)?;
    Resume::read(&text).ok_or(Failure::BadResume)
}

/// Puts the resume point's text into the file at `path`. It is written into a new file beside that one, which then takes
/// its name: a failure leaves the old file whole.
#[tactic(auto, using(jc_command_shared::specs::DeedLaws::nothing_changes, jc_command_shared::specs::DeedLaws::may_change_one))]
pub(crate) fn write_resume<'a, R: System>(
    rt: &mut R,
    path: &str,
    resume: &Resume,
) -> Result<(), Failure<'a>>
    ensures whole { OnOk result (Replaces path.now (resume_text resume.now) (R.deeds rt.old) (R.deeds rt.new)) }
    ensures stays { OnErr result (LeavesOld path.now (R.deeds rt.old) (R.deeds rt.new)) }
    ensures failed { IfErr result (λ failure. (failure ≡ Failure.WriteFailed) ⊎ (failure ≡ Failure.OutOfMemory)) }
{
    let beside = name_beside(rt.alloc(), path)?;
    let mut file = create_file(rt, beside.as_str())?;
    let written = put_point(rt.alloc(), &mut file, resume);
    put_in_place(rt, &file, beside.as_str(), path, written)
}

/// Writes the text of a resume point, and all of it.
fn put_point<'a, W: Write>(alloc: Global, file: &mut W, resume: &Resume) -> Result<(), Failure<'a>>
    ensures whole { OnOk result (Appends (W.contents file.old) (W.contents file.new) (resume_text resume.now)) }
    ensures failed { IfErr result (λ failure. (failure ≡ Failure.WriteFailed) ⊎ (failure ≡ Failure.OutOfMemory)) }
{
    let text = resume.text(alloc)?;
    let written = file.write_all(&text);
    printed(written, file)
}
