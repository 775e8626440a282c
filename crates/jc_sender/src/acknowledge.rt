//! `ack`: how far answers move a source on.

ghost use Rattle.std.specs.Prelude.{◌≡◌, ◌≢◌, ◌⊎◌, ◌++◌, ◌∷◌, [], ℕ, List, IfOk, IfErr, IfSome, OnOk};
ghost use Rattle.std.specs.Io.KnownBytes.{Appends, Keeps};
ghost use Rattle.jc_command_shared.specs.Deeds.{LeavesOld};
ghost use Rattle.jc_sender.specs.Failing.{AckFailsBy};
ghost use Rattle.jc_sender.specs.Source.{OfBytes, WhyNoEntries, WhyNoSomeEntries, read_of};
ghost use Rattle.jc_sender.specs.Taken.{KeepsSomePoint, MayMoveOn, MovesBy, MovesSender, PrintsSomePoint, WhyNoPoint, point_line};

use crate::answers::{answers_on, take_answers};
use crate::resume_file::{read_resume, write_resume};
use crate::source::{file_bytes, file_entries, open_source};
use jc_base::{ByteStream, Ending, FromRead, Limits};
use jc_command_args::{InputKind, Source};
use jc_command_shared::{Failure, System, printed, source_id};
use jc_export::{canonical_texts_read_back, one_reading};
use jc_stream::Stream;
use jc_upload::{Answer, Resume, Uploader};
use std::alloc::Global;
use std::io::{Read, Write};

/// Takes the answers on standard input, keeps the resume point and prints its position. No other file is changed.
#[tactic(auto, using(jc_command_shared::specs::DeedLaws::nothing_changes))]
pub fn ack<'a, R: System, I: Read, O: Write>(
    rt: &mut R,
    source: Source<'a>,
    input: &mut I,
    output: &mut O,
) -> Result<(), Failure<'a>>
    // The text of the point that was printed is what took the resume file's place.
    ensures printed { OnOk result (PrintsSomePoint R.told source.entry (I.remaining input.old) (O.contents output.old)
        (O.contents output.new) (R.deeds rt.old) (R.deeds rt.new)) }
    ensures failed { IfErr result (AckFailsBy R.told source.entry (I.remaining input.old)) }
    ensures untouched { IfErr result (λ failure. failure ≢ Failure.WriteFailed
        → Keeps (O.contents output.old) (O.contents output.new)) }
    // Without it the old resume file stays, unless the new one has the text of a point that couldn't be printed.
    ensures stays { IfErr result (λ failure. LeavesOld source.entry.resume.now (R.deeds rt.old) (R.deeds rt.new)
        ⊎ ((failure ≡ Failure.WriteFailed) × KeepsSomePoint R.told source.entry (I.remaining input.old) (R.deeds rt.old) (R.deeds rt.new))) }
    // However it ends, this alone was done to files.
    ensures touched { MayMoveOn source.entry.resume.now (R.deeds rt.old) (R.deeds rt.new) }
{
    let id = source_id(source.id)?;
    let resume = read_resume(rt, source.resume)?;
    let uploader = Uploader::new(id, resume);
    let file = open_source(rt, source)?;
    let moved = moved_by(rt.alloc(), uploader, source.kind, file, input)?;
    write_resume(rt, source.resume, &moved)?;
    print_point(&moved, output)
}

/// The resume point to which the answers on standard input move the sender of a source whose bytes a reader gives. They are
/// read before the source, and a fault of the source is reported before one of theirs.
fn moved_by<'a, F: Read + Drop, I: Read>(
    alloc: Global,
    uploader: Uploader,
    kind: InputKind,
    file: F,
    input: &mut I,
) -> Result<Resume, Failure<'a>>
    ensures moved { IfOk result (λ moved. (text : List ℕ) × IfSome (I.remaining input.old) (λ held. text ≡ held)
        × OfBytes (read_of kind (F.remaining file)) (λ bytes. MovesBy kind uploader.source uploader.point bytes text moved)) }
    ensures failed { IfErr result (WhyNoPoint kind (read_of kind (F.remaining file)) (I.remaining input.old)) }
{
    match answers_on(alloc, input) {
        Ok(answers) => point_by(alloc, uploader, kind, file, &answers),
        Err(failure) => {
            let _unmoved = point_by(alloc, uploader, kind, file, &[])?;
            Err(failure)
        }
    }
}

/// The resume point to which these answers move the sender of a source whose bytes a reader gives.
fn point_by<'a, F: Read + Drop>(
    alloc: Global,
    uploader: Uploader,
    kind: InputKind,
    file: F,
    answers: &[Answer],
) -> Result<Resume, Failure<'a>>
    ensures moved { IfOk result (λ moved. OfBytes (read_of kind (F.remaining file))
        (λ bytes. MovesSender kind uploader bytes answers.now moved)) }
    ensures failed { IfErr result (WhyNoSomeEntries kind (read_of kind (F.remaining file))) }
{
    match kind {
        InputKind::Export => export_point(alloc, uploader, FromRead::new(file), answers),
        InputKind::File => {
            let bytes = file_bytes(alloc, file)?;
            file_point(alloc, uploader, &bytes, answers)
        }
    }
}

/// The resume point after answers to uploads of an export stream that a device gives. Its entries are read to their
/// end, and none of them is kept.
fn export_point<'a, R: ByteStream + Drop>(
    alloc: Global,
    mut uploader: Uploader,
    device: R,
    answers: &[Answer],
) -> Result<Resume, Failure<'a>>
    // If the device's bytes are known, the point is theirs, and so is a fault.
    ensures moved { IfOk result (λ moved. OfBytes (R.remaining device)
        (λ bytes. MovesSender InputKind.Export uploader bytes answers.now moved)) }
    ensures failed { IfErr result (WhyNoSomeEntries InputKind.Export (R.remaining device)) }
{
    // Do nothing: the proof has from them that the bytes have no other reading, and that entries which a stream may have
    // are read back from their canonical texts.
    one_reading();
    canonical_texts_read_back();
    let mut entries = Stream::new(alloc, device, Limits::default())?;
    let ending = uploader.on_answers(alloc, &mut entries, answers)?;
    match ending {
        Ending::End { left: _ } => Ok(*uploader.resume()),
        Ending::Bad(fault) => Err(Failure::Bad(fault)),
    }
}

/// The resume point after answers to uploads of a journal file with these bytes.
fn file_point<'a>(
    alloc: Global,
    mut uploader: Uploader,
    bytes: &[u8],
    answers: &[Answer],
) -> Result<Resume, Failure<'a>>
    ensures moved { IfOk result (λ moved. MovesSender InputKind.File uploader bytes.now answers.now moved) }
    ensures failed { IfErr result (WhyNoEntries InputKind.File bytes.now) }
{
    let entries = file_entries(alloc, bytes)?;
    take_answers(&mut uploader, &entries, answers);
    Ok(*uploader.resume())
}

fn print_point<'a, O: Write>(resume: &Resume, output: &mut O) -> Result<(), Failure<'a>>
    ensures printed { OnOk result (Appends (O.contents output.old) (O.contents output.new) (point_line resume.now ++ 10 ∷ [])) }
    ensures failed { IfErr result (λ failure. failure ≡ Failure.WriteFailed) }
{
    let position = resume.position();
    let written = writeln!(output, "resume {position}");
    printed(written, output)
}
