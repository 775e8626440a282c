//! `upload`: the next upload of a source.

ghost use Rattle.std.specs.Prelude.{◌≡◌, ◌≢◌, Bool, ℕ, Option, IfOk, IfErr, OnOk};
ghost use Rattle.std.specs.Io.KnownBytes.{Appends, Keeps};
ghost use Rattle.jc_sender.specs.Failing.{UploadFailsBy};
ghost use Rattle.jc_sender.specs.Source.{OfBytes, WhyNoEntries, read_of};
ghost use Rattle.jc_sender.specs.Sent.{MakesUpload, PrintsSomeUpload, WhyNoUpload};

use crate::resume_file::read_resume;
use crate::source::{check_file, file_bytes, open_source};
use crate::within::keep_within;
use jc_base::{ByteStream, Ending, FromRead, Limits};
use jc_command_args::{InputKind, Source};
use jc_command_shared::{Failure, System, printed, source_id};
use jc_export::{canonical_texts_read_back, one_reading};
use jc_stream::Stream;
use jc_upload::{Uploader, file_upload};
use std::alloc::Global;
use std::io::{Read, Write};

/// Prints the next upload of a source. It has no more than `limit` entries; if its bytes are bounded, those of them that
/// fit in `most_bytes`, and one in any case. If it is to be `whole`, a collector takes all of it or nothing. A journal
/// file's is so in any case, and has no bounds.
pub fn upload<'a, R: System, O: Write>(
    rt: &R,
    source: Source<'a>,
    limit: u64,
    most_bytes: Option<u64>,
    whole: bool,
    output: &mut O,
) -> Result<(), Failure<'a>>
    ensures printed { OnOk result (PrintsSomeUpload R.told source.entry limit most_bytes whole (O.contents output.old) (O.contents output.new)) }
    // By what is told of the source's files.
    ensures failed { IfErr result (UploadFailsBy R.told source.entry) }
    ensures untouched { IfErr result (λ failure. failure ≢ Failure.WriteFailed
        → Keeps (O.contents output.old) (O.contents output.new)) }
{
    let id = source_id(source.id)?;
    let resume = read_resume(rt, source.resume)?;
    let uploader = Uploader::new(id, resume);
    let file = open_source(rt, source)?;
    let upload = made_upload(
        rt.alloc(),
        &uploader,
        source.kind,
        limit,
        most_bytes,
        whole,
        file,
    )?;
    write_out(&upload, output)
}

/// The next upload of a source whose bytes a reader gives.
fn made_upload<'a, F: Read + Drop>(
    alloc: Global,
    uploader: &Uploader,
    kind: InputKind,
    limit: u64,
    most_bytes: Option<u64>,
    whole: bool,
    file: F,
) -> Result<Vec<u8>, Failure<'a>>
    ensures made { IfOk result (λ upload. OfBytes (read_of kind (F.remaining file))
        (λ bytes. MakesUpload kind uploader.now limit most_bytes whole bytes upload.items)) }
    ensures failed { IfErr result (WhyNoUpload kind uploader.now (read_of kind (F.remaining file))) }
{
    match kind {
        InputKind::Export => export_upload(
            alloc,
            uploader,
            limit,
            most_bytes,
            whole,
            FromRead::new(file),
        ),
        InputKind::File => {
            let bytes = file_bytes(alloc, file)?;
            journal_upload(alloc, uploader, &bytes)
        }
    }
}

/// The next upload of an export stream that a device gives. Its entries are read to their end, and no more of them are
/// kept than the limit allows.
fn export_upload<'a, R: ByteStream + Drop>(
    alloc: Global,
    uploader: &Uploader,
    limit: u64,
    most_bytes: Option<u64>,
    whole: bool,
    device: R,
) -> Result<Vec<u8>, Failure<'a>>
    // If the device's bytes are known, the upload is theirs, and so is what is wrong.
    ensures made { IfOk result (λ upload. OfBytes (R.remaining device)
        (λ bytes. MakesUpload InputKind.Export uploader.now limit most_bytes whole bytes upload.items)) }
    ensures failed { IfErr result (WhyNoUpload InputKind.Export uploader.now (R.remaining device)) }
{
    // Do nothing: the proof has from them that the bytes have no other reading, and that entries which a stream may have
    // are read back from their canonical texts.
    one_reading();
    canonical_texts_read_back();
    let mut entries = Stream::new(alloc, device, Limits::default())?;
    let (mut excerpt, ending) = uploader.excerpt(alloc, &mut entries, limit)?;
    match ending {
        Ending::End { left: _ } => {}
        Ending::Bad(fault) => return Err(Failure::Bad(fault)),
    }
    keep_within(alloc, &mut excerpt.carried, most_bytes)?;
    let upload = uploader.next_upload_of(alloc, &excerpt, whole)?;
    Ok(upload)
}

/// The next upload of a journal file with these bytes.
fn journal_upload<'a>(
    alloc: Global,
    uploader: &Uploader,
    bytes: &[u8],
) -> Result<Vec<u8>, Failure<'a>>
    ensures made { IfOk result (λ upload. (limit : ℕ) (most : Option ℕ) (whole : Bool)
        → MakesUpload InputKind.File uploader.now limit most whole bytes.now upload.items) }
    ensures failed { IfErr result (WhyNoEntries InputKind.File bytes.now) }
{
    check_file(alloc, bytes)?;
    Ok(file_upload(alloc, uploader.source(), bytes)?)
}

fn write_out<'a, O: Write>(upload: &[u8], output: &mut O) -> Result<(), Failure<'a>>
    ensures printed { OnOk result (Appends (O.contents output.old) (O.contents output.new) upload.now) }
    ensures failed { IfErr result (λ failure. failure ≡ Failure.WriteFailed) }
{
    let written = output.write_all(upload);
    printed(written, output)
}
