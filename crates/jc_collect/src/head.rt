//! The headers of uploads, read from devices.

ghost use Rattle.std.specs.Prelude.{◌≡◌, ◌≢◌, ◌<◌, ◌≤◌, ℕ, List, Option, Err, OnOk, OnErr, IfOk, length, take};
ghost use Rattle.std.specs.Io.KnownBytes.{Consumes, IsAtEnd};
ghost use Rattle.jc_base.specs.Device.{Rose, CountsFailure};
ghost use Rattle.jc_collect.specs.Begun.{BeginsUpload, HasCome, answer_unread};
ghost use Rattle.jc_collect.specs.Part.{known_from};
ghost use Rattle.jc_collect.specs.Position.{HasGivenFewer};
ghost use Rattle.jc_collect.specs.declared.head.Unread.TheVariants.{ReadFailed as ReadingFailed};

use jc_base::{ByteStream, Code, Fault, ReadFailed};
use jc_file::ByteSpace;
use jc_upload::{Answer, UploadHead, one_head};

/// Bytes of a header.
pub(crate) const HEAD_LENGTH: u64 = 48;

/// Why there is no header.
#[derive(Clone, Copy)]
pub(crate) enum Unread {
    /// What is wrong with it.
    Fault(Fault),
    ReadFailed,
}

impl From<ReadFailed> for Unread {
    ghost from_gives = { λ _ unread. unread ≡ ReadingFailed };

    fn from(_failed: ReadFailed) -> Unread {
        Unread::ReadFailed
    }
}

impl Unread {
    /// The answer to an upload without a header: it names no source.
    pub(crate) fn answer(self) -> Answer
        ensures { result ≡ answer_unread self }
    {
        match self {
            Unread::Fault(fault) => Answer::No {
                of: None,
                code: fault.code.number(),
                place: fault.place,
            },
            Unread::ReadFailed => Answer::No {
                of: None,
                code: Code::ReadFailed.number(),
                place: 0,
            },
        }
    }
}

/// Reads the header that a stream begins with, and no byte after it.
pub(crate) fn read_head<R: ByteStream>(device: &mut R) -> Result<UploadHead, Unread>
    ensures begins { BeginsUpload (R.remaining device.old) (R.remaining device.new) result }
    ensures never_falls { R.failures device.old ≤ R.failures device.new }
    ensures cause { result ≡ Err ReadingFailed → Rose (R.failures device.old) (R.failures device.new) }
    ensures few { result ≡ Err ReadingFailed → HasGivenFewer HEAD_LENGTH (R.remaining device.old) (R.remaining device.new) }
{
    let mut bytes = [0; 48];
    let came = fill(device, &mut bytes)?;
    head_in(&bytes, came as u64)
}

/// Reads the header that a space begins with.
pub(crate) fn read_head_at<B: ByteSpace>(space: &mut B) -> Result<UploadHead, Unread>
    ensures begins { BeginsUpload (B.bytes space.old) (known_from HEAD_LENGTH (B.bytes space.old)) result }
    ensures long { OnOk result (HEAD_LENGTH ≤ B.size space.new) }
    ensures bytes { B.bytes space.new ≡ B.bytes space.old }
    ensures never_falls { B.failures space.old ≤ B.failures space.new }
    ensures cause { result ≡ Err ReadingFailed → Rose (B.failures space.old) (B.failures space.new) }
{
    let mut bytes = [0; 48];
    let came = space.len();
    if came >= HEAD_LENGTH {
        space.read_at(0, &mut bytes)?;
    }
    head_in(&bytes, came)
}

/// The header that these bytes are. If fewer came than a header has, the upload has no more.
fn head_in(bytes: &[u8; 48], came: u64) -> Result<UploadHead, Unread>
    ensures begins { (upload behind : Option (List ℕ)) → HasCome bytes.now came upload behind
        → BeginsUpload upload behind result }
    ensures long { OnOk result (HEAD_LENGTH ≤ came) }
    ensures never_failed { result ≢ Err ReadingFailed }
{
    if came < HEAD_LENGTH {
        return Err(Unread::Fault(Fault {
            code: Code::ShortHeader,
            place: came,
        }));
    }
    one_head();
    match UploadHead::read(bytes) {
        Ok(head) => Ok(head),
        Err(fault) => Err(Unread::Fault(fault)),
    }
}

/// Reads bytes until they are full or the stream ends, and answers how many came.
fn fill<R: ByteStream>(device: &mut R, bytes: &mut [u8]) -> Result<usize, ReadFailed>
    ensures came { IfOk result (λ came. Consumes (R.remaining device.old) (R.remaining device.new) (take came bytes.new)) }
    ensures within { IfOk result (λ came. came ≤ length bytes.new) }
    ensures end { IfOk result (λ came. came < length bytes.new → IsAtEnd (R.remaining device.new)) }
    ensures few { OnErr result (HasGivenFewer (length bytes.old) (R.remaining device.old) (R.remaining device.new)) }
    ensures failures { CountsFailure (R.failures device.old) (R.failures device.new) result }
{
    let mut came = 0;
    'pieces: while came < bytes.len() {
        let count = device.read(&mut bytes[came..])?;
        if count == 0 {
            return Ok(came);
        }
        came += count;
    }
    Ok(came)
}
