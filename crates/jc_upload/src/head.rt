//! Headers of uploads.

ghost use Rattle.std.specs.Prelude.{ℕ, ◌≡◌, ◌↔◌, ◌<◌, ◌≤◌, ◌^◌, ◌++◌, true, List, length, IsTrue, IfOk, IfErr, MatchOption, MatchResult, slice_index, slice_range};
ghost use Rattle.std.specs.Int.{w64, to_le_bytes};
ghost use Rattle.jc_upload.specs.declared.head.Version.TheVariants.{V2};
ghost use Rattle.jc_upload.specs.Says.{IsInParts};
ghost use Rattle.jc_upload.specs.Head.{AreZero, HasKind, HasKindOf, HasLength, HasMagic, IsChecked, IsFirst, IsHead, IsHeadFault, IsKindByte, IsSecond, flag_of, head_text, kind_byte, magic_of, number_of};

use byteorder::{ByteOrder, LittleEndian};
use jc_base::{Code, Fault, Id128};

/// What the body of an upload is.
#[derive(Clone, Copy, Debug, PartialEq, Eq)]
pub enum Kind {
    /// An export stream.
    Export = 1,
    /// A whole journal file.
    File = 2,
}

impl Kind {
    fn byte(self) -> u8
        ensures { result ≡ kind_byte self }
    {
        self as u8
    }

    fn of_byte(byte: u8) -> Option<Kind>
        ensures { MatchOption result (¬ IsKindByte byte) (λ kind. byte ≡ kind_byte kind) }
    {
        match byte {
            1 => Some(Kind::Export),
            2 => Some(Kind::File),
            _ => None,
        }
    }
}

/// Which of the two headers an upload has.
#[derive(Clone, Copy, Debug, PartialEq, Eq)]
pub enum Version {
    /// What comes of the upload's entries is taken.
    V1,
    /// The upload has this many entries. If it is to be `whole`, all of them are taken or none; if not, the number isn't
    /// looked at.
    V2 { whole: bool, entries: u64 },
}

impl Version {
    /// How many entries an upload has that is to be whole; `None` if it isn't to be. Takes no memory.
    pub fn whole_entries(self) -> Option<u64>
        ensures { MatchOption result (IsInParts self) (λ number. self ≡ V2 true number) }
    {
        match self {
            Version::V1 => None,
            Version::V2 {
                whole: false,
                entries: _,
            } => None,
            Version::V2 {
                whole: true,
                entries,
            } => Some(entries),
        }
    }

    fn magic(self) -> [u8; 8]
        ensures { result ≡ magic_of self }
    {
        match self {
            Version::V1 => FIRST_MAGIC,
            Version::V2 { .. } => SECOND_MAGIC,
        }
    }

    fn flag(self) -> u8
        ensures { result ≡ flag_of self }
    {
        match self {
            Version::V1 => 0,
            Version::V2 { whole, .. } => u8::from(whole),
        }
    }

    fn entries(self) -> u64
        ensures { result ≡ number_of self }
    {
        match self {
            Version::V1 => 0,
            Version::V2 { entries, .. } => entries,
        }
    }
}

/// The header of an upload: 48 bytes, which the body follows. (own)
///
/// | Offset | Version 1 | Version 2 |
/// |---|---|---|
/// | 0 | ASCII `JCUPLD01` | ASCII `JCUPLD02` |
/// | 8 | kind: 1 export stream, 2 journal file | the same |
/// | 9 | zero | 1 if the upload is to be whole, else 0 |
/// | 10 to 15 | zero | zero |
/// | 16 | source id, 16 bytes | the same |
/// | 32 | start, 64 bits little-endian | the same |
/// | 40 to 47 | zero | the number of entries, 64 bits little-endian |
#[derive(Clone, Copy, Debug, PartialEq, Eq)]
pub struct UploadHead {
    pub version: Version,
    pub kind: Kind,
    /// Whose entries the upload carries.
    pub source: Id128,
    /// How many of the source's entries come before this upload.
    pub start: u64,
}

const FIRST_MAGIC: [u8; 8] = *b"JCUPLD01";

const SECOND_MAGIC: [u8; 8] = *b"JCUPLD02";

impl UploadHead {
    /// The header that these bytes are. The first check that fails is reported: `BadMagic` at 0, `BadKind` at 8,
    /// `BadReserved` at 9 or at 40. Takes no memory.
    pub fn read(bytes: &[u8; 48]) -> Result<UploadHead, Fault>
        ensures found { IfOk result (λ head. IsHead head × (bytes.now ≡ head_text head)) }
        ensures only { (head : UploadHead) → IsHead head → bytes.now ≡ head_text head → result ≡ Ok head }
        ensures fault { IfErr result (IsHeadFault bytes.now) }
    {
        let kind = checked_kind(bytes)?;
        let version = checked_version(bytes)?;
        let mut source = [0; 16];
        source.copy_from_slice(&bytes[16..32]);
        let start = LittleEndian::read_u64(&bytes[32..40]);
        Ok(UploadHead {
            version,
            kind,
            source: Id128(source),
            start,
        })
    }

    /// The header's bytes. Takes no memory.
    pub fn write(&self) -> [u8; 48]
        ensures text { result ≡ head_text self.now }
        ensures lawful { IsHead self.now }
    {
        let UploadHead {
            version,
            kind,
            source,
            start,
        } = *self;
        let entries = version.entries();
        has_64_bits(start);
        has_64_bits(entries);
        let mut bytes = [0; 48];
        bytes[..8].copy_from_slice(&version.magic());
        bytes[8] = kind.byte();
        bytes[9] = version.flag();
        bytes[16..32].copy_from_slice(source.as_bytes());
        put_number(&mut bytes[32..40], start);
        put_number(&mut bytes[40..48], entries);
        bytes
    }
}

/// No header's text begins another's: what an upload begins with is at most one header, and then no check fails, or it
/// shows one fault.
pub fn one_head()
    ensures one { (a b : UploadHead) (x y : List ℕ) → IsHead a → IsHead b
        → head_text a ++ x ≡ head_text b ++ y → (a ≡ b) × (x ≡ y) }
    ensures passes { (head : UploadHead) (body : List ℕ) (fault : Fault) → IsHead head
        → ¬ IsHeadFault (head_text head ++ body) fault }
    ensures one_fault { (bytes : List ℕ) (a b : Fault) → IsHeadFault bytes a → IsHeadFault bytes b → a ≡ b }
    // The header's own bytes decide.
    ensures front { (bytes body : List ℕ) (fault : Fault) → HasLength bytes
        → IsHeadFault bytes fault → IsHeadFault (bytes ++ body) fault }
{}

/// That a number is one of 64 bits, as its type says. Does nothing.
fn has_64_bits(number: u64)
    ensures { number < 2 ^ 64 }
{}

fn put_number(part: &mut [u8], number: u64)
    requires { length part.old ≡ 8 }
    ensures { part.new ≡ to_le_bytes w64 number }
{
    LittleEndian::write_u64(part, number);
}

/// The kind of a header whose magic is known.
fn checked_kind(bytes: &[u8; 48]) -> Result<Kind, Fault>
    ensures { MatchResult result (HasKindOf bytes.now) (IsHeadFault bytes.now) }
{
    if !has_magic(bytes) {
        return Err(Fault {
            code: Code::BadMagic,
            place: 0,
        });
    }
    match Kind::of_byte(bytes[8]) {
        Some(kind) => Ok(kind),
        None => Err(Fault {
            code: Code::BadKind,
            place: 8,
        }),
    }
}

fn has_magic(bytes: &[u8; 48]) -> bool
    ensures { IsTrue result ↔ HasMagic bytes.now }
{
    bytes.starts_with(&FIRST_MAGIC) || bytes.starts_with(&SECOND_MAGIC)
}

/// The version of a header whose magic and kind are known, if it passes every check.
fn checked_version(bytes: &[u8; 48]) -> Result<Version, Fault>
    requires magic { HasMagic bytes.now }
    requires kind { HasKind bytes.now }
    ensures { MatchResult result (IsChecked bytes.now) (IsHeadFault bytes.now) }
{
    if bytes.starts_with(&FIRST_MAGIC) {
        first_version(bytes)
    } else {
        second_version(bytes)
    }
}

fn first_version(bytes: &[u8; 48]) -> Result<Version, Fault>
    requires magic { IsFirst bytes.now }
    requires kind { HasKind bytes.now }
    ensures { MatchResult result (IsChecked bytes.now) (IsHeadFault bytes.now) }
{
    if !has_flag(bytes, 0) {
        return Err(Fault {
            code: Code::BadReserved,
            place: 9,
        });
    }
    if !is_zero(&bytes[40..48]) {
        return Err(Fault {
            code: Code::BadReserved,
            place: 40,
        });
    }
    Ok(Version::V1)
}

fn second_version(bytes: &[u8; 48]) -> Result<Version, Fault>
    requires magic { IsSecond bytes.now }
    requires kind { HasKind bytes.now }
    ensures { MatchResult result (IsChecked bytes.now) (IsHeadFault bytes.now) }
{
    if !has_flag(bytes, 1) {
        return Err(Fault {
            code: Code::BadReserved,
            place: 9,
        });
    }
    Ok(Version::V2 {
        whole: bytes[9] == 1,
        entries: LittleEndian::read_u64(&bytes[40..48]),
    })
}

/// Whether the byte after the kind is at most this, and the six after it are zero.
fn has_flag(bytes: &[u8; 48], most: u8) -> bool
    ensures { IsTrue result ↔ ((slice_index bytes.now 9 ≤ most) × AreZero (slice_range bytes.now 10 16)) }
{
    bytes[9] <= most && is_zero(&bytes[10..16])
}

fn is_zero(bytes: &[u8]) -> bool
    ensures { IsTrue result ↔ AreZero bytes.now }
{
    bytes.iter().all(|b| *b == 0)
}
