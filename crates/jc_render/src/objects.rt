//! Output that is objects of JSON.

ghost use Rattle.std.specs.Prelude.{◌≡◌, ◌∷◌, ◌++◌, [], ℕ, List, None, Some, Ok, Err, if◌then◌else◌, true, IfOk, MatchOption, OnOk, string_bytes};
ghost use Rattle.std.specs.Io.KnownBytes.{Appends};
ghost use Rattle.json.specs.Print.{quoted};
ghost use Rattle.jc_keeper.specs.declared.form.Shape.TheVariants.{Line, Object};
ghost use Rattle.jc_codes.specs.Rows.{IsRow};
ghost use Rattle.jc_codes.specs.declared.table.Coded.{Coded};
ghost use Rattle.jc_render.specs.Objects.{AreLinesBelow, IsCode, IsFault, IsLineOf, IsObject, count_object, end_text, upload_object};
ghost use Rattle.jc_render.specs.Writers.{has_all_objects};

use jc_base::Key;
use jc_codes::row_about;
use jc_command_args::CODES;
use jc_command_shared::{Failure, Found, Hex, Output, Upload};
use jc_keeper::Shape;
use jc_upload::Answer;
use serde_json::Value;
use std::alloc::{AllocError, Global};
use std::io::{ErrorKind, Write};
use std::{fmt, io};

/// Codes are below this number.
const CODES_END: u64 = 256;

/// Output that is objects, each on a line, if they are asked for, and else text. What is written to it goes out as it is.
#[derive(Drop)]
pub struct Json<W: Write + Drop> {
    pub inner: W,
    alloc: Global,
    is_asked: bool,
    /// For no object memory was refused.
    has_memory: bool,
}

impl<W: Write + Drop> Json<W> {
    pub fn new(alloc: Global, is_asked: bool, inner: W) -> Json<W>
        ensures inner { result.inner ≡ inner }
        ensures passed { ⟦<Json<W> as Write>⟧.contents result ≡ (if is_asked then None else W.contents inner) }
        ensures shape { ⟦<Json<W> as Output>⟧.entry_shape result ≡ (if is_asked then Shape.Object else Shape.Line) }
        ensures all { has_all_objects result ≡ true }
    {
        Json {
            inner,
            alloc,
            is_asked,
            has_memory: true,
        }
    }

    /// Whether there was memory for all objects.
    pub fn end(&self) -> Result<(), Failure<'static>>
        ensures { result ≡ (if has_all_objects self.now then Ok tt else Err Failure.OutOfMemory) }
    {
        if self.has_memory {
            Ok(())
        } else {
            Err(Failure::OutOfMemory)
        }
    }
}

impl<W: Write + Drop> Write for Json<W> {
    ghost contents = { λ s. (if s.is_asked then None else W.contents s.inner) };

    fn write(&mut self, buf: &[u8]) -> io::Result<usize> {
        self.inner.write(buf)
    }

    fn flush(&mut self) -> io::Result<()> {
        self.inner.flush()
    }
}

impl<W: Write + Drop> Output for Json<W> {
    ghost entry_shape = { λ s. (if s.is_asked then Object else Line) };

    fn shape(&self) -> Shape {
        if self.is_asked {
            Shape::Object
        } else {
            Shape::Line
        }
    }

    fn found(&mut self, found: &Found) -> io::Result<()> {
        if !self.is_asked {
            return writeln!(self.inner, "{found}");
        }
        let put = put_found(self.alloc, found, &mut self.inner);
        written(put, &mut self.has_memory)
    }

    fn codes(&mut self, table: &str) -> io::Result<()> {
        if !self.is_asked {
            return self.inner.write_all(table.as_bytes());
        }
        let put = put_codes(self.alloc, &mut self.inner);
        written(put, &mut self.has_memory)
    }

    fn answered(&mut self, _answer: &Answer) {}
}

/// What the writer of an object is to be told. That memory was refused is said at the end.
fn written(put: Result<(), Failure<'static>>, has_memory: &mut bool) -> io::Result<()> {
    match put {
        Ok(()) => Ok(()),
        Err(Failure::OutOfMemory) => {
            *has_memory = false;
            Ok(())
        }
        Err(_) => Err(io::Error::from(ErrorKind::Other)),
    }
}

/// Writes the object of what was found.
fn put_found<W: Write>(alloc: Global, found: &Found, inner: &mut W) -> Result<(), Failure<'static>>
    ensures { OnOk result ((object : List ℕ) × IsObject CODES.now found.now object
        × Appends (W.contents inner.old) (W.contents inner.new) (object ++ 10 ∷ [])) }
{
    let object = object_of(alloc, found)?;
    put_line(object.as_str(), inner)
}

/// Writes the objects of all codes of the table, in the order of their numbers.
fn put_codes<W: Write>(alloc: Global, inner: &mut W) -> Result<(), Failure<'static>>
    ensures { OnOk result ((lines : List ℕ) × AreLinesBelow CODES.now 256 lines × Appends (W.contents inner.old) (W.contents inner.new) lines) }
{
    for code in 0..CODES_END {
        put_code(alloc, code, inner)?;
    }
    Ok(())
}

/// Writes the object of a code, if the table has it.
fn put_code<W: Write>(alloc: Global, code: u64, inner: &mut W) -> Result<(), Failure<'static>>
    ensures { OnOk result ((line : List ℕ) × IsLineOf CODES.now code line × Appends (W.contents inner.old) (W.contents inner.new) line) }
{
    match object_of_code(alloc, code)? {
        Some(object) => put_line(object.as_str(), inner),
        None => Ok(()),
    }
}

fn put_line<W: Write>(text: &str, inner: &mut W) -> Result<(), Failure<'static>>
    ensures { OnOk result (Appends (W.contents inner.old) (W.contents inner.new) (text.now ++ 10 ∷ [])) }
{
    match writeln!(inner, "{text}") {
        Ok(()) => Ok(()),
        Err(_) => Err(Failure::WriteFailed),
    }
}

/// The object of what was found.
fn object_of(alloc: Global, found: &Found) -> Result<String, AllocError>
    ensures { IfOk result (λ object. IsObject CODES.now found.now (string_bytes object)) }
{
    match *found {
        Found::Count { entries, left } => object_of_count(alloc, entries, left),
        Found::Bad { code, place } => object_of_fault(alloc, code, place),
        Found::Upload(upload) => object_of_upload(alloc, upload),
    }
}

fn object_of_count(alloc: Global, entries: u64, left: Option<u64>) -> Result<String, AllocError>
    ensures { IfOk result (λ object. string_bytes object ≡ count_object entries left) }
{
    match left {
        Some(left) => {
            format!(in alloc; "{{\"result\":\"ok\",\"entries\":{entries},\"left\":{left}}}")
        }
        None => format!(in alloc; "{{\"result\":\"ok\",\"entries\":{entries}}}"),
    }
}

/// The object of a fault, with the name and the meaning of its code; the line itself if the table lacks that.
fn object_of_fault(alloc: Global, code: u16, place: u64) -> Result<String, AllocError>
    ensures { IfOk result (λ object. IsFault CODES.now code place (string_bytes object)) }
{
    let Some(row) = row_about(alloc, u64::from(code))? else {
        return format!(in alloc; "bad {code} {place}");
    };
    let meaning = quoted(alloc, row.meaning)?;
    format!(in alloc;
        "{{\"result\":\"bad\",\"code\":{code},\"name\":\"{}\",\"meaning\":{meaning},\"place\":{place}}}",
        row.name
    )
}

fn object_of_upload(alloc: Global, upload: Upload) -> Result<String, AllocError>
    ensures { IfOk result (λ object. string_bytes object ≡ upload_object upload) }
{
    let source = Hex(upload.source);
    let (start, entries, left) = (upload.start, upload.entries, upload.left);
    let end = End(upload);
    format!(in alloc;
        "{{\"result\":\"upload\",\"source\":\"{source}\",\"start\":{start},\"entries\":{entries},\"left\":{left},{end}}}"
    )
}

/// What the object of an upload ends with: the key of its last entry, and its windows.
#[derive(Clone, Copy)]
struct End(Upload);

impl fmt::Display for End {
    ghost output = { λ end. Some (end_text end.0.last end.0.windows) };

    fn fmt<W: fmt::Write>(&self, f: &mut fmt::Formatter<W>) -> fmt::Result {
        let windows = self.0.windows;
        match self.0.last {
            Some(Key { seqnum_id, seqnum }) => {
                let id = Hex(seqnum_id);
                write!(
                    f,
                    "\"id\":\"{id}\",\"number\":{seqnum},\"windows\":{windows}"
                )
            }
            None => write!(f, "\"id\":null,\"number\":null,\"windows\":{windows}"),
        }
    }
}

/// The object of a code; none if the table lacks it.
fn object_of_code(alloc: Global, code: u64) -> Result<Option<String>, AllocError>
    ensures { IfOk result (λ found. MatchOption found ((row : Coded) → ¬ IsRow code CODES.now row)
        (λ object. IsCode CODES.now code (string_bytes object))) }
{
    let Some(row) = row_about(alloc, code)? else {
        return Ok(None);
    };
    let (meaning, advice) = (quoted(alloc, row.meaning)?, quoted(alloc, row.advice)?);
    let told = format!(in alloc;
        "{{\"code\":{code},\"name\":\"{}\",\"meaning\":{meaning},\"advice\":{advice}}}",
        row.name
    )?;
    Ok(Some(told))
}

/// A text as a string of JSON.
fn quoted(alloc: Global, text: &str) -> Result<String, AllocError>
    ensures { IfOk result (λ told. string_bytes told ≡ quoted text.now) }
{
    Value::String(String::from_str(alloc, text)?).to_string(alloc)
}
