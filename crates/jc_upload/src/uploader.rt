//! The sender's part: which entries an upload carries, and when a resume point moves on.

ghost use Rattle.std.specs.Prelude.{◌≡◌, ◌↔◌, ◌<◌, ◌≤◌, ◌⊎◌, ◌^◌, ◌++◌, ℕ, List, Some, Err, length, flat_map, IsTrue, IfOk, IfErr, OnErr, OnOk, IsErrOf, MatchOption};
ghost use Rattle.std.specs.Bool.{OnTrue, OnFalse};
ghost use Rattle.std.specs.List.{All};
ghost use Rattle.std.specs.Io.KnownBytes.{Appends};
ghost use Rattle.jc_base.specs.Device.{Rose};
ghost use Rattle.jc_base.specs.LogEntry.{IsEntry, LogEntry};
ghost use Rattle.jc_base.specs.declared.source.Stop.TheVariants.{ReadFailed};
ghost use Rattle.jc_export.specs.Canonical.{canon};
ghost use Rattle.jc_stream.specs.Device.{limits_of};
ghost use Rattle.jc_upload.specs.declared.head.Kind.TheVariants as kinds;
ghost use Rattle.jc_upload.specs.declared.uploader.UploadFault.TheVariants as faults;
ghost use Rattle.jc_upload.specs.Excerpt.{AreOfStream, Gave, IsExcerpt, IsStreamEnding, IsNextUpload, head_by};
ghost use Rattle.jc_upload.specs.Front.{CutsBy, CutsOfExport, CutsOfFile, CutsOfSecond};
ghost use Rattle.jc_upload.specs.Head.{IsHead, head_text};
ghost use Rattle.jc_upload.specs.Marks.{AsksFor, IsAsked, IsMarked};
ghost use Rattle.jc_upload.specs.Upload.{Advances, Agrees, TakesAnswer, TakesAnswers, acked_to, export_head, fault_text, file_head, file_upload_of, moved_to, next_upload2_of, next_upload_of, point_behind, second_head, sent_of};

use crate::marks::Marks;
use crate::{Answer, Excerpt, Kind, Resume, UploadHead, Version, fronts_of_uploads};
use jc_base::{
    ByteSink, ByteStream, Ending, Entry, EntrySource, Id128, OutOfMemory, Step, Stop, VecSink,
    Written, write_all,
};
use jc_export::write_entry;
use jc_stream::Stream;
use std::alloc::Global;
use std::error::Error;
use std::fmt;
use std::marker::Model;

/// Why there is no next upload.
#[derive(Clone, Copy, Debug, PartialEq, Eq)]
pub enum UploadFault {
    /// The source no longer has the entries that are acknowledged.
    SourceChanged,
    OutOfMemory,
}

impl fmt::Display for UploadFault {
    ghost output = { λ fault. Some (fault_text fault) };

    fn fmt<W: fmt::Write>(&self, f: &mut fmt::Formatter<W>) -> fmt::Result {
        match self {
            UploadFault::SourceChanged => write!(f, "the source changed"),
            UploadFault::OutOfMemory => write!(f, "out of memory"),
        }
    }
}

impl Error for UploadFault {}

impl From<OutOfMemory> for UploadFault {
    ghost from_gives = { λ _ fault. fault ≡ faults.OutOfMemory };

    fn from(_refused: OutOfMemory) -> UploadFault {
        UploadFault::OutOfMemory
    }
}

/// One machine's source of entries, and how far it is with sending them.
#[derive(Drop)]
pub struct Uploader {
    source: Id128,
    resume: Resume,
}

impl Model for Uploader {
    ghost use Rattle.jc_upload.specs.Upload.{Sender};

    ghost Value = { Sender };

    ghost view = { λ uploader. record { source = uploader.source; point = uploader.resume } };
}

impl Uploader {
    pub fn new(source: Id128, resume: Resume) -> Uploader
        ensures { result ≡ record { source = source; point = resume } }
    {
        Uploader { source, resume }
    }

    pub fn source(&self) -> Id128
        ensures { result ≡ self.now.source }
    {
        self.source
    }

    pub fn resume(&self) -> &Resume
        ensures { result.now ≡ self.now.point }
    {
        &self.resume
    }

    /// Whether the source still has the entries that are acknowledged: there are as many, and the last of them has the
    /// kept key. Takes no memory.
    pub fn agrees(&self, entries: &[Entry]) -> bool
        ensures { IsTrue result ↔ Agrees self.now.point entries.now }
    {
        let position = self.resume.position();
        position <= entries.len() as u64 && point_behind(entries, position as usize) == self.resume
    }

    /// The next upload: a header that starts at the resume point, and the canonical texts of the entries from there,
    /// the first `limit` of them if more remain. `SourceChanged` exactly if the source doesn't agree.
    pub fn next_upload(
        &self,
        alloc: Global,
        entries: &[Entry],
        limit: u64,
    ) -> Result<Vec<u8>, UploadFault>
        ensures upload { IfOk result (λ upload. upload.items ≡ next_upload_of self.now entries.now limit) }
        ensures lawful { OnOk result (IsHead (export_head self.now)) }
        ensures agrees { OnOk result (Agrees self.now.point entries.now) }
        // A beginning of it is read as some of its entries, the first ones.
        ensures front { IfOk result (λ upload. CutsOfExport (sent_of self.now entries.now limit) upload.items) }
        ensures changed { IsErrOf result UploadFault.SourceChanged ↔ ¬ Agrees self.now.point entries.now }
    {
        let sent = self.next_entries(entries, limit)?;
        let head = UploadHead {
            version: Version::V1,
            kind: Kind::Export,
            source: self.source,
            start: self.resume.position(),
        };
        Ok(export_upload(alloc, &head, sent)?)
    }

    /// The next upload with a header of the second version, which says how many entries it has. If it is to be `whole`,
    /// all of them are taken or none. It carries the entries of `next_upload`, and is refused as that is.
    pub fn next_upload2(
        &self,
        alloc: Global,
        entries: &[Entry],
        limit: u64,
        whole: bool,
    ) -> Result<Vec<u8>, UploadFault>
        ensures upload { IfOk result (λ upload. upload.items ≡ next_upload2_of self.now entries.now limit whole) }
        ensures lawful { OnOk result (IsHead (second_head self.now whole (length (sent_of self.now entries.now limit)))) }
        ensures agrees { OnOk result (Agrees self.now.point entries.now) }
        // A beginning of it is read as some of its entries, the first ones; if it is to be whole, all or a fault.
        ensures front { IfOk result (λ upload. CutsOfSecond whole (sent_of self.now entries.now limit) upload.items) }
        ensures changed { IsErrOf result UploadFault.SourceChanged ↔ ¬ Agrees self.now.point entries.now }
    {
        let sent = self.next_entries(entries, limit)?;
        let head = UploadHead {
            version: Version::V2 {
                whole,
                entries: sent.len() as u64,
            },
            kind: Kind::Export,
            source: self.source,
            start: self.resume.position(),
        };
        let upload = export_upload(alloc, &head, sent)?;
        Ok(upload)
    }

    /// What the next upload needs of the entries that an export stream gives, and how they end. Of these entries no more
    /// are kept than the upload carries.
    pub fn excerpt<R: ByteStream>(
        &self,
        alloc: Global,
        source: &mut Stream<R>,
        limit: u64,
    ) -> Result<(Excerpt, Ending), Stop>
        ensures excerpt { IfOk result (λ found. (entries : List LogEntry)
            × Gave (⟦<Stream<R> as EntrySource>⟧.remaining source.old) entries found.1
            × AreOfStream (limits_of source.old) entries × IsExcerpt self.now.point.position limit entries found.0) }
        ensures stream { IfOk result (λ found. IsStreamEnding (limits_of source.old) found.1) }
        ensures failed { result ≡ Err ReadFailed
            → Rose (⟦<Stream<R> as EntrySource>⟧.failures source.old) (⟦<Stream<R> as EntrySource>⟧.failures source.new)
            ⊎ (⟦<Stream<R> as EntrySource>⟧.last source.old ≡ Some (Err ReadFailed)) }
        ensures borrowed_device { ⟦<Stream<R> as EntrySource>⟧.borrowed_device source.new
            ≡ ⟦<Stream<R> as EntrySource>⟧.borrowed_device source.old }
    {
        let position = self.resume.position();
        let mut excerpt = Excerpt::new(alloc);
        'entries: loop {
            let step = source.next()?;
            match step {
                Step::Entry(entry) => excerpt.take(position, limit, entry)?,
                Step::End { left } => return Ok((excerpt, Ending::End { left })),
                Step::Bad(fault) => return Ok((excerpt, Ending::Bad(fault))),
            }
        }
    }

    /// The next upload, by what it needs of a source's entries: with a header of the first version, or, if it is to be
    /// `whole`, of the second. It is the one that `next_upload` or `next_upload2` makes of these entries, and is refused
    /// as that is.
    pub fn next_upload_of(
        &self,
        alloc: Global,
        excerpt: &Excerpt,
        whole: bool,
    ) -> Result<Vec<u8>, UploadFault>
        ensures upload { (entries : List LogEntry) (limit : ℕ) → IsExcerpt self.now.point.position limit entries excerpt.now
            → IfOk result (λ upload. IsNextUpload self.now entries limit whole upload.items) }
        ensures changed { (entries : List LogEntry) (limit : ℕ) → IsExcerpt self.now.point.position limit entries excerpt.now
            → IsErrOf result UploadFault.SourceChanged ↔ ¬ Agrees self.now.point entries }
    {
        if !self.agrees_with(excerpt) {
            return Err(UploadFault::SourceChanged);
        }
        let head = self.head_by(whole, excerpt.carried.len() as u64);
        let upload = export_upload(alloc, &head, &excerpt.carried)?;
        Ok(upload)
    }

    /// The header of an upload of so many entries, of the second version if it is to be `whole`.
    fn head_by(&self, whole: bool, count: u64) -> UploadHead
        ensures { result ≡ head_by self.now whole count }
    {
        let version = match whole {
            true => Version::V2 {
                whole,
                entries: count,
            },
            false => Version::V1,
        };
        UploadHead {
            version,
            kind: Kind::Export,
            source: self.source,
            start: self.resume.position(),
        }
    }

    /// Whether the entries of which this is an excerpt agree with the point.
    fn agrees_with(&self, excerpt: &Excerpt) -> bool
        ensures { (entries : List LogEntry) (limit : ℕ) → IsExcerpt self.now.point.position limit entries excerpt.now
            → IsTrue result ↔ Agrees self.now.point entries }
    {
        self.resume.position() <= excerpt.count && excerpt.before == self.resume.last()
    }

    /// The entries that the next upload carries.
    fn next_entries<'e>(&self, entries: &'e [Entry], limit: u64) -> Result<&'e [Entry], UploadFault>
        ensures sent { IfOk result (λ sent. sent.now ≡ sent_of self.now entries.now limit) }
        ensures agrees { OnOk result (Agrees self.now.point entries.now) }
        ensures changed { IfErr result (λ fault. (fault ≡ faults.SourceChanged) × ¬ Agrees self.now.point entries.now) }
    {
        if !self.agrees(entries) {
            return Err(UploadFault::SourceChanged);
        }
        let remaining = &entries[self.resume.position() as usize..];
        let count = limit.min(remaining.len() as u64) as usize;
        Ok(&remaining[..count])
    }

    /// Takes an answer. The resume point moves on to the last entry that an ack of this source counts, if the
    /// source still agrees, the ack begins at or before the point and ends after it, and the source has as many entries.
    /// Otherwise it answers false and changes nothing. Takes no memory.
    pub fn on_answer(&mut self, entries: &[Entry], answer: &Answer) -> bool
        ensures when { IsTrue result ↔ Advances self.old entries.now answer.now }
        ensures moved { OnTrue result (self.new ≡ moved_to self.old entries.now (acked_to answer.now)) }
        ensures same { OnFalse result (self.new ≡ self.old) }
    {
        let Some(end) = self.advance(entries, answer) else {
            return false;
        };
        self.resume = point_behind(entries, end);
        true
    }

    /// Takes answers in their order, over the entries that an export stream gives up to its end, and answers how they end.
    /// Of the entries no more is kept than the points that the answers ask for. After an `Err` nothing has changed.
    pub fn on_answers<R: ByteStream>(
        &mut self,
        alloc: Global,
        source: &mut Stream<R>,
        answers: &[Answer],
    ) -> Result<Ending, Stop>
        ensures taken { IfOk result (λ ending. (entries : List LogEntry)
            × Gave (⟦<Stream<R> as EntrySource>⟧.remaining source.old) entries ending
            × AreOfStream (limits_of source.old) entries × TakesAnswers entries answers.now self.old self.new) }
        ensures stream { IfOk result (IsStreamEnding (limits_of source.old)) }
        ensures same { OnErr result (self.new ≡ self.old) }
        ensures failed { result ≡ Err ReadFailed
            → Rose (⟦<Stream<R> as EntrySource>⟧.failures source.old) (⟦<Stream<R> as EntrySource>⟧.failures source.new)
            ⊎ (⟦<Stream<R> as EntrySource>⟧.last source.old ≡ Some (Err ReadFailed)) }
        ensures borrowed_device { ⟦<Stream<R> as EntrySource>⟧.borrowed_device source.new
            ≡ ⟦<Stream<R> as EntrySource>⟧.borrowed_device source.old }
    {
        let mut marks = Marks::asked(alloc, self.resume.position(), answers)?;
        let ending = marks.take_all(source)?;
        self.take_answers(&marks, answers);
        Ok(ending)
    }

    /// Takes answers in their order, by the marks of the source's entries.
    fn take_answers(&mut self, marks: &Marks, answers: &[Answer])
        ensures { (entries : List LogEntry) → IsMarked entries marks.now
            → AsksFor self.old.point.position answers.now marks.now → TakesAnswers entries answers.now self.old self.new }
    {
        for answer in answers {
            self.take_answer(marks, answer);
        }
    }

    fn take_answer(&mut self, marks: &Marks, answer: &Answer)
        ensures { (entries : List LogEntry) → IsMarked entries marks.now → IsAsked marks.now self.old.point.position
            → (acked_to answer.now < 2 ^ 64 → IsAsked marks.now (acked_to answer.now))
            → TakesAnswer entries answer.now self.old self.new × IsAsked marks.now self.new.point.position }
    {
        if let Some(resume) = self.moved_by(marks, answer) {
            self.resume = resume;
        }
    }

    /// The point to which the answer moves the resume point, if it does, by the marks of the source's entries.
    fn moved_by(&self, marks: &Marks, answer: &Answer) -> Option<Resume>
        ensures { (entries : List LogEntry) → IsMarked entries marks.now → IsAsked marks.now self.now.point.position
            → (acked_to answer.now < 2 ^ 64 → IsAsked marks.now (acked_to answer.now))
            → MatchOption result (¬ Advances self.now entries answer.now)
            (λ moved. Advances self.now entries answer.now × (moved ≡ point_behind entries (acked_to answer.now))) }
    {
        let Answer::Ack {
            source,
            start,
            count,
            ..
        } = *answer
        else {
            return None;
        };
        let position = self.resume.position();
        let behind = marks.at(position)?;
        let end = start.checked_add(count)?;
        if source != self.source || behind != self.resume || start > position || end <= position {
            return None;
        }
        marks.at(end)
    }

    /// The position that the answer moves the resume point on to, if it does.
    fn advance(&self, entries: &[Entry], answer: &Answer) -> Option<usize>
        ensures { MatchOption result (¬ Advances self.now entries.now answer.now)
            (λ end. Advances self.now entries.now answer.now
            × (end ≡ acked_to answer.now) × (end ≤ length entries.now)) }
    {
        let Answer::Ack {
            source,
            start,
            count,
            ..
        } = *answer
        else {
            return None;
        };
        if source != self.source || !self.agrees(entries) {
            return None;
        }
        let position = self.resume.position();
        let end = start.checked_add(count)?;
        if start <= position && position < end && end <= entries.len() as u64 {
            Some(end as usize)
        } else {
            None
        }
    }
}

/// The point after the first entries, as many as `position` says.
fn point_behind(entries: &[Entry], position: usize) -> Resume
    requires { position ≤ length entries.now }
    ensures { result ≡ point_behind entries.now position }
{
    match position {
        0 => Resume::default(),
        _ => Resume::behind(&entries[position - 1], position as u64),
    }
}

/// An upload of these entries.
fn export_upload(
    alloc: Global,
    head: &UploadHead,
    entries: &[Entry],
) -> Result<Vec<u8>, OutOfMemory>
    ensures text { IfOk result (λ upload. upload.items ≡ head_text head.now ++ flat_map canon entries.now) }
    ensures lawful { OnOk result (IsHead head.now) }
    ensures front { IfOk result (λ upload. head.now.kind ≡ kinds.Export → CutsBy head.now.version entries.now upload.items) }
{
    // Does nothing: from its contract the proof has what a beginning of the upload says.
    fronts_of_uploads();
    let mut sink = VecSink::new(alloc);
    write_all(&mut sink, &head.write()).map_err(|_| OutOfMemory)?;
    write_entries(&mut sink, entries).map_err(|_| OutOfMemory)?;
    Ok(sink.into_bytes())
}

fn write_entries<W: ByteSink>(sink: &mut W, entries: &[Entry]) -> Result<(), Written>
    ensures text { OnOk result (Appends (W.written sink.old) (W.written sink.new) (flat_map canon entries.now)) }
    ensures lawful { OnOk result (All IsEntry entries.now) }
{
    for entry in entries {
        // Its contract has that the entry is lawful.
        let _key = entry.key();
        write_entry(entry, sink)?;
    }
    Ok(())
}

/// The upload of a whole journal file, whatever its bytes are.
pub fn file_upload(alloc: Global, source: Id128, file: &[u8]) -> Result<Vec<u8>, OutOfMemory>
    ensures upload { IfOk result (λ upload. upload.items ≡ file_upload_of source file.now) }
    ensures lawful { OnOk result (IsHead (file_head source)) }
    // If the file reads without a fault, a beginning of the upload is read as all of its entries or as none.
    ensures front { IfOk result (λ upload. CutsOfFile file.now upload.items) }
{
    // Does nothing: from its contract the proof has what a beginning of the upload says.
    fronts_of_uploads();
    let head = UploadHead {
        version: Version::V1,
        kind: Kind::File,
        source,
        start: 0,
    };
    let mut upload = Vec::from_slice(alloc, &head.write())?;
    upload.extend_from_slice(file)?;
    Ok(upload)
}
