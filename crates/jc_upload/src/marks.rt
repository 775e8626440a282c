//! The points behind a source's entries at which answers may put its sender.

ghost use Rattle.std.specs.Prelude.{◌≡◌, ◌≢◌, ◌+◌, ◌<◌, ◌≤◌, ◌^◌, ◌⊎◌, ℕ, List, [], Some, Err, IfOk, IfSome, OnOk, MatchOption, length};
ghost use Rattle.std.specs.Ordering.{nat_cmp};
ghost use Rattle.std.specs.BTreeMap.{get};
ghost use Rattle.jc_base.specs.Device.{Rose};
ghost use Rattle.jc_base.specs.LogEntry.{IsEntry, LogEntry};
ghost use Rattle.jc_base.specs.declared.source.Stop.TheVariants.{ReadFailed};
ghost use Rattle.jc_stream.specs.Device.{limits_of};
ghost use Rattle.jc_upload.specs.Excerpt.{AreOfStream, Gave, IsStreamEnding};
ghost use Rattle.jc_upload.specs.Upload.{acked_to, point_behind};

use crate::{Answer, Resume};
use jc_base::{ByteStream, Ending, Entry, EntrySource, OutOfMemory, Step, Stop};
use jc_stream::Stream;
use std::alloc::Global;
use std::collections::BTreeMap;

/// How many entries a source has given, and the points behind them at the positions that are asked for.
#[derive(Drop)]
pub(crate) struct Marks {
    count: u64,
    points: BTreeMap<u64, Resume>,
}

impl Marks {
    ghost use Rattle.jc_upload.specs.Marks.{AsksFor, IsAsked, IsMarked};

    /// The marks of no entries. Asked for are a position, and those that the answers count up to.
    pub(crate) fn asked(
        alloc: Global,
        position: u64,
        answers: &[Answer],
    ) -> Result<Marks, OutOfMemory>
        ensures none { IfOk result (IsMarked []) }
        ensures asked { IfOk result (AsksFor position answers.now) }
    {
        let mut points = BTreeMap::new(alloc);
        points.insert(position, Resume::default())?;
        for answer in answers {
            if let Some(end) = acked_to(answer) {
                points.insert(end, Resume::default())?;
            }
        }
        Ok(Marks { count: 0, points })
    }

    /// Takes one more entry.
    pub(crate) fn take(&mut self, entry: &Entry) -> Result<(), OutOfMemory>
        requires { self.old.count + 1 < 2 ^ 64 }
        ensures count { OnOk result (self.new.count ≡ self.old.count + 1) }
        ensures here { OnOk result (IfSome (get nat_cmp self.new.points (self.old.count + 1))
            (λ point. point ≡ record { position = self.old.count + 1; last = Some entry.now.key })) }
        ensures others { OnOk result ((n : ℕ) → n ≢ self.old.count + 1
            → get nat_cmp self.new.points n ≡ get nat_cmp self.old.points n) }
        ensures asked { OnOk result ((n : ℕ) → IsAsked self.old n → IsAsked self.new n) }
        ensures lawful { IsEntry entry.now }
    {
        // The proof has from it that the entry is one.
        let _key = entry.key();
        self.count += 1;
        if self.points.contains_key(&self.count) {
            self.points
                .insert(self.count, Resume::behind(entry, self.count))?;
        }
        Ok(())
    }

    /// Takes the entries that an export stream gives up to its end, and answers how they end.
    pub(crate) fn take_all<R: ByteStream>(&mut self, source: &mut Stream<R>) -> Result<Ending, Stop>
        requires none { IsMarked [] self.old }
        ensures taken { IfOk result (λ ending. (entries : List LogEntry)
            × Gave (⟦<Stream<R> as EntrySource>⟧.remaining source.old) entries ending
            × AreOfStream (limits_of source.old) entries × IsMarked entries self.new) }
        ensures asked { OnOk result ((n : ℕ) → IsAsked self.old n → IsAsked self.new n) }
        ensures stream { IfOk result (IsStreamEnding (limits_of source.old)) }
        ensures failed { result ≡ Err ReadFailed
            → Rose (⟦<Stream<R> as EntrySource>⟧.failures source.old) (⟦<Stream<R> as EntrySource>⟧.failures source.new)
            ⊎ (⟦<Stream<R> as EntrySource>⟧.last source.old ≡ Some (Err ReadFailed)) }
        ensures borrowed_device { ⟦<Stream<R> as EntrySource>⟧.borrowed_device source.new
            ≡ ⟦<Stream<R> as EntrySource>⟧.borrowed_device source.old }
    {
        'entries: loop {
            let step = source.next()?;
            match step {
                Step::Entry(entry) => self.take(&entry)?,
                Step::End { left } => return Ok(Ending::End { left }),
                Step::Bad(fault) => return Ok(Ending::Bad(fault)),
            }
        }
    }

    /// The point behind the first entries, as many as the position says; `None` if there are fewer.
    pub(crate) fn at(&self, position: u64) -> Option<Resume>
        ensures small { self.now.count < 2 ^ 64 }
        ensures at { (entries : List LogEntry) → IsMarked entries self.now → IsAsked self.now position
            → MatchOption result (length entries < position)
            (λ point. (position ≤ length entries) × (point ≡ point_behind entries position)) }
    {
        if position > self.count {
            return None;
        }
        self.points.get(&position).copied()
    }
}

/// Up to which entry an answer counts; `None` if no source has as many.
fn acked_to(answer: &Answer) -> Option<u64>
    ensures { MatchOption result (2 ^ 64 ≤ acked_to answer.now) (λ end. end ≡ acked_to answer.now) }
{
    match answer {
        Answer::Ack { start, count, .. } => start.checked_add(*count),
        Answer::No { .. } => Some(0),
    }
}
