//! What there is to explain, and output of which that is noted.

ghost use Rattle.std.specs.Prelude.{◌≡◌, ◌⊎◌, ◌==◌, ◌++◌, ◌∷◌, [], None, Some, IfSome, if◌then◌else◌};
ghost use Rattle.jc_render.specs.Texts.{IsFailure, answer_trouble, found_trouble};
ghost use Rattle.jc_render.specs.Writers.{troubles_of};
ghost use Rattle.jc_render.specs.declared.noting.Trouble.TheVariants.{Empty};

use crate::cause::advice;
use jc_base::Code;
use jc_command_shared::{Errors, Failure, Found, Output};
use jc_keeper::Shape;
use jc_upload::Answer;
use std::alloc::Global;
use std::io;
use std::io::Write;

/// How many are noted at most: the first of what there is to explain, and the latest files.
pub(crate) const MOST: usize = 1_024;

/// What there is to explain.
#[derive(Drop)]
pub(crate) enum Trouble {
    /// What has this code is wrong with a file or a database.
    Bad(u16),
    /// An upload or a source is refused with this code.
    Refused(u16),
    /// A reading found no complete entry, and left so many bytes.
    Empty(u64),
    /// The file with this path can't be opened.
    Unopened(String),
    /// The database failed, or the notes of sequences.
    Store,
    /// A command fails, about which this is to be done.
    Failed(&'static str),
}

impl Trouble {
    /// What there is to explain of what was found.
    pub(crate) fn of_found(found: &Found) -> Option<Trouble>
        ensures { result ≡ found_trouble found.now }
    {
        match *found {
            Found::Bad { code, .. } => Some(Trouble::Bad(code)),
            Found::Count {
                entries,
                left: Some(left),
            } => empty(entries, left),
            Found::Count { left: None, .. } => None,
            Found::Upload(upload) => empty(upload.entries, upload.left),
        }
    }

    /// What there is to explain of an answer.
    pub(crate) fn of_answer(answer: &Answer) -> Option<Trouble>
        ensures { result ≡ answer_trouble answer.now }
    {
        match *answer {
            Answer::Ack { count, left, .. } => empty(count, left),
            Answer::No { code, .. } => Some(Trouble::Refused(code)),
        }
    }

    /// What there is to explain of a failure. Without memory for a path there is nothing.
    pub(crate) fn of_failure(alloc: Global, failure: &Failure<'_>) -> Option<Trouble>
        ensures { IfSome result (IsFailure failure.now) }
    {
        match failure {
            Failure::Bad(fault) => Some(Trouble::Bad(fault.code.number())),
            Failure::SourceChanged => Some(Trouble::Refused(Code::SourceChanged.number())),
            Failure::CannotOpen(path) => {
                let path = String::from_str(alloc, path).ok()?;
                Some(Trouble::Unopened(path))
            }
            Failure::StoreFailed => Some(Trouble::Store),
            Failure::WordsAreNoText => None,
            _ => Some(Trouble::Failed(advice(failure))),
        }
    }
}

/// What there is to explain of a reading, if it has no complete entry.
fn empty(entries: u64, left: u64) -> Option<Trouble>
    ensures { result ≡ (if entries == 0 then Some (Empty left) else None) }
{
    if entries == 0 {
        Some(Trouble::Empty(left))
    } else {
        None
    }
}

/// Output that passes on what it takes, and notes what there is to explain of it, as far as there is room and memory.
#[derive(Drop)]
pub struct Noting<W: Write + Drop> {
    pub inner: W,
    alloc: Global,
    pub(crate) troubles: Vec<Trouble>,
}

impl<W: Write + Drop> Noting<W> {
    pub fn new(alloc: Global, inner: W) -> Noting<W>
        ensures inner { result.inner ≡ inner }
        ensures troubles { troubles_of result ≡ [] }
    {
        Noting {
            inner,
            alloc,
            troubles: Vec::new(alloc),
        }
    }

    fn note(&mut self, trouble: Trouble)
        ensures inner { self.new.inner ≡ self.old.inner }
        ensures noted { (self.new.troubles.items ≡ self.old.troubles.items)
            ⊎ (self.new.troubles.items ≡ self.old.troubles.items ++ trouble ∷ []) }
    {
        if self.troubles.len() < MOST {
            // Without memory there is no explanation, and the line stays as it is.
            let _ = self.troubles.push(trouble);
        }
    }
}

impl<W: Write + Drop> Write for Noting<W> {
    ghost contents = { λ s. W.contents s.inner };

    fn write(&mut self, buf: &[u8]) -> io::Result<usize> {
        self.inner.write(buf)
    }

    fn flush(&mut self) -> io::Result<()> {
        self.inner.flush()
    }
}

impl<O: Output + Drop> Output for Noting<O> {
    ghost entry_shape = { λ s. O.entry_shape s.inner };

    fn shape(&self) -> Shape {
        self.inner.shape()
    }

    fn found(&mut self, found: &Found) -> io::Result<()> {
        self.inner.found(found)?;
        if let Some(trouble) = Trouble::of_found(found) {
            self.note(trouble);
        }
        Ok(())
    }

    fn codes(&mut self, table: &str) -> io::Result<()> {
        self.inner.codes(table)
    }

    fn answered(&mut self, answer: &Answer) {
        self.inner.answered(answer);
        if let Some(trouble) = Trouble::of_answer(answer) {
            self.note(trouble);
        }
    }
}

impl<E: Errors + Drop> Errors for Noting<E> {
    fn failure(&mut self, failure: &Failure<'_>) -> io::Result<()> {
        self.inner.failure(failure)?;
        if let Some(trouble) = Trouble::of_failure(self.alloc, failure) {
            self.note(trouble);
        }
        Ok(())
    }
}
